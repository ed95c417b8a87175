//! What holds of texts, their widths and things in a row.

ghost use Rattle.std.specs.Prelude.{◌≡◌, ◌≢◌, ◌≤◌, ◌<◌, ◌+◌, ◌∷◌, ℕ, List, Some, All, codes, length, slice_get};
ghost use Rattle.drawing_text.specs.Letters.{cut, escaped, outside, unescaped};
ghost use Rattle.drawing_text.specs.Spans.{past_all, starts_from};
ghost use Rattle.drawing_text.specs.Widths.{small_room, small_width, wide_room, wide_width};
ghost use Rattle.drawing_text.specs.declared.spans.Span.{Span};

/// Laws of what drawings are made of. The call does nothing.
pub fn drawing_laws()
    // No `<` and no `>` is left of a text, and it reads back.
    ensures no_marks { (letters : List ℕ) → All (λ letter. (letter ≢ 60) × (letter ≢ 62)) (escaped letters) }
    ensures reads_back { (letters : List ℕ) → unescaped outside (escaped letters) ≡ letters }

    // A text has no more letters than there is room for, and is whole where it fits.
    ensures cut_fits { (room : ℕ) (letters : List ℕ) → 2 ≤ room → length (cut room letters) ≤ room }
    ensures cut_whole { (room : ℕ) (letters : List ℕ) → length letters ≤ room → cut room letters ≡ letters }

    // So many letters as have room are no wider than the pixels are.
    ensures wide_held { (width letters : ℕ) → letters ≤ wide_room width → wide_width letters ≤ width }
    ensures small_held { (width letters : ℕ) → letters ≤ small_room width → small_width letters ≤ width }

    // Of two things in a row the later begins behind the end of the earlier, with what is free after that and before
    // itself between them; the end of the row is behind all of them.
    ensures apart { (from i j : ℕ) (spans : List Span) (one other : Span) (start later : ℕ) → i < j →
        slice_get spans i ≡ Some one → slice_get spans j ≡ Some other →
        slice_get (starts_from from spans) i ≡ Some start → slice_get (starts_from from spans) j ≡ Some later →
        start + one.length + one.after + other.before ≤ later }
    ensures within { (from i : ℕ) (spans : List Span) (one : Span) (start : ℕ) → slice_get spans i ≡ Some one →
        slice_get (starts_from from spans) i ≡ Some start →
        (from + one.before ≤ start) × (start + one.length + one.after ≤ past_all from spans) }
    ensures as_many { (from : ℕ) (spans : List Span) → length (starts_from from spans) ≡ length spans }

    // Worked: a text with all three marks, and one that is cut.
    ensures worked_escape { escaped (codes "a<b && c>d") ≡ codes "a&lt;b &amp;&amp; c&gt;d" }
    ensures worked_cut { cut 6 (codes "reserve") ≡ codes "rese.." }
    ensures worked_width { wide_width 28 ≡ 203 }
{}
