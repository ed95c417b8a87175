//! Excerpts that are worked out. The call does nothing: its contract has them.

ghost use Rattle.std.specs.Prelude.{◌≡◌, ◌∷◌, [], codes, map, replicate};
ghost use Rattle.std.specs.List.{flat_map};
ghost use Rattle.text_places.specs.Excerpts.{below_byte, excerpt, line_at, line_before, shown_byte};

/// What is shown of places of small texts.
pub fn excerpt_examples()
    // The second line, whose place is its second byte.
    ensures second_line { line_at (codes "a;\nb = c;\n") 4 ≡ codes "b = c;" }
    ensures front { line_before (codes "a;\nb = c;\n") 4 ≡ codes "b" }
    // The end of a text is a place, also behind its last line feed.
    ensures end { line_at (codes "ab") 2 ≡ codes "ab" }
    ensures last_line { line_at (codes "ab\n") 3 ≡ [] }
    // A carriage return at the end of a line is dropped.
    ensures returned { line_at (codes "ab\r\n") 0 ≡ codes "ab" }
    // A tab stays a tab above and below. Another control character is a question mark, and so is the last one.
    ensures controls { map shown_byte (9 ∷ 7 ∷ 120 ∷ 127 ∷ []) ≡ codes "\t?x?" }
    // Below a character of two bytes there is one blank.
    ensures below { flat_map below_byte (9 ∷ 120 ∷ 195 ∷ 164 ∷ []) ≡ codes "\t  " }
    // A line of 200 bytes is shown, and a longer one is not.
    ensures longest { line_at (replicate 200 97) 0 ≡ replicate 200 97 }
    ensures too_long { excerpt (replicate 201 97) 0 ≡ [] }
{}
