//! What holds of columns, rows and lines.

ghost use Rattle.std.specs.Prelude.{◌≡◌, ◌≢◌, ◌<◌, ◌≤◌, ◌+◌, ◌⊎◌, ◌∷◌, [], ℕ, List, Some, All, length, map, slice_get};
ghost use Rattle.std.specs.Prelude.{slice_index};
ghost use Rattle.drawing_text.specs.declared.spans.Span.{Span};
ghost use Rattle.plan_layout.specs.Columns.{columns_of};
ghost use Rattle.plan_layout.specs.Fits.{LineFits, sample_lines, sample_widths};
ghost use Rattle.plan_layout.specs.Lines.{lane_of};
ghost use Rattle.plan_layout.specs.Places.{places_of};
ghost use Rattle.plan_layout.specs.Rectangles.{HaveNoCommonPoint, across, along, box_of, into};
ghost use Rattle.plan_layout.specs.Routes.{goes_at, route_of};
ghost use Rattle.plan_layout.specs.Strips.{track_of};
ghost use Rattle.plan_layout.specs.declared.lines.Line.{Line};

/// Laws of where the parts of a plan are drawn. The call does nothing.
pub fn layout_laws()
    // Of two columns the later begins at least 28 pixels behind the end of the earlier, and of two rows with 8 pixels
    // free behind each at least 8. So no two boxes meet.
    ensures columns_apart { (from : ℕ) (widths : List ℕ) (lines : List Line) (i j : ℕ) → i < j → j < length widths →
        slice_index (columns_of from widths lines).places.starts i + slice_index widths i + 28
        ≤ slice_index (columns_of from widths lines).places.starts j }
    ensures rows_apart { (from i j : ℕ) (rows : List Span) (one other : Span) → All (λ row. 8 ≤ row.after) rows →
        i ≢ j → slice_get rows i ≡ Some one → slice_get rows j ≡ Some other →
        (slice_index (places_of from rows).starts i + one.length + 8 ≤ slice_index (places_of from rows).starts j)
        ⊎ (slice_index (places_of from rows).starts j + other.length + 8
        ≤ slice_index (places_of from rows).starts i) }

    // A line meets no box but those of the row that it begins in and the one that it ends at: not on its way along the
    // row, nor where it goes up or down, nor at its end.
    ensures across { (from top : ℕ) (widths : List ℕ) (lines : List Line) (rows : List Span) (line : Line)
        (column row : ℕ) (one : Span) → All (λ row. 8 ≤ row.after) rows → LineFits widths rows line →
        slice_get rows row ≡ Some one → row ≢ line.begin →
        HaveNoCommonPoint (across (route_of (columns_of from widths lines) (places_of top rows) line))
        (box_of (columns_of from widths lines) (places_of top rows) one.length column row) }
    ensures along { (from top : ℕ) (widths : List ℕ) (lines : List Line) (rows : List Span) (i : ℕ) (line : Line)
        (column row height : ℕ) → slice_get lines i ≡ Some line → line.to.0 < length widths →
        column < length widths →
        HaveNoCommonPoint (along (route_of (columns_of from widths lines) (places_of top rows) line))
        (box_of (columns_of from widths lines) (places_of top rows) height column row) }
    ensures into { (from top : ℕ) (widths : List ℕ) (lines : List Line) (rows : List Span) (i : ℕ) (line : Line)
        (column row : ℕ) (one : Span) → All (λ row. 8 ≤ row.after) rows → slice_get lines i ≡ Some line →
        LineFits widths rows line → slice_get rows row ≡ Some one → column < length widths →
        (row ≢ line.end) ⊎ (column ≢ line.to.0) →
        HaveNoCommonPoint (into (route_of (columns_of from widths lines) (places_of top rows) line))
        (box_of (columns_of from widths lines) (places_of top rows) one.length column row) }

    // Lines of one lane whose hubs differ, and have fewer than twelve hubs between them, go up or down at least 9
    // pixels apart; and on the two sides of a strip at least 10.
    ensures tracks { (from : ℕ) (widths : List ℕ) (lines : List Line) (i j : ℕ) (line other : Line) →
        slice_get lines i ≡ Some line → slice_get lines j ≡ Some other → line.to.0 < length widths →
        lane_of line ≡ lane_of other → line.hub ≢ other.hub → track_of lines line < track_of lines other + 12 →
        track_of lines other < track_of lines line + 12 →
        (goes_at (columns_of from widths lines) line + 9 ≤ goes_at (columns_of from widths lines) other)
        ⊎ (goes_at (columns_of from widths lines) other + 9 ≤ goes_at (columns_of from widths lines) line) }
    ensures sides { (from : ℕ) (widths : List ℕ) (lines : List Line) (i j : ℕ) (line other : Line) →
        slice_get lines i ≡ Some line → slice_get lines j ≡ Some other → line.to.0 < length widths →
        line.from.0 < line.to.0 → other.to.0 ≤ other.from.0 → other.to.0 + 1 ≡ line.to.0 →
        goes_at (columns_of from widths lines) other + 10 ≤ goes_at (columns_of from widths lines) line }

    // Worked: two columns of 120 and 200 pixels behind 20. Two lines go to the right, of two hubs, and one to the left,
    // so there are three tracks between the columns, and none outside.
    ensures worked_columns { (columns_of 20 sample_widths sample_lines).places.starts ≡ 20 ∷ 187 ∷ [] }
    ensures worked_end { (columns_of 20 sample_widths sample_lines).places.past ≡ 387 }
    ensures worked_tracks { map (goes_at (columns_of 20 sample_widths sample_lines)) sample_lines
        ≡ 173 ∷ 154 ∷ 164 ∷ [] }
{}
