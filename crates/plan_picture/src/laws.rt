//! What holds of the picture.

ghost use Rattle.std.specs.Prelude.{◌≡◌, ◌≢◌, ◌≤◌, ◌<◌, ◌+◌, ◌⊎◌, ℕ, Some, false, length, true};
ghost use Rattle.std.specs.Prelude.{slice_get, slice_index};
ghost use Rattle.drawing_text.specs.declared.spans.Span.{Span};
ghost use Rattle.plan_layout.specs.Places.{places_of};
ghost use Rattle.plan_layout.specs.Rectangles.{HaveNoCommonPoint, across, along, box_of, into};
ghost use Rattle.plan_layout.specs.Routes.{route_of};
ghost use Rattle.plan_picture.specs.Legend.{legend_lines, legend_of, occurs};
ghost use Rattle.plan_picture.specs.Loops.{factor_of, last_in, sample_rows};
ghost use Rattle.plan_picture.specs.Lines.{line_of, row_numbers, row_of};
ghost use Rattle.plan_picture.specs.Paths.{sample_route, stroke_of};
ghost use Rattle.plan_picture.specs.Picture.{columns_of};
ghost use Rattle.plan_picture.specs.Rows.{field_row, relay_row, rows_of, spans_of, statement_row};
ghost use Rattle.plan_picture.specs.Sheets.{SheetShape};
ghost use Rattle.plan_picture.specs.Shown.{is_shown};
ghost use Rattle.plan_picture.specs.declared.legend.Sign.{Sign};
ghost use Rattle.plan_picture.specs.declared.rows.Row.{Row};
ghost use Rattle.host_code.specs.Code.{CodeFieldShape};
ghost use Rattle.statement_texts.specs.Texts.{StatementTextShape};
ghost use Rattle.plan_ways.specs.declared.relays.Relay.{Relay};
ghost use Rattle.plan_ways.specs.declared.ends.Way.{Way};
ghost use Rattle.plan_ways.specs.declared.ends.WayEnd.{WayEnd};

use plan_layout::layout_laws;

/// Laws of the picture of a plan. The call does nothing.
pub fn plan_laws()
    // Of two rows the later begins at least 8 pixels behind the end of the earlier, and of two columns at least 28.
    ensures rows_apart { (sheet : SheetShape) (top i j : ℕ) (one other : Span) → i ≢ j →
        slice_get (spans_of (rows_of sheet)) i ≡ Some one → slice_get (spans_of (rows_of sheet)) j ≡ Some other →
        (slice_index (places_of top (spans_of (rows_of sheet))).starts i + one.length + 8
        ≤ slice_index (places_of top (spans_of (rows_of sheet))).starts j)
        ⊎ (slice_index (places_of top (spans_of (rows_of sheet))).starts j + other.length + 8
        ≤ slice_index (places_of top (spans_of (rows_of sheet))).starts i) }
    ensures columns_apart { (sheet : SheetShape) (i j : ℕ) → i < j → j < length sheet.code.hosts →
        slice_index (columns_of sheet).places.starts i + slice_index (columns_of sheet).widths i + 28
        ≤ slice_index (columns_of sheet).places.starts j }

    // Each field has a row in the order of its number, and each statement and each relay has one behind these.
    ensures fields { (sheet : SheetShape) (number : ℕ) (field : CodeFieldShape) →
        slice_get sheet.code.fields number ≡ Some field →
        slice_get (rows_of sheet) number ≡ Some (field_row sheet number) }
    ensures statements { (sheet : SheetShape) (number : ℕ) (text : StatementTextShape) →
        slice_get sheet.texts number ≡ Some text →
        (place : ℕ) × (slice_get (rows_of sheet) place ≡ Some (statement_row sheet number text)) }
    ensures relays { (sheet : SheetShape) (relay : Relay) (number : ℕ) →
        slice_get sheet.relays number ≡ Some relay → relay.behind < length sheet.texts →
        (place : ℕ) × (slice_get (rows_of sheet) place ≡ Some (relay_row relay)) }

    // Where a way begins or ends is a row that shows it, or the row of the heads.
    ensures stands { (sheet : SheetShape) (end : WayEnd) → 0 < row_of (row_numbers sheet) end →
        (place : ℕ) × (row : Row) × (slice_get (rows_of sheet) place ≡ Some row)
        × (is_shown end row.standing ≡ true) × (row_of (row_numbers sheet) end ≡ 1 + place) }

    // A way that does not begin at a head meets no box but those at its ends: not on its way along its row, nor where
    // it goes up or down, nor at its tip. Here the boxes of a row are those of all columns.
    ensures clear { (sheet : SheetShape) (top i column row : ℕ) (way : Way) (one : Span) →
        slice_get sheet.ways i ≡ Some way → way.to.0 < length sheet.code.hosts → column < length sheet.code.hosts →
        slice_get (spans_of (rows_of sheet)) row ≡ Some one → row ≢ row_of (row_numbers sheet) way.begin →
        (row ≢ row_of (row_numbers sheet) way.end) ⊎ (column ≢ way.to.0) →
        let places = places_of top (spans_of (rows_of sheet)) in
        let route = route_of (columns_of sheet) places (line_of (row_numbers sheet) way) in
        let box = box_of (columns_of sheet) places one.length column row in
        HaveNoCommonPoint (across route) box × HaveNoCommonPoint (along route) box
        × HaveNoCommonPoint (into route) box }

    // A sign stands in the legend exactly where it occurs: that of ways of a kind where there is such a way.
    ensures legend { (sheet : SheetShape) (place : ℕ) (one : Sign) → slice_get (legend_of sheet) place ≡ Some one →
        occurs sheet one ≡ true }
    ensures in_legend { (sheet : SheetShape) (one : Sign) → occurs sheet one ≡ true →
        (place : ℕ) × (slice_get (legend_of sheet) place ≡ Some one) }

    // Worked: a way that goes to the right, up, and to the right, and the stroke that goes back from its tip.
    ensures worked_stroke { stroke_of true sample_route ≡ record sample_route { to_x = 93 } }
    ensures worked_back { stroke_of false sample_route ≡ record {
      from_x = 93;
      from_y = 50;
      at_x = 60;
      to_y = 90;
      to_x = 10;
      begins_right = false;
      down = true;
      ends_right = false;
    } }

    // Worked: the last row of a loop is that of a relay whose entry is pushed in it, and not that of one whose entry is
    // pushed before it. A loop in two others counts what is in it 512 times.
    ensures worked_loop { last_in 1 4 (record { number = 10; height = 34 }) 11 sample_rows
        ≡ record { number = 12; height = 22 } }
    ensures worked_factor { factor_of 2 ≡ 512 }

    // Worked: in a picture that is 800 wide a legend of five signs has three lines.
    ensures worked_legend { legend_lines 800 5 ≡ 3 }
{
    layout_laws();
}
