//! What holds of the chart.

ghost use Rattle.std.specs.Prelude.{◌≡◌, ◌≢◌, ◌≤◌, ◌<◌, ◌+◌, ◌∷◌, ℕ, Bool, List, Option, Some, None, All};
ghost use Rattle.std.specs.Prelude.{[], codes, false, length, not, slice_get, true};
ghost use Rattle.std.specs.Str.{chars, encode_utf8_all};
ghost use Rattle.drawing_text.specs.Letters.{escaped, outside, unescaped};
ghost use Rattle.js_base.specs.declared.ids.HostId.{HostId};
ghost use Rattle.run_chart.specs.Arrows.{act_arrow, take_arrow, tip_where};
ghost use Rattle.run_chart.specs.Bars.{bars_from, moments_from, moments_of};
ghost use Rattle.run_chart.specs.Columns.{columns_of};
ghost use Rattle.run_chart.specs.Events.{ChartGridShape, cross_of, row_text, rows_text};
ghost use Rattle.run_chart.specs.Foot.{check_text, mark_text};
ghost use Rattle.run_chart.specs.Legend.{draws_stroke, legend_lines, legend_of, occurs};
ghost use Rattle.run_chart.specs.Listed.{text_of_all, row_texts};
ghost use Rattle.run_chart.specs.Rows.{is_turn, place_at, places_from};
ghost use Rattle.run_chart.specs.Samples.{sample_arrow, sample_columns, sample_places};
ghost use Rattle.run_chart.specs.Samples.{sample_sender, sample_start, sample_taker};
ghost use Rattle.run_chart.specs.Sheets.{ChartRowShape, ChartSheetShape};
ghost use Rattle.run_chart.specs.Texts.{whole_text};
ghost use Rattle.run_chart.specs.Threads.{bar_over, looks, threads_at};
ghost use Rattle.run_chart.specs.declared.columns.ChartColumn.{ChartColumn};
ghost use Rattle.run_chart.specs.declared.bars.ChartThreads.{ChartThreads};
ghost use Rattle.run_chart.specs.declared.legend.ChartSign.{ChartSign};
ghost use Rattle.run_chart.specs.declared.legend.ChartSign.TheVariants as sign;
ghost use Rattle.run_chart.specs.declared.rows.ChartPlace.{ChartPlace};
ghost use Rattle.run_chart.specs.declared.sheet.ChartEvent.{ChartEvent};
ghost use Rattle.run_chart.specs.declared.sheet.Mark.{Mark};
ghost use Rattle.run_chart.specs.declared.sheet.Mark.TheVariants as mark;
ghost use Rattle.run_chart.specs.declared.sheet.Start.{Start};
ghost use Rattle.run_chart.specs.declared.sheet.Stroke.{Stroke};

use drawing_text::drawing_laws;

/// Laws of the chart of a run. The call does nothing.
pub fn chart_laws()
    // Of two rows the later begins at or behind the end of the earlier, and each has the line of its event within it.
    ensures rows_apart { (start i j : ℕ) (rows : List ChartRowShape) (one other : ChartPlace) → i < j →
        slice_get (places_from start rows) i ≡ Some one → slice_get (places_from start rows) j ≡ Some other →
        one.end ≤ other.start }
    ensures lines_within { (start i : ℕ) (rows : List ChartRowShape) (one : ChartPlace) →
        slice_get (places_from start rows) i ≡ Some one →
        (one.start + 12 ≤ one.line) × (one.line + 8 ≤ one.end) × (one.line ≤ one.begin) × (one.begin ≤ one.end) }

    // Of two columns the later begins 32 behind the end of the earlier, and the lifelines are in this order too.
    ensures columns_apart { (sheet : ChartSheetShape) (i j : ℕ) (one other : ChartColumn) → i < j →
        slice_get (columns_of sheet) i ≡ Some one → slice_get (columns_of sheet) j ≡ Some other →
        (one.left + one.width + 32 ≤ other.left) × (one.middle + 32 ≤ other.middle) }

    // Each event has a text, in order, and the chart has these and no more between the bars and the foot.
    ensures as_many { (sheet : ChartSheetShape) (grid : ChartGridShape) →
        length (row_texts sheet grid 0 sheet.rows) ≡ length sheet.rows }
    ensures rows { (sheet : ChartSheetShape) (grid : ChartGridShape) (i : ℕ) (row : ChartRowShape) →
        slice_get sheet.rows i ≡ Some row → slice_get (row_texts sheet grid 0 sheet.rows) i
        ≡ Some (row_text sheet grid (place_at grid.places i) row) }
    ensures rows_joined { (sheet : ChartSheetShape) (grid : ChartGridShape) →
        rows_text sheet grid 0 sheet.rows ≡ text_of_all (row_texts sheet grid 0 sheet.rows) }

    // A cross stands exactly where an event that is no turn is ignored, and a tip exactly where one is not.
    ensures crossed { (grid : ChartGridShape) (event : ChartEvent) (line : ℕ) (why : List ℕ) →
        is_turn event ≡ false → cross_of grid event line (Some why) ≢ [] }
    ensures not_crossed { (grid : ChartGridShape) (event : ChartEvent) (line : ℕ) → cross_of grid event line None ≡ [] }
    ensures turn_not_crossed { (grid : ChartGridShape) (event : ChartEvent) (line : ℕ) (ignored : Option (List ℕ)) →
        is_turn event ≡ true → cross_of grid event line ignored ≡ [] }
    ensures take_tipped { (columns : List ChartColumn) (places : List ChartPlace) (from to : HostId) (start : Start)
        (ignored : Bool) (line : ℕ) → (take_arrow columns places from to start ignored line).tipped ≡ not ignored }
    ensures act_tipped { (columns : List ChartColumn) (from to : HostId) (ignored : Bool) (line : ℕ) →
        (act_arrow columns from to ignored line).tipped ≡ not ignored }
    ensures tipped { (right : Bool) (x y : ℕ) → tip_where true right x y ≢ [] }
    ensures not_tipped { (right : Bool) (x y : ℕ) → tip_where false right x y ≡ [] }

    // A field has a check exactly where no misbehaving host may affect it.
    ensures kept { (one : Mark) (who : List ℕ) (width : ℕ) → one ≡ mark.Kept →
        mark_text one who width ≡ check_text width }
    ensures not_kept { (one : Mark) (who : List ℕ) (width : ℕ) → mark_text one who width ≡ check_text width →
        one ≡ mark.Kept }

    // A sign stands in the legend exactly where it occurs: that of a stroke where some message is drawn so.
    ensures legend { (sheet : ChartSheetShape) (place : ℕ) (one : ChartSign) →
        slice_get (legend_of sheet) place ≡ Some one → occurs sheet one ≡ true }
    ensures in_legend { (sheet : ChartSheetShape) (one : ChartSign) → occurs sheet one ≡ true →
        (place : ℕ) × (slice_get (legend_of sheet) place ≡ Some one) }
    ensures drawn { (sheet : ChartSheetShape) (stroke : Stroke) (i : ℕ) (row : ChartRowShape) →
        slice_get sheet.rows i ≡ Some row → draws_stroke stroke row ≡ true →
        (place : ℕ) × (slice_get (legend_of sheet) place ≡ Some (sign.OfStroke stroke)) }

    // Over a height between the heads and the foot the bar of a host is filled exactly where a thread of it runs after
    // the last of its events whose line is not below, and open exactly where none runs and one waits.
    ensures bars { (rows : List ChartRowShape) (top end number y : ℕ) (runs : Bool) → top + 52 ≤ y → y < end →
        let moments = moments_of number (moments_from (places_from (top + 70) rows) 0 rows) in
        let first : ChartThreads = record { runs = runs; waits = false } in
        let last = threads_at first y moments in
        bar_over y (bars_from (top + 52) end first moments) ≡ looks last.runs last.waits }

    // A text stands in the chart with the marks of SVG by their names, and reads back.
    ensures escapes { (text : List ℕ) → (letters : List ℕ) × (whole_text text ≡ encode_utf8_all letters)
        × (All (λ letter. (letter ≢ 60) × (letter ≢ 62)) letters) × (unescaped outside letters ≡ chars text) }

    // Worked: the arrow of a message that is taken, and a legend of six signs.
    ensures worked_arrow { take_arrow sample_columns sample_places sample_sender sample_taker sample_start false 314
        ≡ sample_arrow }
    ensures worked_legend { legend_lines 1188 6 ≡ 2 }
{
    drawing_laws();
}
