//! What holds of the picture of a run, and of what is due. The call does nothing: its contract has it.

ghost use Rattle.std.specs.Prelude.{◌≡◌, ◌≢◌, ◌↔◌, ◌<◌, ℕ, [], List, Some, false, length, slice_get};
ghost use Rattle.std.specs.List.{Contains};
ghost use Rattle.event_text.specs.declared.event.Event.{Event};
ghost use Rattle.event_text.specs.Script.{ScriptShape};
ghost use Rattle.front_end.specs.PlacedCode.{code_of, program_of};
ghost use Rattle.front_end.specs.PlacedSources.{PlacedSource};
ghost use Rattle.front_end.specs.Stages.{given, stopped};
ghost use Rattle.front_end.specs.Verdicts.{VerdictShape};
ghost use Rattle.host_code.specs.Code.{CodeFieldShape};
ghost use Rattle.integrity.specs.Exposed.{exposure_of};
ghost use Rattle.jif_tree.specs.Altered.{FieldIsAffected};
ghost use Rattle.net_world.specs.World.{WorldShape, misbehaves};
ghost use Rattle.run_chart.specs.Sheets.{ChartHostShape};
ghost use Rattle.run_chart.specs.declared.sheet.Mark.TheVariants as mark;
ghost use Rattle.run_rows.specs.Rows.{IsPictured, Moment, first_moment};
ghost use Rattle.run_rows.specs.declared.row.Row.{Row};
ghost use Rattle.run_sheet.specs.Charts.{chart_of};
ghost use Rattle.run_sheet.specs.FieldMarks.{misbehaving_in};
ghost use Rattle.script_stages.specs.FirstWorld.{first_world};
ghost use Rattle.script_stages.specs.Scripts.{EventsHappen};
ghost use Rattle.run_picture.specs.RunCharts.{field_shown, source_of};
ghost use Rattle.run_picture.specs.RunDue.{DueForChart, EventsDrawn};

use event_text::script_laws;
use front_end::source_laws;
use ignored_reasons::reason_laws;
use net_world::laws::step_laws;
use run_rows::row_laws;
use run_sheet::sheet_laws;

/// What holds of the picture of a run, and of what is due.
pub fn run_picture_laws()
    // For a program, a host file and a script one verdict is due, whatever they hold.
    ensures one { (file program hosts script : List ℕ) (first second : VerdictShape) →
        DueForChart file program hosts script first → DueForChart file program hosts script second → first ≡ second }
    ensures some { (file program hosts script : List ℕ) →
        (verdict : VerdictShape) × DueForChart file program hosts script verdict }

    // Events have rows exactly where they happen, as they do for `replay`, and the rows lead to the world that they
    // leave. They are refused where they are for `replay`, in the same words.
    ensures as_replay { (file : List ℕ) (placed : PlacedSource) (first last : WorldShape) (said : List (ℕ × Event)) →
        EventsHappen file (code_of placed) first said (given last)
        ↔ ((rows : List Row) × (end : Moment) × IsPictured (code_of placed) (first_moment first) said rows end
        × (end.world ≡ last)) }
    ensures refused_as_replay { (file : List ℕ) (placed : PlacedSource) (first : WorldShape) (said : List (ℕ × Event))
        (verdict : VerdictShape) → EventsDrawn file placed first said (stopped verdict)
        ↔ EventsHappen file (code_of placed) first said (stopped verdict) }

    // A field is marked as kept exactly where some host misbehaves, its own does not, and those that do may not affect
    // it by the labels of the program and of the hosts, which are those that the script names.
    ensures kept { (placed : PlacedSource) (said : ScriptShape) (rows : List Row) (last : Moment) (number : ℕ)
        (field : CodeFieldShape) →
        IsPictured (code_of placed) (first_moment (first_world placed said.bad said.start)) said.events rows last →
        slice_get (code_of placed).fields number ≡ Some field →
        (((field_shown placed last.world number field).mark ≡ mark.Kept)
        ↔ ((misbehaving_in (code_of placed) last.world ≢ []) × (misbehaves last.world field.host ≡ false)
        × ¬ FieldIsAffected (exposure_of (program_of placed) said.bad) (record { 0 = number }))) }
    // It stands in the chart, below its host.
    ensures shown { (placed : PlacedSource) (first : WorldShape) (rows : List Row) (last : Moment) (number : ℕ)
        (field : CodeFieldShape) → slice_get (code_of placed).fields number ≡ Some field →
        field.host.0 < length (code_of placed).hosts →
        (column : ChartHostShape)
        × (slice_get (chart_of (source_of placed first rows last)).hosts field.host.0 ≡ Some column)
        × Contains column.fields (field_shown placed last.world number field) }
{
    script_laws();
    source_laws();
    reason_laws();
    step_laws();
    row_laws();
    sheet_laws();
}
