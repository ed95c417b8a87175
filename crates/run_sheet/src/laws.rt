//! What a chart says of the run that it shows, and small cases. The calls do nothing: their contracts have it.

ghost use Rattle.std.specs.Prelude.{◌≡◌, ◌≢◌, ◌↔◌, ◌+◌, ℕ, ◌∷◌, ◌++◌, [], List, None, Some, codes, false, map, pos};
ghost use Rattle.std.specs.Prelude.{slice_get};
ghost use Rattle.std.specs.Fmt.{signed_decimal};
ghost use Rattle.std.specs.List.{AllZip, filter_map, join_with_byte, range_with_len};
ghost use Rattle.event_text.specs.declared.event.BadMessage.{BadMessage};
ghost use Rattle.event_text.specs.declared.event.Event.{Event};
ghost use Rattle.event_text.specs.declared.event.Event.TheVariants.{Take, Act};
ghost use Rattle.event_text.specs.EventText.{IsSaid, bad_message_text};
ghost use Rattle.event_text.specs.Events.{event_of};
ghost use Rattle.event_text.specs.Lines.{words};
ghost use Rattle.host_code.specs.Code.{CodeFieldShape, CodeShape};
ghost use Rattle.host_code.specs.MessageText.{host_text, message_text};
ghost use Rattle.host_code.specs.declared.message.Message.{Message};
ghost use Rattle.host_core.specs.Host.{HostState};
ghost use Rattle.host_core.specs.Taking.{PassesCheck};
ghost use Rattle.ignored_reasons.specs.ReasonExamples.{host_a, host_b, small_code, the_entry, the_field, the_variable};
ghost use Rattle.ignored_reasons.specs.declared.why.Why.TheVariants as why;
ghost use Rattle.jif_tree.specs.Altered.{Exposure, FieldIsAffected};
ghost use Rattle.jif_tree.specs.Store.{element_at, row_of};
ghost use Rattle.js_base.specs.declared.ids.HostId.{HostId};
ghost use Rattle.label_lattice.specs.declared.label.Label.{Label};
ghost use Rattle.net_world.specs.Flying.{Flight};
ghost use Rattle.net_world.specs.Told.{message_made};
ghost use Rattle.net_world.specs.World.{WorldShape, misbehaves, mover, state_at, tokens_sent};
ghost use Rattle.run_chart.specs.declared.sheet.Mark.TheVariants as mark;
ghost use Rattle.run_rows.specs.Rows.{IsPictured, IsRunRow, Moment};
ghost use Rattle.run_rows.specs.Stacks.{entries_in};
ghost use Rattle.run_rows.specs.declared.row.Row.{Row};
ghost use Rattle.run_sheet.specs.ChartLaws.{IsExposedTo, IsShownAs, IsShownOnStack, letters_told};
ghost use Rattle.run_sheet.specs.ChartRows.{TrackShape, chart_row};
ghost use Rattle.run_sheet.specs.Charts.{chart_of};
ghost use Rattle.run_sheet.specs.FieldMarks.{chart_field, misbehaving_in};
ghost use Rattle.run_sheet.specs.ReasonWords.{reason_words};
ghost use Rattle.run_sheet.specs.RunSources.{RunSourceShape};
ghost use Rattle.run_sheet.specs.StackNotes.{stack_tip};
ghost use Rattle.run_sheet.specs.StatementNotes.{sample_statement, short_note, whole_note};

use event_text::script_laws;
use run_rows::row_laws;

/// What a chart says of the run that it shows.
pub fn sheet_laws()
    // There is a row for each event, in order, with its line and its hosts.
    ensures lines { (source : RunSourceShape) (at last : Moment) (said : List (ℕ × Event)) →
        IsPictured source.code at said source.rows last →
        map (λ row. row.line) (chart_of source).rows ≡ map (λ one. one.0) said }
    ensures hosts { (source : RunSourceShape) (at last : Moment) (said : List (ℕ × Event)) →
        IsPictured source.code at said source.rows last →
        AllZip (λ one row. IsShownAs one.1 row.event) said (chart_of source).rows }
    // The text of a take is that of the message that was in flight at its place.
    ensures taken { (source : RunSourceShape) (lanes : List ℕ) (track : TrackShape) (world next : WorldShape)
        (line place : ℕ) (from to : HostId) (flight : Flight) (row : Row) →
        IsRunRow source.code world (line, Take from to place) next row →
        slice_get (world.flying from to) place ≡ Some flight →
        (chart_row source lanes track row).text ≡ message_text source.code flight.message }
    // A message is said to be ignored exactly where its check is false of the host's state, the sender and the message.
    ensures crossed { (source : RunSourceShape) (lanes : List ℕ) (track : TrackShape) (world next : WorldShape)
        (line place : ℕ) (from to : HostId) (state : HostState) (flight : Flight) (row : Row) →
        IsRunRow source.code world (line, Take from to place) next row →
        slice_get (world.flying from to) place ≡ Some flight → state_at world to ≡ Some state →
        (((chart_row source lanes track row).ignored ≡ None) ↔ PassesCheck source.code state from flight.message) }
    ensures crossed_act { (source : RunSourceShape) (lanes : List ℕ) (track : TrackShape) (world next : WorldShape)
        (line : ℕ) (from to : HostId) (made : BadMessage) (state : HostState) (taken : Message) (row : Row) →
        IsRunRow source.code world (line, Act from to made) next row →
        message_made (tokens_sent world) made ≡ Some taken → state_at world to ≡ Some state →
        (((chart_row source lanes track row).ignored ≡ None) ↔ PassesCheck source.code state from taken) }
    // What is shown of a control stack is what the event did to it.
    ensures stacks { (source : RunSourceShape) (lanes : List ℕ) (track : TrackShape) (world next : WorldShape)
        (said : ℕ × Event) (row : Row) → IsRunRow source.code world said next row →
        IsShownOnStack (entries_in (state_at world (mover said.1))) (entries_in (state_at next (mover said.1)))
        (chart_row source lanes track row).stack }
    // What the rows tell, in order, is what the misbehaving hosts were sent, where they were sent nothing before.
    ensures told_all { (source : RunSourceShape) (at last : Moment) (said : List (ℕ × Event)) →
        IsPictured source.code at said source.rows last → at.world.sent ≡ [] → last.world ≡ source.world →
        filter_map (λ row. row.told) (chart_of source).rows ≡ letters_told source.code 0 source.world.sent }
    // What an act is said by is read as the same message, as long as the same hosts misbehave.
    ensures acts_again { (code : CodeShape) (bad : ℕ) (from to : HostId) (made : BadMessage) →
        IsSaid code bad (Act from to made) →
        event_of code bad (words (codes "act " ++ host_text code from ++ codes " " ++ host_text code to
        ++ codes " " ++ bad_message_text code made)) ≡ Some (Act from to made) }
    // The values at the foot are those of a report: of each field on an obeying host its elements, parted by blanks.
    ensures values { (code : CodeShape) (world : WorldShape) (bad : List HostId) (number : ℕ) (field : CodeFieldShape)
        (state : HostState) → state_at world field.host ≡ Some state →
        (chart_field code world bad number field).text
        ≡ field.name ++ codes " = " ++ join_with_byte 32 (map signed_decimal
        (map (λ index. element_at (row_of state.rows number) (pos index)) (range_with_len 0 field.size))) }
    // A field is marked as kept exactly where some host misbehaves, its own does not, and it may not be affected.
    ensures kept { (code : CodeShape) (world : WorldShape) (exposure : Exposure) (number : ℕ) (field : CodeFieldShape) →
        IsExposedTo code world exposure → slice_get code.fields number ≡ Some field →
        (((chart_field code world (misbehaving_in code world) number field).mark ≡ mark.Kept)
        ↔ ((misbehaving_in code world ≢ []) × (misbehaves world field.host ≡ false)
        × ¬ FieldIsAffected exposure (record { 0 = number }))) }
{
    row_laws();
    script_laws();
}

/// Texts that are worked out. Host A has the field, the variable and the entry, and B asks for them.
pub fn sheet_examples()
    ensures not_here { (of_b label : Label) (need : ℕ) →
        reason_words (small_code of_b label need) host_b (why.FieldElsewhere the_field) ≡ codes "f is not here" }
    ensures not_seen { (of_b label : Label) (need : ℕ) →
        reason_words (small_code of_b label need) host_b (why.MayNotSee the_field) ≡ codes "B may not see f" }
    ensures not_set { (of_b label : Label) (need : ℕ) →
        reason_words (small_code of_b label need) host_b (why.MayNotSet the_field)
        ≡ codes "B is not trusted to set f" }
    ensures not_forwarded { (of_b label : Label) (need : ℕ) →
        reason_words (small_code of_b label need) host_b (why.MayNotForward the_variable)
        ≡ codes "B is not trusted to set main.x" }
    ensures no_entry { (of_b label : Label) (need : ℕ) →
        reason_words (small_code of_b label need) host_b (why.NoEntry the_entry) ≡ codes "no entry e1 here" }
    ensures not_entered { (of_b label : Label) (need : ℕ) →
        reason_words (small_code of_b label need) host_b (why.MayNotEnter the_entry)
        ≡ codes "B is not trusted to enter e1" }
    ensures not_known { (of_b label : Label) (need : ℕ) →
        reason_words (small_code of_b label need) host_b (why.MayNotKnow the_entry) ≡ codes "B may not know of e1" }
    ensures not_on_top { (of_b label : Label) (need : ℕ) →
        reason_words (small_code of_b label need) host_b why.NotOnTop
        ≡ codes "the token is not that of the top entry" }
    ensures none_waits { (of_b label : Label) (need : ℕ) →
        reason_words (small_code of_b label need) host_b why.NoneWaits
        ≡ codes "no thread waits for this from B" }
    // The top of a stack is shown first.
    ensures stack { (of_b label : Label) (need : ℕ) →
        stack_tip (small_code of_b label need) host_a (record { 0 = 3 } ∷ record { 0 = 0 } ∷ [])
        ≡ codes "control stack of A: e3 e0" }
    ensures no_stack { (of_b label : Label) (need : ℕ) →
        stack_tip (small_code of_b label need) host_a [] ≡ codes "control stack of A: empty" }
    // A statement in short has no labels of what it declares.
    ensures in_short { short_note 6 sample_statement ≡ codes "6: int r = endorse(o, {?: A});" }
    ensures whole { whole_note 1 6 sample_statement
        ≡ codes "statement 1 line 6: int{A:} r = endorse(o, {?: A});" }
{}
