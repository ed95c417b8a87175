//! Laws of the rows of a run. The calls do nothing: their contracts have them.

ghost use Rattle.std.specs.Prelude.{◌≡◌, ◌↔◌, ◌-◌, ◌<◌, ◌∷◌, ◌++◌, ℕ, ℤ, List, None, Some, Option, map, length};
ghost use Rattle.std.specs.Prelude.{IsSomeAnd, IsTrue, slice_get};
ghost use Rattle.std.specs.List.{filter_map, range_with_len};
ghost use Rattle.js_base.specs.declared.ids.HostId.{HostId};
ghost use Rattle.ics_stack.specs.declared.stack.StackEntry.{StackEntry};
ghost use Rattle.host_decl.specs.Hosts as declared_hosts;
ghost use Rattle.host_code.specs.Code.{CodeShape};
ghost use Rattle.host_code.specs.declared.message.Message.{Message};
ghost use Rattle.host_core.specs.Host.{HostState};
ghost use Rattle.host_core.specs.Taking.{PassesCheck};
ghost use Rattle.event_text.specs.declared.event.Event.{Event};
ghost use Rattle.event_text.specs.declared.event.Event.TheVariants.{Take, Act};
ghost use Rattle.event_text.specs.declared.event.BadMessage.{BadMessage};
ghost use Rattle.net_world.specs.Choice.{Runs};
ghost use Rattle.net_world.specs.Flying.{Flight};
ghost use Rattle.net_world.specs.Replay.{events_in};
ghost use Rattle.net_world.specs.Told.{SentMessage, message_made};
ghost use Rattle.net_world.specs.World.{WorldShape, IsRun, state_at, mover, tokens_sent, world_at_start};
ghost use Rattle.run_rows.specs.declared.row.Change.{Change};
ghost use Rattle.run_rows.specs.declared.row.Change.TheVariants as change;
ghost use Rattle.run_rows.specs.declared.row.Row.{Row};
ghost use Rattle.run_rows.specs.Rows.{Moment, IsRunRow, IsPictured};
ghost use Rattle.run_rows.specs.Stacks.{HasChanged, HaveFirstStacks};

use ignored_reasons::reason_laws;

/// What the rows of a run say of it.
pub fn row_laws()
    // What has rows has happened, and there is a row for each event, in order, with its line.
    ensures ran { (code : CodeShape) (at last : Moment) (said : List (ℕ × Event)) (rows : List Row) →
        IsPictured code at said rows last → IsRun code at.world (events_in said) last.world }
    ensures lines { (code : CodeShape) (at last : Moment) (said : List (ℕ × Event)) (rows : List Row) →
        IsPictured code at said rows last → map (λ row. row.line) rows ≡ map (λ one. one.0) said }
    // There is one list of rows at most, and it leads to one moment.
    ensures one { (code : CodeShape) (at last ends : Moment) (said : List (ℕ × Event)) (rows others : List Row) →
        IsPictured code at said rows last → IsPictured code at said others ends →
        (rows ≡ others) × (last ≡ ends) }
    // Of a message that is taken there is a reason exactly where its check is false of the host's state, the sender and
    // the message.
    ensures take_ignored { (code : CodeShape) (world next : WorldShape) (line place : ℕ) (from to : HostId)
        (state : HostState) (flight : Flight) (row : Row) → IsRunRow code world (line, Take from to place) next row →
        slice_get (world.flying from to) place ≡ Some flight → state_at world to ≡ Some state →
        ((row.ignored ≡ None) ↔ PassesCheck code state from flight.message) }
    ensures act_ignored { (code : CodeShape) (world next : WorldShape) (line : ℕ) (from to : HostId)
        (made : BadMessage) (state : HostState) (taken : Message) (row : Row) →
        IsRunRow code world (line, Act from to made) next row →
        message_made (tokens_sent world) made ≡ Some taken → state_at world to ≡ Some state →
        ((row.ignored ≡ None) ↔ PassesCheck code state from taken) }
    // The numbers of what misbehaving hosts were sent count on, and none is left out.
    ensures told { (code : CodeShape) (at last : Moment) (said : List (ℕ × Event)) (rows : List Row) →
        IsPictured code at said rows last →
        filter_map (λ row. row.told) rows
        ≡ range_with_len (length at.world.sent) (length last.world.sent - length at.world.sent) }
    // One more entry on a stack was pushed, one less was taken off, and where neither is so the stack is the same.
    ensures pushed { (before after : List StackEntry) (top : StackEntry) (did : Change) → HasChanged before after did →
        after ≡ top ∷ before → did ≡ change.Pushed top.entry }
    ensures taken_off { (before after : List StackEntry) (top : StackEntry) (did : Change) →
        HasChanged before after did → before ≡ top ∷ after → did ≡ change.TakenOff top.entry }
    ensures same { (before after : List StackEntry) (did : Change) → HasChanged before after did →
        after ≡ before → did ≡ change.Same }
    // After an event a thread runs on its host, or one waits there, exactly where the row says so.
    ensures runs { (code : CodeShape) (world next : WorldShape) (said : ℕ × Event) (row : Row) →
        IsRunRow code world said next row → (IsTrue row.runs ↔ Runs next (mover said.1)) }
    ensures waits { (code : CodeShape) (world next : WorldShape) (said : ℕ × Event) (row : Row) →
        IsRunRow code world said next row →
        (IsTrue row.waits ↔ IsSomeAnd (state_at next (mover said.1)) (λ state. 0 < length state.waiting)) }
    // A world before its first event has the first stacks.
    ensures first { (code : CodeShape) (hosts : List declared_hosts.HostShape) (bad : ℕ) (store : List (List ℤ)) →
        HaveFirstStacks code (world_at_start code hosts bad store) }
{
    reason_laws();
}
