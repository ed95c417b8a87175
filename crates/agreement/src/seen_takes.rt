//! Laws of messages that hosts take and that may be seen, and of what misbehaving hosts make them take. The calls do
//! nothing: their contracts are the laws.

ghost use Rattle.std.specs.Prelude.{◌≡◌, ℕ, ℤ, pos, List, [], ◌∷◌};
ghost use Rattle.js_base.specs.declared.ids.HostId.{HostId};
ghost use Rattle.host_decl.specs.Hosts as declared_hosts;
ghost use Rattle.host_code.specs.declared.message.Message.TheVariants as message;
ghost use Rattle.host_core.specs.Host as host_state;
ghost use Rattle.host_core.specs.Start.{main_frame};
ghost use Rattle.event_text.specs.declared.event.Event.{Event};
ghost use Rattle.event_text.specs.declared.event.Event.TheVariants.{Take, Act};
ghost use Rattle.event_text.specs.declared.event.BadMessage.{BadMessage};
ghost use Rattle.net_world.specs.Fits.{HasOwnToken};
ghost use Rattle.net_world.specs.Secret.{IsQuiet};
ghost use Rattle.net_world.specs.World.{WorldShape, world_at_start, IsStep};
ghost use Rattle.token_laws.specs.Reached.{IsReached};
ghost use Rattle.token_laws.specs.TokenExamples.{host_id, entry_id, a_field, first_request, first_token, second_token};
ghost use Rattle.seen_world.specs.Eyes.{Eyes, AreEyes, Watches};
ghost use Rattle.agreement.specs.Leads.{Leads, Agree};
ghost use Rattle.agreement.specs.Taken.{carried_taken, view_without, SeenPassing, SeenMessage, SeenTake, SeenAct};
ghost use Rattle.agreement.specs.TakenExamples.{an_ack, waits_seen, woken_on, set_for};
ghost use Rattle.agreement.specs.Views.{LowView};
ghost use Rattle.agreement.specs.Worked.{small_eyes, one_entry, popped_at, a_variable, idle, set_at};

/// What is seen of a message that a host takes in a quiet world, where all that is in flight may be seen.
pub fn taken_laws()
    // A quiet world that events lead to, and that leads to a view, leads after it to what is seen of it then.
    ensures takes { (eyes : Eyes) (rows : List declared_hosts.HostShape) (bad : ℕ) (store : List (List ℤ))
        (events : List Event) (world after : WorldShape) (from to : HostId) (place : ℕ) (view : LowView)
        (step : IsStep eyes.code world (Take from to place) after) →
        AreEyes eyes → Watches eyes (world_at_start eyes.code rows bad store) →
        IsReached eyes.code rows bad store events world → IsQuiet eyes.code world → Leads eyes world view →
        (seen : LowView) × SeenTake eyes view from to place (carried_taken eyes step.state from step.flight.message)
        seen
        × Leads eyes after seen }
    // That is one view.
    ensures once { (eyes : Eyes) (view : LowView) (from to : HostId) (place : ℕ) (carried : ℤ)
        (first second : LowView) →
        SeenTake eyes view from to place carried first → SeenTake eyes view from to place carried second →
        first ≡ second }
    // In two quiet worlds that agree the message at one place of a queue carries the same, also where the code releases
    // something.
    ensures carried { (eyes : Eyes) (rows : List declared_hosts.HostShape) (bad : ℕ) (store start : List (List ℤ))
        (events others : List Event) (one other one_after other_after : WorldShape) (from to : HostId) (place : ℕ)
        (step : IsStep eyes.code one (Take from to place) one_after)
        (twin : IsStep eyes.code other (Take from to place) other_after) →
        AreEyes eyes → Watches eyes (world_at_start eyes.code rows bad store) →
        Watches eyes (world_at_start eyes.code rows bad start) →
        IsReached eyes.code rows bad store events one → IsReached eyes.code rows bad start others other →
        IsQuiet eyes.code one → IsQuiet eyes.code other → Agree eyes one other →
        carried_taken eyes step.state from step.flight.message
        ≡ carried_taken eyes twin.state from twin.flight.message }
    // So they agree after it.
    ensures agrees { (eyes : Eyes) (rows : List declared_hosts.HostShape) (bad : ℕ) (store start : List (List ℤ))
        (events others : List Event) (one other one_after other_after : WorldShape) (from to : HostId) (place : ℕ) →
        AreEyes eyes → Watches eyes (world_at_start eyes.code rows bad store) →
        Watches eyes (world_at_start eyes.code rows bad start) →
        IsReached eyes.code rows bad store events one → IsReached eyes.code rows bad start others other →
        IsStep eyes.code one (Take from to place) one_after → IsStep eyes.code other (Take from to place) other_after →
        IsQuiet eyes.code one → IsQuiet eyes.code other → Agree eyes one other → Agree eyes one_after other_after }
    // So it is of what a misbehaving host makes a host take. A token of its own is one of a misbehaving host.
    ensures acts { (eyes : Eyes) (rows : List declared_hosts.HostShape) (bad : ℕ) (store : List (List ℤ))
        (events : List Event) (world after : WorldShape) (from to : HostId) (made : BadMessage) (view : LowView)
        (step : IsStep eyes.code world (Act from to made) after) →
        AreEyes eyes → Watches eyes (world_at_start eyes.code rows bad store) →
        IsReached eyes.code rows bad store events world →
        HasOwnToken (world_at_start eyes.code rows bad store) (Act from to made) →
        IsQuiet eyes.code world → Leads eyes world view →
        (seen : LowView) × SeenAct eyes view from to made (carried_taken eyes step.state from step.message) seen
        × Leads eyes after seen }
    ensures acts_once { (eyes : Eyes) (view : LowView) (from to : HostId) (made : BadMessage) (carried : ℤ)
        (first second : LowView) →
        SeenAct eyes view from to made carried first → SeenAct eyes view from to made carried second →
        first ≡ second }
    ensures acts_carried { (eyes : Eyes) (rows : List declared_hosts.HostShape) (bad : ℕ)
        (store start : List (List ℤ)) (events others : List Event)
        (one other one_after other_after : WorldShape) (from to : HostId) (made : BadMessage)
        (step : IsStep eyes.code one (Act from to made) one_after)
        (twin : IsStep eyes.code other (Act from to made) other_after) →
        AreEyes eyes → Watches eyes (world_at_start eyes.code rows bad store) →
        Watches eyes (world_at_start eyes.code rows bad start) →
        IsReached eyes.code rows bad store events one → IsReached eyes.code rows bad start others other →
        IsQuiet eyes.code one → IsQuiet eyes.code other → Agree eyes one other →
        carried_taken eyes step.state from step.message ≡ carried_taken eyes twin.state from twin.message }
    ensures acts_agree { (eyes : Eyes) (rows : List declared_hosts.HostShape) (bad : ℕ)
        (store start : List (List ℤ)) (events others : List Event)
        (one other one_after other_after : WorldShape) (from to : HostId) (made : BadMessage) →
        AreEyes eyes → Watches eyes (world_at_start eyes.code rows bad store) →
        Watches eyes (world_at_start eyes.code rows bad start) →
        IsReached eyes.code rows bad store events one → IsReached eyes.code rows bad start others other →
        HasOwnToken (world_at_start eyes.code rows bad store) (Act from to made) →
        IsStep eyes.code one (Act from to made) one_after → IsStep eyes.code other (Act from to made) other_after →
        IsQuiet eyes.code one → IsQuiet eyes.code other → Agree eyes one other → Agree eyes one_after other_after }
{}

/// What is seen of messages that are taken in small cases, which deny other definitions.
pub fn taken_examples()
    // An acknowledgement wakes the thread that waits for it, and is no longer in flight.
    ensures wakes { SeenTake small_eyes waits_seen (host_id 1) (host_id 0) 0 (pos 0)
        (woken_on (view_without waits_seen (host_id 1) (host_id 0) 0)) }
    ensures wakes_more { ¬ (SeenTake small_eyes waits_seen (host_id 1) (host_id 0) 0 (pos 0) waits_seen) }
    ensures taken_out { (view_without waits_seen (host_id 1) (host_id 0) 0).flying (host_id 1) (host_id 0) ≡ [] }
    // From a host that was not asked it is ignored.
    ensures other_answer { SeenMessage small_eyes waits_seen (host_id 0) (host_id 0) 0 (message.Ack first_request)
        (pos 0) waits_seen }
    // A token that is given back takes its entry off the top of the stack, and another is ignored.
    ensures gives_back { SeenMessage small_eyes one_entry (host_id 1) (host_id 0) 0 (message.Lgoto first_token)
        (pos 0) (popped_at 3) }
    ensures gives_other { SeenMessage small_eyes one_entry (host_id 1) (host_id 0) 0 (message.Lgoto second_token)
        (pos 0) one_entry }
    // A variable that is sent has this value then and no other, and the sender is answered.
    ensures sets { SeenPassing small_eyes idle (host_id 1) (host_id 0) 0
        (message.Forward first_request main_frame a_variable (pos 7)) (pos 0) (set_for (pos 7)) }
    ensures sets_more { ¬ (SeenPassing small_eyes idle (host_id 1) (host_id 0) 0
        (message.Forward first_request main_frame a_variable (pos 7)) (pos 0) (set_for (pos 8))) }
    ensures answered { (set_for (pos 7)).flying (host_id 0) (host_id 1) ≡ an_ack ∷ [] }
    // A thread that starts finds the value that rode with it, and of two values for one variable the last.
    ensures rides { SeenPassing small_eyes idle (host_id 1) (host_id 0) 0
        (message.RgotoWith main_frame (entry_id 2) second_token ((a_variable, pos 7) ∷ [])) (pos 0)
        (set_at 3 (pos 7)) }
    ensures rides_more { ¬ (SeenPassing small_eyes idle (host_id 1) (host_id 0) 0
        (message.RgotoWith main_frame (entry_id 2) second_token ((a_variable, pos 7) ∷ [])) (pos 0)
        (set_at 3 (pos 8))) }
    ensures rides_first { ¬ (SeenPassing small_eyes idle (host_id 1) (host_id 0) 0
        (message.RgotoWith main_frame (entry_id 2) second_token ((a_variable, pos 7) ∷ (a_variable, pos 8) ∷ []))
        (pos 0) (set_at 3 (pos 7))) }
    // An element that may not be seen is not carried.
    ensures unseen_element { (state : host_state.HostState) (index : ℤ) →
        carried_taken small_eyes state (host_id 0) (message.Get first_request a_field index) ≡ pos 0 }
{}
