//! Laws of worlds of which the same may be seen. The calls do nothing: their contracts are the laws.

ghost use Rattle.std.specs.Prelude.{◌≡◌, ◌⊎◌, ℕ, ℤ, pos, true, false, List, [], ◌∷◌, ◌++◌, Some, None, IsSome, filter};
ghost use Rattle.std.specs.Prelude.{map, remove, slice_get};
ghost use Rattle.js_base.specs.declared.ids.HostId.{HostId};
ghost use Rattle.js_base.specs.declared.ids.FrameId.{FrameId};
ghost use Rattle.js_base.specs.declared.ids.VarId.{VarId};
ghost use Rattle.label_lattice.specs.declared.label.Label.{Label};
ghost use Rattle.jif_tree.specs.Trees.{ExprTree};
ghost use Rattle.capability.specs.declared.token.Token.{Token};
ghost use Rattle.ics_stack.specs.declared.stack.StackEntry.{StackEntry};
ghost use Rattle.host_decl.specs.Hosts as declared_hosts;
ghost use Rattle.host_code.specs.declared.instruction.Instr.{Instr};
ghost use Rattle.host_code.specs.declared.instruction.Op.TheVariants as op;
ghost use Rattle.host_code.specs.declared.message.Message.TheVariants as message;
ghost use Rattle.host_code.specs.Code.{CodeShape, instruction_at};
ghost use Rattle.host_code.specs.Sound.{IsSoundCode};
ghost use Rattle.host_code.specs.Thread.{ThreadShape};
ghost use Rattle.host_code.specs.Thread.Awaited.{acknowledgement, token_of_entry};
ghost use Rattle.host_core.specs.Host as host_state;
ghost use Rattle.host_core.specs.Start.{main_frame};
ghost use Rattle.host_core.specs.Taking.{PassesCheck};
ghost use Rattle.host_core.specs.Values.{value_of_nodes};
ghost use Rattle.split_rules.specs.Expressions.{nodes_of};
ghost use Rattle.split_rules.specs.Releases.{ReleasesShape};
ghost use Rattle.event_text.specs.declared.event.Event.{Event};
ghost use Rattle.event_text.specs.declared.event.Event.TheVariants.{Take, Turn};
ghost use Rattle.net_world.specs.Fits.{ShapeFits};
ghost use Rattle.net_world.specs.Flying.{Flight};
ghost use Rattle.net_world.specs.Released.{released_at};
ghost use Rattle.net_world.specs.Secret.{IsSecret, IsQuiet, IsSeenRun};
ghost use Rattle.net_world.specs.World.{WorldShape, state_at, world_at_start, IsStep};
ghost use Rattle.token_laws.specs.Reached.{IsReached};
ghost use Rattle.token_laws.specs.Requests.{number_answered};
ghost use Rattle.token_laws.specs.TokenExamples.{small, host_id, entry_id, a_field, first_request, first_token};
ghost use Rattle.token_laws.specs.TokenExamples.{second_token};
ghost use Rattle.split_shades.specs.ShadedCode.{IsTabled};
ghost use Rattle.seen_world.specs.Eyes.{Eyes, AreEyes, Watches, sees_at, is_open, is_deep, is_hidden};
ghost use Rattle.seen_world.specs.Points.{HostsKeep, PointsHold};
ghost use Rattle.agreement.specs.Changes.{StaysSeen};
ghost use Rattle.agreement.specs.Alike.{AreStartsAlike};
ghost use Rattle.agreement.specs.Asking.{AsksElsewhere, RunsAsking, carried_index, carried_asking, asked, SeenAsking};
ghost use Rattle.agreement.specs.AskingExamples.{other_frame, other_token, asked_for};
ghost use Rattle.agreement.specs.Comes.{Comes, HasCome};
ghost use Rattle.agreement.specs.Handing.{handed, RunsHanding, shown_variables, SeenHanding, sent_view};
ghost use Rattle.agreement.specs.Leads.{HiddenEntry, links_on, hidden_waiting, Leads, Agree};
ghost use Rattle.agreement.specs.Turns.{ChangesAlone, RunsAtInstruction, Carried, carried_value, carried_in};
ghost use Rattle.agreement.specs.Turns.{SeenOperation, SeenTurn};
ghost use Rattle.agreement.specs.Values.{IsValueSeen, HoldAlike};
ghost use Rattle.agreement.specs.Views.{LowView, HostView, ShowsHost, Shows, running_view, OwedInView, goes_on, gives};
ghost use Rattle.agreement.specs.Views.{Completed, at, owed_at};
ghost use Rattle.agreement.specs.Views.{flies_open, flights_view, message_view, is_shown, exit_of};
ghost use Rattle.agreement.specs.Worked.{small_eyes, one_entry, popped_at, a_variable, idle, runs_at, set_at};
ghost use Rattle.agreement.specs.Worked.{came_to, seven, other_variable, riding_eyes};

/// What may be seen of a world, where something goes on unseen.
pub fn view_laws()
    // What is seen once all is done that is owed is one view.
    ensures once { (eyes : Eyes) (owed : OwedInView) (view first second : LowView) →
        Completed eyes owed view first → Completed eyes owed view second → first ≡ second }
    // Whatever goes on with one token in blocks that may not be seen owes the same, wherever it is.
    ensures deep { (eyes : Eyes) (host other : HostId) (place next : ℕ) (frame later : FrameId) (token : Token) →
        is_deep eyes host place ≡ true → is_deep eyes other next ≡ true →
        owed_at eyes (at host place frame token) ≡ owed_at eyes (at other next later token) }
    // Each world shows some view.
    ensures shown { (eyes : Eyes) (world : WorldShape) → (view : LowView) × Shows eyes world view }
    // In the open it goes on at the very place, where that may be seen.
    ensures in_open { (eyes : Eyes) (host : HostId) (place : ℕ) →
        is_open eyes host place ≡ true → exit_of eyes host place ≡ place }
    // In the guard of a loop that may not be seen it goes on in the open as behind the loop.
    ensures guard { (eyes : Eyes) (host : HostId) (place loop : ℕ) (there : Instr) →
        AreEyes eyes → instruction_at eyes.code host place ≡ Some there → is_open eyes host place ≡ false →
        (eyes.shades.at host place).guard ≡ Some loop →
        exit_of eyes host place ≡ exit_of eyes host (eyes.shades.exits host loop) }
    // A message whose label may not be seen leaves what is seen of a queue, where it is added at the end.
    ensures added { (eyes : Eyes) (from to : HostId) (flights : List Flight) (flight : Flight) →
        flies_open eyes flight ≡ false →
        flights_view eyes from to (flights ++ flight ∷ []) ≡ flights_view eyes from to flights }
    // So it does where it is taken out, wherever it stands.
    ensures taken { (eyes : Eyes) (from to : HostId) (flights : List Flight) (place : ℕ) (flight : Flight) →
        slice_get flights place ≡ Some flight → flies_open eyes flight ≡ false →
        flights_view eyes from to (remove flights place) ≡ flights_view eyes from to flights }
    // Nothing is seen of a thread at a place that may not be seen.
    ensures thread { (eyes : Eyes) (host : HostId) (thread : ThreadShape) →
        is_open eyes host thread.at ≡ false → running_view eyes host (Some thread) ≡ [] }
    // A host shows the same where it leaves what may be seen of it.
    ensures stays { (eyes : Eyes) (host : HostId) (old new : host_state.HostState) (view : HostView) →
        ShowsHost eyes host old view → StaysSeen eyes host old new →
        running_view eyes host new.running ≡ running_view eyes host old.running →
        filter (is_shown eyes) new.entries ≡ filter (is_shown eyes) old.entries → ShowsHost eyes host new view }
    // A hidden entry that is pushed is the last of the chain of hidden ones, which stand above all others.
    ensures chain { (eyes : Eyes) (host : HostId) (links : List HiddenEntry) (entries : List StackEntry)
        (top : StackEntry) →
        is_hidden eyes top.entry.0 ≡ true → entries ≡ links_on host links ++ filter (is_shown eyes) entries →
        top ∷ entries
        ≡ links_on host (record { host = host; entry = top } ∷ links) ++ filter (is_shown eyes) (top ∷ entries) }
{}

/// What two threads at the same place have in common.
pub fn value_laws()
    // A value that may be seen is the same in both, where they hold the same as far as it may be seen, and release the
    // same.
    ensures same { (eyes : Eyes) (pc : Label) (variables others : VarId → ℤ) (temps held : List ℤ) (first : ℕ)
        (value : ExprTree) →
        AreEyes eyes → HoldAlike eyes pc variables others temps held first value → IsValueSeen eyes pc value →
        value_of_nodes variables temps (nodes_of first value) ≡ value_of_nodes others held (nodes_of first value) }
{}

/// What will be seen of a world, where an event that may be seen brings a thread to its place.
pub fn coming_laws()
    // Where nothing else goes on unseen, the world leads to what is seen then: the thread at its place, or, where that
    // may not be seen, what is seen once all is done that it owes.
    ensures comes { (eyes : Eyes) (world : WorldShape) (me : HostId) (state : host_state.HostState)
        (thread : ThreadShape) (token : Token) (view after : LowView) →
        AreEyes eyes → HasCome eyes world me state thread token view → Comes eyes view me thread token after →
        Leads eyes world after }
    // That is one view.
    ensures once { (eyes : Eyes) (view : LowView) (host : HostId) (thread : ThreadShape) (token : Token)
        (first second : LowView) →
        Comes eyes view host thread token first → Comes eyes view host thread token second → first ≡ second }
    // In blocks that may not be seen it does not depend on the place, as behind a branch whose guard may not be seen.
    ensures deep { (eyes : Eyes) (view : LowView) (host other : HostId) (thread later : ThreadShape) (token : Token)
        (first second : LowView) →
        is_open eyes host thread.at ≡ false → is_open eyes other later.at ≡ false →
        is_deep eyes host thread.at ≡ true → is_deep eyes other later.at ≡ true →
        Comes eyes view host thread token first → Comes eyes view other later token second → first ≡ second }
{}

/// What is seen of a turn that may be seen, whether it changes its host alone, hands control over or asks another host.
pub fn seen_laws()
    // A quiet world that events lead to, and that leads to a view, leads after it to what is seen of it then.
    ensures turn { (eyes : Eyes) (rows : List declared_hosts.HostShape) (bad : ℕ) (store : List (List ℤ))
        (events : List Event) (world after : WorldShape) (host : HostId) (view : LowView)
        (alone : RunsAtInstruction eyes.code world host) →
        AreEyes eyes → Watches eyes (world_at_start eyes.code rows bad store) →
        IsReached eyes.code rows bad store events world → IsStep eyes.code world (Turn host) after →
        IsQuiet eyes.code world → Leads eyes world view →
        (seen : LowView) × SeenTurn eyes view host (carried_in eyes alone.state alone.thread alone.instruction.op) seen
        × Leads eyes after seen }
    // That is one view.
    ensures once { (eyes : Eyes) (view : LowView) (host : HostId) (carried : Carried) (first second : LowView) →
        SeenTurn eyes view host carried first → SeenTurn eyes view host carried second → first ≡ second }
    // In two quiet worlds that agree the turn carries the same, where it releases the same values in both.
    ensures carried { (eyes : Eyes) (rows : List declared_hosts.HostShape) (bad : ℕ) (store start : List (List ℤ))
        (events others : List Event) (one other : WorldShape) (host : HostId)
        (alone : RunsAtInstruction eyes.code one host)
        (twin : RunsAtInstruction eyes.code other host) →
        let operands = (eyes.shades.at host alone.thread.at).released in
        AreEyes eyes →
        map (host_state.value_in_thread alone.state alone.thread) operands
        ≡ map (host_state.value_in_thread twin.state twin.thread) operands →
        Watches eyes (world_at_start eyes.code rows bad store) →
        Watches eyes (world_at_start eyes.code rows bad start) →
        IsReached eyes.code rows bad store events one → IsReached eyes.code rows bad start others other →
        IsQuiet eyes.code one → IsQuiet eyes.code other → Agree eyes one other →
        carried_in eyes alone.state alone.thread alone.instruction.op
        ≡ carried_in eyes twin.state twin.thread twin.instruction.op }
    // So they agree after it, where both turns release the same by a table that has the rows of the shades.
    ensures agrees { (eyes : Eyes) (rows : List declared_hosts.HostShape) (bad : ℕ) (store start : List (List ℤ))
        (events others : List Event) (one other one_after other_after : WorldShape) (host : HostId)
        (table : ReleasesShape) →
        AreEyes eyes → IsTabled eyes.code eyes.shades table →
        released_at table one host ≡ released_at table other host →
        Watches eyes (world_at_start eyes.code rows bad store) →
        Watches eyes (world_at_start eyes.code rows bad start) →
        IsReached eyes.code rows bad store events one → IsReached eyes.code rows bad start others other →
        RunsAtInstruction eyes.code one host → IsStep eyes.code one (Turn host) one_after →
        IsStep eyes.code other (Turn host) other_after → IsQuiet eyes.code one → IsQuiet eyes.code other →
        Agree eyes one other → Agree eyes one_after other_after }
    // A quiet world in which a thread hands control over leads to what is seen then, which is one view.
    ensures hands { (eyes : Eyes) (rows : List declared_hosts.HostShape) (bad : ℕ) (store : List (List ℤ))
        (events : List Event) (world after : WorldShape) (host : HostId) (view : LowView) →
        RunsHanding eyes.code world host → AreEyes eyes → Watches eyes (world_at_start eyes.code rows bad store) →
        IsReached eyes.code rows bad store events world → IsStep eyes.code world (Turn host) after →
        IsQuiet eyes.code world → Leads eyes world view →
        (seen : LowView) × SeenHanding eyes view host seen × Leads eyes after seen }
    ensures hands_once { (eyes : Eyes) (view : LowView) (host : HostId) (first second : LowView) →
        SeenHanding eyes view host first → SeenHanding eyes view host second → first ≡ second }
    // So two quiet worlds that agree do after it.
    ensures hands_agree { (eyes : Eyes) (rows : List declared_hosts.HostShape) (bad : ℕ)
        (store start : List (List ℤ)) (events others : List Event) (one other one_after other_after : WorldShape)
        (host : HostId) →
        AreEyes eyes → Watches eyes (world_at_start eyes.code rows bad store) →
        Watches eyes (world_at_start eyes.code rows bad start) →
        IsReached eyes.code rows bad store events one → IsReached eyes.code rows bad start others other →
        RunsHanding eyes.code one host → IsStep eyes.code one (Turn host) one_after →
        IsStep eyes.code other (Turn host) other_after →
        IsQuiet eyes.code one → IsQuiet eyes.code other → Agree eyes one other → Agree eyes one_after other_after }
    // A quiet world in which a thread asks another host leads to what is seen then, with what it carries.
    ensures asks { (eyes : Eyes) (rows : List declared_hosts.HostShape) (bad : ℕ) (store : List (List ℤ))
        (events : List Event) (world after : WorldShape) (host : HostId) (view : LowView)
        (asking : RunsAsking eyes.code world host) →
        AreEyes eyes → Watches eyes (world_at_start eyes.code rows bad store) →
        IsReached eyes.code rows bad store events world → IsStep eyes.code world (Turn host) after →
        IsQuiet eyes.code world → Leads eyes world view →
        (seen : LowView)
        × SeenAsking eyes view host (carried_asking eyes asking.state asking.thread asking.instruction.op) seen
        × Leads eyes after seen }
    // That is one view.
    ensures asks_once { (eyes : Eyes) (view : LowView) (host : HostId) (carried : Carried) (first second : LowView) →
        SeenAsking eyes view host carried first → SeenAsking eyes view host carried second → first ≡ second }
    // In two quiet worlds that agree the turn carries the same, where it releases the same values in both.
    ensures asks_carried { (eyes : Eyes) (rows : List declared_hosts.HostShape) (bad : ℕ) (store start : List (List ℤ))
        (events others : List Event) (one other : WorldShape) (host : HostId) (asking : RunsAsking eyes.code one host)
        (twin : RunsAsking eyes.code other host) →
        let operands = (eyes.shades.at host asking.thread.at).released in
        AreEyes eyes →
        map (host_state.value_in_thread asking.state asking.thread) operands
        ≡ map (host_state.value_in_thread twin.state twin.thread) operands →
        Watches eyes (world_at_start eyes.code rows bad store) →
        Watches eyes (world_at_start eyes.code rows bad start) →
        IsReached eyes.code rows bad store events one → IsReached eyes.code rows bad start others other →
        IsQuiet eyes.code one → IsQuiet eyes.code other → Agree eyes one other →
        carried_asking eyes asking.state asking.thread asking.instruction.op
        ≡ carried_asking eyes twin.state twin.thread twin.instruction.op }
    // So they agree after it, where both turns release the same.
    ensures asks_agree { (eyes : Eyes) (rows : List declared_hosts.HostShape) (bad : ℕ) (store start : List (List ℤ))
        (events others : List Event) (one other one_after other_after : WorldShape) (host : HostId)
        (table : ReleasesShape) →
        AreEyes eyes → IsTabled eyes.code eyes.shades table →
        released_at table one host ≡ released_at table other host →
        Watches eyes (world_at_start eyes.code rows bad store) →
        Watches eyes (world_at_start eyes.code rows bad start) →
        IsReached eyes.code rows bad store events one → IsReached eyes.code rows bad start others other →
        RunsAsking eyes.code one host → IsStep eyes.code one (Turn host) one_after →
        IsStep eyes.code other (Turn host) other_after → IsQuiet eyes.code one → IsQuiet eyes.code other →
        Agree eyes one other → Agree eyes one_after other_after }
    // Each turn changes its host alone, hands control over, or asks another host.
    ensures turn_kinds { (eyes : Eyes) (rows : List declared_hosts.HostShape) (bad : ℕ) (store : List (List ℤ))
        (events : List Event) (world after : WorldShape) (host : HostId) →
        IsReached eyes.code rows bad store events world → IsStep eyes.code world (Turn host) after →
        RunsAtInstruction eyes.code world host ⊎ (RunsHanding eyes.code world host ⊎ RunsAsking eyes.code world host) }
    // It does one of these alone.
    ensures kinds_apart { (code : CodeShape) (world : WorldShape) (host : HostId) →
        (¬ (RunsAtInstruction code world host × RunsHanding code world host))
        × (¬ (RunsAtInstruction code world host × RunsAsking code world host))
        × (¬ (RunsHanding code world host × RunsAsking code world host)) }
    // So two quiet worlds that agree do after the turns of one host, where both release the same.
    ensures any_turn { (eyes : Eyes) (rows : List declared_hosts.HostShape) (bad : ℕ) (store start : List (List ℤ))
        (events others : List Event) (one other one_after other_after : WorldShape) (host : HostId)
        (table : ReleasesShape) →
        AreEyes eyes → IsTabled eyes.code eyes.shades table →
        released_at table one host ≡ released_at table other host →
        Watches eyes (world_at_start eyes.code rows bad store) →
        Watches eyes (world_at_start eyes.code rows bad start) →
        IsReached eyes.code rows bad store events one → IsReached eyes.code rows bad start others other →
        IsStep eyes.code one (Turn host) one_after → IsStep eyes.code other (Turn host) other_after →
        IsQuiet eyes.code one → IsQuiet eyes.code other → Agree eyes one other → Agree eyes one_after other_after }
{}

/// What will be seen of a world, once what goes on unseen comes to an end, where a secret event happens.
pub fn hidden_laws()
    // The world before the first event leads to a view.
    ensures start { (eyes : Eyes) (rows : List declared_hosts.HostShape) (bad : ℕ) (store : List (List ℤ)) →
        AreEyes eyes → IsSoundCode eyes.code → Watches eyes (world_at_start eyes.code rows bad store) →
        (shown : LowView) × Leads eyes (world_at_start eyes.code rows bad store) shown }
    // Two worlds before the first event agree that have the same values in all fields which may be seen and stand on
    // obeying hosts.
    ensures starts { (eyes : Eyes) (rows : List declared_hosts.HostShape) (bad : ℕ) (one other : List (List ℤ)) →
        AreEyes eyes → IsSoundCode eyes.code → Watches eyes (world_at_start eyes.code rows bad one) →
        Watches eyes (world_at_start eyes.code rows bad other) → AreStartsAlike eyes one other →
        Agree eyes (world_at_start eyes.code rows bad one) (world_at_start eyes.code rows bad other) }
    // After a secret event of a world that events lead to the same will be seen. It goes on unseen with the same owed,
    // or what was owed is seen now, or an entry that may be seen is taken off and its thread goes on at the guard of a
    // loop, which is owed then.
    ensures kept { (eyes : Eyes) (rows : List declared_hosts.HostShape) (bad : ℕ) (store : List (List ℤ))
        (events : List Event) (world after : WorldShape) (event : Event) (shown : LowView) →
        AreEyes eyes → Watches eyes (world_at_start eyes.code rows bad store) →
        IsReached eyes.code rows bad store events world → IsStep eyes.code world event after →
        IsSecret eyes.code world event → Leads eyes world shown → Leads eyes after shown }
    // So it is after events of which none may be seen.
    ensures along { (eyes : Eyes) (rows : List declared_hosts.HostShape) (bad : ℕ) (store : List (List ℤ))
        (events : List Event) (world : WorldShape) (later : List Event) (after : WorldShape) (shown : LowView) →
        AreEyes eyes → Watches eyes (world_at_start eyes.code rows bad store) →
        IsReached eyes.code rows bad store events world → IsSeenRun eyes.code world later [] after →
        Leads eyes world shown → Leads eyes after shown }
    // So a world goes on agreeing with another, whatever happens in it that may not be seen.
    ensures agrees { (eyes : Eyes) (rows : List declared_hosts.HostShape) (bad : ℕ) (store : List (List ℤ))
        (events : List Event) (world : WorldShape) (later : List Event) (after other : WorldShape) →
        AreEyes eyes → Watches eyes (world_at_start eyes.code rows bad store) →
        IsReached eyes.code rows bad store events world → IsSeenRun eyes.code world later [] after →
        Agree eyes world other → Agree eyes after other }
    // So it is after a secret turn, whatever instruction it runs.
    ensures turn { (eyes : Eyes) (world after : WorldShape) (host : HostId) (shown : LowView) →
        AreEyes eyes → IsSoundCode eyes.code → Watches eyes world → ShapeFits eyes.code world →
        ShapeFits eyes.code after → HostsKeep eyes world → IsStep eyes.code world (Turn host) after →
        IsSecret eyes.code world (Turn host) → Leads eyes world shown → Leads eyes after shown }
    // So it is after a secret take, whatever message is taken.
    ensures take { (eyes : Eyes) (world after : WorldShape) (from to : HostId) (place : ℕ) (shown : LowView) →
        AreEyes eyes → IsSoundCode eyes.code → Watches eyes world → ShapeFits eyes.code world →
        PointsHold eyes world → IsStep eyes.code world (Take from to place) after →
        IsSecret eyes.code world (Take from to place) → Leads eyes world shown → Leads eyes after shown }
    // A secret answer in flight passes its check, and so the thread goes on that waits for it.
    ensures answers { (eyes : Eyes) (world : WorldShape) (from to : HostId) (place : ℕ) (flight : Flight)
        (state : host_state.HostState) (shown : LowView) →
        ShapeFits eyes.code world → PointsHold eyes world → slice_get (world.flying from to) place ≡ Some flight →
        state_at world to ≡ Some state → sees_at eyes flight.label ≡ false →
        IsSome (number_answered flight.message) → Leads eyes world shown →
        PassesCheck eyes.code state from flight.message }
    // Where nothing secret is in flight and no secret thread runs, what will be seen is seen now. Then no secret thread
    // waits either, and no entry is hidden.
    ensures quiet { (eyes : Eyes) (world : WorldShape) (shown : LowView) →
        AreEyes eyes → Watches eyes world → ShapeFits eyes.code world → IsQuiet eyes.code world →
        Leads eyes world shown →
        Shows eyes world shown × ((host : HostId) (state : host_state.HostState) → state_at world host ≡ Some state →
        (hidden_waiting eyes host state.waiting ≡ []) × (state.entries ≡ filter (is_shown eyes) state.entries)) }
    // Such a world leads to what it shows.
    ensures calm { (eyes : Eyes) (world : WorldShape) (shown : LowView) →
        AreEyes eyes → Watches eyes world → ShapeFits eyes.code world → IsQuiet eyes.code world →
        Shows eyes world shown →
        ((host : HostId) (state : host_state.HostState) → state_at world host ≡ Some state →
        (hidden_waiting eyes host state.waiting ≡ []) × (state.entries ≡ filter (is_shown eyes) state.entries)) →
        Leads eyes world shown }
{}

/// What is owed and seen in small cases, which deny other definitions.
pub fn worked_laws()
    // At the guard of a loop that may not be seen it goes on behind the loop, and inside the loop its token is owed.
    ensures behind { exit_of small_eyes (host_id 0) 0 ≡ 3 }
    ensures at_guard { owed_at small_eyes (at (host_id 0) 1 main_frame second_token)
        ≡ goes_on (host_id 0) 3 main_frame second_token }
    ensures inside { owed_at small_eyes (at (host_id 0) 2 main_frame second_token) ≡ gives second_token }
    // A token that is given back takes the entry off. Its thread goes on, behind the loop.
    ensures pops { Completed small_eyes (gives first_token) one_entry (popped_at 3) }
    ensures pops_more { ¬ (Completed small_eyes (gives first_token) one_entry one_entry) }
    ensures pops_behind { ¬ (Completed small_eyes (gives first_token) one_entry (popped_at 0)) }
    // Another token has no effect.
    ensures other { Completed small_eyes (gives second_token) one_entry one_entry }
    // Of a message that sets what may not be seen the value is not seen.
    ensures masked_value { message_view small_eyes (host_id 0) (host_id 1) (message.Forward first_request main_frame
        a_variable (pos 7))
        ≡ message.Forward first_request main_frame a_variable (pos 0) }
    // Of values that ride those are not seen whose variables may not be, wherever they stand in the message.
    ensures masked_riders { message_view riding_eyes (host_id 0) (host_id 1) (message.RgotoWith main_frame (entry_id 1)
        second_token ((a_variable, pos 7) ∷ (other_variable, pos 8) ∷ (a_variable, pos 9) ∷ []))
        ≡ message.RgotoWith main_frame (entry_id 1) second_token
        ((a_variable, pos 0) ∷ (other_variable, pos 8) ∷ (a_variable, pos 0) ∷ []) }
    // A turn that sets a variable makes it this value and no other, and its thread goes on behind it.
    ensures sets { SeenOperation small_eyes idle (host_id 0) (runs_at 3) second_token (op.Let a_variable seven)
        (carried_value (pos 7)) (set_at 4 (pos 7)) }
    ensures sets_more { ¬ (SeenOperation small_eyes idle (host_id 0) (runs_at 3) second_token
        (op.Let a_variable seven) (carried_value (pos 7)) (set_at 4 (pos 8))) }
    // A branch leads to its target where its guard is 0, and nowhere else.
    ensures branches { SeenOperation small_eyes idle (host_id 0) (runs_at 3) second_token (op.Branch seven 6)
        (carried_value (pos 0)) (came_to 6) }
    ensures branches_more { ¬ (SeenOperation small_eyes idle (host_id 0) (runs_at 3) second_token
        (op.Branch seven 6) (carried_value (pos 1)) (came_to 6)) }
    // After a push its entry is seen.
    ensures pushes_more { ¬ (SeenOperation small_eyes idle (host_id 0) (runs_at 3) second_token
        (op.Push (entry_id 1)) (carried_value (pos 0)) (came_to 4)) }
    // A call changes its host alone where it enters a method there.
    ensures own_call { ChangesAlone small (host_id 0) None (op.Call (entry_id 1) (host_id 0)) }
    ensures other_call { ¬ (ChangesAlone small (host_id 0) None (op.Call (entry_id 1) (host_id 1))) }
    // Control is handed over to another host alone.
    ensures goes { (variables : FrameId → VarId → ℤ) →
        handed variables (host_id 0) (runs_at 3) second_token (op.Go (entry_id 1) (host_id 1))
        ≡ Some (host_id 1, message.Rgoto main_frame (entry_id 1) second_token) }
    ensures stays_here { (variables : FrameId → VarId → ℤ) →
        handed variables (host_id 0) (runs_at 3) second_token (op.Call (entry_id 1) (host_id 0)) ≡ None }
    // Values that ride with it are those of the thread's frame, and with a call those of the new frame.
    ensures goes_with { handed (λ frame x. pos frame.count) (host_id 0)
        (record (runs_at 3) { new_frame = other_frame }) second_token
        (op.GoWith (entry_id 1) (host_id 1) (a_variable ∷ []))
        ≡ Some (host_id 1, message.RgotoWith main_frame (entry_id 1) second_token ((a_variable, pos 0) ∷ [])) }
    ensures calls_with { handed (λ frame x. pos frame.count) (host_id 0)
        (record (runs_at 3) { new_frame = other_frame }) second_token
        (op.CallWith (entry_id 1) (host_id 1) (a_variable ∷ []))
        ≡ Some (host_id 1, message.RgotoWith other_frame (entry_id 1) second_token ((a_variable, pos 5) ∷ [])) }
    // Of what rides the value is not seen of a variable that may not be, and that of another is.
    ensures unseen_rider { (view : HostView) (frame : FrameId) →
        shown_variables riding_eyes view frame a_variable ≡ pos 0 }
    ensures seen_rider { (view : HostView) (frame : FrameId) →
        shown_variables riding_eyes view frame other_variable ≡ view.variables frame other_variable }
    // What is handed over is told to a misbehaving host, and in flight to another.
    ensures told { (flight : Flight) → (sent_view idle (host_id 0) (host_id 1) flight true).sent
        ≡ (host_id 0, host_id 1, flight.message) ∷ [] }
    ensures flies { (flight : Flight) →
        (sent_view idle (host_id 0) (host_id 1) flight false).flying (host_id 0) (host_id 1) ≡ flight ∷ [] }
    ensures flies_untold { (flight : Flight) → (sent_view idle (host_id 0) (host_id 1) flight false).sent ≡ [] }
    // An element is asked for of a field that stands elsewhere, and not on the host. A result for the host itself is
    // not sent.
    ensures asks_other { AsksElsewhere small (host_id 0) second_token (op.Read a_field seven) }
    ensures asks_own { ¬ (AsksElsewhere small (host_id 1) second_token (op.Read a_field seven)) }
    ensures own_result { ¬ (AsksElsewhere small (host_id 0) second_token (op.Ret a_variable seven)) }
    // A push that is asked for sends the token away, and a result goes into the frame of the token.
    ensures asks_push { asked small (runs_at 3) second_token first_request (carried_value (pos 0))
        (op.Ask (entry_id 1) (host_id 1)) ≡ Some (record {
          to = host_id 1;
          said = message.Sync first_request main_frame (entry_id 1) second_token;
          awaited = token_of_entry;
          later = record (runs_at 4) { held = None };
        }) }
    ensures sends_result { asked small (runs_at 3) other_token first_request (carried_value (pos 7))
        (op.Ret a_variable seven) ≡ Some (record {
          to = host_id 1;
          said = message.Forward first_request other_frame a_variable (pos 7);
          awaited = acknowledgement;
          later = runs_at 4;
        }) }
    // A thread that asks waits, and what it asks for is in flight: the element that it carries, and no other.
    ensures asks_once { SeenAsking small_eyes (came_to 1) (host_id 0) (carried_index (pos 0)) (asked_for (pos 0)) }
    ensures asks_for_more { ¬ (SeenAsking small_eyes (came_to 1) (host_id 0) (carried_index (pos 0))
        (asked_for (pos 7))) }
    ensures asks_on { ¬ (SeenAsking small_eyes (came_to 1) (host_id 0) (carried_index (pos 0)) (came_to 2)) }
    // No value is carried that is sent to be kept where it may not be seen.
    ensures unseen_sent { (state : host_state.HostState) (thread : ThreadShape) →
        carried_asking small_eyes state thread (op.Send a_variable (host_id 1)) ≡ carried_value (pos 0) }
    // A value is not carried of what may not be seen, nor a guard into a block that may not be seen. Other guards are.
    ensures unseen_value { (state : host_state.HostState) (thread : ThreadShape) →
        carried_in small_eyes state thread (op.Let a_variable seven) ≡ carried_value (pos 0) }
    ensures seen_guard { (state : host_state.HostState) (thread : ThreadShape) → thread.at ≡ 2 →
        carried_in small_eyes state thread (op.Branch seven 6) ≡ carried_value (pos 7) }
    ensures unseen_guard { (state : host_state.HostState) (thread : ThreadShape) → thread.at ≡ 1 →
        carried_in small_eyes state thread (op.Branch seven 6) ≡ carried_value (pos 0) }
{}
