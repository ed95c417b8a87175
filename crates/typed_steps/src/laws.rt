//! What the host that holds the token makes of the plain run, and the hosts that answer it. The calls do nothing: their
//! contracts are the laws.

ghost use Rattle.std.specs.Prelude.{◌≡◌, ◌≢◌, ℕ, ◌+◌, ◌≤◌, ◌<◌, List, [], ◌∷◌, Some, ℤ};
ghost use Rattle.js_base.specs.declared.ids.HostId.{HostId};
ghost use Rattle.js_base.specs.declared.ids.EntryId.{EntryId};
ghost use Rattle.js_base.specs.declared.ids.FrameId.{FrameId};
ghost use Rattle.js_base.specs.declared.ids.RequestId.{RequestId};
ghost use Rattle.js_base.specs.declared.ids.VarId.{VarId};
ghost use Rattle.jif_tree.specs.Altered.{VariableIsAffected};
ghost use Rattle.jif_tree.specs.SourceRun.{Configuration};
ghost use Rattle.capability.specs.declared.token.Token.{Token};
ghost use Rattle.host_code.specs.declared.message.Message.{Message};
ghost use Rattle.host_code.specs.declared.message.Message.TheVariants as message;
ghost use Rattle.host_code.specs.Riders.{Rider};
ghost use Rattle.host_code.specs.Thread.{ThreadShape, WaitingShape};
ghost use Rattle.host_code.specs.Thread.Awaited.{acknowledgement};
ghost use Rattle.entry_check.specs.declared.ask.Ask.TheVariants as ask;
ghost use Rattle.entry_check.specs.Checks.{May};
ghost use Rattle.host_core.specs.Host.{HostState, Outcome};
ghost use Rattle.host_core.specs.Taking.{IsTaking, place_of_awaiting};
ghost use Rattle.host_core.specs.Turn.{IsTurn, label_of_turn};
ghost use Rattle.net_world.specs.World.{WorldShape};
ghost use Rattle.split_rules.specs.Handing.{Arrival, arrival_in};
ghost use Rattle.split_rules.specs.Positions.{Forward};
ghost use Rattle.typed_steps.specs.Requests.{IsRequest, IsAnswerTo, GivesResult, RidesOut, GoesTo};
ghost use Rattle.typed_steps.specs.Takes.{IsOwner, Answered, TokenArrives, Resumes};
ghost use Rattle.typed_steps.specs.Threads.{NoneKept};
ghost use Rattle.typed_steps.specs.Turns.{IsActing, Turned};
ghost use Rattle.typed_steps.specs.Views.{Split, View};
ghost use Rattle.typed_steps.specs.Weights.{IsFueledRequest, STEP, weight_at};

/// A turn of the host that runs the thread with the token makes no step of the plain run, or one; and then the thread
/// goes on, or waits for what it asked another host for, or its token goes on.
pub fn turn_laws()
    ensures turned { (split : Split) (c : Configuration) (view : View) (world : WorldShape) (host : HostId)
        (old : HostState) (thread : ThreadShape) (outcome : Outcome) →
        IsActing split c view world host old thread → IsTurn split.code old outcome →
        (label : ℕ) × (label_of_turn split.code old ≡ Some label)
        × Turned split c view world host old thread outcome }
{}

/// Whoever takes a request of that host, or a result, makes what it is for, and answers. Whoever takes its token has
/// what rode with that, and a thread starts there. Where that host takes the answer, its thread goes on.
pub fn take_laws()
    ensures request { (split : Split) (c : Configuration) (view : View) (world : WorldShape) (holder owner : HostId)
        (waiting : WaitingShape) (old : HostState) (asked : Message) (outcome : Outcome) →
        IsOwner split c view world owner old → IsRequest split c view holder owner waiting asked →
        IsTaking split.code old holder asked outcome →
        Answered split c view world holder owner waiting old
        (λ fuel. IsFueledRequest split view.chain holder waiting.thread.at fuel asked) outcome }
    ensures result { (split : Split) (c : Configuration) (view : View) (world : WorldShape) (holder owner : HostId)
        (waiting : WaitingShape) (old : HostState) (request : RequestId) (frame : FrameId) (x : VarId) (value : ℤ)
        (outcome : Outcome) → IsOwner split c view world owner old → waiting.awaited ≡ acknowledgement →
        waiting.request ≡ request → May split.code owner (ask.Forward x) holder →
        GivesResult split c view holder waiting.thread frame x value owner →
        IsTaking split.code old holder (message.Forward request frame x value) outcome →
        Answered split c view world holder owner waiting old
        (λ fuel. weight_at split view.chain holder waiting.thread.at + 2 ≤ fuel + STEP) outcome }
    ensures arrival { (split : Split) (c : Configuration) (view : View) (world : WorldShape) (from to : HostId)
        (old : HostState) (said : Message) (arrival : Arrival) (outcome : Outcome) →
        IsOwner split c view world to old → arrival_in said ≡ Some arrival →
        (goes : GoesTo split c view from to arrival) → IsTaking split.code old from said outcome →
        TokenArrives split c view world to old goes.there arrival outcome }
    ensures answer { (split : Split) (c : Configuration) (view : View) (holder owner : HostId)
        (waiting : WaitingShape) (state : HostState) (place : ℕ) (answer : Message) (outcome : Outcome) →
        place_of_awaiting state waiting.awaited waiting.request owner ≡ Some place →
        IsAnswerTo split c view holder waiting answer → IsTaking split.code state owner answer outcome →
        Resumes split c view holder waiting state place outcome }
{}

/// Worked clauses on what rides with a thread: all that is still to be sent, to the one host to which the thread goes,
/// and with the values of its call.
pub fn riding_examples()
    // A value rides that is the call's.
    ensures rides { (split : Split) (c : Configuration) (view : View) (to : HostId) (entry : EntryId) (token : Token)
        (forward : Forward) → view.out ≡ forward ∷ [] → forward.host ≡ to → NoneKept c →
        view.sender < view.naming.count →
        RidesOut split c view to (record {
          frame = view.naming.frame view.sender;
          entry = entry;
          token = token;
          riders = (forward.variable, view.values view.sender forward.variable.0) ∷ [];
        }) }
    // Nothing of what is still to be sent may be left out, and nothing else rides.
    ensures left_out { (split : Split) (c : Configuration) (view : View) (to : HostId) (arrival : Arrival)
        (first second : Forward) (rider : Rider) → view.out ≡ first ∷ second ∷ [] → arrival.riders ≡ rider ∷ [] →
        ¬ RidesOut split c view to arrival }
    ensures none_left { (split : Split) (c : Configuration) (view : View) (to : HostId) (arrival : Arrival)
        (rider : Rider) (others : List Rider) → view.out ≡ [] → arrival.riders ≡ rider ∷ others →
        ¬ RidesOut split c view to arrival }
    // What is to be sent to another host does not ride.
    ensures elsewhere { (split : Split) (c : Configuration) (view : View) (to : HostId) (arrival : Arrival)
        (forward : Forward) → view.out ≡ forward ∷ [] → forward.host ≢ to → ¬ RidesOut split c view to arrival }
    // Another value rides only where the variable may be affected.
    ensures other_value { (split : Split) (c : Configuration) (view : View) (to : HostId) (arrival : Arrival)
        (x : VarId) (value : ℤ) → arrival.riders ≡ (x, value) ∷ [] → value ≢ view.values view.sender x.0 →
        ¬ VariableIsAffected split.exposure x → ¬ RidesOut split c view to arrival }
    // No value rides out of a frame of another call.
    ensures other_frame { (split : Split) (c : Configuration) (view : View) (to : HostId) (arrival : Arrival) →
        arrival.frame ≢ view.naming.frame view.sender → ¬ RidesOut split c view to arrival }
{}
