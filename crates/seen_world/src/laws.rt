//! Laws of what misbehaving hosts may see. The calls do nothing: their contracts are the laws.

ghost use Rattle.std.specs.Prelude.{◌≡◌, ◌↔◌, ℕ, Bool, ℤ, true, false, List, Some, None, IfSome, IsTrue, slice_get};
ghost use Rattle.js_base.specs.declared.ids.HostId.{HostId};
ghost use Rattle.js_base.specs.declared.ids.FieldId.{FieldId};
ghost use Rattle.js_base.specs.declared.ids.FrameId.{FrameId};
ghost use Rattle.js_base.specs.declared.ids.EntryId.{EntryId};
ghost use Rattle.label_lattice.specs.declared.label.Label.{Label};
ghost use Rattle.capability.specs.declared.token.Token.{Token};
ghost use Rattle.host_decl.specs.Hosts as declared_hosts;
ghost use Rattle.host_code.specs.declared.code.Entry.{Entry};
ghost use Rattle.host_code.specs.declared.instruction.Instr.{Instr};
ghost use Rattle.host_code.specs.Code.{CodeShape, CodeFieldShape, instruction_at, field_at, variable_at};
ghost use Rattle.host_code.specs.Riders.{Rider};
ghost use Rattle.host_code.specs.Sound.{IsSoundCode};
ghost use Rattle.host_code.specs.Thread.{ThreadShape};
ghost use Rattle.host_core.specs.Fits.{StateFits};
ghost use Rattle.host_core.specs.Host as host_state;
ghost use Rattle.host_core.specs.Taking.{IsTaking, PassesCheck};
ghost use Rattle.host_core.specs.Turn.{IsTurn, label_of_turn};
ghost use Rattle.host_code.specs.declared.message.Message.{Message};
ghost use Rattle.host_code.specs.declared.message.Message.TheVariants as message;
ghost use Rattle.event_text.specs.declared.event.Event.{Event};
ghost use Rattle.event_text.specs.declared.event.Event.TheVariants.{Take, Turn};
ghost use Rattle.net_world.specs.Flying.{Flight};
ghost use Rattle.net_world.specs.Secret.{IsReadable, IsSecret};
ghost use Rattle.net_world.specs.World.{WorldShape, state_at, world_at_start, IsStep};
ghost use Rattle.net_world.specs.Fits.{ShapeFits};
ghost use Rattle.split_rules.specs.Placed.{PlacedProgram};
ghost use Rattle.split_rules.specs.Allowed.{IsAllowed};
ghost use Rattle.split_rules.specs.Asking.{AreGranted};
ghost use Rattle.split_rules.specs.Held.{IsWellHeld};
ghost use Rattle.split_rules.specs.SplitCode.{split_code};
ghost use Rattle.split_rules.specs.Splittable.{IsSplittable};
ghost use Rattle.split_shades.specs.Flows.{AreResultsLabelled};
ghost use Rattle.split_shades.specs.Shades.{EntryShade};
ghost use Rattle.split_shades.specs.ShadedCode.{Shades, IsShadedCode, AreKnownInCode};
ghost use Rattle.split_shades.specs.Shading.{Scene};
ghost use Rattle.split_shades.specs.Sites.{ReleasesNothing, scene_of};
ghost use Rattle.token_laws.specs.Reached.{IsReached};
ghost use Rattle.seen_world.specs.Eyes.{Eyes, AreEyes, IsBegun, Watches, sees_at, is_open, is_deep, is_hidden};
ghost use Rattle.seen_world.specs.Eyes.{sees_level, NamesHost};
ghost use Rattle.seen_world.specs.Points.{RunsWell, HostKeeps, HostsKeep, MessageCarriesWell, IsAskedBy, FliesWell};
ghost use Rattle.seen_world.specs.Points.{ShowsNoHidden, AsksForNoHidden, IsLabelledAs, IsCheckedByLabels, IsGrantedTo};
ghost use Rattle.seen_world.specs.Points.{SetsHidden, EntersHidden, PointsHold};

/// Which labels misbehaving hosts may see.
pub fn eye_laws()
    // Shaded code has a test of labels for each set of misbehaving hosts, which tells those that one of them may see.
    ensures eyes { (scene : Scene) (code : CodeShape) (shades : Shades) (bad : HostId → Bool) →
        IsShadedCode scene code shades → AreKnownInCode scene.basis scene.planned code → AreGranted code →
        IsBegun scene code →
        (sees : Label → Bool)
        × AreEyes (record { scene = scene; code = code; shades = shades; bad = bad; sees = sees }) }
    // So has the code of each program that was checked, placed and split.
    ensures split { (placed : PlacedProgram) (may_release : Bool) (bad : HostId → Bool) →
        IsSplittable placed → IsAllowed placed → IsWellHeld placed →
        AreResultsLabelled placed.labelled.program → (may_release ≡ false → ReleasesNothing placed.labelled.program) →
        (shades : Shades) × (sees : Label → Bool) × AreEyes (record {
          scene = scene_of placed may_release;
          code = split_code placed;
          shades = shades;
          bad = bad;
          sees = sees;
        }) }
    // The test tells which labels are readable in a world in which the same hosts misbehave.
    ensures readable { (eyes : Eyes) (world : WorldShape) (label : ℕ) →
        AreEyes eyes → Watches eyes world →
        (IsTrue (sees_at eyes label) ↔ IsReadable eyes.code world label) }
    // A turn is secret just where the test says so of the program label at the place of the thread.
    ensures turns { (eyes : Eyes) (world : WorldShape) (host : HostId) (state : host_state.HostState)
        (thread : ThreadShape) (there : Instr) →
        AreEyes eyes → Watches eyes world → state_at world host ≡ Some state → state.me ≡ host →
        state.running ≡ Some thread → instruction_at eyes.code host thread.at ≡ Some there →
        ((is_open eyes host thread.at ≡ false) ↔ IsSecret eyes.code world (Turn host)) }
    // A take is secret just where the test says so of the label of the message.
    ensures takes { (eyes : Eyes) (world : WorldShape) (from to : HostId) (place : ℕ) (flight : Flight) →
        AreEyes eyes → Watches eyes world → slice_get (world.flying from to) place ≡ Some flight →
        ((sees_at eyes flight.label ≡ false) ↔ IsSecret eyes.code world (Take from to place)) }
{}

/// What follows at the places of code from what misbehaving hosts may see.
pub fn place_laws()
    // Who may see an instruction may see its block.
    ensures block { (eyes : Eyes) (host : HostId) (place : ℕ) (there : Instr) →
        AreEyes eyes → instruction_at eyes.code host place ≡ Some there → is_open eyes host place ≡ true →
        is_deep eyes host place ≡ false }
    // Who may see the entry whose token is held there may see the block.
    ensures level { (eyes : Eyes) (host : HostId) (place : ℕ) (there : Instr) →
        AreEyes eyes → instruction_at eyes.code host place ≡ Some there →
        sees_level eyes (eyes.shades.at host place).level ≡ true → is_deep eyes host place ≡ false }
    // Who may see an entry may see the block where it stands, whose token is held there, and who pushes it.
    ensures entries { (eyes : Eyes) (number : ℕ) (entry : Entry) (it : EntryShade) →
        AreEyes eyes → slice_get eyes.code.entries number ≡ Some entry →
        slice_get eyes.shades.entries number ≡ Some it → eyes.sees it.label ≡ true →
        (eyes.sees it.block ≡ true) × (sees_level eyes it.level ≡ true) × (is_hidden eyes number ≡ false) }
    // A misbehaving host may see its own entries.
    ensures own_entries { (eyes : Eyes) (number : ℕ) (entry : Entry) (it : EntryShade) →
        AreEyes eyes → slice_get eyes.code.entries number ≡ Some entry →
        slice_get eyes.shades.entries number ≡ Some it → eyes.bad entry.host ≡ true → eyes.sees it.label ≡ true }
    // It may see its own fields.
    ensures own_fields { (eyes : Eyes) (field : FieldId) (there : CodeFieldShape) →
        AreEyes eyes → field_at eyes.code field ≡ Some there → eyes.bad there.host ≡ true →
        sees_at eyes there.label ≡ true }
    // An instruction that names a misbehaving host, or one of its fields, may be seen.
    ensures named { (eyes : Eyes) (host on : HostId) (place : ℕ) (there : Instr) →
        AreEyes eyes → instruction_at eyes.code host place ≡ Some there → NamesHost eyes.code there.op on →
        eyes.bad on ≡ true → is_open eyes host place ≡ true }
{}

/// What holds of the threads of each host, and of the entries on its stack.
pub fn point_laws()
    // It holds of every world that events lead to, with what else holds of messages in flight and of what misbehaving
    // hosts were sent.
    ensures kept { (eyes : Eyes) (rows : List declared_hosts.HostShape) (bad : ℕ) (store : List (List ℤ))
        (events : List Event) (world : WorldShape) →
        AreEyes eyes → Watches eyes (world_at_start eyes.code rows bad store) →
        IsReached eyes.code rows bad store events world → Watches eyes world × PointsHold eyes world }
    // It holds before the first event.
    ensures start { (eyes : Eyes) (rows : List declared_hosts.HostShape) (bad : ℕ) (store : List (List ℤ)) →
        AreEyes eyes → IsSoundCode eyes.code → Watches eyes (world_at_start eyes.code rows bad store) →
        HostsKeep eyes (world_at_start eyes.code rows bad store) }
    // A turn of a host keeps it, whatever instruction it runs.
    ensures turned { (eyes : Eyes) (world after : WorldShape) (host : HostId) →
        AreEyes eyes → IsSoundCode eyes.code → Watches eyes world → ShapeFits eyes.code world →
        HostsKeep eyes world → IsStep eyes.code world (Turn host) after → HostsKeep eyes after }
    // So it is kept on the host itself.
    ensures kept_by_turn { (eyes : Eyes) (state : host_state.HostState) (outcome : host_state.Outcome) →
        AreEyes eyes → IsSoundCode eyes.code → StateFits eyes.code state → eyes.bad state.me ≡ false →
        HostKeeps eyes state.me state → IsTurn eyes.code state outcome → HostKeeps eyes state.me outcome.state }
    // The taking of a message in flight keeps it, where the token in the message may be held where it comes to.
    ensures taken { (eyes : Eyes) (world after : WorldShape) (from to : HostId) (place : ℕ) (flight : Flight) →
        AreEyes eyes → ShapeFits eyes.code world → HostsKeep eyes world →
        slice_get (world.flying from to) place ≡ Some flight → MessageCarriesWell eyes to flight.message →
        IsStep eyes.code world (Take from to place) after → HostsKeep eyes after }
    // So it is kept on the host itself, whoever sent the message. Of one that fails its check nothing is asked.
    ensures kept_by_take { (eyes : Eyes) (state : host_state.HostState) (from : HostId) (said : Message)
        (outcome : host_state.Outcome) →
        AreEyes eyes → HostKeeps eyes state.me state → state.running ≡ None →
        (PassesCheck eyes.code state from said → MessageCarriesWell eyes state.me said) →
        IsTaking eyes.code state from said outcome → HostKeeps eyes state.me outcome.state }
    // The token in what a turn sends may be held where it comes to, and a request names the instruction that sends it.
    ensures carried { (eyes : Eyes) (state : host_state.HostState) (thread : ThreadShape)
        (outcome : host_state.Outcome) →
        AreEyes eyes → state.running ≡ Some thread → RunsWell eyes state.me thread →
        IsTurn eyes.code state outcome → IfSome outcome.sent (λ sent. FliesWell eyes state.me sent.0 sent.1) }
    // So may that in what a host answers, which goes to whoever sent the message and names what asked for it.
    ensures answered { (eyes : Eyes) (state : host_state.HostState) (from : HostId) (said : Message)
        (outcome : host_state.Outcome) →
        AreEyes eyes → eyes.bad state.me ≡ false → IsAskedBy eyes from state.me said →
        IsTaking eyes.code state from said outcome →
        IfSome outcome.sent (λ sent. (sent.0 ≡ from) × FliesWell eyes state.me sent.0 sent.1) }
    // So may that in a message of a misbehaving host which passes its check, where it is not hidden.
    ensures made { (eyes : Eyes) (state : host_state.HostState) (from : HostId) (said : Message) →
        AreEyes eyes → IsSoundCode eyes.code → StateFits eyes.code state → eyes.bad from ≡ true →
        HostKeeps eyes state.me state → ShowsNoHidden eyes said → PassesCheck eyes.code state from said →
        MessageCarriesWell eyes state.me said }
    // What a turn sends carries the label of the instruction that it names. Where that label may be seen, what is sent
    // has no hidden token.
    ensures labelled { (eyes : Eyes) (state : host_state.HostState) (thread : ThreadShape)
        (outcome : host_state.Outcome) (label : ℕ) →
        AreEyes eyes → state.running ≡ Some thread → RunsWell eyes state.me thread →
        IsTurn eyes.code state outcome → label_of_turn eyes.code state ≡ Some label →
        IfSome outcome.sent (λ sent. IsLabelledAs eyes state.me sent.0 sent.1 label
        × (sees_at eyes label ≡ true → ShowsNoHidden eyes sent.1)) }
    // So does an answer to a message that carries its label, and that asks for the push of no hidden entry where the
    // label may be seen.
    ensures answer_labelled { (eyes : Eyes) (state : host_state.HostState) (from : HostId) (said : Message)
        (outcome : host_state.Outcome) (label : ℕ) →
        IsLabelledAs eyes from state.me said label → (sees_at eyes label ≡ true → AsksForNoHidden eyes said) →
        IsTaking eyes.code state from said outcome →
        IfSome outcome.sent (λ sent. IsLabelledAs eyes state.me sent.0 sent.1 label
        × (sees_at eyes label ≡ true → ShowsNoHidden eyes sent.1)) }
    // The host that a request comes to, which a turn sends, grants it.
    ensures granted { (eyes : Eyes) (state : host_state.HostState) (thread : ThreadShape)
        (outcome : host_state.Outcome) →
        AreEyes eyes → state.running ≡ Some thread → IsTurn eyes.code state outcome →
        IfSome outcome.sent (λ sent. IsGrantedTo eyes state.me sent.0 sent.1) }
    // So each request in flight passes its check, secret or not, and so does each message that hands control over at an
    // entry.
    ensures passes_request { (eyes : Eyes) (world : WorldShape) (from to : HostId) (place : ℕ) (flight : Flight)
        (state : host_state.HostState) →
        ShapeFits eyes.code world → PointsHold eyes world → slice_get (world.flying from to) place ≡ Some flight →
        state_at world to ≡ Some state → IsCheckedByLabels flight.message →
        PassesCheck eyes.code state from flight.message }
    // The variable or the field that a message sets may not be seen, where the message carries a label that may not be.
    ensures sets { (eyes : Eyes) (world : WorldShape) (from to : HostId) (place : ℕ) (flight : Flight) →
        AreEyes eyes → PointsHold eyes world → slice_get (world.flying from to) place ≡ Some flight →
        sees_at eyes flight.label ≡ false → SetsHidden eyes flight.message }
    // Where values ride with a message, it sets each of the variables that ride.
    ensures rides { (eyes : Eyes) (frame : FrameId) (entry : EntryId) (token : Token) (riders : List Rider) (place : ℕ)
        (rider : Rider) →
        SetsHidden eyes (message.RgotoWith frame entry token riders) → slice_get riders place ≡ Some rider →
        IfSome (variable_at eyes.code rider.0) (λ there. sees_at eyes there.label ≡ false) }
    // Nor may the block of the entry that such a message pushes, or at which it hands control over.
    ensures enters { (eyes : Eyes) (world : WorldShape) (from to : HostId) (place : ℕ) (flight : Flight) →
        AreEyes eyes → PointsHold eyes world → slice_get (world.flying from to) place ≡ Some flight →
        sees_at eyes flight.label ≡ false → EntersHidden eyes flight.message }
    // What is answered to a misbehaving host has no hidden token.
    ensures answered_openly { (eyes : Eyes) (state : host_state.HostState) (from : HostId) (said : Message)
        (outcome : host_state.Outcome) →
        AreEyes eyes → eyes.bad from ≡ true → IsTaking eyes.code state from said outcome →
        IfSome outcome.sent (λ sent. ShowsNoHidden eyes sent.1) }
    // Nor has what a turn sends to one.
    ensures told_openly { (eyes : Eyes) (state : host_state.HostState) (thread : ThreadShape)
        (outcome : host_state.Outcome) →
        AreEyes eyes → state.running ≡ Some thread → RunsWell eyes state.me thread →
        IsTurn eyes.code state outcome →
        IfSome outcome.sent (λ sent. eyes.bad sent.0 ≡ true → ShowsNoHidden eyes sent.1) }
    // Where it holds, a secret turn sends no misbehaving host anything.
    ensures silent { (eyes : Eyes) (world after : WorldShape) (host : HostId) →
        AreEyes eyes → Watches eyes world → ShapeFits eyes.code world → HostsKeep eyes world →
        IsStep eyes.code world (Turn host) after → IsSecret eyes.code world (Turn host) → after.sent ≡ world.sent }
    // The taking of a message in flight sends them nothing, secret or not.
    ensures taken_silently { (eyes : Eyes) (world after : WorldShape) (from to : HostId) (place : ℕ) →
        AreEyes eyes → Watches eyes world → ShapeFits eyes.code world → PointsHold eyes world →
        IsStep eyes.code world (Take from to place) after → after.sent ≡ world.sent }
    // So no secret event of a world that events lead to sends them anything.
    ensures secretly { (eyes : Eyes) (rows : List declared_hosts.HostShape) (bad : ℕ) (store : List (List ℤ))
        (events : List Event) (world after : WorldShape) (event : Event) →
        AreEyes eyes → Watches eyes (world_at_start eyes.code rows bad store) →
        IsReached eyes.code rows bad store events world → IsStep eyes.code world event after →
        IsSecret eyes.code world event → after.sent ≡ world.sent }
    // To whom a secret turn sends obeys.
    ensures told { (eyes : Eyes) (state : host_state.HostState) (thread : ThreadShape) (outcome : host_state.Outcome) →
        AreEyes eyes → state.running ≡ Some thread → RunsWell eyes state.me thread →
        is_open eyes state.me thread.at ≡ false → IsTurn eyes.code state outcome →
        IfSome outcome.sent (λ sent. eyes.bad sent.0 ≡ false) }
{}
