//! What misbehaving hosts can't affect, whatever they do. The calls do nothing: their contracts are the laws.

ghost use Rattle.std.specs.Prelude.{◌≡◌, ◌≢◌, ◌⊎◌, ◌++◌, true, IfSome, ℕ, ℤ, List, [], ◌∷◌, All, Some, None};
ghost use Rattle.std.specs.Int.{bit_at};
ghost use Rattle.js_base.specs.declared.ids.FieldId.{FieldId};
ghost use Rattle.js_base.specs.declared.ids.FrameId.{FrameId};
ghost use Rattle.js_base.specs.declared.ids.HostId.{HostId};
ghost use Rattle.js_base.specs.declared.ids.RequestId.{RequestId};
ghost use Rattle.host_decl.specs.Hosts.{HostShape as HostRow};
ghost use Rattle.jif_tree.specs.declared.program.Program.{Program};
ghost use Rattle.jif_tree.specs.Altered.{Exposure, FieldIsAffected, StatementIsAffected, VariableIsAffected};
ghost use Rattle.jif_tree.specs.SourceRun.{Configuration, configuration_at_start};
ghost use Rattle.msg_cost.specs.Moves.{PlannedShape};
ghost use Rattle.host_code.specs.declared.message.Message.{Message};
ghost use Rattle.host_code.specs.declared.message.Message.TheVariants as message;
ghost use Rattle.host_code.specs.Riders.{Rider};
ghost use Rattle.host_code.specs.Code.{halt};
ghost use Rattle.host_code.specs.Sound.{IsSoundCode};
ghost use Rattle.host_code.specs.Thread.{ThreadShape, WaitingShape};
ghost use Rattle.host_core.specs.Host.{HostState};
ghost use Rattle.capability.specs.declared.token.Token.{Token};
ghost use Rattle.ics_stack.specs.declared.stack.StackEntry.{StackEntry};
ghost use Rattle.event_text.specs.declared.event.Event.{Event};
ghost use Rattle.event_text.specs.declared.event.Event.TheVariants.{Act, Take, Turn};
ghost use Rattle.event_text.specs.declared.event.BadMessage.{BadMessage};
ghost use Rattle.net_world.specs.Fits.{HasOwnToken};
ghost use Rattle.net_world.specs.Told.{message_made, token_in};
ghost use Rattle.net_world.specs.World.{WorldShape, IsStep, IsRun, has_halted, misbehaves, state_at, tokens_sent};
ghost use Rattle.net_world.specs.World.{world_at_start};
ghost use Rattle.split_rules.specs.Placed.{PlacedProgram, planned_from};
ghost use Rattle.split_rules.specs.Walk.{entry_id};
ghost use Rattle.split_rules.specs.Allowed.{IsAllowed};
ghost use Rattle.split_rules.specs.Held.{IsWellHeld};
ghost use Rattle.split_rules.specs.OpenExamples.{untrusted, trusted_by_first};
ghost use Rattle.split_rules.specs.Worked.{field_id, var_id, statement_id};
ghost use Rattle.split_rules.specs.SplitCode.{split_code};
ghost use Rattle.split_rules.specs.Splittable.{IsSplittable};
ghost use Rattle.split_rules.specs.TypedCode.{Table, IsTypedCode};
ghost use Rattle.token_laws.specs.Numbers.{CodeHasNumbers, RowsHaveNumbers, EventHasNumbers, MessageHasNumbers};
ghost use Rattle.token_laws.specs.Reached.{IsReached};
ghost use Rattle.typed_steps.specs.Views.{Split, View};
ghost use Rattle.simulation.specs.Obeying.{IsSet};
ghost use Rattle.token_laws.specs.TokenExamples.{first_token, given, handing, host_id, small, start};
ghost use Rattle.integrity.specs.Altering.{WorldFollowsAltered, StandsFor};
ghost use Rattle.integrity.specs.Exposed.{AreAsBefore, FieldsStand, bad_labels, exposure_of};
ghost use Rattle.integrity.specs.Holding.{AreLinked, Holder, runs, lost, IsHoldersEvent, IsOutsideBut, IsStanding};
ghost use Rattle.integrity.specs.Holding.{IsTight};
ghost use Rattle.integrity.specs.Holding.{stuck, StartsTight};
ghost use Rattle.integrity.specs.IntegrityExamples.{sent_threat, sending, waiting, two_fields, exposed_to, store};
ghost use Rattle.integrity.specs.IntegrityExamples.{before_set, sets_to_nine, after_set, after_refused, halted_world};
ghost use Rattle.integrity.specs.IntegrityExamples.{at_end, last_entry, not_at_end, giving, ended};
ghost use Rattle.integrity.specs.Loose.{AreUnsentBelow, IsLoose, Loosens, Recovers, StandsLoosely};
ghost use Rattle.integrity.specs.Standing.{Goes, SetsThere, Stalls, StandsBy, threat_in};
ghost use Rattle.integrity.specs.Outside.{EntryIsOpen, IsOutside, MessageIsOpen, StateIsOpen, Threat, threat_of};

use split_rules::{opening_examples, opening_laws, split_laws, trust_laws};
use token_laws::token_examples;

/// Where all that goes on in a world could be the doing of misbehaving hosts, it is so after any event, and no field or
/// variable has changed that they may not affect.
pub fn outside_laws()
    ensures kept { (placed : PlacedProgram) (table : Table) (bad : ℕ) (store : List (List ℤ)) (events : List Event)
        (world after : WorldShape) (event : Event) →
        let code = split_code placed in
        let threat = threat_of placed table bad in
        IsSplittable placed → IsAllowed placed →
        IsTypedCode (planned_from placed) code table →
        IsReached code placed.hosts.hosts bad store events world → IsStep code world event after →
        IsOutside threat world →
        IsOutside threat after × AreAsBefore threat.exposure world after }
    // So it is after any list of events.
    ensures along { (placed : PlacedProgram) (table : Table) (bad : ℕ) (store : List (List ℤ))
        (events more : List Event) (world after : WorldShape) →
        let code = split_code placed in
        let threat = threat_of placed table bad in
        IsSplittable placed → IsAllowed placed →
        IsTypedCode (planned_from placed) code table →
        IsReached code placed.hosts.hosts bad store events world →
        All (HasOwnToken (world_at_start code placed.hosts.hosts bad store)) more → IsRun code world more after →
        IsOutside threat world → IsOutside threat after × AreAsBefore threat.exposure world after }
{
    opening_laws();
}

/// Where the root misbehaves, nothing goes on at the start. So at every moment of every list of events each field on an
/// obeying host, which no misbehaving host may affect, has its value at the start, and the hosts follow an altered run
/// that makes no step.
pub fn root_laws()
    ensures outside { (placed : PlacedProgram) (table : Table) (bad : ℕ) (store : List (List ℤ)) →
        let code = split_code placed in
        bit_at bad code.root.0 ≡ 1 →
        IsOutside (threat_of placed table bad) (world_at_start code placed.hosts.hosts bad store) }
    ensures stands { (program : Program) (placed : PlacedProgram) (bad : ℕ) (store : List (List ℤ))
        (events : List Event) (world : WorldShape) →
        let code = split_code placed in
        IsSplittable placed → IsAllowed placed →
        IsReached code placed.hosts.hosts bad store events world → bit_at bad code.root.0 ≡ 1 →
        StandsFor code (exposure_of placed bad) world
        (configuration_at_start program store) }
    ensures follows { (program : Program) (placed : PlacedProgram) (bad : ℕ) (store : List (List ℤ))
        (events : List Event) (world : WorldShape) →
        let code = split_code placed in
        IsSplittable placed → IsAllowed placed →
        IsReached code placed.hosts.hosts bad store events world → bit_at bad code.root.0 ≡ 1 →
        WorldFollowsAltered program (exposure_of placed bad) code placed.hosts.hosts bad store events world }
{
    split_laws();
    trust_laws();
    opening_laws();
}

/// A chain of entries that are to be taken off, and whoever holds the token of the first of them, where some hosts
/// misbehave. What is neither the chain's nor the holder's can't touch them: it has none of their tokens, wakes no
/// thread that waits for the holder, and changes nothing that misbehaving hosts may not affect.
pub fn chain_laws()
    // Where the root obeys, the entry that ends the program is such a chain before the first event, and the thread at
    // `main` holds its token.
    ensures start { (threat : Threat) (rows : List HostRow) (bad : ℕ) (store : List (List ℤ)) (state : HostState) →
        IsSoundCode threat.code →
        state_at (world_at_start threat.code rows bad store) threat.code.root ≡ Some state →
        StartsTight threat (world_at_start threat.code rows bad store) }
    // An event that is none of the holder's leaves the chain, the holder and its token.
    ensures kept { (placed : PlacedProgram) (table : Table) (bad : ℕ) (store : List (List ℤ)) (events : List Event)
        (world after : WorldShape) (event : Event)
        (chain : List StackEntry) (holder : Holder) →
        let code = split_code placed in
        let threat = threat_of placed table bad in
        IsSplittable placed → IsAllowed placed →
        IsTypedCode (planned_from placed) code table →
        IsReached code placed.hosts.hosts bad store events world →
        HasOwnToken (world_at_start code placed.hosts.hosts bad store) event → IsStep code world event after →
        IsTight threat chain holder world → ¬ IsHoldersEvent holder world event →
        IsTight threat chain holder after × AreAsBefore threat.exposure world after }
{
    opening_laws();
}

/// While misbehaving hosts were sent no token of the chain, a world stands for a configuration of an altered run by
/// what is seen of it and by whoever holds the token.
pub fn standing_laws()
    // Where the root obeys, the world before the first event stands for the start of the program.
    ensures start { (split : Split) (rows : List HostRow) (bad : ℕ) (store : List (List ℤ)) (state : HostState) →
        state_at (world_at_start split.code rows bad store) split.code.root ≡ Some state →
        (view : View) × (thread : ThreadShape)
        × StandsBy split (configuration_at_start split.program store) view (runs split.code.root thread)
        (world_at_start split.code rows bad store) }
    // It stands for the same configuration, by the same, after any event that is none of the holder's.
    ensures kept { (split : Split) (placed : PlacedProgram) (bad : ℕ) (store : List (List ℤ)) (events : List Event)
        (world after : WorldShape) (event : Event)
        (c : Configuration) (view : View) (holder : Holder) →
        threat_in split ≡ threat_of placed split.table bad → IsSplittable placed → IsAllowed placed →
        IsReached split.code placed.hosts.hosts bad store events world →
        HasOwnToken (world_at_start split.code placed.hosts.hosts bad store) event →
        IsStep split.code world event after →
        StandsBy split c view holder world → ¬ IsHoldersEvent holder world event → StandsBy split c view holder after }
    // Where the holder's thread makes a turn that tells misbehaving hosts nothing, it stands for the same configuration
    // again, or for one that a step leads to.
    ensures turned { (split : Split) (rows : List HostRow) (bad : ℕ) (store : List (List ℤ)) (events : List Event)
        (world after : WorldShape) (host : HostId) (thread : ThreadShape) (c : Configuration) (view : View) →
        split.exposure.bad ≡ bad_labels bad 0 rows → IsReached split.code rows bad store events world →
        CodeHasNumbers split.code → RowsHaveNumbers store → All EventHasNumbers events →
        IsStep split.code world (Turn host) after → after.sent ≡ world.sent →
        StandsBy split c view (runs host thread) world → Goes split c after }
    // So it does where a message of the holder's is taken: its request, the answer to that, or the token in flight.
    ensures taken { (split : Split) (rows : List HostRow) (bad : ℕ) (store : List (List ℤ)) (events : List Event)
        (world after : WorldShape) (c : Configuration) (view : View) (holder : Holder) (from to : HostId) (place : ℕ) →
        split.exposure.bad ≡ bad_labels bad 0 rows → IsReached split.code rows bad store events world →
        CodeHasNumbers split.code → RowsHaveNumbers store → All EventHasNumbers events →
        StandsBy split c view holder world → IsStep split.code world (Take from to place) after →
        IsHoldersEvent holder world (Take from to place) → Goes split c after }
    // Where a turn of the holder's thread sets a field of a misbehaving host, the step is made at once, and the thread
    // waits for that host.
    ensures told { (split : Split) (rows : List HostRow) (bad : ℕ) (store : List (List ℤ)) (events : List Event)
        (world after : WorldShape) (host : HostId) (thread : ThreadShape) (c : Configuration) (view : View)
        (to : HostId) (request : RequestId) (field : FieldId) (index value : ℤ) →
        split.exposure.bad ≡ bad_labels bad 0 rows → IsReached split.code rows bad store events world →
        CodeHasNumbers split.code → RowsHaveNumbers store → All EventHasNumbers events →
        IsStep split.code world (Turn host) after → misbehaves world to ≡ true →
        after.sent ≡ world.sent ++ (host, to, message.Set request field index value) ∷ [] →
        StandsBy split c view (runs host thread) world → SetsThere split c view host after }
    // So the thread waits for a misbehaving host where its turn sends that anything but a token: a request for a field
    // or to set one, a variable, or a result. The world stands for the same configuration, or for one that a step leads
    // to.
    ensures stalled { (split : Split) (placed : PlacedProgram) (bad : ℕ) (store : List (List ℤ)) (events : List Event)
        (world after : WorldShape)
        (host : HostId) (thread : ThreadShape) (c : Configuration) (view : View) (to : HostId) (sent : Message) →
        threat_in split ≡ threat_of placed split.table bad → IsAllowed placed →
        IsWellHeld placed → IsReached split.code placed.hosts.hosts bad store events world →
        CodeHasNumbers split.code → RowsHaveNumbers store → All EventHasNumbers events →
        IsStep split.code world (Turn host) after → misbehaves world to ≡ true →
        after.sent ≡ world.sent ++ (host, to, sent) ∷ [] → token_in sent ≡ None →
        StandsBy split c view (runs host thread) world → Stalls split c host after }
    // Where its turn sends a misbehaving host a token, that is the token of the first entry. What was due before that
    // entry is left out, and only what is due behind the chain is left to do.
    ensures handed { (split : Split) (placed : PlacedProgram) (bad : ℕ) (store : List (List ℤ)) (events : List Event)
        (world after : WorldShape)
        (host : HostId) (thread : ThreadShape) (c : Configuration) (view : View) (to : HostId) (sent : Message)
        (token : Token) →
        threat_in split ≡ threat_of placed split.table bad → IsSplittable placed →
        IsAllowed placed → IsReached split.code placed.hosts.hosts bad store events world →
        CodeHasNumbers split.code → RowsHaveNumbers store → All EventHasNumbers events →
        IsStep split.code world (Turn host) after → misbehaves world to ≡ true →
        after.sent ≡ world.sent ++ (host, to, sent) ∷ [] → token_in sent ≡ Some token →
        StandsBy split c view (runs host thread) world → Loosens split c after }
    // So one of these comes of every turn of the holder's thread, whatever that sends.
    ensures loosens { (split : Split) (placed : PlacedProgram) (bad : ℕ) (store : List (List ℤ)) (events : List Event)
        (world after : WorldShape)
        (host : HostId) (thread : ThreadShape) (c : Configuration) (view : View) →
        threat_in split ≡ threat_of placed split.table bad → IsSplittable placed →
        IsAllowed placed → IsWellHeld placed →
        IsReached split.code placed.hosts.hosts bad store events world → CodeHasNumbers split.code →
        RowsHaveNumbers store →
        All EventHasNumbers events → IsStep split.code world (Turn host) after →
        StandsBy split c view (runs host thread) world →
        Goes split c after ⊎ (Stalls split c host after ⊎ Loosens split c after) }
    // Where the holder's thread waits for a misbehaving host and that answers it, the thread goes on. It waits on where
    // it waits for an answer of another kind.
    ensures acted { (split : Split) (rows : List HostRow) (bad : ℕ) (store : List (List ℤ)) (events : List Event)
        (world after : WorldShape) (c : Configuration) (view : View) (host : HostId) (waiting : WaitingShape)
        (made : BadMessage) →
        let start = world_at_start split.code rows bad store in
        let act = Act waiting.asked host made in
        split.exposure.bad ≡ bad_labels bad 0 rows → IsReached split.code rows bad store events world →
        StandsBy split c view (stuck host waiting) world → HasOwnToken start act → IsStep split.code world act after →
        IfSome (message_made (tokens_sent world) made) MessageHasNumbers →
        IsHoldersEvent (stuck host waiting) world act →
        Goes split c after ⊎ StandsBy split c view (stuck host waiting) after }
{
    opening_laws();
}

/// A chain is loose where misbehaving hosts may have the token of its first entry, and what is left to do is due behind
/// it. Until the token is given back all that goes on is outside, and the configuration stays.
pub fn loose_laws()
    // So it is where that token is lost.
    ensures from_lost { (split : Split) (c : Configuration) (view : View) (world : WorldShape) →
        StandsBy split c view lost world → StandsLoosely split c view world }
    // After any event the world stands for the same configuration. The chain is loose still, or the token was given
    // back and the thread of the first entry goes on, or the program is at its end.
    ensures recovers { (split : Split) (placed : PlacedProgram) (bad : ℕ) (store : List (List ℤ)) (events : List Event)
        (world after : WorldShape)
        (event : Event) (c : Configuration) (view : View) →
        threat_in split ≡ threat_of placed split.table bad → IsSplittable placed → IsAllowed placed →
        IsReached split.code placed.hosts.hosts bad store events world →
        HasOwnToken (world_at_start split.code placed.hosts.hosts bad store) event →
        IsStep split.code world event after →
        StandsLoosely split c view world → Recovers split c after }
{
    opening_laws();
}

/// Whichever hosts misbehave, and whatever they are told, send and are answered, the hosts follow an altered run of the
/// program: at every moment each field on an obeying host, which no misbehaving host may affect, has the value of one
/// configuration of it, and once an obeying root has halted that is at its end.
pub fn integrity_laws()
    ensures follows { (program : Program) (placed : PlacedProgram) (bad : ℕ) (store : List (List ℤ))
        (events : List Event) (world : WorldShape) →
        let code = split_code placed in
        IsSet program placed → CodeHasNumbers code → RowsHaveNumbers store →
        IsReached code placed.hosts.hosts bad store events world → All EventHasNumbers events →
        WorldFollowsAltered program (exposure_of placed bad) code placed.hosts.hosts bad store events world }
{
    split_laws();
    trust_laws();
    opening_laws();
}

/// What the second of two hosts may affect in a small program and a small world.
pub fn integrity_examples()
    // The hosts of the word's bits are known by their labels.
    ensures second_bad { (sent_threat 2).exposure.bad ≡ untrusted ∷ [] }
    ensures first_bad { (sent_threat 1).exposure.bad ≡ trusted_by_first ∷ [] }
    ensures none_bad { (sent_threat 0).exposure.bad ≡ [] }
    // A host that nobody trusts may affect what nobody trusts, and nothing that the first principal trusts.
    ensures affects { FieldIsAffected (sent_threat 2).exposure (field_id 0) }
    ensures affects_statement { StatementIsAffected (sent_threat 2).exposure (statement_id 2) }
    ensures denied_variable { ¬ VariableIsAffected (sent_threat 2).exposure (var_id 0) }
    ensures denied_statement { ¬ StatementIsAffected (sent_threat 2).exposure (statement_id 1) }
    // That a local is sent which the first principal trusts is none of its doing. That a thread waits for the answer
    // could be, since only what is due then counts.
    ensures sending_denied { ¬ StateIsOpen (sent_threat 2) sending }
    ensures waits { StateIsOpen (sent_threat 2) waiting }
    // Where nobody misbehaves, nothing that waits is anybody's doing.
    ensures waiting_denied { ¬ StateIsOpen (sent_threat 0) waiting }
    // Nor may it send a value for that local, or enter where the first principal has to trust who enters. It may where
    // nobody has to, but not at the entry that ends the program.
    ensures forward_denied { (request : RequestId) (frame : FrameId) (value : ℤ) →
        ¬ MessageIsOpen (sent_threat 2) (message.Forward request frame (var_id 0) value) }
    ensures main_denied { ¬ EntryIsOpen (sent_threat 2) (entry_id 1) }
    ensures enters { EntryIsOpen (sent_threat 2) (entry_id 2) }
    ensures halt_denied { (threat : Threat) → ¬ EntryIsOpen threat halt }
    // Where it may enter it may not bring a value for that local along, whatever else rides. Where it may not enter it
    // may not do so with values either.
    ensures riding_denied { (frame : FrameId) (token : Token) (value : ℤ) (others : List Rider) →
        ¬ MessageIsOpen (sent_threat 2)
        (message.RgotoWith frame (entry_id 2) token ((var_id 0, value) ∷ others)) }
    ensures riding_behind_denied { (frame : FrameId) (token : Token) (value : ℤ) (first : Rider)
        (others : List Rider) →
        ¬ MessageIsOpen (sent_threat 2)
        (message.RgotoWith frame (entry_id 2) token (first ∷ (var_id 0, value) ∷ others)) }
    ensures riding_entry_denied { (frame : FrameId) (token : Token) (riders : List Rider) →
        ¬ MessageIsOpen (sent_threat 2) (message.RgotoWith frame (entry_id 1) token riders) }
    // It sets a field that it may affect, which then has not what the store has. So that no field changes is false, and
    // so it would be to say that nobody misbehaves.
    ensures sets { IsRun two_fields before_set (sets_to_nine 0 ∷ []) after_set }
    ensures stands { FieldsStand two_fields (exposed_to 2) after_set store }
    ensures stands_denied { ¬ FieldsStand two_fields (exposed_to 0) after_set store }
    ensures stands_for_denied { (c : Configuration) → c.store ≡ store →
        ¬ StandsFor two_fields (exposed_to 0) after_set c }
    ensures as_before_denied { ¬ AreAsBefore (exposed_to 0) before_set after_set }
    // To set the other field is refused.
    ensures refuses { IsRun two_fields before_set (sets_to_nine 1 ∷ []) after_refused }
    // Where the entry that ends the program is on a stack, not all is the doing of misbehaving hosts, whoever they are.
    ensures outside_denied { (planned : PlannedShape) (table : Table) (exposure : Exposure) →
        let threat : Threat = record { planned = planned; code = small; table = table; exposure = exposure } in
        ¬ IsOutside threat start }
    // A world in which the program has halted stands for a configuration at its end, and for no other. One in which it
    // has not need not.
    ensures running { (exposure : Exposure) → StandsFor small exposure start not_at_end }
    ensures halted { (exposure : Exposure) → StandsFor small exposure halted_world at_end }
    ensures halted_denied { (exposure : Exposure) → ¬ StandsFor small exposure halted_world not_at_end }
{
    opening_examples();
}

/// Chains and their holders in small worlds.
pub fn chain_examples()
    // Before the first event the thread at `main` holds the token of the entry that ends the program. So that is not
    // lost, and not all is outside.
    ensures not_lost { (threat : Threat) (last : StackEntry) (below : List StackEntry) → last.token ≡ first_token →
        ¬ IsTight threat (last ∷ below) lost start }
    ensures not_outside { (planned : PlannedShape) (table : Table) (exposure : Exposure) →
        let threat : Threat = record { planned = planned; code = small; table = table; exposure = exposure } in
        ¬ IsOutsideBut threat [] lost start }
    // No entry of a chain has a token that a misbehaving host was sent.
    ensures sent_falls { (on_stack : StackEntry) → on_stack.token ≡ first_token → ¬ IsStanding given on_stack }
    // A turn of the host where the holder's thread runs is the holder's, and one of another host is not.
    ensures own_turn { (thread : ThreadShape) → IsHoldersEvent (runs (host_id 0) thread) start (Turn (host_id 0)) }
    ensures other_turn { (thread : ThreadShape) → ¬ IsHoldersEvent (runs (host_id 0) thread) start (Turn (host_id 1)) }
    // Each entry of a chain keeps the token of the next.
    ensures unlinked { (one next : StackEntry) → one.kept ≢ next.token → ¬ AreLinked (one ∷ next ∷ []) }
    // Where the token of the entry that ends the program is handed over to a misbehaving host, the chain is loose.
    ensures loose { (planned : PlannedShape) (table : Table) (exposure : Exposure) →
        let threat : Threat = record { planned = planned; code = handing; table = table; exposure = exposure } in
        IsLoose threat (last_entry ∷ []) given }
    // Where that host gives the token back, the entry is taken off, and the program has halted.
    ensures gives_back { IsRun handing given (giving ∷ []) ended }
    ensures ends { has_halted handing.root ended }
    // The token of an entry below the first may not be handed over.
    ensures sent_below { (first below : StackEntry) → below.token ≡ first_token →
        ¬ AreUnsentBelow given (first ∷ below ∷ []) }
    // Where the root has halted, no thread is the holder.
    ensures halted_denied { (split : Split) (c : Configuration) (view : View) (host : HostId) (thread : ThreadShape)
        (world : WorldShape) → has_halted split.code.root world → ¬ StandsBy split c view (runs host thread) world }
{
    token_examples();
}
