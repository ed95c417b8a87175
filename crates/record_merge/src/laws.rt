//! What holds of worlds and of journals. The calls do nothing: their contracts are the laws.

ghost use Rattle.std.specs.Prelude.{◌≡◌, ◌≢◌, ◌≤◌, ℕ, ℤ, List, slice_index};
ghost use Rattle.js_base.specs.declared.ids.HostId.{HostId};
ghost use Rattle.event_text.specs.declared.event.Event.{Event};
ghost use Rattle.event_text.specs.Lines.{LineShape};
ghost use Rattle.host_code.specs.Code.{CodeShape};
ghost use Rattle.host_decl.specs.Hosts.{HostShape};
ghost use Rattle.net_world.specs.World.{WorldShape, IsStep, world_at_start};
ghost use Rattle.record_merge.specs.Meeting.{Journal, MeetsJournals, MeetsUpTo, IsMetToEnd, IsLeftAt, words_in};
ghost use Rattle.record_merge.specs.Merging.{IsMerged, IsMergeRefusedFor};
ghost use Rattle.record_merge.specs.declared.journal.MergeError.{MergeError};
ghost use Rattle.record_merge.specs.declared.journal.MergeError.TheVariants.{OutOfMemory};
ghost use Rattle.record_merge.specs.Single.{IsSingle};

/// Where nobody misbehaves, whatever the code, the threads that run and the messages in flight are at most one together
/// from the start on. So at most one event is possible in each world that is reached.
pub fn single_laws()
    ensures start { (code : CodeShape) (rows : List HostShape) (store : List (List ℤ)) →
        IsSingle (world_at_start code rows 0 store) }
    ensures step { (code : CodeShape) (world after : WorldShape) (event : Event) →
        IsSingle world → IsStep code world event after → IsSingle after }
    ensures one { (code : CodeShape) (world first second : WorldShape) (event other : Event) →
        IsSingle world → IsStep code world event first → IsStep code world other second → event ≡ other }
{}

/// The journals of hosts of which none misbehaves have at most one list of events that meets them. Where they are left
/// before their end there is none, and it is at one line of one journal.
pub fn merge_laws()
    ensures one_list { (code : CodeShape) (rows : List HostShape) (store : List (List ℤ)) (journals : List Journal)
        (events others : List Event) →
        MeetsJournals code (world_at_start code rows 0 store) journals events →
        MeetsJournals code (world_at_start code rows 0 store) journals others → events ≡ others }
    ensures never_both { (code : CodeShape) (world : WorldShape) (said : List (List LineShape)) (host : HostId)
        (number : ℕ) (events : List Event) →
        IsLeftAt code world said host number → ¬ MeetsJournals code world (words_in said) events }
    ensures one_refusal { (code : CodeShape) (world : WorldShape) (said : List (List LineShape)) (host other : HostId)
        (number another : ℕ) →
        IsLeftAt code world said host number → IsLeftAt code world said other another →
        (host ≡ other) × (number ≡ another) }
    // Where a list is at its end no list comes further in any journal.
    ensures meets { (code : CodeShape) (world : WorldShape) (journals : List Journal) (places : List ℕ)
        (events : List Event) →
        IsMetToEnd code world journals places events → MeetsUpTo code world journals places events }
    ensures furthest { (code : CodeShape) (rows : List HostShape) (store : List (List ℤ)) (journals : List Journal)
        (places reached : List ℕ) (events others : List Event) (host : HostId) →
        IsMetToEnd code (world_at_start code rows 0 store) journals places events →
        MeetsUpTo code (world_at_start code rows 0 store) journals reached others →
        slice_index reached host.0 ≤ slice_index places host.0 }

    // So the bytes of journals are merged into one list, or not merged for one cause.
    ensures one_merge { (code : CodeShape) (rows : List HostShape) (store : List (List ℤ)) (journals : List (List ℕ))
        (events others : List Event) →
        IsMerged code (world_at_start code rows 0 store) journals events →
        IsMerged code (world_at_start code rows 0 store) journals others → events ≡ others }
    ensures one_cause { (code : CodeShape) (world : WorldShape) (journals : List (List ℕ)) (why other : MergeError) →
        why ≢ OutOfMemory → other ≢ OutOfMemory → IsMergeRefusedFor code world journals why →
        IsMergeRefusedFor code world journals other → why ≡ other }
    ensures merged_or_refused { (code : CodeShape) (world : WorldShape) (journals : List (List ℕ))
        (events : List Event) (why : MergeError) → why ≢ OutOfMemory →
        IsMergeRefusedFor code world journals why → ¬ IsMerged code world journals events }
{}
