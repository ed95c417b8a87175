//! What holds of every world. The calls do nothing: their contracts are the laws.

ghost use Rattle.std.specs.Prelude.{◌≡◌, ◌≢◌, ◌⊎◌, ◌++◌, ℕ, ℤ, Some, None, List, All, slice_get};
ghost use Rattle.js_base.specs.declared.ids.HostId.{HostId};
ghost use Rattle.event_text.specs.declared.event.Event.{Event};
ghost use Rattle.event_text.specs.OwnTokens.{IsOwnEvent};
ghost use Rattle.host_code.specs.Code.{CodeShape};
ghost use Rattle.host_code.specs.Sound.{IsSoundCode};
ghost use Rattle.host_decl.specs.Hosts.{HostShape};
ghost use Rattle.net_world.specs.Fits.{WorldModel, WorldFits, ShapeFits, HasOwnToken, world_of};
ghost use Rattle.net_world.specs.Secret.{IsReadable, IsSecret, IsQuiet};
ghost use Rattle.net_world.specs.Told.{SentMessage};
ghost use Rattle.net_world.specs.World.{WorldShape, IsStep, IsRun, EventRefusal, refusal_of, mover, misbehaves};
ghost use Rattle.net_world.specs.World.{AreHostsOf, world_at_start};

/// What an event leaves is determined, and it leaves most of the world alone.
pub fn step_laws()
    // An event leaves one world.
    ensures one { (code : CodeShape) (world first second : WorldShape) (event : Event) →
        IsStep code world event first → IsStep code world event second → first ≡ second }
    // What happens is not refused.
    ensures not_refused { (code : CodeShape) (world after : WorldShape) (event : Event) →
        IsStep code world event after → refusal_of world event ≡ None }
    // What is not refused happens.
    ensures happens_or_refused { (code : CodeShape) (world : WorldShape) (event : Event) →
        ((after : WorldShape) × IsStep code world event after)
        ⊎ ((why : EventRefusal) × (refusal_of world event ≡ Some why)) }
    // It is the step of one host.
    ensures others { (code : CodeShape) (world after : WorldShape) (event : Event) (host : HostId) →
        IsStep code world event after → host.0 ≢ (mover event).0 →
        slice_get after.hosts host.0 ≡ slice_get world.hosts host.0 }
    // The same hosts misbehave.
    ensures misbehaving { (code : CodeShape) (world after : WorldShape) (event : Event) (host : HostId) →
        IsStep code world event after → misbehaves after host ≡ misbehaves world host }
    // What misbehaving hosts were sent is only added to.
    ensures told { (code : CodeShape) (world after : WorldShape) (event : Event) → IsStep code world event after →
        (more : List SentMessage) × (after.sent ≡ world.sent ++ more) }
{}

/// The states, what is in flight and what misbehaving hosts were sent fit the code from the start on.
pub fn fits_laws()
    ensures start { (code : CodeShape) (rows : List HostShape) (bad : ℕ) (store : List (List ℤ)) →
        IsSoundCode code → AreHostsOf code rows → ShapeFits code (world_at_start code rows bad store) }
    ensures step { (code : CodeShape) (world after : WorldShape) (event : Event) →
        IsSoundCode code → ShapeFits code world → HasOwnToken world event → IsStep code world event after →
        ShapeFits code after }
    ensures run { (code : CodeShape) (world after : WorldShape) (events : List Event) →
        IsSoundCode code → ShapeFits code world → All (HasOwnToken world) events →
        IsRun code world events after → ShapeFits code after }
    // What is said to be of misbehaving hosts is so in the first world, and stays so.
    ensures own_at_start { (code : CodeShape) (rows : List HostShape) (bad : ℕ) (store : List (List ℤ))
        (event : Event) → AreHostsOf code rows → IsOwnEvent code.hosts bad event →
        HasOwnToken (world_at_start code rows bad store) event }
    ensures own { (code : CodeShape) (world after : WorldShape) (made event : Event) →
        IsStep code world made after → HasOwnToken world event → HasOwnToken after event }
    // What a world of the program keeps is no less.
    ensures world { (code : CodeShape) (world : WorldModel) → WorldFits code world →
        ShapeFits code (world_of world) }
{}

/// What misbehaving hosts may see is decided. A label is readable or not, an event is secret or not, and a world that
/// fits the code is quiet or not.
pub fn secret_laws()
    ensures readable { (code : CodeShape) (world : WorldShape) (label : ℕ) →
        IsReadable code world label ⊎ ¬ IsReadable code world label }
    ensures secret { (code : CodeShape) (world : WorldShape) (event : Event) →
        IsSecret code world event ⊎ ¬ IsSecret code world event }
    ensures quiet { (code : CodeShape) (world : WorldShape) → ShapeFits code world →
        IsQuiet code world ⊎ ¬ IsQuiet code world }
{}

/// What events leave is determined, and lists of events compose.
pub fn run_laws()
    ensures one { (code : CodeShape) (world first second : WorldShape) (events : List Event) →
        IsRun code world events first → IsRun code world events second → first ≡ second }
    ensures joined { (code : CodeShape) (world middle after : WorldShape) (events later : List Event) →
        IsRun code world events middle → IsRun code middle later after → IsRun code world (events ++ later) after }
    ensures split { (code : CodeShape) (world after : WorldShape) (events later : List Event) →
        IsRun code world (events ++ later) after →
        (middle : WorldShape) × IsRun code world events middle × IsRun code middle later after }
{}
