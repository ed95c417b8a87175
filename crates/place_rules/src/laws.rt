//! Laws of which hosts may hold what.

ghost use Rattle.std.specs.Prelude.{◌≡◌, ◌≢◌, ◌≤◌, ◌⊎◌, All, length};
ghost use Rattle.js_base.specs.declared.limits.TheConstants.{HOSTS};
ghost use Rattle.host_decl.specs.Hosts.{HostsShape};
ghost use Rattle.need_labels.specs.Labelled.{Labelled};
ghost use Rattle.need_labels.specs.Needs.{NeedsShape};
ghost use Rattle.place_rules.specs.Allowed.{AllowedShape};
ghost use Rattle.place_rules.specs.PlaceRules.{AreAllowed, IsWordOfSome};
ghost use Rattle.place_rules.specs.Refusal.{IsPlaceRefused};
ghost use Rattle.place_rules.specs.declared.place_error.PlaceError.{PlaceError};
ghost use Rattle.place_rules.specs.declared.place_error.PlaceError.TheVariants as error;

/// Laws of which hosts may hold what, for whoever reasons about plans. The call does nothing.
pub fn place_rule_laws()
    // A program has one row of words at most.
    ensures one_allowed { (labelled : Labelled) (needs : NeedsShape) (hosts : HostsShape)
        (first second : AllowedShape) → AreAllowed labelled needs hosts first →
        AreAllowed labelled needs hosts second → first ≡ second }

    // It is refused for one cause at most, except that memory may run out.
    ensures one_refusal { (labelled : Labelled) (needs : NeedsShape) (hosts : HostsShape)
        (first second : PlaceError) → IsPlaceRefused labelled needs hosts first →
        IsPlaceRefused labelled needs hosts second →
        first ≢ error.OutOfMemory → second ≢ error.OutOfMemory → first ≡ second }

    // A program that has words is refused only where memory runs out.
    ensures never_both { (labelled : Labelled) (needs : NeedsShape) (hosts : HostsShape)
        (allowed : AllowedShape) (why : PlaceError) → AreAllowed labelled needs hosts allowed →
        IsPlaceRefused labelled needs hosts why → why ≡ error.OutOfMemory }

    // It has words, or is refused for a cause.
    ensures allowed_or_refused { (labelled : Labelled) (needs : NeedsShape) (hosts : HostsShape) →
        length hosts.hosts ≤ HOSTS → ((allowed : AllowedShape) × AreAllowed labelled needs hosts allowed)
        ⊎ ((why : PlaceError) × (why ≢ error.OutOfMemory) × IsPlaceRefused labelled needs hosts why) }

    // Each word has a host at least, and only hosts.
    ensures some_host { (labelled : Labelled) (needs : NeedsShape) (hosts : HostsShape) (allowed : AllowedShape) →
        AreAllowed labelled needs hosts allowed →
        All (IsWordOfSome (length hosts.hosts)) allowed.fields
        × All (IsWordOfSome (length hosts.hosts)) allowed.statements }
{}
