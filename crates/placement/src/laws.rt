//! Laws of plans.

ghost use Rattle.std.specs.Prelude.{◌≡◌, ◌<◌, ◌≤◌, length};
ghost use Rattle.host_decl.specs.Hosts.{HostsShape};
ghost use Rattle.need_labels.specs.Labelled.{Labelled};
ghost use Rattle.need_labels.specs.Needs.{NeedsShape};
ghost use Rattle.need_labels.specs.Plan.{PlanShape};
ghost use Rattle.msg_cost.specs.Cost.{plan_cost};
ghost use Rattle.place_rules.specs.Allowed.{AllowedShape};
ghost use Rattle.place_rules.specs.PlaceRules.{AreAllowed};
ghost use Rattle.placement.specs.Choice.{IsTried};
ghost use Rattle.placement.specs.Placing.{IsPlaced, IsAllowedPlan, HasHosts};

use place_rules::place_rule_laws;

/// Laws of where programs stand, for whoever reasons about plans. The call does nothing.
pub fn placement_laws()
    // A program has one plan at most, by one row of words.
    ensures one_plan { (labelled : Labelled) (needs : NeedsShape) (hosts : HostsShape)
        (allowed other : AllowedShape) (first second : PlanShape) →
        IsPlaced labelled needs hosts allowed first → IsPlaced labelled needs hosts other second →
        (allowed ≡ other) × (first ≡ second) }

    // Where each part has a host that may hold it, there is a plan.
    ensures some_plan { (labelled : Labelled) (needs : NeedsShape) (hosts : HostsShape) (allowed : AllowedShape) →
        0 < length hosts.hosts → AreAllowed labelled needs hosts allowed →
        (plan : PlanShape) × IsPlaced labelled needs hosts allowed plan }

    // Each field and each statement stands on a host that may hold it.
    ensures allowed { (labelled : Labelled) (needs : NeedsShape) (hosts : HostsShape) (allowed : AllowedShape)
        (plan : PlanShape) → IsPlaced labelled needs hosts allowed plan → IsAllowedPlan labelled needs hosts plan }

    // It costs no more than any plan that was tried: the starting plans, and all plans that put each part on a host
    // that may hold it and differ from this one by one part.
    ensures least { (labelled : Labelled) (needs : NeedsShape) (hosts : HostsShape) (allowed : AllowedShape)
        (plan other : PlanShape) → IsPlaced labelled needs hosts allowed plan →
        IsTried allowed (length hosts.hosts) plan other →
        plan_cost labelled needs hosts plan ≤ plan_cost labelled needs hosts other }

    // All hosts of the plan are hosts.
    ensures hosts { (labelled : Labelled) (needs : NeedsShape) (hosts : HostsShape) (allowed : AllowedShape)
        (plan : PlanShape) → IsPlaced labelled needs hosts allowed plan → HasHosts hosts plan }
{
    place_rule_laws();
}
