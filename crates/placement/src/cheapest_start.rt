//! The starting plan that costs least.

ghost use Rattle.std.specs.Prelude.{◌≡◌, ◌<◌, All, IfOk, length};
ghost use Rattle.js_base.specs.declared.limits.TheConstants.{HOSTS};
ghost use Rattle.jif_tree.specs.Trees.{program_tree};
ghost use Rattle.jif_tree.specs.Limits.{IsWithinLimits};
ghost use Rattle.need_labels.specs.Labelled.{labelled_of};
ghost use Rattle.msg_cost.specs.Cost.{plan_cost};
ghost use Rattle.place_rules.specs.PlaceRules.{IsWordOfSome};
ghost use Rattle.placement.specs.Starting.{IsStartOf, IsCheapestStart};

use crate::costed::Costed;
use crate::starting_plan::starting_plan;
use host_decl::Hosts;
use jif_tree::Checked;
use js_base::{HostId, OutOfMemory};
use msg_cost::cost;
use need_labels::Needs;
use place_rules::Allowed;
use std::alloc::Global;

/// The starting plan that costs least, with its cost. Of those that cost as little it is the one for the first host.
pub fn cheapest_start(
    alloc: Global,
    checked: &Checked,
    needs: &Needs,
    hosts: &Hosts,
    allowed: &Allowed,
) -> Result<Costed, OutOfMemory>
    requires within { IsWithinLimits (program_tree checked.now.program) }
    requires fields { All (IsWordOfSome (length hosts.now.hosts)) allowed.now.fields }
    requires statements { All (IsWordOfSome (length hosts.now.hosts)) allowed.now.statements }
    ensures start { IfOk result (λ best.
        IsCheapestStart (plan_cost (labelled_of checked.now) needs.now hosts.now) allowed.now
        (length hosts.now.hosts) best.plan) }
    ensures cost { IfOk result (λ best.
        best.cost ≡ plan_cost (labelled_of checked.now) needs.now hosts.now best.plan) }
{
    let mut best = costed_start(alloc, checked, needs, hosts, allowed, HostId(0))?;
    for number in 1..hosts.hosts().len() {
        let next = costed_start(alloc, checked, needs, hosts, allowed, HostId(number as u8))?;
        if next.cost < best.cost {
            best = next;
        }
    }
    Ok(best)
}

/// The starting plan for the host, and its cost.
fn costed_start(
    alloc: Global,
    checked: &Checked,
    needs: &Needs,
    hosts: &Hosts,
    allowed: &Allowed,
    host: HostId,
) -> Result<Costed, OutOfMemory>
    requires within { IsWithinLimits (program_tree checked.now.program) }
    requires fields { All (IsWordOfSome (length hosts.now.hosts)) allowed.now.fields }
    requires statements { All (IsWordOfSome (length hosts.now.hosts)) allowed.now.statements }
    requires host { host.0 < HOSTS }
    ensures start { IfOk result (λ start. IsStartOf allowed.now host.0 start.plan) }
    ensures cost { IfOk result (λ start.
        start.cost ≡ plan_cost (labelled_of checked.now) needs.now hosts.now start.plan) }
{
    let plan = starting_plan(alloc, allowed, host)?;
    let cost = cost(checked, needs, hosts, &plan);
    Ok(Costed { plan, cost })
}
