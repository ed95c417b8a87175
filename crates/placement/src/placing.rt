//! Where a program stands.

ghost use Rattle.std.specs.Prelude.{IfOk, IfErr};
ghost use Rattle.jif_tree.specs.Trees.{program_tree};
ghost use Rattle.jif_tree.specs.Limits.{IsWithinLimits};
ghost use Rattle.need_labels.specs.Labelled.{labelled_of};
ghost use Rattle.place_rules.specs.Refusal.{IsPlaceRefused};
ghost use Rattle.placement.specs.Placing.{IsPlaced};

use crate::cheapest_start::cheapest_start;
use crate::costed::Counted;
use crate::lowering::lowered;
use host_decl::Hosts;
use jif_tree::Checked;
use msg_cost::index_of;
use need_labels::{Needs, Plan};
use place_rules::{Allowed, PlaceError, allowed_on, place_rule_laws};
use std::alloc::Global;

/// Which hosts may hold each field and each statement of the program, and the plan that is chosen.
///
/// The starting plan for a host puts all that this host may hold there, and anything else on the first host that may
/// hold it. The choice begins with the starting plan that costs least, and where two cost as little with that for the
/// earlier host. Then passes go over all fields and all statements by number, and over the other hosts that may hold
/// each, in the order of the host file. A part is moved as soon as a move lowers the cost, and its remaining hosts are
/// tried from there. The last pass makes no move.
///
/// # Errors
/// The first field that no host may hold, or where each field has a host the first such statement; or that memory ran
/// out.
pub fn place(
    alloc: Global,
    checked: &Checked,
    needs: &Needs,
    hosts: &Hosts,
) -> Result<(Allowed, Plan), PlaceError>
    requires { IsWithinLimits (program_tree checked.now.program) }
    ensures placed { IfOk result (λ placed.
        IsPlaced (labelled_of checked.now) needs.now hosts.now placed.0 placed.1) }
    ensures refused { IfErr result (IsPlaceRefused (labelled_of checked.now) needs.now hosts.now) }
{
    place_rule_laws();
    let allowed = allowed_on(alloc, checked, needs, hosts)?;
    let start = cheapest_start(alloc, checked, needs, hosts, &allowed)?;
    let counted = Counted {
        checked,
        needs,
        hosts,
    };
    let index = index_of(alloc, checked, needs, hosts)?;
    let plan = lowered(alloc, counted, &index, &allowed, start)?;
    Ok((allowed, plan))
}
