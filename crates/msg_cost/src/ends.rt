//! Where methods end.

ghost use Rattle.std.specs.Prelude.{◌≡◌, ◌≤◌, length};
ghost use Rattle.jif_tree.specs.LabelRules.{method_at};
ghost use Rattle.jif_tree.specs.Trees.{program_tree};
ghost use Rattle.js_base.specs.declared.limits.TheConstants.{METHODS};
ghost use Rattle.msg_cost.specs.Kept.{AreEnds};
ghost use Rattle.msg_cost.specs.Moves.{called_end};
ghost use Rattle.msg_cost.specs.Tables.{AreBodies};
ghost use Rattle.msg_cost.specs.Views.{seated_shape};

use crate::seated::Seated;
use crate::settled::walk_end;
use crate::tokens::block_end;
use js_base::limits::{HOSTS, METHODS};
use js_base::{HostId, MethodId};

/// The hosts that hold the token behind the bodies of the methods. They are found once for a plan, so that a call need
/// not go over the body of its method.
pub fn method_ends(planned: &Seated<'_>) -> [HostId; METHODS]
    requires { length (program_tree planned.now.program.now).methods ≤ METHODS }
    ensures { AreEnds (seated_shape planned.now) result }
{
    let mut ends = [HostId(0); METHODS];
    for (place, method) in planned.program.methods.iter().enumerate() {
        ends[place] = block_end(planned, planned.host_of(method.head), &method.body);
    }
    ends
}

/// The host that holds the token behind the body of a method, the first host where there is no such method.
pub fn called_end(planned: &Seated<'_>, ends: &[HostId], method: MethodId) -> HostId
    requires { AreEnds (seated_shape planned.now) ends.now }
    ensures { result
        ≡ called_end (seated_shape planned.now) (method_at (program_tree planned.now.program.now) method) }
{
    ends.get(method.0 as usize).copied().unwrap_or(HostId(0))
}

/// The same, found by the tables of the bodies.
pub fn listed_end(planned: &Seated<'_>, bodies: &[[u16; HOSTS]], method: MethodId) -> HostId
    requires { AreBodies planned.now.needs.now planned.now.hosts.now planned.now.program.now.methods.items bodies.now }
    ensures { result
        ≡ called_end (seated_shape planned.now) (method_at (program_tree planned.now.program.now) method) }
{
    let place = method.0 as usize;
    match planned.program.methods.get(place) {
        Some(called) => {
            let home = planned.host_of(called.head);
            walk_end(planned, home, &called.body, &bodies[place])
        }
        None => HostId(0),
    }
}
