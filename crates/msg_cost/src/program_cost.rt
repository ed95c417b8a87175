//! What a program costs under a plan.

ghost use Rattle.std.specs.Prelude.{◌≡◌, ◌<◌, ◌≤◌, ◌^◌, ◌-ℤ◌, pos, length};
ghost use Rattle.std.specs.List.{flat_map};
ghost use Rattle.jif_tree.specs.Trees.{program_tree};
ghost use Rattle.jif_tree.specs.Limits.{IsWithinLimits};
ghost use Rattle.need_labels.specs.Labelled.{labelled_of};
ghost use Rattle.msg_cost.specs.Cost.{cost_of, plan_cost};
ghost use Rattle.js_base.specs.declared.limits.TheConstants.{METHODS};
ghost use Rattle.msg_cost.specs.Kept.{IsCostKept};
ghost use Rattle.msg_cost.specs.Steps.{moved};
ghost use Rattle.msg_cost.specs.Terms.{method_terms, program_terms};
ghost use Rattle.msg_cost.specs.Views.{seated_shape, capped};

use crate::blocks::block_cost;
use crate::ends::{called_end, method_ends};
use crate::kept::{KEPT_VARIABLES, Kept};
use crate::messages::message;
use crate::seated::Seated;
use crate::step::Step;
use crate::tokens::called_home;
use crate::values::note_reading;
use host_decl::Hosts;
use jif_tree::Checked;
use need_labels::{Needs, Plan};

/// The cost of the bodies of all methods.
fn bodies_cost(planned: &Seated<'_>, kept: &Kept<'_>) -> u64
    requires { IsCostKept (seated_shape planned.now) kept.now }
    ensures { result ≡ capped (cost_of planned.now.hosts.now
        (flat_map (method_terms (seated_shape planned.now)) (program_tree planned.now.program.now).methods)) }
{
    let mut total: u64 = 0;
    for method in &planned.program.methods {
        let home = planned.host_of(method.head);
        total = total.saturating_add(block_cost(planned, kept, 1, home, &method.body));
    }
    total
}

/// The cost of all messages of a program.
pub fn program_cost(planned: &Seated<'_>) -> u64
    requires { length (program_tree planned.now.program.now).methods ≤ METHODS }
    ensures { result ≡ capped (cost_of planned.now.hosts.now (program_terms (seated_shape planned.now))) }
{
    let main = planned.program.main;
    let home = called_home(planned, main);
    let ends = method_ends(planned);
    let end = called_end(planned, &ends, main);
    let mut reading = [0; KEPT_VARIABLES];
    let found = note_reading(planned, &mut reading);
    let kept = Kept {
        ends: &ends,
        reading: &reading,
        found,
    };
    bodies_cost(planned, &kept).saturating_add(message(planned.hosts, 1, end, home))
}

/// The cost of the messages that a program sends under a plan: the sum of the costs of their links, each times eight to
/// the power of the number of loops around it, of which six count.
pub fn cost(checked: &Checked, needs: &Needs, hosts: &Hosts, plan: &Plan) -> u64
    requires { IsWithinLimits (program_tree checked.now.program) }
    ensures cost { result ≡ plan_cost (labelled_of checked.now) needs.now hosts.now plan.now }
    ensures small { result < 2 ^ 62 }
{
    let planned = Seated {
        program: &checked.program,
        needs,
        hosts,
        plan,
        step: None,
    };
    let _sound = hosts.hosts();
    program_cost(&planned)
}

/// What a move adds to the cost, less what it saves. This is the plain call, which counts the program twice and wants
/// no memory. Whoever tries many moves keeps the pieces of the program and counts those that a move touches.
pub fn delta(checked: &Checked, needs: &Needs, hosts: &Hosts, plan: &Plan, step: Step) -> i64
    requires { IsWithinLimits (program_tree checked.now.program) }
    ensures { result ≡ pos (plan_cost (labelled_of checked.now) needs.now hosts.now (moved plan.now step))
        -ℤ pos (plan_cost (labelled_of checked.now) needs.now hosts.now plan.now) }
{
    let before = cost(checked, needs, hosts, plan);
    let after = cost_moved(checked, needs, hosts, plan, step);
    after as i64 - before as i64
}

/// The cost after a move.
fn cost_moved(checked: &Checked, needs: &Needs, hosts: &Hosts, plan: &Plan, step: Step) -> u64
    requires { IsWithinLimits (program_tree checked.now.program) }
    ensures cost { result ≡ plan_cost (labelled_of checked.now) needs.now hosts.now (moved plan.now step) }
    ensures small { result < 2 ^ 62 }
{
    let planned = Seated {
        program: &checked.program,
        needs,
        hosts,
        plan,
        step: Some(step),
    };
    let _sound = hosts.hosts();
    program_cost(&planned)
}
