//! Whether an instruction shows other hosts only what they may see.

ghost use Rattle.std.specs.Prelude.{◌≡◌, ◌≢◌, ◌↔◌, ℕ, IsTrue};
ghost use Rattle.std.specs.List.{AllByRecursion};
ghost use Rattle.part_verify.specs.SoundPart.{IsSeenBy, SeesVariable, ShowsReading, ShowsSetting, ShowsVariable};
ghost use Rattle.part_verify.specs.SoundPart.{ShowsWell};

use host_code::{Code, Op};
use js_base::{FieldId, HostId, VarId};

/// Whether each other host that an operation of host `me` with this program label names, or whose field it names, may
/// see the program label, the field that is set, and each variable that is forwarded or rides.
pub(crate) fn shows_well(code: &Code, me: HostId, label: u32, op: &Op) -> bool
    ensures { IsTrue result ↔ ShowsWell code.now me label op.now }
{
    match op {
        Op::Read(field, _) => shows_reading(code, me, label, *field),
        Op::Put(field, _, _) => shows_setting(code, me, label, *field),
        Op::Send(var, to) | Op::Pass(var, to) => shows_variable(code, label, *var, *to),
        Op::Ask(_, on) | Op::Go(_, on) => is_seen_by(code, label, *on),
        Op::Call(_, on) => on.0 == me.0 || is_seen_by(code, label, *on),
        Op::GoWith(_, on, riders) | Op::CallWith(_, on, riders) => {
            is_seen_by(code, label, *on) && sees_variables(code, *on, riders.vars())
        }
        Op::Let(_, _)
        | Op::Frame(_)
        | Op::Arg(_, _)
        | Op::Push(_)
        | Op::Ret(_, _)
        | Op::Back
        | Op::Branch(_, _) => true,
    }
}

/// Whether another host that holds the field may see the program label with which it is read.
fn shows_reading(code: &Code, me: HostId, label: u32, field: FieldId) -> bool
    ensures { IsTrue result ↔ ShowsReading code.now me label field }
{
    match code.field(field) {
        Some(there) => there.host().0 == me.0 || is_seen_by(code, label, there.host()),
        None => false,
    }
}

/// Whether another host that holds the field may see the program label with which it is set, and what the field keeps.
fn shows_setting(code: &Code, me: HostId, label: u32, field: FieldId) -> bool
    ensures { IsTrue result ↔ ShowsSetting code.now me label field }
{
    match code.field(field) {
        Some(there) => there.host().0 == me.0
            || both_seen(code, label, there.label(), there.host()),
        None => false,
    }
}

/// Whether a host may see both labels of the code.
fn both_seen(code: &Code, first: u32, second: u32, host: HostId) -> bool
    ensures { IsTrue result ↔ (IsSeenBy code.now first host × IsSeenBy code.now second host) }
{
    is_seen_by(code, first, host) && is_seen_by(code, second, host)
}

/// Whether a host may see the program label with which a variable is forwarded to it, and the variable.
fn shows_variable(code: &Code, label: u32, var: VarId, to: HostId) -> bool
    ensures { IsTrue result ↔ ShowsVariable code.now label var to }
{
    is_seen_by(code, label, to) && sees_variable(code, to, var)
}

/// Whether a host may see a variable.
fn sees_variable(code: &Code, host: HostId, var: VarId) -> bool
    ensures { IsTrue result ↔ SeesVariable code.now host var }
{
    match code.var(var) {
        Some(there) => is_seen_by(code, there.label(), host),
        None => false,
    }
}

/// Whether a host may see each of these variables.
fn sees_variables(code: &Code, host: HostId, vars: &[VarId]) -> bool
    ensures { IsTrue result ↔ AllByRecursion (SeesVariable code.now host) vars.now }
{
    match vars {
        [] => true,
        [var, others @ ..] => sees_variable(code, host, *var) && sees_variables(code, host, others),
    }
}

/// Whether a host may see a label of the code.
fn is_seen_by(code: &Code, label: u32, host: HostId) -> bool
    ensures { IsTrue result ↔ IsSeenBy code.now label host }
{
    match (code.label(label), code.host(host)) {
        (Some(there), Some(host)) => there.conf_flows(host.label()),
        _ => false,
    }
}
