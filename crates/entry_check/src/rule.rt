//! Whether a host may ask, by the code.

ghost use Rattle.std.specs.Prelude.{◌≡◌, ◌↔◌, IsTrue, option_copied};
ghost use Rattle.entry_check.specs.Checks.{May, MaySee, MayAffect, MayEnter, IsTrustedFor, label_of_host};

use crate::ask::Ask;
use host_code::Code;
use js_base::{EntryId, HostId};
use label_lattice::Label;

/// The entry that ends the program, at which nobody may enter.
const HALT: EntryId = EntryId(0);

/// Whether host `from` may ask this of host `me`.
pub fn may(code: &Code, me: HostId, ask: Ask, from: HostId) -> bool
    ensures { IsTrue result ↔ May code.now me ask from }
{
    let host = label_of_host(code, from);
    match ask {
        Ask::Get(field) => match code.field(field) {
            Some(there) => there.host().0 == me.0 && may_see(code.label(there.label()), host),
            None => false,
        },
        Ask::Set(field) => match code.field(field) {
            Some(there) => there.host().0 == me.0 && may_affect(host, code.label(there.label())),
            None => false,
        },
        Ask::Forward(var) => match code.var(var) {
            Some(there) => may_affect(host, code.label(there.label())),
            None => false,
        },
        Ask::Enter(entry) => may_enter(code, me, entry, host),
    }
}

/// Whether a host of this label may enter at an entry of host `me`.
fn may_enter(code: &Code, me: HostId, entry: EntryId, host: Option<&Label>) -> bool
    ensures { IsTrue result ↔ MayEnter code.now me entry (option_copied host.entry) }
{
    let Some(there) = code.entry(entry) else {
        return false;
    };
    entry.0 != HALT.0
        && there.host.0 == me.0
        && is_trusted_for(host, there.need)
        && may_see(code.label(there.label), host)
}

/// The most that a host may see, and who trusts it.
fn label_of_host(code: &Code, host: HostId) -> Option<&Label>
    ensures { option_copied result ≡ label_of_host code.now host }
{
    match code.host(host) {
        Some(there) => Some(there.label()),
        None => None,
    }
}

fn may_see(label: Option<&Label>, host: Option<&Label>) -> bool
    ensures { IsTrue result ↔ MaySee (option_copied label.entry) (option_copied host.entry) }
{
    match (label, host) {
        (Some(label), Some(host)) => label.conf_flows(host),
        _ => false,
    }
}

fn may_affect(host: Option<&Label>, label: Option<&Label>) -> bool
    ensures { IsTrue result ↔ MayAffect (option_copied host.entry) (option_copied label.entry) }
{
    match (host, label) {
        (Some(host), Some(label)) => host.integ_flows(label),
        _ => false,
    }
}

fn is_trusted_for(host: Option<&Label>, need: u64) -> bool
    ensures { IsTrue result ↔ IsTrustedFor (option_copied host.entry) need }
{
    match host {
        Some(host) => host.is_trusted_by(need),
        None => false,
    }
}
