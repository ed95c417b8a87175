//! Whether a part of a check holds, by the code.

ghost use Rattle.std.specs.Prelude.{◌↔◌, IsTrue};
ghost use Rattle.host_code.specs.Sound.{IsEntryOn};
ghost use Rattle.entry_check.specs.Checks.{MaySee, MayAffect, label_at, label_of_host};
ghost use Rattle.ignored_reasons.specs.Parts.{IsFieldOn, SenderSeesField, SenderSetsField, SetsVariable};
ghost use Rattle.ignored_reasons.specs.Parts.{IsSenderTrustedAt, KnowsOf};

use host_code::Code;
use js_base::{EntryId, FieldId, HostId, VarId};

/// The entry that ends the program.
const HALT: EntryId = EntryId(0);

/// Whether the field is on this host.
pub fn is_field_on(code: &Code, me: HostId, field: FieldId) -> bool
    ensures { IsTrue result ↔ IsFieldOn code.now me field }
{
    match code.field(field) {
        Some(there) => there.host().0 == me.0,
        None => false,
    }
}

/// Whether the sender may see the field.
pub fn sees_field(code: &Code, from: HostId, field: FieldId) -> bool
    ensures { IsTrue result ↔ SenderSeesField code.now from field }
{
    match code.field(field) {
        Some(there) => may_see(code, from, there.label()),
        None => false,
    }
}

/// Whether the sender is trusted to set the field.
pub fn sets_field(code: &Code, from: HostId, field: FieldId) -> bool
    ensures { IsTrue result ↔ SenderSetsField code.now from field }
{
    match code.field(field) {
        Some(there) => may_affect(code, from, there.label()),
        None => false,
    }
}

/// Whether the sender is trusted to set the variable.
pub fn sets_variable(code: &Code, from: HostId, var: VarId) -> bool
    ensures { IsTrue result ↔ SetsVariable code.now from var }
{
    match code.var(var) {
        Some(there) => may_affect(code, from, there.label()),
        None => false,
    }
}

/// Whether the entry is on this host, and does not end the program.
pub fn is_entry_on(code: &Code, me: HostId, entry: EntryId) -> bool
    ensures { IsTrue result ↔ IsEntryOn code.now me entry }
{
    match code.entry(entry) {
        Some(there) => entry.0 != HALT.0 && there.host.0 == me.0,
        None => false,
    }
}

/// Whether the sender is trusted to enter.
pub fn is_trusted_at(code: &Code, from: HostId, entry: EntryId) -> bool
    ensures { IsTrue result ↔ IsSenderTrustedAt code.now from entry }
{
    match (code.entry(entry), code.host(from)) {
        (Some(there), Some(host)) => host.label().is_trusted_by(there.need),
        _ => false,
    }
}

/// Whether the sender may know that the entry is entered.
pub fn knows_of(code: &Code, from: HostId, entry: EntryId) -> bool
    ensures { IsTrue result ↔ KnowsOf code.now from entry }
{
    match code.entry(entry) {
        Some(there) => may_see(code, from, there.label),
        None => false,
    }
}

/// Whether the sender may see what has the label at this place among the code's.
fn may_see(code: &Code, from: HostId, label: u32) -> bool
    ensures { IsTrue result ↔ MaySee (label_at code.now label) (label_of_host code.now from) }
{
    match (code.label(label), code.host(from)) {
        (Some(label), Some(host)) => label.conf_flows(host.label()),
        _ => false,
    }
}

/// Whether the sender may change what has the label at this place.
fn may_affect(code: &Code, from: HostId, label: u32) -> bool
    ensures { IsTrue result ↔ MayAffect (label_of_host code.now from) (label_at code.now label) }
{
    match (code.host(from), code.label(label)) {
        (Some(host), Some(label)) => host.label().integ_flows(label),
        _ => false,
    }
}
