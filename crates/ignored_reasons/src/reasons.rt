//! The first part of a check that is false.

ghost use Rattle.std.specs.Prelude.{◌≡◌, ◌↔◌, ◌∷◌, ◌++◌, [], None, Some, IsTrue, if◌then◌else◌};
ghost use Rattle.host_code.specs.Riders.{names_of};
ghost use Rattle.host_code.specs.declared.message.Message.{Message};
ghost use Rattle.host_core.specs.Host.{HostState};
ghost use Rattle.host_core.specs.Taking.{PassesCheck};
ghost use Rattle.ignored_reasons.specs.Reasons.{PartHolds, IsFirstFalse, IsWhy, asked_of, parts_at, parts_riding};
ghost use Rattle.ignored_reasons.specs.declared.why.Why.TheVariants as reason;

use crate::asked::Asked;
use crate::parts::{
    is_entry_on, is_field_on, is_trusted_at, knows_of, sees_field, sets_field, sets_variable,
};
use crate::why::Why;
use host_code::Code;
use js_base::{EntryId, FieldId, HostId, VarId};

/// Why host `me` ignores a message of a sender that asks this, none where the message passes its check.
///
/// `passes` says whether it did. The code tells all else, but whether a token is that of the top entry and whether a
/// thread waits for an answer, and each of these is the whole check of its message.
pub fn why_ignored(
    code: &Code,
    me: HostId,
    from: HostId,
    asked: &Asked,
    passes: bool,
) -> Option<Why>
    ensures { (host : HostState) (taken : Message) → host.me ≡ me → asked_of taken ≡ asked.now →
        (IsTrue passes ↔ PassesCheck code.now host from taken) → IsWhy code.now host from taken result }
{
    match asked {
        Asked::Get(field) => why_not_get(code, me, from, *field),
        Asked::Set(field) => why_not_set(code, me, from, *field),
        Asked::Forward(var) => why_not_forward(code, from, *var),
        Asked::Enter(entry) => why_not_enter(code, me, from, *entry),
        Asked::EnterWith(entry, riders) => {
            why_not_enter_with(code, me, from, *entry, riders.pairs())
        }
        Asked::GiveBack => unless(passes, Why::NotOnTop),
        Asked::Answer => unless(passes, Why::NoneWaits),
    }
}

/// Why the sender may not ask for the field.
fn why_not_get(code: &Code, me: HostId, from: HostId, field: FieldId) -> Option<Why>
    ensures { (host : HostState) (taken : Message) → host.me ≡ me →
        IsFirstFalse (PartHolds code.now host from taken)
        (reason.FieldElsewhere field ∷ reason.MayNotSee field ∷ []) result }
{
    if !is_field_on(code, me, field) {
        return Some(Why::FieldElsewhere(field));
    }
    unless(sees_field(code, from, field), Why::MayNotSee(field))
}

/// Why the sender may not set the field.
fn why_not_set(code: &Code, me: HostId, from: HostId, field: FieldId) -> Option<Why>
    ensures { (host : HostState) (taken : Message) → host.me ≡ me →
        IsFirstFalse (PartHolds code.now host from taken)
        (reason.FieldElsewhere field ∷ reason.MayNotSet field ∷ []) result }
{
    if !is_field_on(code, me, field) {
        return Some(Why::FieldElsewhere(field));
    }
    unless(sets_field(code, from, field), Why::MayNotSet(field))
}

/// Why the sender may not set the variable.
fn why_not_forward(code: &Code, from: HostId, var: VarId) -> Option<Why>
    ensures { (host : HostState) (taken : Message) →
        IsFirstFalse (PartHolds code.now host from taken) (reason.MayNotForward var ∷ []) result }
{
    unless(sets_variable(code, from, var), Why::MayNotForward(var))
}

/// Why the sender may not enter.
fn why_not_enter(code: &Code, me: HostId, from: HostId, entry: EntryId) -> Option<Why>
    ensures { (host : HostState) (taken : Message) → host.me ≡ me →
        IsFirstFalse (PartHolds code.now host from taken) (parts_at entry) result }
{
    if !is_entry_on(code, me, entry) {
        return Some(Why::NoEntry(entry));
    }
    if !is_trusted_at(code, from, entry) {
        return Some(Why::MayNotEnter(entry));
    }
    unless(knows_of(code, from, entry), Why::MayNotKnow(entry))
}

/// Why the sender may not enter with these values.
fn why_not_enter_with(
    code: &Code,
    me: HostId,
    from: HostId,
    entry: EntryId,
    riders: &[(VarId, i64)],
) -> Option<Why>
    ensures { (host : HostState) (taken : Message) → host.me ≡ me →
        IsFirstFalse (PartHolds code.now host from taken)
        (parts_at entry ++ parts_riding (names_of riders.now)) result }
{
    match why_not_enter(code, me, from, entry) {
        Some(why) => Some(why),
        None => why_not_ride(code, from, riders),
    }
}

/// Why the sender may not set each variable that rides.
fn why_not_ride(code: &Code, from: HostId, riders: &[(VarId, i64)]) -> Option<Why>
    ensures { (host : HostState) (taken : Message) →
        IsFirstFalse (PartHolds code.now host from taken) (parts_riding (names_of riders.now)) result }
{
    match riders {
        [] => None,
        [(var, _), others @ ..] => {
            if sets_variable(code, from, *var) {
                why_not_ride(code, from, others)
            } else {
                Some(Why::MayNotForward(*var))
            }
        }
    }
}

/// The reason, where its part does not hold.
fn unless(holds: bool, why: Why) -> Option<Why>
    ensures { result ≡ (if holds then None else Some why) }
{
    if holds { None } else { Some(why) }
}
