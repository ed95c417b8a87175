//! Whether an instruction names only what a need has.

ghost use Rattle.std.specs.Prelude.{◌≡◌, ◌↔◌, ℕ, IsTrue, Some, option_copied};
ghost use Rattle.std.specs.List.{AllByRecursion};
ghost use Rattle.part_verify.specs.SoundPart.{LabelWithin, EntryWithin, FieldWithin, VariableWithin, NamesWithin};

use host_code::{Code, Op};
use js_base::bits::bits_within;
use js_base::{EntryId, FieldId, VarId};

/// Whether the principals of the need trust all that the operation names: the need of an entry and who trusts a field
/// or a variable are within the need.
pub(crate) fn names_within(code: &Code, need: u64, op: &Op) -> bool
    ensures { IsTrue result ↔ NamesWithin code.now need op.now }
{
    match op {
        Op::Push(entry) | Op::Ask(entry, _) | Op::Go(entry, _) | Op::Call(entry, _) => {
            entry_within(code, need, *entry)
        }
        Op::Put(field, _, _) => field_within(code, need, *field),
        Op::Let(var, _) | Op::Arg(var, _) | Op::Ret(var, _) | Op::Send(var, _) | Op::Pass(var, _) =>
            { variable_within(code, need, *var) }
        Op::GoWith(entry, _, riders) | Op::CallWith(entry, _, riders) => {
            entry_within(code, need, *entry) && variables_within(code, need, riders.vars())
        }
        Op::Read(_, _) | Op::Frame(_) | Op::Back | Op::Branch(_, _) => true,
    }
}

/// Whether the need of an entry is within a need.
fn entry_within(code: &Code, need: u64, entry: EntryId) -> bool
    ensures { IsTrue result ↔ EntryWithin code.now need entry }
{
    match code.entry(entry) {
        Some(there) => bits_within(there.need, need),
        None => true,
    }
}

/// Whether who trusts a field is within a need.
fn field_within(code: &Code, need: u64, field: FieldId) -> bool
    ensures { IsTrue result ↔ FieldWithin code.now need field }
{
    match code.field(field) {
        Some(there) => label_within(code, need, there.label()),
        None => true,
    }
}

/// Whether who trusts a variable is within a need.
fn variable_within(code: &Code, need: u64, var: VarId) -> bool
    ensures { IsTrue result ↔ VariableWithin code.now need var }
{
    match code.var(var) {
        Some(there) => label_within(code, need, there.label()),
        None => true,
    }
}

/// Whether who trusts each of these variables is within a need.
fn variables_within(code: &Code, need: u64, vars: &[VarId]) -> bool
    ensures { IsTrue result ↔ AllByRecursion (VariableWithin code.now need) vars.now }
{
    match vars {
        [] => true,
        [var, others @ ..] => variable_within(code, need, *var)
            && variables_within(code, need, others),
    }
}

/// Whether who trusts a label of the code is within a need.
fn label_within(code: &Code, need: u64, label: u32) -> bool
    ensures { IsTrue result ↔ LabelWithin code.now need label }
{
    match code.label(label) {
        Some(there) => bits_within(there.trust(), need),
        None => true,
    }
}
