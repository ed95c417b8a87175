//! What is held against a label, what brought it in, and what was wanted where it fails.

use js_base::{FieldId, MethodId, StmtId, VarId};

/// What is held against a label.
#[derive(Clone, Copy, PartialEq, Eq)]
pub enum Trait {
    /// The owner, a declared principal, keeps it from the reader. The number `PRINCIPALS` is the outsider.
    Keeps(u8, u8),
    /// The principal does not trust it.
    Distrusts(u8),
}

/// Where the label that has it is written.
#[derive(Clone, Copy, PartialEq, Eq)]
pub enum Source {
    OfField(FieldId),
    /// A variable that is declared with a label.
    OfVariable(VarId),
    /// The begin label of a method.
    OfBegin(MethodId),
    /// In the expression of a statement, which releases or endorses.
    Written(StmtId),
}

/// What it came through last.
#[derive(Clone, Copy, PartialEq, Eq)]
pub enum Via {
    Itself,
    /// A local without a label, and the statement that declares it.
    ByLocal(VarId, StmtId),
    /// The guard of a statement.
    ByGuard(StmtId),
}

/// What brings it in.
#[derive(Clone, Copy, PartialEq, Eq)]
pub struct Cause {
    pub source: Source,
    pub via: Via,
}

/// What is held against a label where it may not be, and what brings it in.
#[derive(Clone, Copy, PartialEq, Eq)]
pub struct Reason {
    pub held: Trait,
    pub cause: Cause,
}

/// What a statement asks of labels, by what it names.
#[derive(Clone, Copy, PartialEq, Eq)]
pub enum Wanted {
    /// A value may be kept in a plain field.
    KeptInField(FieldId),
    /// A value and its index may be kept in an array.
    KeptInElement(FieldId),
    /// A value may be kept in a local or a parameter.
    KeptInLocal(VarId),
    /// The argument at a place, from 0, may be given to the parameter of a method.
    Given(usize, VarId, MethodId),
    /// The result of a method may be kept in a variable.
    ResultKept(MethodId, VarId),
    /// A value may be the result that this variable keeps.
    GivenBack(VarId),
    /// A method may be called.
    Begun(MethodId),
    /// A value may be released.
    Released,
    /// Those by whose authority a value is released trust what leads there.
    ReleaseTrusted,
    /// A value may be endorsed.
    Endorsed,
}
