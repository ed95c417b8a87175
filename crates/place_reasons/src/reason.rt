//! Why a host may not hold a part of a program.

use js_base::{FieldId, MethodId, PrincipalId, StmtId, VarId};
use label_reasons::{Cause, Trait};

/// What a statement changes, for which its host has to be trusted.
#[derive(Clone, Copy, PartialEq, Eq)]
pub enum Needed {
    /// A local or a parameter of its method, or what keeps a result.
    Variable(VarId),
    /// A plain field or an array.
    Field(FieldId),
    /// How a method begins, which it calls.
    Begin(MethodId),
    /// A parameter of a method, which it calls.
    Parameter(VarId, MethodId),
    /// The result of its method, which this variable keeps.
    Result(VarId),
    /// How its method begins. This is so of a head alone.
    Head,
}

/// Why a host may not hold a field or a statement. Each trait in it is a pair, which the label of the host does not
/// keep. A cause is there wherever something brings the pair in.
#[derive(Clone, Copy, PartialEq, Eq)]
pub enum PlaceReason {
    /// The label of the field keeps it.
    Own(Trait),
    /// What the statement tells by reading the field keeps it.
    Read(Trait, StmtId, Option<Cause>),
    /// What the statement tells by which element of the array it reads keeps it.
    Index(Trait, StmtId, Option<Cause>),
    /// The principal trusts the field, and does not trust the host.
    Untrusted(u8),
    /// The begin label of the head keeps it.
    Begins(Trait),
    /// The program label of the statement keeps it, for a `while` that of its guard.
    Runs(Trait, Option<Cause>),
    /// The label of an expression in the statement keeps it.
    Uses(Trait, Option<Cause>),
    /// The begin label of the called method keeps it.
    CallBegins(Trait, MethodId),
    /// The label of the called method's result keeps it, and the call keeps that result.
    CallGives(Trait, MethodId),
    /// The principal trusts what the statement of this number changes, and does not trust the host. That statement is
    /// the one that is asked about, or stands in it.
    Needs(u8, Needed, StmtId),
    /// The statement of this number releases a value by the authority of the first principal, which acts for the
    /// second, and that does not trust the host.
    Releases(PrincipalId, u8, StmtId),
}
