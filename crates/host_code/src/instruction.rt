//! Instructions.

use crate::code_expr::CodeExpr;
use crate::riders::RiderVars;
use js_base::{EntryId, FieldId, HostId, SiteId, StmtId, VarId};

/// What an instruction does. A host runs one at a time.
#[derive(Drop)]
pub enum Op {
    /// One more temporary: the element of a field.
    Read(FieldId, CodeExpr),
    /// A variable of the frame becomes a value.
    Let(VarId, CodeExpr),
    /// The element of a field, at the first expression, becomes the value of the second.
    Put(FieldId, CodeExpr, CodeExpr),
    /// Forwards a variable of the frame to a host.
    Send(VarId, HostId),
    /// Makes a new frame for the call at a site.
    Frame(SiteId),
    /// A variable of the new frame becomes a value on this host.
    Arg(VarId, CodeExpr),
    /// Forwards a variable of the new frame to a host.
    Pass(VarId, HostId),
    /// Pushes an entry on this host's control stack.
    Push(EntryId),
    /// Asks a host to push an entry on its control stack.
    Ask(EntryId, HostId),
    /// Hands the thread over to a host, at an entry and in the thread's frame.
    Go(EntryId, HostId),
    /// Hands the thread over to a host, which may be this one, at an entry and in the new frame.
    Call(EntryId, HostId),
    /// The result of a method goes to the host and the frame that the thread's token names.
    Ret(VarId, CodeExpr),
    /// Ends the thread: its token is given back to the host that it names.
    Back,
    /// Goes on at the instruction of the number where the value is 0.
    Branch(CodeExpr, u32),
    /// Hands the thread over to a host, at an entry and in the thread's frame, with the values of variables of that
    /// frame.
    GoWith(EntryId, HostId, RiderVars),
    /// Hands the thread over to another host, at an entry and in the new frame, with the values of variables of that
    /// frame.
    CallWith(EntryId, HostId, RiderVars),
}

/// An instruction, with the place of its program label among the code's labels and the statement that it was made for.
#[derive(Drop)]
pub struct Instr {
    pub label: u32,
    pub statement: StmtId,
    pub op: Op,
}
