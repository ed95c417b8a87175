//! Walks of the token over the statements of blocks.

ghost use Rattle.std.specs.Prelude.{◌≡◌};
ghost use Rattle.msg_cost.specs.PieceViews.{gives};

use jif_tree::{Stmt, StmtKind};
use js_base::limits::HOSTS;
use js_base::{StmtId, VarId};

/// The token goes over the statements of a block that begins on the host of a statement, and behind a nested block it
/// comes back there.
#[derive(Clone, Copy)]
pub struct Walk<'a> {
    pub weight: u64,
    pub home: StmtId,
    pub nested: bool,
    pub block: &'a [Stmt],
    /// Whether the numbers of the statements ascend. They do in all programs that were read.
    pub ascending: bool,
    /// For each host the first place of the block from which it is trusted for all statements to the end. It depends on
    /// the needs and the hosts alone, and so is found once for all plans.
    pub table: [u16; HOSTS],
}

/// The variable to which a statement gives a value.
pub fn gives(statement: &Stmt) -> Option<VarId>
    ensures { result ≡ gives statement.now.kind }
{
    match &statement.kind {
        StmtKind::Let { var, .. } => Some(*var),
        StmtKind::SetField { .. } => None,
        StmtKind::SetElement { .. } => None,
        StmtKind::If { .. } => None,
        StmtKind::While { .. } => None,
        StmtKind::Call { into, .. } => *into,
        StmtKind::Return { .. } => None,
    }
}
