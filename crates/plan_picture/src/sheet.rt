//! What a picture is drawn by.

use host_code::Code;
use jif_tree::Program;
use need_labels::Plan;
use plan_ways::PlanWays;
use principals::Principals;
use statement_texts::StatementText;

/// What a picture is drawn by: the program, its code and the plan that this was made for, who is declared, what the
/// plan costs, the statements by number, and the ways of control and values.
#[derive(Clone, Copy)]
pub struct PictureSheet<'a> {
    pub program: &'a Program,
    pub code: &'a Code,
    pub plan: &'a Plan,
    pub principals: &'a Principals,
    pub cost: u64,
    /// The texts of the statements.
    pub texts: &'a [StatementText],
    /// The lines of the statements.
    pub lines: &'a [u32],
    /// Whether each statement releases a value.
    pub released: &'a [bool],
    pub ways: &'a PlanWays,
}
