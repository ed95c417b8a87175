//! Which values the instructions of a split program release.

ghost use Rattle.std.specs.Prelude.{◌≡◌, ◌≤◌, All, [], length, map, reverse, IfOk, OnOk};
ghost use Rattle.host_code.specs.declared.code_expr.TheConstants.{MOST_NODES};
ghost use Rattle.jif_tree.specs.Numbering.{CountsFrom, statement_numbers};
ghost use Rattle.need_labels.specs.Labelled.{labelled_of};
ghost use Rattle.split_rules.specs.Placed.{PlacedProgram};
ghost use Rattle.split_rules.specs.Releases.{operands_at, releases_of};
ghost use Rattle.split_rules.specs.ReleaseRows.{evaluates, first_row, other_rows, rows_for, rows_told};
ghost use Rattle.split_rules.specs.ReleaseRows.{is_assignment};
ghost use Rattle.split_rules.specs.ReleaseRows.{statement_nodes, shown, row_of, left_behind, parts_told};
ghost use Rattle.split_rules.specs.SplitCode.{split_code};
ghost use Rattle.split_rules.specs.Splittable.{IsSplittable};

use crate::operands::Operands;
use crate::statements::{statement_at, statement_rows, statements_of};
use host_code::{Code, CodeExpr, Instr, Op};
use jif_tree::{Checked, Stmt, StmtKind};
use js_base::{HostId, OutOfMemory};
use std::alloc::Global;
use std::marker::Model;

/// What the instructions of a host release, in their order.
#[derive(Drop)]
struct HostRows {
    rows: Vec<Operands>,
}

impl Model for HostRows {
    ghost use Rattle.std.specs.Prelude.{List};
    ghost use Rattle.host_code.specs.declared.code_expr.Node.{Node};

    ghost Value = { List (List (List Node)) };

    ghost view = { λ h. h.rows.items };
}

/// Which operands of `declassify` each instruction of a split program evaluates, host by host.
#[derive(Drop)]
pub struct ReleaseTable {
    hosts: Vec<HostRows>,
}

impl Model for ReleaseTable {
    ghost use Rattle.split_rules.specs.Releases.{ReleasesShape};

    ghost Value = { ReleasesShape };

    ghost view = { λ t. t.hosts.items };
}

impl ReleaseTable {
    /// The operands that the instruction of a host at a place releases, from the left and inner before outer. There are
    /// none where there is no such instruction.
    pub fn operands(&self, host: HostId, at: u32) -> &[CodeExpr]
        ensures { result.now ≡ operands_at self.now host at }
    {
        match self.hosts.get(host.0 as usize) {
            Some(own) => match own.rows.get(at as usize) {
                Some(operands) => operands.exprs(),
                None => &[],
            },
            None => &[],
        }
    }
}

/// Whether an instruction for a statement evaluates one of its expressions. The one that keeps a result does not.
fn evaluates(statement: Option<&Stmt>, what: &Op) -> bool
    ensures { result ≡ evaluates (shown statement.entry) what.now }
{
    match what {
        Op::Read(..) | Op::Put(..) | Op::Arg(..) | Op::Ret(..) | Op::Branch(..) => true,
        Op::Let(..) => is_assignment(statement),
        _ => false,
    }
}

/// Whether a statement gives a local its value.
fn is_assignment(statement: Option<&Stmt>) -> bool
    ensures { result ≡ is_assignment (shown statement.entry) }
{
    match statement {
        Some(statement) => matches!(statement.kind, StmtKind::Let { .. }),
        None => false,
    }
}

/// Where no rows are left, those of a statement are, the last first.
fn fill(
    alloc: Global,
    left: &mut Vec<Operands>,
    statement: Option<&Stmt>,
) -> Result<(), OutOfMemory>
    requires { statement_nodes (shown statement) ≤ MOST_NODES }
    ensures { OnOk result (reverse left.new.items ≡ rows_for (reverse left.old.items) (shown statement.entry)) }
{
    if left.is_empty() {
        if let Some(statement) = statement {
            let mut rows = statement_rows(alloc, statement)?;
            rows.reverse();
            *left = rows;
        }
    }
    Ok(())
}

/// Takes the last of some rows away.
fn first_row(alloc: Global, left: &mut Vec<Operands>) -> Operands
    ensures row { result ≡ first_row (reverse left.old.items) }
    ensures left { reverse left.new.items ≡ other_rows (reverse left.old.items) }
{
    match left.pop() {
        Some(row) => row,
        None => Operands::none(alloc),
    }
}

/// What an instruction releases. The rows of its statement that are left stand the last first.
fn row_of(
    alloc: Global,
    statements: &[Option<&Stmt>],
    left: &mut Vec<Operands>,
    instruction: &Instr,
) -> Result<Operands, OutOfMemory>
    requires { All (λ statement. statement_nodes statement ≤ MOST_NODES) (map shown statements.now) }
    ensures row { IfOk result (λ row. row
        ≡ row_of (map shown statements.now) (reverse left.old.items) instruction.now) }
    ensures left { OnOk result (reverse left.new.items
        ≡ left_behind (map shown statements.now) (reverse left.old.items) instruction.now) }
{
    let statement = statement_at(statements, instruction.statement);
    if !evaluates(statement, &instruction.op) {
        return Ok(Operands::none(alloc));
    }
    fill(alloc, left, statement)?;
    Ok(first_row(alloc, left))
}

/// What the instructions of a host release, by the statements of the program.
fn host_rows(
    alloc: Global,
    statements: &[Option<&Stmt>],
    part: &[Instr],
) -> Result<HostRows, OutOfMemory>
    requires { All (λ statement. statement_nodes statement ≤ MOST_NODES) (map shown statements.now) }
    ensures { IfOk result (λ told. told ≡ rows_told (map shown statements.now) [] part.now) }
{
    let mut rows = Vec::new(alloc);
    let mut left = Vec::new(alloc);
    for instruction in part {
        rows.push(row_of(alloc, statements, &mut left, instruction)?)?;
    }
    Ok(HostRows { rows })
}

/// What the instructions of all hosts release, by the statements of the program.
fn all_rows(
    alloc: Global,
    statements: &[Option<&Stmt>],
    code: &Code,
) -> Result<ReleaseTable, OutOfMemory>
    requires { All (λ statement. statement_nodes statement ≤ MOST_NODES) (map shown statements.now) }
    ensures { IfOk result (λ table. table ≡ parts_told (map shown statements.now) code.now (length code.now.hosts)) }
{
    let count = code.hosts().len();
    let mut hosts = Vec::new(alloc);
    for number in 0..count {
        let part = code.part(HostId(number as u8));
        hosts.push(host_rows(alloc, statements, part)?)?;
    }
    Ok(ReleaseTable { hosts })
}

/// Which operands the instructions of the code release of a program that was checked and split. Time and memory are
/// linear in program and code, but for operands in operands: those of a statement have at most its nodes times its
/// nesting.
///
/// # Errors
/// Memory ran out.
pub fn releases_in(
    alloc: Global,
    checked: &Checked,
    code: &Code,
) -> Result<ReleaseTable, OutOfMemory>
    requires splits { (placed : PlacedProgram) × (placed.labelled ≡ labelled_of checked.now)
        × IsSplittable placed × (code.now ≡ split_code placed) }
    requires numbered { CountsFrom 0 (statement_numbers (labelled_of checked.now).program) }
    ensures table { (placed : PlacedProgram) → placed.labelled ≡ labelled_of checked.now → IsSplittable placed →
        code.now ≡ split_code placed → IfOk result (λ table. table ≡ releases_of placed) }
{
    let statements = statements_of(alloc, &checked.program)?;
    all_rows(alloc, &statements, code)
}
