//! Which pieces depend on which parts.

ghost use Rattle.std.specs.Prelude.{◌≡◌, ◌≢◌, ◌↔◌, ℕ, ◌<◌, [], ◌∷◌, ◌++◌, IsTrue, IfOk, OnOk, map, replicate};
ghost use Rattle.std.specs.Prelude.{length, slice_set, slice_index, slice_index_or};
ghost use Rattle.host_decl.specs.Hosts.{HostsShape};
ghost use Rattle.jif_tree.specs.LabelRules.{method_at};
ghost use Rattle.jif_tree.specs.Trees.{program_tree};
ghost use Rattle.msg_cost.specs.Pieces.{given_ids, program_pieces};
ghost use Rattle.msg_cost.specs.PieceViews.{givens_of, piece_shape, all_pieces};
ghost use Rattle.msg_cost.specs.Rows.{numbers_of, AreRows, AreNoted, rows_of, IsIndex};
ghost use Rattle.msg_cost.specs.Tables.{HasTable, HaveTables, RowsHaveTables, AreBodies};
ghost use Rattle.msg_cost.specs.Touches.{head_of_method, statements_of_method};
ghost use Rattle.msg_cost.specs.Views.{ids_of};
ghost use Rattle.need_labels.specs.Needs.{NeedsShape};

use crate::piece::Piece;
use crate::pieces::program_pieces;
use crate::table::block_table;
use host_decl::Hosts;
use jif_tree::{Checked, Program, Stmt};
use js_base::limits::HOSTS;
use js_base::{MethodId, OutOfMemory, StmtId};
use need_labels::Needs;
use std::alloc::Global;

/// A kind of parts of a program.
#[derive(Clone, Copy)]
pub enum Kind {
    Fields,
    Statements,
}

/// By field and by statement, the pieces of a program's cost that depend on its host. It is made once for a program.
#[derive(Drop)]
pub struct Index<'a> {
    pub fields: Vec<Vec<Piece<'a>>>,
    pub statements: Vec<Vec<Piece<'a>>>,
    /// By method, from where on hosts are trusted in its body.
    pub bodies: Vec<[u16; HOSTS]>,
}

/// The pieces of a program by their parts.
///
/// # Errors
/// That memory ran out.
pub fn index_of<'a>(
    alloc: Global,
    checked: &'a Checked,
    needs: &Needs,
    hosts: &Hosts,
) -> Result<Index<'a>, OutOfMemory>
    ensures { IfOk result (IsIndex checked.now.program needs.now hosts.now) }
{
    let program = &checked.program;
    let pieces = program_pieces(alloc, program, needs, hosts)?;
    let count = program.fields.len();
    let fields = pieces_by_part(alloc, Kind::Fields, program, needs, &pieces, count)?;
    let count = needs.need().len();
    let statements = pieces_by_part(alloc, Kind::Statements, program, needs, &pieces, count)?;
    let bodies = body_tables(alloc, program, needs, hosts)?;
    Ok(Index {
        fields,
        statements,
        bodies,
    })
}

/// The tables of the bodies of all methods.
fn body_tables(
    alloc: Global,
    program: &Program,
    needs: &Needs,
    hosts: &Hosts,
) -> Result<Vec<[u16; HOSTS]>, OutOfMemory>
    ensures { IfOk result (λ tables. AreBodies needs.now hosts.now program.now.methods.items tables.items) }
{
    let mut tables = Vec::new(alloc);
    for method in &program.methods {
        tables.push(block_table(needs, hosts, &method.body))?;
    }
    Ok(tables)
}

/// By number, the pieces that depend on a part of this kind.
fn pieces_by_part<'a>(
    alloc: Global,
    kind: Kind,
    program: &Program,
    needs: &Needs,
    pieces: &[Piece<'a>],
    count: usize,
) -> Result<Vec<Vec<Piece<'a>>>, OutOfMemory>
    ensures rows { IfOk result (λ rows. AreRows (numbers_of kind (program_tree program.now) needs.now)
        (all_pieces pieces.now) (rows_of rows.items)) }
    ensures long { IfOk result (λ rows. length rows.items ≡ count) }
    ensures tables { IfOk result (λ rows. (hosts : HostsShape) →
        HaveTables needs.now hosts pieces.now → RowsHaveTables needs.now hosts rows.items) }
{
    let mut rows = empty_rows(alloc, count)?;
    let mut marks: Vec<usize> = vec![in alloc; 0; count]?;
    fill_rows(alloc, kind, program, needs, pieces, &mut rows, &mut marks)?;
    Ok(rows)
}

/// Adds each piece to the rows of the parts on which it depends. A row is marked with the last turn in which it got
/// one.
fn fill_rows<'a>(
    alloc: Global,
    kind: Kind,
    program: &Program,
    needs: &Needs,
    pieces: &[Piece<'a>],
    rows: &mut Vec<Vec<Piece<'a>>>,
    marks: &mut [usize],
) -> Result<(), OutOfMemory>
    requires empty { AreRows (numbers_of kind (program_tree program.now) needs.now) [] (rows_of rows.old.items) }
    requires long { length marks.old ≡ length (rows_of rows.old.items) }
    requires unmarked { (number : ℕ) → number < length marks.old → slice_index marks.old number ≡ 0 }
    ensures rows { OnOk result (AreRows (numbers_of kind (program_tree program.now) needs.now)
        (all_pieces pieces.now) (rows_of rows.new.items)) }
    ensures long { OnOk result (length (rows_of rows.new.items) ≡ length (rows_of rows.old.items)) }
    ensures tables { OnOk result ((hosts : HostsShape) → HaveTables needs.now hosts pieces.now →
        RowsHaveTables needs.now hosts rows.old.items → RowsHaveTables needs.now hosts rows.new.items) }
{
    for (place, piece) in pieces.iter().enumerate() {
        let numbers = numbers_of(alloc, kind, program, needs, piece)?;
        note_all(rows, marks, &numbers, place + 1, *piece)?;
    }
    Ok(())
}

/// So many rows without pieces.
fn empty_rows<'a>(alloc: Global, count: usize) -> Result<Vec<Vec<Piece<'a>>>, OutOfMemory>
    ensures { IfOk result (λ rows. rows_of rows.items ≡ replicate count []) }
{
    let mut rows = Vec::new(alloc);
    for _ in 0..count {
        rows.push(Vec::new(alloc))?;
    }
    Ok(rows)
}

/// Adds a piece to the rows of these numbers, once to each. There is nothing to add to where there is no such row.
fn note_all<'a>(
    rows: &mut Vec<Vec<Piece<'a>>>,
    marks: &mut [usize],
    numbers: &[u32],
    turn: usize,
    piece: Piece<'a>,
) -> Result<(), OutOfMemory>
    requires long { length marks.old ≡ length (rows_of rows.old.items) }
    requires fresh { (number : ℕ) → number < length marks.old → slice_index marks.old number < turn }
    ensures noted { OnOk result (AreNoted turn (piece_shape piece.entry) numbers.now (rows_of rows.old.items)
        (rows_of rows.new.items) marks.new) }
    ensures tables { OnOk result ((needs : NeedsShape) (hosts : HostsShape) → HasTable needs hosts piece.entry →
        RowsHaveTables needs hosts rows.old.items → RowsHaveTables needs hosts rows.new.items) }
{
    for number in numbers {
        let place = *number as usize;
        if is_unmarked(marks, place, turn) {
            push_at(rows, place, piece)?;
            marks[place] = turn;
        }
    }
    Ok(())
}

/// Whether there is such a row, and it is not marked with this turn.
fn is_unmarked(marks: &[usize], place: usize, turn: usize) -> bool
    ensures { IsTrue result ↔ ((place < length marks.now) × (slice_index marks.now place ≢ turn)) }
{
    match marks.get(place) {
        Some(mark) => *mark != turn,
        None => false,
    }
}

/// Adds a piece to a row.
fn push_at<'a>(
    rows: &mut Vec<Vec<Piece<'a>>>,
    place: usize,
    piece: Piece<'a>,
) -> Result<(), OutOfMemory>
    requires { place < length (rows_of rows.old.items) }
    ensures rows { OnOk result (rows_of rows.new.items
        ≡ slice_set (rows_of rows.old.items) place
        (slice_index_or (rows_of rows.old.items) place [] ++ piece_shape piece.entry ∷ [])) }
    ensures tables { OnOk result ((needs : NeedsShape) (hosts : HostsShape) → HasTable needs hosts piece.entry →
        RowsHaveTables needs hosts rows.old.items → RowsHaveTables needs hosts rows.new.items) }
{
    Ok(rows[place].push(piece)?)
}

/// The numbers of the parts of a kind on which a piece depends.
fn numbers_of(
    alloc: Global,
    kind: Kind,
    program: &Program,
    needs: &Needs,
    piece: &Piece<'_>,
) -> Result<Vec<u32>, OutOfMemory>
    ensures { IfOk result (λ numbers.
        numbers.items ≡ numbers_of kind (program_tree program.now) needs.now (piece_shape piece.now)) }
{
    match kind {
        Kind::Fields => field_numbers(alloc, program, needs, piece),
        Kind::Statements => statement_numbers(alloc, program, needs, piece),
    }
}

/// The number of the field on which a piece depends, if there is one.
fn field_numbers(
    alloc: Global,
    program: &Program,
    needs: &Needs,
    piece: &Piece<'_>,
) -> Result<Vec<u32>, OutOfMemory>
    ensures { IfOk result (λ numbers.
        numbers.items ≡ numbers_of Kind.Fields (program_tree program.now) needs.now (piece_shape piece.now)) }
{
    let mut numbers = Vec::new(alloc);
    match piece {
        Piece::Access { field, .. } => numbers.push(field.0)?,
        Piece::Giving { .. } => {}
        Piece::Passing { .. } => {}
        Piece::Calling { .. } => {}
        Piece::Walk(_) => {}
        Piece::Ending { .. } => {}
    }
    Ok(numbers)
}

/// The numbers of the statements on which a piece depends.
fn statement_numbers(
    alloc: Global,
    program: &Program,
    needs: &Needs,
    piece: &Piece<'_>,
) -> Result<Vec<u32>, OutOfMemory>
    ensures { IfOk result (λ numbers.
        numbers.items ≡ numbers_of Kind.Statements (program_tree program.now) needs.now (piece_shape piece.now)) }
{
    let mut numbers = Vec::new(alloc);
    match piece {
        Piece::Access { statement, .. } => numbers.push(statement.0)?,
        Piece::Giving {
            statement,
            variable,
            ..
        } => {
            numbers.push(statement.0)?;
            add_statements(&mut numbers, needs.readers(*variable))?;
        }
        Piece::Passing {
            statement,
            method,
            variable,
            ..
        } => {
            numbers.push(statement.0)?;
            add_head(&mut numbers, program, *method)?;
            add_statements(&mut numbers, needs.readers(*variable))?;
        }
        Piece::Calling {
            statement,
            method,
            ..
        } => {
            numbers.push(statement.0)?;
            add_method(&mut numbers, program, *method)?;
        }
        Piece::Walk(walk) => {
            numbers.push(walk.home.0)?;
            add_own(&mut numbers, walk.block)?;
        }
        Piece::Ending { method } => add_method(&mut numbers, program, *method)?,
    }
    Ok(numbers)
}

/// Adds the number of the statement whose host is the home of a method.
fn add_head(numbers: &mut Vec<u32>, program: &Program, method: MethodId) -> Result<(), OutOfMemory>
    ensures { OnOk result (numbers.new.items
        ≡ numbers.old.items
        ++ map (λ statement. statement.0) (head_of_method (method_at (program_tree program.now) method))) }
{
    match program.methods.get(method.0 as usize) {
        Some(called) => Ok(numbers.push(called.head.0)?),
        None => Ok(()),
    }
}

/// Adds the numbers of the statements whose hosts say where a method begins and ends.
fn add_method(
    numbers: &mut Vec<u32>,
    program: &Program,
    method: MethodId,
) -> Result<(), OutOfMemory>
    ensures { OnOk result (numbers.new.items
        ≡ numbers.old.items
        ++ map (λ statement. statement.0) (statements_of_method (method_at (program_tree program.now) method))) }
{
    match program.methods.get(method.0 as usize) {
        Some(called) => {
            numbers.push(called.head.0)?;
            add_block(numbers, &called.body)
        }
        None => Ok(()),
    }
}

/// Adds the numbers of the statements of a block that is walked.
#[tactic(auto, using(crate::proofs::Statements::list_ids))]
fn add_own(numbers: &mut Vec<u32>, block: &[Stmt]) -> Result<(), OutOfMemory>
    ensures { OnOk result (numbers.new.items
        ≡ numbers.old.items ++ map (λ statement. statement.0) (given_ids (givens_of block.now))) }
{
    add_block(numbers, block)
}

/// Adds the numbers of the statements of a block.
fn add_block(numbers: &mut Vec<u32>, block: &[Stmt]) -> Result<(), OutOfMemory>
    ensures { OnOk result (numbers.new.items
        ≡ numbers.old.items ++ map (λ statement. statement.0) (ids_of block.now)) }
{
    for statement in block {
        numbers.push(statement.id.0)?;
    }
    Ok(())
}

/// Adds the numbers of statements.
fn add_statements(numbers: &mut Vec<u32>, statements: &[StmtId]) -> Result<(), OutOfMemory>
    ensures { OnOk result (numbers.new.items
        ≡ numbers.old.items ++ map (λ statement. statement.0) statements.now) }
{
    for statement in statements {
        numbers.push(statement.0)?;
    }
    Ok(())
}
