//! The lines of a printed program that are statements.

ghost use Rattle.std.specs.Prelude.{◌≡◌, ◌<◌, ◌^◌, ◌++◌, IfOk, OnOk, drop, length, map, string_bytes};
ghost use Rattle.std.specs.List.{count_by};
ghost use Rattle.std.specs.Str.Lines.{lines};
ghost use Rattle.jif_tree.specs.Trees.{program_tree};
ghost use Rattle.statement_texts.specs.Texts as texts;
ghost use Rattle.statement_texts.specs.Texts.{around_shape, outermost, statement_text_shape, statement_texts};
ghost use Rattle.statement_texts.specs.Texts.{texts_from};

use jif_parse::program_text;
use jif_tree::Program;
use js_base::OutOfMemory;
use js_base::text::owned_text;
use principals::Principals;
use std::alloc::{AllocError, Global};

/// The text of a statement: its line of the printed program.
#[derive(Drop)]
pub struct StatementText {
    pub text: String,
    /// In how many blocks it is, where the body of its method is one.
    pub blocks: usize,
    /// In how many loops it is.
    pub loops: usize,
    pub begins_loop: bool,
    /// Whether it is the first behind an `else`.
    pub otherwise: bool,
}

/// What is around a line: the blocks, outer ones first, with whether each is that of a loop; and whether the line is
/// the first behind an `else`.
#[derive(Drop)]
struct Around {
    within: Vec<bool>,
    otherwise: bool,
}

/// The texts of a program's statements and heads, by number.
///
/// # Errors
/// Memory ran out.
pub fn texts_of(
    alloc: Global,
    program: &Program,
    principals: &Principals,
) -> Result<Vec<StatementText>, OutOfMemory>
    ensures { IfOk result (λ texts. map statement_text_shape texts.items
        ≡ statement_texts principals.now (program_tree program.now)) }
{
    let printed = program_text(alloc, program, principals)?;
    let lines = lines_of(alloc, printed.as_str())?;
    statements_in(alloc, behind(lines.as_slice(), program.fields.len()))
}

/// The lines of a text.
fn lines_of(alloc: Global, text: &str) -> Result<Vec<&str>, AllocError>
    ensures { IfOk result (λ found. map (λ line. line.now) found.items ≡ lines text.now) }
{
    text.lines().collect(alloc)
}

/// The lines behind so many.
fn behind<'a>(lines: &'a [&'a str], count: usize) -> &'a [&'a str]
    ensures { result.now ≡ drop count lines.entry.now }
{
    if lines.len() < count {
        &[]
    } else {
        &lines[count..]
    }
}

/// The statements of these lines, which stand behind those of the fields.
fn statements_in(alloc: Global, lines: &[&str]) -> Result<Vec<StatementText>, OutOfMemory>
    ensures { IfOk result (λ found. map statement_text_shape found.items
        ≡ texts_from outermost (map (λ line. line.now) lines.now)) }
{
    let mut found = Vec::new(alloc);
    let mut around = Around {
        within: Vec::new(alloc),
        otherwise: false,
    };
    for line in lines {
        push_said(alloc, &mut found, &around, line)?;
        go_on(&mut around, line)?;
    }
    Ok(found)
}

/// Adds what a line says.
fn push_said(
    alloc: Global,
    found: &mut Vec<StatementText>,
    around: &Around,
    line: &str,
) -> Result<(), OutOfMemory>
    ensures { OnOk result (map statement_text_shape found.new.items
        ≡ map statement_text_shape found.old.items ++ texts.said (around_shape around.now) line.now) }
{
    if turns(line) || closes(line) {
        return Ok(());
    }
    found.push(statement_text(alloc, around, line)?)?;
    Ok(())
}

/// The statement of a line.
fn statement_text(alloc: Global, around: &Around, line: &str) -> Result<StatementText, OutOfMemory>
    ensures { IfOk result (λ found. statement_text_shape found
        ≡ texts.statement_text (around_shape around.now) line.now) }
{
    let text = owned_text(alloc, line)?;
    Ok(StatementText {
        text,
        blocks: around.within.len(),
        loops: loops_in(&around.within),
        begins_loop: begins_loop(line),
        otherwise: around.otherwise,
    })
}

/// How many of these blocks are those of loops.
fn loops_in(blocks: &[bool]) -> usize
    ensures { result ≡ count_by texts.is_loop blocks.now }
{
    blocks.iter().filter(|loop_| **loop_).count()
}

/// Goes on behind a line.
fn go_on(around: &mut Around, line: &str) -> Result<(), OutOfMemory>
    ensures { OnOk result (around_shape around.new ≡ texts.around_behind (around_shape around.old) line.now) }
{
    change_open(&mut around.within, line)?;
    around.otherwise = turns(line);
    Ok(())
}

/// Opens or closes a block as a line does.
fn change_open(blocks: &mut Vec<bool>, line: &str) -> Result<(), OutOfMemory>
    ensures { OnOk result (blocks.new.items ≡ texts.open_behind blocks.old.items line.now) }
{
    if closes(line) {
        blocks.pop();
        return Ok(());
    }
    if ends_open(line.as_bytes()) && !turns(line) {
        blocks.push(begins_loop(line))?;
    }
    Ok(())
}

/// Whether a line begins what is done otherwise.
fn turns(line: &str) -> bool
    ensures { result ≡ texts.turns line.now }
{
    line.as_bytes() == b"} else {".as_slice()
}

/// Whether a line closes a block.
fn closes(line: &str) -> bool
    ensures { result ≡ texts.closes line.now }
{
    line.as_bytes() == b"}".as_slice()
}

/// Whether a line ends with the brace that opens a block.
fn ends_open(line: &[u8]) -> bool
    ensures { result ≡ texts.ends_open line.now }
{
    match line.last() {
        Some(byte) => *byte == b'{',
        None => false,
    }
}

/// Whether a line begins a loop.
fn begins_loop(line: &str) -> bool
    ensures { result ≡ texts.begins_loop line.now }
{
    line.starts_with("while (")
}
