//! The program that tokens are.

ghost use Rattle.std.specs.Prelude.{◌≤◌, IfOk, IfErr, length};
ghost use Rattle.js_base.specs.declared.limits.TheConstants.{PROGRAM_BYTES};
ghost use Rattle.jif_grammar.specs.Programs.{IsProgramOf};
ghost use Rattle.jif_grammar.specs.DraftShapes.{draft_shape};
ghost use Rattle.jif_parse.specs.Parsing.{IsRefusedBy};

use crate::ParseError;
use crate::counts::Counts;
use crate::cursor::Cursor;
use crate::items::items;
use jif_grammar::verdict_laws;
use jif_lex::Token;
use jif_tree::Draft;
use std::alloc::Global;

/// The draft of the program that the tokens are. They are no more than the bytes of a program.
///
/// Unless memory runs out, this is exact on both sides: tokens have one draft at most, or are refused for one cause,
/// and never both (`jif_grammar::grammar_laws`).
///
/// # Errors
/// What the tokens are refused for, or that memory ran out.
pub fn parse(alloc: Global, tokens: &[Token]) -> Result<Draft, ParseError>
    requires { length tokens.now ≤ PROGRAM_BYTES }
    ensures found { IfOk result (λ draft. IsProgramOf tokens.now (draft_shape draft)) }
    ensures refused { IfErr result (IsRefusedBy tokens.now) }
{
    verdict_laws();
    let mut cursor = Cursor {
        rest: tokens,
        at: 0,
        counts: Counts::none(),
    };
    items(alloc, &mut cursor)
}
