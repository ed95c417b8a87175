//! What is needed to name the parts of a program, and to say on which lines they stand.

ghost use Rattle.std.specs.Prelude.{◌≡◌, slice_index};
ghost use Rattle.explain_texts.specs.Sheets.{part_line, sheet_shape};

use crate::token_texts::token_line;
use crate::written::Places;
use jif_lex::Token;
use jif_tree::Program;
use principals::Principals;

/// The tokens of a program, where its parts are written, the declared principals and the program.
#[derive(Clone, Copy)]
pub struct Sheet<'a> {
    pub tokens: &'a [Token],
    pub places: &'a Places,
    pub principals: &'a Principals,
    pub program: &'a Program,
}

/// The line of a part, where the parts of its kind are written at these tokens.
pub fn part_line(sheet: &Sheet<'_>, numbers: &[u32], part: u32) -> u32
    ensures { result ≡ part_line (sheet_shape sheet.now) numbers.now part }
{
    let token = token_number(numbers, part);
    token_line(sheet.tokens, token)
}

/// The number of the token at which a part is written.
pub fn token_number(numbers: &[u32], part: u32) -> usize
    ensures { result ≡ slice_index numbers.now part }
{
    numbers.get(part as usize).copied().unwrap_or(0) as usize
}
