//! The listing of a program's tokens.

ghost use Rattle.std.specs.Prelude.{◌≡◌, ◌++◌, ◌≤◌, length, take, codes, IfOk, OnOk};
ghost use Rattle.std.specs.String.{string_bytes};
ghost use Rattle.js_base.specs.declared.limits.TheConstants.{PROGRAM_BYTES};
ghost use Rattle.jif_lex.specs.Spelled.{kind_text};
ghost use Rattle.jif_lex.specs.Tokens as reading;
ghost use Rattle.jiftokens.specs.Listing.{listing, row_text};
ghost use Rattle.text_places.specs.Places.{column_behind, line_behind};

use jif_lex::Token;
use js_base::OutOfMemory;
use std::alloc::Global;
use std::fmt::Write;
use text_places::{Place, push_kind};

/// The rows of the tokens of a text, and one for its end.
pub fn listing(alloc: Global, text: &[u8], tokens: &[Token]) -> Result<String, OutOfMemory>
    requires read { reading.ReadsAs text.now (reading.tokens tokens.now) }
    requires short { length text.now ≤ PROGRAM_BYTES }
    ensures { IfOk result (λ rows. string_bytes rows ≡ listing text.now tokens.now) }
{
    let mut rows = String::new(alloc);
    let mut place = Place::first();
    for (number, token) in tokens.iter().enumerate() {
        place = place.moved(text, token.at as usize);
        push_row(&mut rows, text, number, place, token)?;
    }
    push_end(&mut rows, text, tokens.len(), place.moved(text, text.len()))?;
    Ok(rows)
}

/// Adds the row of the token of this number, which stands at this place.
fn push_row(
    rows: &mut String,
    text: &[u8],
    number: usize,
    place: Place,
    token: &Token,
) -> Result<(), OutOfMemory>
    requires at { place.at ≡ token.now.at }
    requires line { place.line ≡ line_behind (take place.at text.now) }
    requires column { place.column ≡ column_behind (take place.at text.now) }
    ensures { OnOk result (string_bytes rows.new
        ≡ string_bytes rows.old ++ row_text text.now number token.now.at (kind_text token.now.kind)) }
{
    write!(rows, "{number} ").map_err(|_| OutOfMemory)?;
    place.push(rows, text)?;
    rows.push_str(" ")?;
    push_kind(rows, &token.kind)?;
    rows.push_str("\n")?;
    Ok(())
}

/// Adds the row of the end of the text, behind so many tokens.
fn push_end(rows: &mut String, text: &[u8], number: usize, place: Place) -> Result<(), OutOfMemory>
    requires at { place.at ≡ length text.now }
    requires line { place.line ≡ line_behind (take place.at text.now) }
    requires column { place.column ≡ column_behind (take place.at text.now) }
    ensures { OnOk result (string_bytes rows.new
        ≡ string_bytes rows.old ++ row_text text.now number (length text.now) (codes "(end)")) }
{
    write!(rows, "{number} ").map_err(|_| OutOfMemory)?;
    place.push(rows, text)?;
    rows.push_str(" (end)\n")?;
    Ok(())
}
