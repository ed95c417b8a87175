//! Lines of tokens.

ghost use Rattle.std.specs.Prelude.{◌≡◌, ℕ};
ghost use Rattle.jif_parse.specs.Statements.{HasLines};

use crate::cursor::Cursor;

/// The line of the next token, and 0 where none is left.
pub fn next_line(cursor: &Cursor) -> u32
    ensures { (lines : ℕ → ℕ) → HasLines lines cursor.now → result ≡ lines cursor.now.at }
{
    match cursor.next() {
        Some(token) => token.line,
        None => 0,
    }
}
