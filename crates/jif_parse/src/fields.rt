//! What follows the name of a field.

ghost use Rattle.std.specs.Prelude.{◌≡◌, ◌<◌, IfOk, IfErr, pos, IfSome, IfNone, ℕ};
ghost use Rattle.jif_lex.specs.declared.token.TokenKind.TheVariants as token;
ghost use Rattle.jif_lex.specs.declared.token.Symbol.TheVariants.{LeftBrace};
ghost use Rattle.jif_parse.specs.Reading.{IsNextKind, IsNextSymbol};
ghost use Rattle.jif_parse.specs.Fields.{ReadsFieldEnd, FailsFieldEnd, ReadsSize, FailsSize, ReadsFirst, FailsFirst};
ghost use Rattle.jif_parse.specs.Fields.{ReadsNumber, FailsNumber};

use crate::ParseError;
use crate::counts::Begins;
use crate::cursor::Cursor;
use jif_grammar::What;
use jif_lex::{Symbol, TokenKind};

/// The elements of a field, and what each starts with.
#[derive(Clone, Copy)]
pub struct FieldEnding {
    /// The number of elements, 1 for a plain field.
    pub size: u32,
    /// Whether it is an array.
    pub array: bool,
    pub first: i64,
}

/// What follows the name of a field, up to its semicolon. No method follows here.
pub fn field_ending(cursor: &mut Cursor) -> Result<FieldEnding, ParseError>
    requires { ¬ IsNextSymbol cursor.old LeftBrace }
    ensures read { IfOk result (ReadsFieldEnd cursor.old cursor.new) }
    ensures fails { IfErr result (FailsFieldEnd cursor.old) }
{
    if cursor.is_next(Symbol::Semicolon) {
        cursor.take(0, Begins::PlainField)?;
        return Ok(FieldEnding {
            size: 1,
            array: false,
            first: 0,
        });
    }
    if cursor.is_next(Symbol::LeftBracket) {
        cursor.take(0, Begins::Array)?;
        let size = size(cursor)?;
        return Ok(FieldEnding {
            size,
            array: true,
            first: 0,
        });
    }
    if !cursor.is_next(Symbol::Assign) {
        return Err(cursor.unexpected());
    }
    cursor.take(0, Begins::PlainField)?;
    let first = first_value(cursor)?;
    Ok(FieldEnding {
        size: 1,
        array: false,
        first,
    })
}

/// The number of elements of an array, up to the semicolon behind it.
fn size(cursor: &mut Cursor) -> Result<u32, ParseError>
    ensures read { IfOk result (ReadsSize cursor.old cursor.new) }
    ensures fails { IfErr result (FailsSize cursor.old) }
{
    let Some(number) = next_number(cursor) else {
        return Err(cursor.unexpected());
    };
    if number == 0 {
        return Err(cursor.unexpected());
    }
    let at = cursor.at;
    cursor.take(0, Begins::Elements(number))?;
    let Ok(size) = u32::try_from(number) else {
        return Err(ParseError::TooMany(What::Elements, at));
    };
    cursor.expect(Symbol::RightBracket)?;
    cursor.expect(Symbol::Semicolon)?;
    Ok(size)
}

/// The first value of a field, up to the semicolon behind it.
fn first_value(cursor: &mut Cursor) -> Result<i64, ParseError>
    ensures read { IfOk result (ReadsFirst cursor.old cursor.new) }
    ensures fails { IfErr result (FailsFirst cursor.old) }
{
    if cursor.is_next(Symbol::Minus) {
        cursor.pass();
        let first = number(cursor)?;
        cursor.expect(Symbol::Semicolon)?;
        return Ok(-first);
    }
    let first = number(cursor)?;
    cursor.expect(Symbol::Semicolon)?;
    Ok(first)
}

/// A number, which is due.
fn number(cursor: &mut Cursor) -> Result<i64, ParseError>
    ensures read { IfOk result (ReadsNumber cursor.old cursor.new) }
    ensures fails { IfErr result (FailsNumber cursor.old) }
{
    let Some(number) = next_number(cursor) else {
        return Err(cursor.unexpected());
    };
    cursor.pass();
    Ok(number as i64)
}

/// The next token as a number, at least 0.
fn next_number(cursor: &Cursor) -> Option<u64>
    ensures found { IfSome result (λ number. IsNextKind cursor.now (token.Number (pos number))) }
    ensures fits { IfSome result (λ number. number < 9223372036854775808) }
    ensures none { IfNone result ((number : ℕ) → ¬ IsNextKind cursor.now (token.Number (pos number))) }
{
    let token = cursor.next()?;
    match token.kind {
        TokenKind::Number(number) => u64::try_from(number).ok(),
        _ => None,
    }
}
