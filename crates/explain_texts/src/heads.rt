//! What is told of a program that is refused for its text or its names.

ghost use Rattle.std.specs.Prelude.{◌≡◌, ◌<◌, ◌^◌, IfOk};
ghost use Rattle.std.specs.Char.{is_ascii_digit};
ghost use Rattle.std.specs.List.{prefix_len};
ghost use Rattle.std.specs.String.{string_bytes};
ghost use Rattle.explain_texts.specs.Heads as heads;
ghost use Rattle.explain_texts.specs.Remedies.{unexpected_remedy};
ghost use Rattle.explain_texts.specs.TokenTexts.{token_text};
ghost use Rattle.explain_texts.specs.Told.{told_shape};

use crate::remedies::{unexpected_remedy, wrong_type_remedy};
use crate::token_texts::{earlier, token_place, token_text};
use crate::told::{Told, message_told, within};
use jif_grammar::What;
use jif_lex::{LexError, Token};
use jif_parse::ParseError;
use jif_resolve::ResolveError;
use js_base::OutOfMemory;
use js_base::names::starts_name;
use std::alloc::Global;

/// What to try where there is too much of something.
const LESS: &str = "try: move a part into a method or a local\n";

/// What is told of a text that has no tokens.
pub fn lexed_told(alloc: Global, text: &[u8], why: LexError) -> Result<Told, OutOfMemory>
    ensures { IfOk result (λ told. told_shape told ≡ heads.lexed_told text.now why) }
{
    match why {
        LexError::OutOfMemory => Err(OutOfMemory),
        LexError::BadByte(at) => {
            let at = at as usize;
            message_told(alloc, Some(at), byte_message(text, at), "")
        }
        LexError::BadNumber(at) => {
            let at = at as usize;
            message_told(alloc, Some(at), number_message(text, at), "")
        }
        LexError::TooLong => message_told(
            alloc,
            None,
            "the program has more than 1048576 bytes",
            "",
        ),
    }
}

/// What is told of a byte that begins no token.
fn byte_message(text: &[u8], at: usize) -> &'static str
    requires { at < 2 ^ 32 }
    ensures { result.now ≡ heads.byte_message text.now at }
{
    if opens_comment(text, at) {
        "this comment is never closed"
    } else {
        "no token begins here"
    }
}

/// Whether `/*` stands at the place.
fn opens_comment(text: &[u8], at: usize) -> bool
    requires { at < 2 ^ 32 }
    ensures { result ≡ heads.opens_comment text.now at }
{
    is_byte(b'/', text.get(at).copied()) && is_byte(b'*', text.get(at + 1).copied())
}

/// Whether there is this byte.
fn is_byte(byte: u8, other: Option<u8>) -> bool
    ensures { result ≡ heads.is_byte byte other }
{
    match other {
        Some(other) => other == byte,
        None => false,
    }
}

/// What is told of digits that are no number.
fn number_message(text: &[u8], at: usize) -> &'static str
    ensures { result.now ≡ heads.number_message text.now at }
{
    let rest = &text[within(text, at)..];
    if has_letter(rest) {
        "a letter follows this number at once"
    } else {
        "this number is above 9223372036854775807"
    }
}

/// Whether a letter or `_` stands behind the digits that a text begins with.
fn has_letter(text: &[u8]) -> bool
    ensures { result ≡ heads.has_letter text.now }
{
    is_letter(text.get(digits_len(text)).copied())
}

/// How many digits a text begins with.
fn digits_len(text: &[u8]) -> usize
    ensures { result ≡ prefix_len is_ascii_digit text.now }
{
    text.iter().take_while(|byte| byte.is_ascii_digit()).count()
}

/// Whether there is a letter or `_`.
fn is_letter(byte: Option<u8>) -> bool
    ensures { result ≡ heads.is_letter byte }
{
    match byte {
        Some(byte) => starts_name(byte),
        None => false,
    }
}

/// What is told of a text whose tokens are no program.
pub fn parsed_told(
    alloc: Global,
    text: &[u8],
    tokens: &[Token],
    why: ParseError,
) -> Result<Told, OutOfMemory>
    ensures { IfOk result (λ told. told_shape told ≡ heads.parsed_told text.now tokens.now why) }
{
    match why {
        ParseError::OutOfMemory => Err(OutOfMemory),
        ParseError::Unexpected(number) => unexpected_told(alloc, text, tokens, number),
        ParseError::TooDeep(number) => {
            let place = token_place(tokens, number as usize);
            message_told(alloc, place, "more than 64 constructs are open here", LESS)
        }
        ParseError::TooMany(counted, number) => {
            let name = name_of(counted);
            let message = format!(in alloc; "too many {name}")?;
            let place = token_place(tokens, number as usize);
            message_told(alloc, place, message.as_str(), LESS)
        }
    }
}

/// What is told of a token with which no program goes on, or of the end of the text.
fn unexpected_told(
    alloc: Global,
    text: &[u8],
    tokens: &[Token],
    number: u32,
) -> Result<Told, OutOfMemory>
    ensures { IfOk result (λ told. told_shape told ≡ heads.parsed_told text.now tokens.now
        (ParseError.Unexpected number)) }
{
    match token_place(tokens, number as usize) {
        Some(at) => unexpected_at(alloc, tokens, number, at),
        None => message_told(alloc, Some(text.len()), "the program ends too early", ""),
    }
}

/// What is told of a token with which no program goes on, at this place.
fn unexpected_at(
    alloc: Global,
    tokens: &[Token],
    number: u32,
    at: usize,
) -> Result<Told, OutOfMemory>
    ensures { IfOk result (λ told. told_shape told ≡ heads.unexpected_at tokens.now number at) }
{
    let lines = unexpected_lines(alloc, tokens, number)?;
    let token = token_text(alloc, tokens, number as usize)?;
    let message = format!(in alloc; "unexpected '{token}'")?;
    message_told(alloc, Some(at), message.as_str(), lines.as_str())
}

/// What to try there.
fn unexpected_lines(alloc: Global, tokens: &[Token], number: u32) -> Result<String, OutOfMemory>
    ensures { IfOk result (λ text. string_bytes text ≡ heads.unexpected_lines tokens.now number) }
{
    let number = number as usize;
    remedy_of(
        alloc,
        tokens,
        earlier(number, 2),
        earlier(number, 1),
        number,
    )
}

/// What to try where the last of the tokens of these numbers is unexpected.
fn remedy_of(
    alloc: Global,
    tokens: &[Token],
    first: usize,
    second: usize,
    third: usize,
) -> Result<String, OutOfMemory>
    ensures { IfOk result (λ text. string_bytes text ≡ unexpected_remedy (token_text tokens.now first)
        (token_text tokens.now second) (token_text tokens.now third)) }
{
    let third = token_text(alloc, tokens, third)?;
    let second = token_text(alloc, tokens, second)?;
    let first = token_text(alloc, tokens, first)?;
    unexpected_remedy(alloc, first.as_str(), second.as_str(), third.as_str())
}

/// What there is too much of.
fn name_of(what: What) -> &'static str
    ensures { result.now ≡ heads.name_of what }
{
    match what {
        What::Fields => "fields",
        What::Methods => "methods",
        What::Parameters => "parameters",
        What::Locals => "locals",
        What::Statements => "statements",
        What::Nodes => "expression nodes",
        What::Elements => "array elements",
    }
}

/// What is told of a program of which a name is refused.
pub fn resolved_told(
    alloc: Global,
    tokens: &[Token],
    why: ResolveError,
) -> Result<Told, OutOfMemory>
    ensures { IfOk result (λ told. told_shape told ≡ heads.resolved_told tokens.now why) }
{
    match why {
        ResolveError::OutOfMemory => Err(OutOfMemory),
        ResolveError::UnknownName(number) => unknown_told(alloc, tokens, number),
        ResolveError::Twice(number) => twice_told(alloc, tokens, number),
        ResolveError::WrongType(number) => wrong_type_told(alloc, tokens, number),
        ResolveError::WrongCount(number) => wrong_count_told(alloc, tokens, number),
        ResolveError::NoMain => message_told(
            alloc,
            None,
            "there is no void main without parameters",
            "try: add void main{}() { .. }\n",
        ),
    }
}

/// What is told of a name that stands for nothing.
fn unknown_told(alloc: Global, tokens: &[Token], number: u32) -> Result<Told, OutOfMemory>
    ensures { IfOk result (λ told.
        told_shape told ≡ heads.resolved_told tokens.now (ResolveError.UnknownName number)) }
{
    let number = number as usize;
    let name = token_text(alloc, tokens, number)?;
    let message = format!(in alloc; "'{name}' is not known here")?;
    message_told(
        alloc,
        token_place(tokens, number),
        message.as_str(),
        "try: declare it before it is used; principals stand in the host file\n",
    )
}

/// What is told of a name that another has.
fn twice_told(alloc: Global, tokens: &[Token], number: u32) -> Result<Told, OutOfMemory>
    ensures { IfOk result (λ told. told_shape told ≡ heads.resolved_told tokens.now (ResolveError.Twice number)) }
{
    let number = number as usize;
    let name = token_text(alloc, tokens, number)?;
    let message = format!(in alloc; "the name '{name}' is taken")?;
    message_told(
        alloc,
        token_place(tokens, number),
        message.as_str(),
        "try: rename one of the two\n",
    )
}

/// What is told of a name that stands for something else than what is used there.
fn wrong_type_told(alloc: Global, tokens: &[Token], number: u32) -> Result<Told, OutOfMemory>
    ensures { IfOk result (λ told.
        told_shape told ≡ heads.resolved_told tokens.now (ResolveError.WrongType number)) }
{
    let lines = wrong_type_lines(alloc, tokens, number)?;
    let number = number as usize;
    let name = token_text(alloc, tokens, number)?;
    let message = format!(in alloc; "'{name}' can't be used so")?;
    message_told(
        alloc,
        token_place(tokens, number),
        message.as_str(),
        lines.as_str(),
    )
}

/// What to try there.
fn wrong_type_lines(alloc: Global, tokens: &[Token], number: u32) -> Result<String, OutOfMemory>
    ensures { IfOk result (λ text. string_bytes text ≡ heads.wrong_type_lines tokens.now number) }
{
    let number = number as usize;
    let first = token_text(alloc, tokens, number)?;
    let second = token_text(alloc, tokens, number + 1)?;
    let third = token_text(alloc, tokens, number + 2)?;
    let fourth = token_text(alloc, tokens, number + 3)?;
    wrong_type_remedy(
        alloc,
        first.as_str(),
        second.as_str(),
        third.as_str(),
        fourth.as_str(),
    )
}

/// What is told of a call with another number of arguments than there are parameters.
fn wrong_count_told(alloc: Global, tokens: &[Token], number: u32) -> Result<Told, OutOfMemory>
    ensures { IfOk result (λ told.
        told_shape told ≡ heads.resolved_told tokens.now (ResolveError.WrongCount number)) }
{
    let number = number as usize;
    let name = token_text(alloc, tokens, number)?;
    let message = format!(in alloc;
        "'{name}' is called with another number of arguments than it has parameters"
    )?;
    message_told(
        alloc,
        token_place(tokens, number),
        message.as_str(),
        "try: give one for each\n",
    )
}
