//! What to try where a token is refused.

ghost use Rattle.std.specs.Prelude.{◌≡◌, IfOk};
ghost use Rattle.std.specs.List.{list_any};
ghost use Rattle.std.specs.Str.{bytes_eq};
ghost use Rattle.std.specs.String.{string_bytes};
ghost use Rattle.explain_texts.specs.Remedies.{chains_if, ends_local, keeps_call, leading, opens_call};
ghost use Rattle.explain_texts.specs.Remedies.{unexpected_remedy, wrong_type_remedy};

use js_base::OutOfMemory;
use js_base::names::is_name;
use std::alloc::Global;

/// What to try where the last of three tokens is unexpected, which are spelled so.
pub fn unexpected_remedy(
    alloc: Global,
    first: &str,
    second: &str,
    third: &str,
) -> Result<String, OutOfMemory>
    ensures { IfOk result (λ text. string_bytes text ≡ unexpected_remedy first.now second.now third.now) }
{
    if ends_local(first, second, third) {
        return Ok(format!(in alloc;
            "try: a local gets its value where it is declared: int {second} = 0;\n"
        )?);
    }
    if opens_call(first, second, third) {
        return Ok(format!(in alloc; "try: a call stands alone: int x = 0; x = {second}(..);\n")?);
    }
    if chains_if(second, third) {
        return Ok(String::from_str(alloc, "try: put braces: else { if (..) { .. } }\n")?);
    }
    Ok(String::new(alloc))
}

/// Whether it is the `;` behind `int NAME`.
fn ends_local(first: &str, second: &str, third: &str) -> bool
    ensures { result ≡ ends_local first.now second.now third.now }
{
    third.as_bytes() == b";".as_slice()
        && is_name(second.as_bytes())
        && first.as_bytes() == b"int".as_slice()
}

/// Whether it is the `(` behind a name that stands where a value does.
fn opens_call(first: &str, second: &str, third: &str) -> bool
    ensures { result ≡ opens_call first.now second.now third.now }
{
    third.as_bytes() == b"(".as_slice()
        && is_name(second.as_bytes())
        && is_leading(first.as_bytes())
}

/// Whether a token stands before a call that is used as a value.
fn is_leading(text: &[u8]) -> bool
    ensures { result ≡ list_any (bytes_eq text.now) leading }
{
    text == b"=".as_slice()
        || text == b"(".as_slice()
        || text == b",".as_slice()
        || text == b"[".as_slice()
        || text == b"==".as_slice()
        || text == b"!=".as_slice()
        || text == b"<".as_slice()
        || text == b"<=".as_slice()
        || text == b">".as_slice()
        || text == b">=".as_slice()
        || text == b"+".as_slice()
        || text == b"-".as_slice()
        || text == b"*".as_slice()
        || text == b"/".as_slice()
        || text == b"%".as_slice()
        || text == b"!".as_slice()
        || text == b"&&".as_slice()
        || text == b"||".as_slice()
}

/// Whether it is the `if` behind `else`.
fn chains_if(second: &str, third: &str) -> bool
    ensures { result ≡ chains_if second.now third.now }
{
    third.as_bytes() == b"if".as_slice() && second.as_bytes() == b"else".as_slice()
}

/// What to try where the first of four tokens is used as it can't be, which are spelled so.
pub fn wrong_type_remedy(
    alloc: Global,
    first: &str,
    second: &str,
    third: &str,
    fourth: &str,
) -> Result<String, OutOfMemory>
    ensures { IfOk result (λ text.
        string_bytes text ≡ wrong_type_remedy first.now second.now third.now fourth.now) }
{
    if keeps_call(second, third, fourth) {
        return Ok(format!(in alloc;
            "try: a result is kept in a local: int x = 0; x = {third}(..); {first} = x;\n"
        )?);
    }
    Ok(String::from_str(alloc, "try: give an index or a call, or drop it\n")?)
}

/// Whether `=`, a name and `(` are spelled so.
fn keeps_call(second: &str, third: &str, fourth: &str) -> bool
    ensures { result ≡ keeps_call second.now third.now fourth.now }
{
    second.as_bytes() == b"=".as_slice()
        && is_name(third.as_bytes())
        && fourth.as_bytes() == b"(".as_slice()
}
