//! Readers of names.
#![tactic(auto, unfolding(byte_format::specs::Reader::sequel, byte_format::specs::Reader::given, byte_format::specs::Reader::refused, crate::specs::Reader::place, byte_format::specs::Reader::require, crate::specs::Reader::in_range, crate::specs::Reading::name_at,))]

ghost use Rattle.std.specs.Prelude.{◌≡◌, ◌&&◌, ◌||◌, ◌≤◌, true, IfOk, codes, drop, length};
ghost use Rattle.std.specs.List.{position_or_len};
ghost use Rattle.std.specs.Str.{bytes_eq};
ghost use Rattle.std.specs.String.{string_bytes};
ghost use Rattle.js_base.specs.Name.{is_name};
ghost use Rattle.split_file.specs.Reader.{GivesRead, in_range, text_at};
ghost use Rattle.split_file.specs.Reading.{name_at, is_dot, is_variable_name};

use crate::fault::ReadError;
use crate::numbers::{out_of_range, text_of};
use js_base::OutOfMemory;
use js_base::names::{is_name, name_text};
use js_base::text::owned_text;
use std::alloc::Global;

/// The byte between the name of a method and that of its variable.
const DOT: u8 = b'.';

/// A name.
pub fn name_of(alloc: Global, bytes: &[u8]) -> Result<(String, &[u8]), ReadError>
    ensures { GivesRead (λ x. (string_bytes x.0, x.1.now)) result (name_at bytes.now) }
{
    let (text, rest) = text_of(bytes)?;
    if !is_name(text) {
        return Err(out_of_range(bytes));
    }
    Ok((name_text(alloc, text)?, rest))
}

/// How many bytes there are before the first dot.
fn method_len(text: &[u8]) -> usize
    ensures len { result ≡ position_or_len is_dot text.now }
    ensures within { result ≤ length text.now }
{
    text.iter().take_while(|byte| **byte != DOT).count()
}

/// The bytes behind the first one.
fn behind_first(bytes: &[u8]) -> &[u8]
    ensures { result.now ≡ drop 1 bytes.now }
{
    match bytes {
        [] => bytes,
        [_, rest @ ..] => rest,
    }
}

/// Whether the bytes are what a method calls a variable, or its result.
fn is_called(name: &[u8]) -> bool
    ensures { result ≡ (is_name name.now || bytes_eq name.now (codes "return")) }
{
    is_name(name) || name == b"return".as_slice()
}

/// Whether the bytes are the name of a variable, with that of its method in front.
fn is_variable_name(text: &[u8]) -> bool
    ensures { result ≡ is_variable_name text.now }
{
    let (method, rest) = text.split_at(method_len(text));
    is_name(method) && is_called(behind_first(rest))
}

/// The name of a variable, with that of its method in front.
pub fn variable_name_of(alloc: Global, bytes: &[u8]) -> Result<(String, &[u8]), ReadError>
    ensures { GivesRead (λ x. (string_bytes x.0, x.1.now)) result (in_range is_variable_name text_at bytes.now) }
{
    let (text, rest) = text_of(bytes)?;
    if !is_variable_name(text) {
        return Err(out_of_range(bytes));
    }
    Ok((variable_text(alloc, text)?, rest))
}

/// An owned copy of the name of a variable.
fn variable_text(alloc: Global, name: &[u8]) -> Result<String, OutOfMemory>
    requires { is_variable_name name.now ≡ true }
    ensures { IfOk result (λ text. string_bytes text ≡ name.now) }
{
    let text = str::from_utf8(name).unwrap();
    owned_text(alloc, text)
}
