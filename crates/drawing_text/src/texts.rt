//! Texts as characters: cut to a room, and escaped.

ghost use Rattle.std.specs.Prelude.{◌≡◌, ◌≤◌, ◌++◌, IfOk, OnOk, length};
ghost use Rattle.std.specs.Str.{chars, encode_utf8_all};
ghost use Rattle.std.specs.String.{string_bytes};
ghost use Rattle.drawing_text.specs.Letters.{escaped, escaped_letter};
ghost use Rattle.drawing_text.specs.Letters as texts;

use js_base::OutOfMemory;
use std::alloc::Global;

/// The characters of a text.
#[tactic(auto, using(std::proofs::lemmas::Str::chars_from_encodes))]
pub fn letters(alloc: Global, text: &str) -> Result<Vec<char>, OutOfMemory>
    ensures { IfOk result (λ letters. letters.items ≡ chars text.now) }
{
    let letters = text.chars().collect(alloc)?;
    Ok(letters)
}

/// A text as it is where so many letters have room, and otherwise its front and two dots.
pub fn cut(alloc: Global, letters: &[char], room: usize) -> Result<Vec<char>, OutOfMemory>
    requires { 2 ≤ room }
    ensures { IfOk result (λ kept. kept.items ≡ texts.cut room letters.now) }
{
    if letters.len() <= room {
        return Ok(Vec::from_slice(alloc, letters)?);
    }
    let mut kept = Vec::from_slice(alloc, &letters[..room - 2])?;
    kept.push('.')?;
    kept.push('.')?;
    Ok(kept)
}

/// Adds a text, in which the marks of SVG are written by their names.
pub fn push_escaped(text: &mut String, letters: &[char]) -> Result<(), OutOfMemory>
    ensures { OnOk result (string_bytes text.new
        ≡ string_bytes text.old ++ encode_utf8_all (escaped letters.now)) }
{
    for letter in letters {
        push_letter(text, *letter)?;
    }
    Ok(())
}

/// Adds a letter, or its name.
fn push_letter(text: &mut String, letter: char) -> Result<(), OutOfMemory>
    ensures { OnOk result (string_bytes text.new
        ≡ string_bytes text.old ++ encode_utf8_all (escaped_letter letter)) }
{
    if letter == '&' {
        text.push_str("&amp;")?;
    } else if letter == '<' {
        text.push_str("&lt;")?;
    } else if letter == '>' {
        text.push_str("&gt;")?;
    } else {
        text.push(letter)?;
    }
    Ok(())
}
