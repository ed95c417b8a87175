//! Copies of texts.

ghost use Rattle.std.specs.Prelude.{◌≡◌, IfOk, map, string_bytes};

use std::alloc::{AllocError, Global};

/// The texts again.
pub fn copies(alloc: Global, texts: &[String]) -> Result<Vec<String>, AllocError>
    ensures { IfOk result (λ copies. map string_bytes copies.items ≡ map string_bytes texts.now) }
{
    let mut copies = Vec::new(alloc);
    for text in texts {
        copies.push(text.clone()?)?;
    }
    Ok(copies)
}
