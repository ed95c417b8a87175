//! Flags, texts and labels at the end of some bytes.
#![tactic(auto, using(crate::proofs::Appends::appends))]

ghost use Rattle.std.specs.Prelude.{◌≡◌, ◌++◌, ◌≤◌, ◌<◌, ◌^◌, length, OnOk};
ghost use Rattle.std.specs.List.{flat_map};
ghost use Rattle.js_base.specs.declared.bits.TheConstants.{WORD_BITS};
ghost use Rattle.label_lattice.specs.Label.{IsLabel};
ghost use Rattle.host_code.specs.declared.code.TheConstants.{MOST_ITEMS};
ghost use Rattle.byte_format.specs.Numbers.{number_bytes, word_bytes};
ghost use Rattle.split_file.specs.Put.{ArePut};
ghost use Rattle.split_file.specs.Spelling.{text_bytes, flag_bytes, host_id_bytes, label_bytes};

use byte_format::{put_byte, put_number, put_word};
use js_base::{HostId, OutOfMemory};
use label_lattice::Label;

/// Adds a byte that says yes or no.
pub fn put_flag(out: &mut Vec<u8>, flag: bool) -> Result<(), OutOfMemory>
    ensures { OnOk result (out.new.items ≡ out.old.items ++ flag_bytes flag) }
{
    put_byte(out, u8::from(flag))
}

/// Adds the number of a host.
pub fn put_host_id(out: &mut Vec<u8>, host: HostId) -> Result<(), OutOfMemory>
    ensures { OnOk result (out.new.items ≡ out.old.items ++ host_id_bytes host) }
{
    put_byte(out, host.0)
}

/// Adds a count of items.
#[tactic(auto)]
pub fn put_count(out: &mut Vec<u8>, count: usize) -> Result<(), OutOfMemory>
    requires { count ≤ MOST_ITEMS }
    ensures { OnOk result (out.new.items ≡ out.old.items ++ number_bytes count) }
{
    put_number(out, count as u32)
}

/// Adds a text, behind its length.
pub fn put_text(out: &mut Vec<u8>, text: &[u8]) -> Result<(), OutOfMemory>
    requires { length text.now ≤ MOST_ITEMS }
    ensures { OnOk result (out.new.items ≡ out.old.items ++ text_bytes text.now) }
{
    put_count(out, text.len())?;
    out.extend_from_slice(text)?;
    Ok(())
}

/// Adds words.
fn put_words(out: &mut Vec<u8>, words: &[u64]) -> Result<(), OutOfMemory>
    ensures { OnOk result (ArePut word_bytes (λ word. word < 2 ^ WORD_BITS) out.old.items words.now out.new.items) }
{
    for word in words {
        put_word(out, *word)?;
    }
    Ok(())
}

/// Adds a label.
pub fn put_label(out: &mut Vec<u8>, label: &Label) -> Result<(), OutOfMemory>
    ensures bytes { OnOk result (out.new.items ≡ out.old.items ++ label_bytes label.now) }
    ensures real { OnOk result (IsLabel label.now) }
{
    put_words(out, label.rows())?;
    put_word(out, label.trust())
}
