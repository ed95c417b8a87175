//! Reading a split file.
#![tactic(auto, unfolding(byte_format::specs::Reader::sequel, byte_format::specs::Reader::given, byte_format::specs::Reader::refused, crate::specs::Reader::place, byte_format::specs::Reader::require, crate::specs::Reading::magic_at, crate::specs::Reading::version_at, crate::specs::Reading::ended, crate::specs::Reading::version_stands, crate::specs::Reading::entries_stand, crate::specs::Reading::front_at, crate::specs::Reading::code_at, crate::specs::File::file_code,))]

ghost use Rattle.std.specs.Prelude.{◌≡◌, ℕ, ◌≤◌, ◌<◌, ◌^◌, ◌⊎◌, List, length, MatchResult, IfOk, Ok, Err};
ghost use Rattle.host_code.specs.declared.code.TheConstants.{MOST_ITEMS};
ghost use Rattle.js_base.specs.declared.limits.TheConstants.{HOSTS};
ghost use Rattle.host_code.specs.Code.{CodeShape, part_of};
ghost use Rattle.host_code.specs.CodeParts.{shape_of};
ghost use Rattle.split_file.specs.declared.error.SplitError.TheVariants as refusal;
ghost use Rattle.split_file.specs.Spelling.{split_file};
ghost use Rattle.split_file.specs.Reader.{GivesRead};
ghost use Rattle.split_file.specs.Reading.{magic_at, version_at, code_with, front_at, version_stands, entries_stand};
ghost use Rattle.split_file.specs.Reading.{code_at};
ghost use Rattle.split_file.specs.Shapes.{tables_shape, starts_shape};
ghost use Rattle.split_file.specs.File.{IsSplitRefusal, IsRealCode, file_code};

use crate::error::SplitError;
use crate::fault::{Fault, ReadError};
use crate::instructions::parts_of;
use crate::numbers::{bytes_of, u16_of};
use crate::starts::{Starts, starts_of};
use crate::tables::{Tables, tables_of};
use crate::versions::{PLAIN, RIDING, version_with};
use host_code::{Code, CodeParts};
use js_base::HostId;
use std::alloc::Global;

/// How every split file begins.
pub(crate) const MAGIC: &[u8; 8] = b"JIFSPLIT";

/// How many bytes of an entry there are from the number of its instruction on, and how many it has.
const PLACE_BYTES: usize = 16;

const ENTRY_BYTES: usize = 17;

/// What is kept of the bytes before the instructions, beside the code that they hold.
#[derive(Clone, Copy)]
pub struct Front {
    /// The version of the file.
    pub version: u16,
    /// How many bytes there are from the version on.
    pub from_version: usize,
    /// How many bytes there are behind the entries.
    pub behind: usize,
}

/// Reads how the file begins.
fn magic_of(bytes: &[u8]) -> Result<&[u8], ReadError>
    ensures { GivesRead (λ rest. (tt, rest.now)) result (magic_at bytes.now) }
{
    let (magic, rest) = bytes_of(8, bytes)?;
    if magic != MAGIC.as_slice() {
        return Err(ReadError::Fault(Fault::BadMagic));
    }
    Ok(rest)
}

/// Reads the version, and how many bytes there are from it on.
fn version_of(bytes: &[u8]) -> Result<((u16, usize), &[u8]), ReadError>
    ensures { GivesRead (λ x. (x.0, x.1.now)) result (version_at bytes.now) }
{
    let (version, rest) = u16_of(bytes)?;
    if version != PLAIN && version != RIDING {
        return Err(ReadError::Fault(Fault::BadVersion));
    }
    Ok(((version, bytes.len()), rest))
}

/// All that stands before the instructions.
fn front_of(alloc: Global, bytes: &[u8]) -> Result<((CodeParts, Front), &[u8]), ReadError>
    ensures front { GivesRead (λ x. ((shape_of x.0.0, x.0.1), x.1.now)) result (front_at bytes.now) }
    ensures few_hosts { IfOk result (λ x. length x.0.0.hosts.items ≤ HOSTS) }
    ensures few_entries { IfOk result (λ x. length x.0.0.entries.items ≤ MOST_ITEMS) }
    ensures behind { IfOk result (λ x. x.0.1.behind < 2 ^ 63) }
{
    let rest = magic_of(bytes)?;
    let ((version, from_version), rest) = version_of(rest)?;
    let (tables, rest) = tables_of(alloc, rest)?;
    let (starts, rest) = starts_of(alloc, tables.hosts.len(), tables.labels.len(), rest)?;
    let front = Front {
        version,
        from_version,
        behind: starts.behind,
    };
    Ok(((code_with(alloc, tables, starts), front), rest))
}

/// A code without its instructions.
fn code_with(alloc: Global, tables: Tables, starts: Starts) -> CodeParts
    ensures code { shape_of result ≡ code_with (tables_shape tables) (starts_shape starts) }
{
    let Tables {
        hosts,
        labels,
        fields,
        vars,
    } = tables;
    let Starts {
        entries,
        sites,
        root,
        main,
        behind: _,
    } = starts;
    CodeParts {
        hosts,
        labels,
        fields,
        vars,
        entries,
        sites,
        parts: Vec::new(alloc),
        root,
        main,
    }
}

/// How many instructions a host has.
fn part_len(code: &CodeParts, host: HostId) -> usize
    ensures { result ≡ length (part_of (shape_of code.now) host) }
{
    match code.parts.get(host.0 as usize) {
        Some(part) => part.instructions().len(),
        None => 0,
    }
}

/// Sees that the file is of the version of its code.
fn check_version(code: &CodeParts, front: Front) -> Result<(), ReadError>
    ensures { (bytes : List ℕ) → GivesRead (λ _. (tt, bytes)) result
        (version_stands (shape_of code.now) front bytes) }
{
    if front.version != version_with(&code.parts) {
        return Err(ReadError::Fault(Fault::BadField(front.from_version)));
    }
    Ok(())
}

/// Sees that each entry stands at an instruction of its host, where there are so many bytes behind the entries.
fn check_entries(code: &CodeParts, behind: usize) -> Result<(), ReadError>
    requires few { length code.now.entries.items ≤ MOST_ITEMS }
    requires behind { behind < 2 ^ 63 }
    ensures { (bytes : List ℕ) → GivesRead (λ _. (tt, bytes)) result
        (entries_stand (shape_of code.now) code.now.entries.items behind bytes) }
{
    let mut left = code.entries.len();
    for entry in &code.entries {
        left -= 1;
        if entry.at as usize >= part_len(code, entry.host) {
            let place = PLACE_BYTES + ENTRY_BYTES * left + behind;
            return Err(ReadError::Fault(Fault::BadField(place)));
        }
    }
    Ok(())
}

/// The parts of a code, all of the bytes.
fn code_of(alloc: Global, bytes: &[u8]) -> Result<(CodeParts, &[u8]), ReadError>
    ensures { GivesRead (λ x. (shape_of x.0, x.1.now)) result (code_at bytes.now) }
{
    let ((mut code, front), rest) = front_of(alloc, bytes)?;
    let (parts, rest) = parts_of(alloc, front.version, &code, code.hosts.len() as u8, rest)?;
    if !rest.is_empty() {
        return Err(ReadError::Fault(Fault::Trailing));
    }
    code.parts = parts;
    check_version(&code, front)?;
    check_entries(&code, front.behind)?;
    Ok((code, rest))
}

/// The refusal for a fault in so many bytes.
fn refusal(total: usize, error: ReadError) -> SplitError
    requires { total ≤ MOST_ITEMS }
    ensures { IsSplitRefusal total error result }
{
    match error {
        ReadError::OutOfMemory => SplitError::OutOfMemory,
        ReadError::Fault(Fault::Short) => SplitError::Short,
        ReadError::Fault(Fault::BadMagic) => SplitError::BadMagic,
        ReadError::Fault(Fault::BadVersion) => SplitError::BadVersion,
        ReadError::Fault(Fault::BadField(left)) => {
            SplitError::BadField(total.saturating_sub(left) as u32)
        }
        ReadError::Fault(Fault::Trailing) => SplitError::Trailing,
    }
}

/// The code that a split file of these bytes holds.
///
/// # Errors
/// Memory ran out, or the bytes are the split file of no code.
pub fn read(alloc: Global, bytes: &[u8]) -> Result<Code, SplitError>
    requires { length bytes.now ≤ MOST_ITEMS }
    // What is read is spelled so.
    ensures found { IfOk result (λ code. IsRealCode code × (bytes.now ≡ split_file code)) }
    // What is spelled so is read, unless memory runs out.
    ensures only { (code : CodeShape) → IsRealCode code → bytes.now ≡ split_file code →
        MatchResult result (λ read. read ≡ code) (λ error. error ≡ refusal.OutOfMemory) }
    // Which code it is, or which fault comes first.
    ensures exact { MatchResult result (λ code. file_code bytes.now ≡ Ok code)
        (λ error. (error ≡ refusal.OutOfMemory) ⊎ (file_code bytes.now ≡ Err error)) }
{
    match code_of(alloc, bytes) {
        Ok((code, _)) => Ok(Code::new(code)),
        Err(error) => Err(refusal(bytes.len(), error)),
    }
}
