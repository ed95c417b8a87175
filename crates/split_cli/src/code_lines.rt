//! The lines of a code: its entries, and then the instructions of each host.

ghost use Rattle.std.specs.Prelude.{◌≡◌, ◌++◌, OnOk, length};
ghost use Rattle.std.specs.List.{flat_map, range_with_len};
ghost use Rattle.std.specs.String.{string_bytes};
ghost use Rattle.split_cli.specs.CodeLines.{code_lines, entry_line, entry_lines, instruction_line, instruction_lines};
ghost use Rattle.split_cli.specs.CodeLines.{part_lines};
ghost use Rattle.front_end.specs.Text.{line_text, lines_text};

use host_code::{Code, Entry, Instr, host_name, instruction_text};
use js_base::limits::HOSTS;
use js_base::{HostId, OutOfMemory};
use std::alloc::Global;
use std::fmt::Write;

/// Adds the lines of the entries, and then those of the instructions of each host.
pub fn push_code(alloc: Global, text: &mut String, code: &Code) -> Result<(), OutOfMemory>
    ensures { OnOk result (string_bytes text.new ≡ string_bytes text.old ++ lines_text (code_lines code.now)) }
{
    push_entries(text, code)?;
    push_parts(alloc, text, code)
}

/// Adds the lines of the entries.
fn push_entries(text: &mut String, code: &Code) -> Result<(), OutOfMemory>
    ensures { OnOk result (
        string_bytes text.new ≡ string_bytes text.old ++ lines_text (entry_lines code.now 0 code.now.entries)) }
{
    for (number, entry) in code.entries().iter().enumerate() {
        push_entry(text, code, number, entry)?;
    }
    Ok(())
}

/// Adds the line of the entry of this number.
fn push_entry(
    text: &mut String,
    code: &Code,
    number: usize,
    entry: &Entry,
) -> Result<(), OutOfMemory>
    ensures { OnOk result (
        string_bytes text.new ≡ string_bytes text.old ++ line_text (entry_line code.now number entry.now)) }
{
    let host = host_name(code, entry.host);
    let at = entry.at;
    if number == 0 {
        return writeln!(text, "entry e{number} {host} halt").map_err(|_| OutOfMemory);
    }
    writeln!(text, "entry e{number} {host} {at}").map_err(|_| OutOfMemory)
}

/// Adds the lines of the instructions, host by host.
#[tactic(auto, using(crate::proofs::WorldLines::range_more))]
fn push_parts(alloc: Global, text: &mut String, code: &Code) -> Result<(), OutOfMemory>
    ensures { OnOk result (string_bytes text.new ≡ string_bytes text.old
        ++ lines_text (flat_map (part_lines code.now) (range_with_len 0 (length code.now.hosts)))) }
{
    let count = code.hosts().len();
    prove!(count <= HOSTS);
    for number in 0..count {
        let host = HostId(number as u8);
        push_part(alloc, text, code, host, code.part(host))?;
    }
    Ok(())
}

/// Adds the lines of the instructions of a host.
fn push_part(
    alloc: Global,
    text: &mut String,
    code: &Code,
    host: HostId,
    part: &[Instr],
) -> Result<(), OutOfMemory>
    ensures { OnOk result (
        string_bytes text.new ≡ string_bytes text.old ++ lines_text (instruction_lines code.now host 0 part.now)) }
{
    for (number, instruction) in part.iter().enumerate() {
        push_instruction(alloc, text, code, host, number, instruction)?;
    }
    Ok(())
}

/// Adds the line of the instruction of this number.
fn push_instruction(
    alloc: Global,
    text: &mut String,
    code: &Code,
    host: HostId,
    number: usize,
    instruction: &Instr,
) -> Result<(), OutOfMemory>
    ensures { OnOk result (string_bytes text.new
        ≡ string_bytes text.old ++ line_text (instruction_line code.now host number instruction.now)) }
{
    let name = host_name(code, host);
    let said = instruction_text(alloc, code, &instruction.op)?;
    writeln!(text, "{name} {number} {said}").map_err(|_| OutOfMemory)
}
