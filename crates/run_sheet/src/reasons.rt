//! Why a host ignored what it was asked, in words.

ghost use Rattle.std.specs.Prelude.{◌≡◌, ◌++◌, IfOk};
ghost use Rattle.std.specs.String.{string_bytes};
ghost use Rattle.host_code.specs.MessageText.{entry_text};
ghost use Rattle.run_sheet.specs.ReasonWords.{reason_words};

use host_code::{Code, field_name, host_name, var_name};
use ignored_reasons::Why;
use js_base::{EntryId, HostId, OutOfMemory};
use std::alloc::Global;

/// Why a host ignored what this one asked.
pub fn reason_text(
    alloc: Global,
    code: &Code,
    from: HostId,
    why: Why,
) -> Result<String, OutOfMemory>
    ensures { IfOk result (λ text. string_bytes text ≡ reason_words code.now from why) }
{
    let host = host_name(code, from);
    match why {
        Why::FieldElsewhere(field) => {
            let field = field_name(code, field);
            Ok(format!(in alloc; "{field} is not here")?)
        }
        Why::MayNotSee(field) => joined(alloc, host, " may not see ", field_name(code, field)),
        Why::MayNotSet(field) => {
            joined(
                alloc,
                host,
                " is not trusted to set ",
                field_name(code, field),
            )
        }
        Why::MayNotForward(var) => {
            joined(alloc, host, " is not trusted to set ", var_name(code, var))
        }
        Why::NoEntry(entry) => Ok(format!(in alloc; "no entry e{} here", entry.0)?),
        Why::MayNotEnter(entry) => {
            let entry = entry_name(alloc, entry)?;
            joined(alloc, host, " is not trusted to enter ", entry.as_str())
        }
        Why::MayNotKnow(entry) => {
            let entry = entry_name(alloc, entry)?;
            joined(alloc, host, " may not know of ", entry.as_str())
        }
        Why::NotOnTop => Ok(String::from_str(alloc, "the token is not that of the top entry")?),
        Why::NoneWaits => Ok(format!(in alloc; "no thread waits for this from {host}")?),
    }
}

fn entry_name(alloc: Global, entry: EntryId) -> Result<String, OutOfMemory>
    ensures { IfOk result (λ text. string_bytes text ≡ entry_text entry) }
{
    Ok(format!(in alloc; "e{}", entry.0)?)
}

/// Three texts in a row.
fn joined(alloc: Global, first: &str, middle: &str, last: &str) -> Result<String, OutOfMemory>
    ensures { IfOk result (λ text. string_bytes text ≡ first.now ++ middle.now ++ last.now) }
{
    Ok(format!(in alloc; "{first}{middle}{last}")?)
}
