//! A journal that is played.

ghost use Rattle.host_code.specs.Sound.{IsHost};

use crate::read_code::read_code;
use crate::tables::columns;
use event_text::{Line, read_events};
use host_code::Code;
use jif_tree::Store;
use journal_player::{PlayError, play};
use js_base::{FieldId, HostId};
use std::alloc::Global;
use std::process::Abort;
use std::test::Fail;

const A: HostId = HostId(0);

/// The plain field of A.
const N: FieldId = FieldId(1);

/// Journals of A with `;` between their lines, and the value of `n` behind them, or the line by which A does not go on.
const JOURNALS: &str = "turn | 2
turn;take B set 0.0 n 0 9;send B ack 0.0 | 9
turn;take B set 0.0 n 0 9 | 9
turn;take B sync 0.0 0.0 e1 A:0.0:e1:0;send B token 0.0 A:0.0:e1:0;take B lgoto A:0.0:e1:0;turn | 2
turn;take B sync 0.0 0.0 e1 A:0.0:e1:0;send B token 0.0 A:0.0:e1:0;take B lgoto A:0.0:e1:0;take B set 0.0 n 0 4 | 4
turn;take B lgoto A:0.0:e0:0;take B set 0.0 n 0 5;send B ack 0.0;take B get 1.0 n 0;send B value 1.0 5 | 5
turn;turn |  | 2
take B set 0.0 n 0 9 |  | 1
send B ack 0.0 |  | 1
turn;take A set 0.0 n 0 9 |  | 2
turn;take B set 0.0 n 0 9;send B ack 0.1 |  | 3
turn;take B set 0.0 n 0 9;take B set 1.0 n 0 8 |  | 3
turn;take B sync 0.0 0.0 e1 A:0.0:e1:0;send B token 0.0 A:0.0:e1:0;take B lgoto A:0.0:e1:1;turn |  | 5";

/// What is left of a journal that is played: the value of `n`, or the line by which A does not go on.
fn left(
    rt: &impl Abort,
    alloc: Global,
    code: &Code,
    store: &Store,
    journal: &str,
) -> Result<Result<i64, u32>, Fail>
    requires { IsHost code.now A }
{
    let mut lines = Vec::new(alloc);
    for (number, text) in journal.split(';').enumerate() {
        assert!(rt; number < 100);
        lines.push(Line {
            bytes: text.as_bytes(),
            number: number as u32 + 1,
        })?;
    }
    assert!(rt; lines.len() < 100);
    match play(alloc, code, A, store, &lines) {
        Ok(host) => Ok(Ok(host.field(N, 0))),
        Err(PlayError::NoRun(line)) => Ok(Err(line)),
        Err(PlayError::OutOfMemory) => Err(Fail::from("no memory")),
    }
}

#[test]
fn fields_are_those_behind_the_journal(rt: HostRuntime) -> Result<(), Fail> {
    let alloc = rt.alloc();
    let code = read_code(&rt, alloc)?;
    let script = read_events(alloc, &code, b"")?;
    assert!(rt; code.hosts().len() == 2);
    for row in JOURNALS.lines() {
        let (journal, value, line) = columns(row);
        let found = left(&rt, alloc, &code, script.start(), journal)?;
        match value.trim().parse::<i64>() {
            Ok(value) => assert_eq!(rt; found, Ok(value)),
            Err(_) => assert_eq!(rt; found, Err(line.trim().parse::<u32>()?)),
        }
    }
    Ok(())
}
