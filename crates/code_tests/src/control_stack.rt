//! Tokens and the control stack.

ghost use Rattle.std.specs.Prelude.{◌≡◌, ◌<◌, length};

use capability::{Held, Pending, TAG_BYTES, Token, tag};
use ics_stack::{IcsStack, NotTop};
use js_base::{EntryId, FrameId, HostId, OutOfMemory, SiteId};
use std::process::Abort;
use std::test::Fail;

/// As computed by another implementation of SHA-256.
#[test]
fn tags_are_those_of_another_implementation(rt: HostRuntime) {
    let key = [
        0, 1, 2, 3, 4, 5, 6, 7, 8, 9, 10, 11, 12, 13, 14, 15, 16, 17, 18, 19, 20, 21, 22, 23, 24,
        25, 26, 27, 28, 29, 30, 31,
    ];
    let frame = FrameId {
        site: SiteId(7),
        count: 1_099_511_627_781,
    };
    let made = tag(&key, HostId(3), frame, EntryId(9), 8_589_934_593);
    let wanted = [
        159, 36, 125, 24, 209, 197, 178, 231, 235, 216, 43, 37, 97, 221, 221, 86,
    ];
    assert_eq!(rt; made, wanted);
}

const NOBODYS: Token = Token {
    host: HostId(0),
    frame: FRAME,
    entry: EntryId(0),
    serial: 5,
    tag: [0; TAG_BYTES],
};

const FRAME: FrameId = FrameId {
    site: SiteId(0),
    count: 0,
};

/// Pushes two entries on an empty stack, and answers their tokens from below.
fn two_pushed(stack: &mut IcsStack) -> Result<(Token, Token), OutOfMemory>
    requires entry { 1 < length stack.old.serials }
    requires pushes { stack.old.pushes ≡ 0 }
{
    stack.reserve()?;
    let below = stack.push(EntryId(1), FRAME, Held::of(NOBODYS));
    stack.reserve()?;
    let top = stack.push(EntryId(1), FRAME, Held::of(below));
    Ok((below, top))
}

/// The token with another tag than its host made.
fn forged(token: Token) -> Token {
    Token {
        host: token.host,
        frame: token.frame,
        entry: token.entry,
        serial: token.serial,
        tag: [0; TAG_BYTES],
    }
}

/// A token with another tag than its host made takes nothing off. No script can say such a token of an obeying host.
#[test]
fn only_the_top_is_taken_and_only_once(rt: HostRuntime) -> Result<(), Fail> {
    let mut stack = IcsStack::new(rt.alloc(), HostId(0), [1; 32], 2)?;
    let (below, top) = two_pushed(&mut stack)?;
    assert_eq!(rt; (below.serial, top.serial), (0, 1));
    is_refused(&rt, &mut stack, below, Some(top));
    is_refused(&rt, &mut stack, forged(top), Some(top));
    is_taken(&rt, &mut stack, top, below);
    is_refused(&rt, &mut stack, top, Some(below));
    is_taken(&rt, &mut stack, below, NOBODYS);
    is_refused(&rt, &mut stack, below, None);
    assert_eq!(rt; stack.depth(), 0);
    Ok(())
}

/// The token takes nothing off, and is told the token of the top entry.
fn is_refused(rt: &impl Abort, stack: &mut IcsStack, token: Token, top: Option<Token>) {
    assert_eq!(rt; stack.top(), top);
    assert_eq!(rt; kept_with(stack, token), Err(NotTop { top }), "{token:?}");
}

/// The token takes off the entry with which this token is kept.
fn is_taken(rt: &impl Abort, stack: &mut IcsStack, token: Token, kept: Token) {
    assert_eq!(rt; kept_with(stack, token), Ok(kept), "{token:?}");
}

/// Takes an entry off and abandons its thread, whose token is answered.
fn kept_with(stack: &mut IcsStack, token: Token) -> Result<Token, NotTop> {
    let pending: Pending = stack.take(token)?;
    let (_entry, _frame, held) = pending.start();
    Ok(held.spend())
}
