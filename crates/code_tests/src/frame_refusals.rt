//! Why bytes are no frame.

use crate::frame_samples::{FRAMES, frame_bytes};
use crate::tables::{bytes, columns, put};
use host_code::Message;
use std::alloc::{AllocError, Global};
use std::process::Abort;
use std::test::Fail;
use wire_msg::{WireError, read};

/// Small bytes: why they are refused, the bytes, and what is wrong with them.
const SMALL: &str = "\
    Short |  | nothing\n\
    Short | 255 | part of a length\n\
    Short | 255 255 255 | part of a length\n\
    TooLong | 255 255 255 255 | the greatest length, and no body\n\
    TooLong | 0 0 16 1 | 4097, and no body\n\
    TooLong | 0 0 16 1 99 99 | 4097, a sender and a kind\n\
    TooLong | 1 0 0 0 99 | the highest byte counts\n\
    Short | 0 0 16 0 | 4096, and no body\n\
    Short | 0 0 16 0 99 99 | 4096, a sender and a kind\n\
    Short | 0 0 0 0 | an empty body\n\
    Short | 0 0 0 0 3 10 | an empty body, and bytes behind it\n\
    Short | 0 0 0 1 | no body\n\
    Short | 0 0 0 1 3 | a body without a kind\n\
    Short | 0 0 0 1 99 | and with a sender above 15\n\
    Short | 0 0 0 1 3 10 | a kind that is behind the body\n\
    Short | 0 0 0 2 3 | half a body\n\
    Short | 0 0 0 2 99 | and with a sender above 15\n\
    BadField | 0 0 0 2 16 10 | the first sender above 15\n\
    BadField | 0 0 0 2 255 10 | the last\n\
    BadField | 0 0 0 2 16 0 | and with no kind\n\
    BadField | 0 0 0 2 16 8 | and without fields\n\
    BadField | 0 0 0 2 16 10 0 | and with a byte behind the frame\n\
    BadField | 0 0 0 3 16 10 0 | and with a byte too many\n\
    BadKind | 0 0 0 2 15 0 | before the first kind\n\
    BadKind | 0 0 0 2 15 12 | behind the last\n\
    BadKind | 0 0 0 2 15 255 | the last byte\n\
    BadKind | 0 0 0 3 15 12 0 | and with a byte too many\n\
    BadKind | 0 0 0 2 15 12 0 | and with a byte behind the frame\n\
    Short | 0 0 0 2 15 1 | a get without fields\n\
    Short | 0 0 0 2 15 9 | a token without fields\n\
    Short | 0 0 0 2 15 11 | an rgoto with riders, without fields\n\
    Short | 0 0 0 2 15 8 0 0 0 0 0 0 0 0 0 0 0 0 | an ack, all fields behind it\n\
    Trailing | 0 0 0 3 15 10 0 | done, with a byte too many\n\
    Trailing | 0 0 0 2 15 10 0 | done, with a byte behind the frame\n\
    Trailing | 0 0 0 3 15 10 0 0 | and with both";

/// The frames with a token, and the place of the token's host.
const TOKEN_HOSTS: &str = "\
    sync | 34\n\
    rgoto | 22\n\
    lgoto | 6\n\
    token | 18";

/// Why bytes are refused, or that they are a frame.
fn refusal(alloc: Global, bytes: &[u8]) -> Result<String, AllocError> {
    // The kit's borrow checker has to be told of each type that a frame holds, so the function names one.
    let _no_message: Option<Message> = None;
    match read(bytes).err() {
        None => format!(in alloc; "a frame"),
        Some(error) => format!(in alloc; "{error:?}"),
    }
}

/// The bytes are refused so.
fn is_refused(
    rt: &impl Abort,
    alloc: Global,
    bytes: &[u8],
    wanted: &str,
    why: &str,
) -> Result<(), Fail> {
    let found = refusal(alloc, bytes)?;
    assert_eq!(rt; found.as_str(), wanted, "{why}: {bytes:?}");
    Ok(())
}

#[test]
fn small(rt: HostRuntime) -> Result<(), Fail> {
    for row in SMALL.lines() {
        let (wanted, numbers, why) = columns(row);
        let bytes = bytes(rt.alloc(), numbers)?;
        is_refused(&rt, rt.alloc(), &bytes, wanted, why)?;
    }
    Ok(())
}

/// The front of a frame, with the length of what is left of its body.
fn cut(alloc: Global, bytes: &[u8], len: usize) -> Result<Vec<u8>, AllocError> {
    let mut out = Vec::new(alloc);
    out.extend_from_slice(bytes.get(..len).unwrap_or(&[]))?;
    if let Some(last) = out.get_mut(3) {
        *last = (len.saturating_sub(4) % 256) as u8;
    }
    Ok(out)
}

/// The frame is refused wherever it is cut off, whether its length says so or not.
fn needs_all(rt: &impl Abort, alloc: Global, bytes: &[u8]) -> Result<(), Fail> {
    for len in 0..bytes.len() {
        is_refused(rt, alloc, &bytes[..len], "Short", "cut off")?;
    }
    for len in 4..bytes.len() {
        let body = cut(alloc, bytes, len)?;
        is_refused(rt, alloc, &body, "Short", "body cut off")?;
    }
    Ok(())
}

/// The frame is refused where there is a byte too many.
fn takes_no_more(rt: &impl Abort, alloc: Global, bytes: &[u8]) -> Result<(), Fail> {
    let mut more = cut(alloc, bytes, bytes.len())?;
    assert_eq!(rt; more.as_slice(), bytes);
    more.push(0)?;
    is_refused(rt, alloc, &more, "Trailing", "behind the frame")?;
    let body = cut(alloc, &more, more.len())?;
    is_refused(rt, alloc, &body, "Trailing", "in the body")
}

#[test]
fn cut_off(rt: HostRuntime) -> Result<(), Fail> {
    for row in FRAMES.lines() {
        let (_kind, numbers, _said) = columns(row);
        let frame = bytes(rt.alloc(), numbers)?;
        needs_all(&rt, rt.alloc(), &frame)?;
        takes_no_more(&rt, rt.alloc(), &frame)?;
    }
    Ok(())
}

/// The frame with another host in its token, whose place is given.
fn with_host(alloc: Global, bytes: &[u8], place: usize, host: u8) -> Result<Vec<u8>, Fail> {
    let mut changed = cut(alloc, bytes, bytes.len())?;
    put(&mut changed, place, host)?;
    Ok(changed)
}

/// A token's host is tested when all fields are there, and before the bytes that are left.
fn tests_host(rt: &impl Abort, alloc: Global, mut changed: Vec<u8>) -> Result<(), Fail> {
    is_refused(rt, alloc, &changed, "BadField", "nothing else")?;
    let body = cut(alloc, &changed, changed.len().saturating_sub(1))?;
    is_refused(rt, alloc, &body, "Short", "cut off")?;
    changed.push(0)?;
    is_refused(rt, alloc, &changed, "BadField", "and a byte behind")?;
    let body = cut(alloc, &changed, changed.len())?;
    is_refused(rt, alloc, &body, "BadField", "and a byte left")
}

#[test]
fn hosts_of_tokens(rt: HostRuntime) -> Result<(), Fail> {
    for row in TOKEN_HOSTS.lines() {
        let (kind, place, _) = columns(row);
        let frame = frame_bytes(rt.alloc(), kind)?;
        let place = place.parse::<usize>()?;
        for host in [16, 255] {
            tests_host(&rt, rt.alloc(), with_host(rt.alloc(), &frame, place, host)?)?;
        }
    }
    Ok(())
}

/// What stands behind the token of an `rgoto` with riders: the outcome where the token is of host 0, and where it is of
/// host 16; the count and the pairs; and what is wrong with them.
const RIDERS: &str = "\
    a frame, BadField | 1 0 0 0 0 0 0 0 0 0 0 0 7 | nothing\n\
    Short, Short |  | no count\n\
    BadField, BadField | 0 | a count of 0\n\
    BadField, BadField | 9 | a count of 9\n\
    BadField, BadField | 255 | the greatest count\n\
    BadField, BadField | 0 0 | a count of 0, and a byte behind it\n\
    Short, BadField | 1 | no pair\n\
    Short, BadField | 1 0 0 0 0 0 0 0 0 0 0 0 | part of a pair\n\
    Short, BadField | 2 0 0 0 0 0 0 0 0 0 0 0 7 | one pair of two\n\
    Trailing, BadField | 1 0 0 0 0 0 0 0 0 0 0 0 7 0 | a byte more\n\
    a frame, BadField | 2 0 0 0 0 0 0 0 0 0 0 0 7 0 0 0 0 0 0 0 0 0 0 0 8 | a variable twice";

/// The frame from host 0 of `rgoto 0.0 e2` with a token whose numbers are all 0 but for its host, and these bytes.
fn riding(alloc: Global, host: u8, behind: &str) -> Result<Vec<u8>, Fail> {
    let mut body = Vec::new(alloc);
    body.extend_from_slice(&[0, 11])?;
    body.resize(14, 0)?;
    body.extend_from_slice(&[0, 0, 0, 2, host])?;
    body.resize(59, 0)?;
    body.extend_from_slice(bytes(alloc, behind)?.as_slice())?;
    let mut frame = Vec::new(alloc);
    frame.extend_from_slice(&[0, 0, 0, (body.len() % 256) as u8])?;
    frame.extend_from_slice(body.as_slice())?;
    Ok(frame)
}

#[test]
fn riders(rt: HostRuntime) -> Result<(), Fail> {
    for row in RIDERS.lines() {
        let (outcomes, behind, why) = columns(row);
        let (wanted, wanted_too) = outcomes.split_once(", ").unwrap_or((outcomes, ""));
        is_refused(
            &rt,
            rt.alloc(),
            &riding(rt.alloc(), 0, behind)?,
            wanted,
            why,
        )?;
        is_refused(
            &rt,
            rt.alloc(),
            &riding(rt.alloc(), 16, behind)?,
            wanted_too,
            why,
        )?;
    }
    Ok(())
}

/// An ack, and so many zeros behind it that its body is as long as a body may be.
#[test]
fn longest(rt: HostRuntime) -> Result<(), Fail> {
    let mut frame = bytes(rt.alloc(), "0 0 16 0 1 8 0 0 0 1")?;
    frame.resize(4100, 0)?;
    is_refused(&rt, rt.alloc(), &frame, "Trailing", "4096 bytes")
}
