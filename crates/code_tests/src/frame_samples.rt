//! A frame of each kind, in which each number can be told from the others by its bytes.

use crate::tables::{bytes, columns};
use std::alloc::Global;
use std::test::Fail;

/// The kind, the bytes, and the sender and the frame as they are printed. All tokens are the same: of the last host,
/// and each number but the entry's has all of its bytes.
pub const FRAMES: &str = "\
    get | 0 0 0 26 3 1 0 0 1 2 0 0 0 0 0 0 3 4 0 1 0 8 255 255 255 255 255 255 255 254 | \
        HostId(3) Message(Get { request: RequestId { at: 258, count: 772 }, field: FieldId(65544), index: -2 })\n\
    set | 0 0 0 34 15 2 0 0 1 2 0 0 0 0 0 0 3 4 0 1 0 8 0 0 0 0 0 0 1 44 128 0 0 0 0 0 0 0 | \
        HostId(15) Message(Set { request: RequestId { at: 258, count: 772 }, field: FieldId(65544), index: 300, \
        value: -9223372036854775808 })\n\
    forward | 0 0 0 38 0 3 0 0 1 2 0 0 0 0 0 0 3 4 0 0 0 5 0 0 0 0 0 0 6 7 0 0 0 13 127 255 255 255 255 255 255 255 | \
        HostId(0) Message(Forward { request: RequestId { at: 258, count: 772 }, frame: FrameId { site: SiteId(5), \
        count: 1543 }, var: VarId(13), value: 9223372036854775807 })\n\
    sync | 0 0 0 71 1 4 0 0 1 2 0 0 0 0 0 0 3 4 0 0 0 5 0 0 0 0 0 0 6 7 0 0 0 10 15 1 2 3 4 255 255 255 255 255 255 \
        255 255 0 0 0 11 128 0 0 0 0 0 0 0 1 2 3 4 5 6 7 8 9 10 11 12 13 14 15 16 | \
        HostId(1) Message(Sync { request: RequestId { at: 258, count: 772 }, frame: FrameId { site: SiteId(5), count: \
        1543 }, entry: EntryId(10), token: Token { host: HostId(15), frame: FrameId { site: SiteId(16909060), count: \
        18446744073709551615 }, entry: EntryId(11), serial: 9223372036854775808, tag: [1, 2, 3, 4, 5, 6, 7, 8, 9, 10, \
        11, 12, 13, 14, 15, 16] } })\n\
    rgoto | 0 0 0 59 2 5 0 0 0 5 0 0 0 0 0 0 6 7 0 0 0 10 15 1 2 3 4 255 255 255 255 255 255 255 255 0 0 0 11 128 0 0 \
        0 0 0 0 0 1 2 3 4 5 6 7 8 9 10 11 12 13 14 15 16 | \
        HostId(2) Message(Rgoto { frame: FrameId { site: SiteId(5), count: 1543 }, entry: EntryId(10), token: Token { \
        host: HostId(15), frame: FrameId { site: SiteId(16909060), count: 18446744073709551615 }, entry: EntryId(11), \
        serial: 9223372036854775808, tag: [1, 2, 3, 4, 5, 6, 7, 8, 9, 10, 11, 12, 13, 14, 15, 16] } })\n\
    lgoto | 0 0 0 43 4 6 15 1 2 3 4 255 255 255 255 255 255 255 255 0 0 0 11 128 0 0 0 0 0 0 0 1 2 3 4 5 6 7 8 9 10 \
        11 12 13 14 15 16 | \
        HostId(4) Message(Lgoto { token: Token { host: HostId(15), frame: FrameId { site: SiteId(16909060), count: \
        18446744073709551615 }, entry: EntryId(11), serial: 9223372036854775808, tag: [1, 2, 3, 4, 5, 6, 7, 8, 9, 10, \
        11, 12, 13, 14, 15, 16] } })\n\
    value | 0 0 0 22 5 7 0 0 1 2 0 0 0 0 0 0 3 4 255 255 255 255 255 255 255 255 | \
        HostId(5) Message(Value { request: RequestId { at: 258, count: 772 }, value: -1 })\n\
    ack | 0 0 0 14 6 8 0 0 1 2 0 0 0 0 0 0 3 4 | \
        HostId(6) Message(Ack { request: RequestId { at: 258, count: 772 } })\n\
    token | 0 0 0 55 7 9 0 0 1 2 0 0 0 0 0 0 3 4 15 1 2 3 4 255 255 255 255 255 255 255 255 0 0 0 11 128 0 0 0 0 0 0 \
        0 1 2 3 4 5 6 7 8 9 10 11 12 13 14 15 16 | \
        HostId(7) Message(Token { request: RequestId { at: 258, count: 772 }, token: Token { host: HostId(15), frame: \
        FrameId { site: SiteId(16909060), count: 18446744073709551615 }, entry: EntryId(11), serial: \
        9223372036854775808, tag: [1, 2, 3, 4, 5, 6, 7, 8, 9, 10, 11, 12, 13, 14, 15, 16] } })\n\
    with | 0 0 0 84 9 11 0 0 0 5 0 0 0 0 0 0 6 7 0 0 0 10 15 1 2 3 4 255 255 255 255 255 255 255 255 0 0 0 11 128 0 0 \
        0 0 0 0 0 1 2 3 4 5 6 7 8 9 10 11 12 13 14 15 16 2 0 0 0 13 127 255 255 255 255 255 255 255 0 0 1 2 255 255 \
        255 255 255 255 255 254 | \
        HostId(9) Message(RgotoWith { frame: FrameId { site: SiteId(5), count: 1543 }, entry: EntryId(10), token: \
        Token { host: HostId(15), frame: FrameId { site: SiteId(16909060), count: 18446744073709551615 }, entry: \
        EntryId(11), serial: 9223372036854775808, tag: [1, 2, 3, 4, 5, 6, 7, 8, 9, 10, 11, 12, 13, 14, 15, 16] }, \
        pairs: Riders { count: 2, pairs: [(VarId(13), 9223372036854775807), (VarId(258), -2), (VarId(0), 0), \
        (VarId(0), 0), (VarId(0), 0), (VarId(0), 0), (VarId(0), 0), (VarId(0), 0)] } })\n\
    done | 0 0 0 2 8 10 | \
        HostId(8) Done";

/// The bytes of the frame of a kind.
pub fn frame_bytes(alloc: Global, kind: &str) -> Result<Vec<u8>, Fail> {
    for row in FRAMES.lines() {
        let (this, numbers, _said) = columns(row);
        if this == kind {
            return bytes(alloc, numbers);
        }
    }
    Err(Fail::from("no frame of this kind"))
}
