//! What nodes send and note that seal their frames, while the links to them are attacked.

use crate::node_services::all_hold;
use std::test::Fail;

/// The root A. What it refuses changes nothing else: it goes on with the frame that B sealed for it, as if nothing had
/// come before. What it sends is sealed with the numbers 0 and 1.
///
/// Rows are as those without seals.
const ROOT_ROWS: &str = "\
    its whole run | \
    --program P --hosts H --host A --start S --turns 4 --seals K | ACK_0 | - | - | \
    turn\nturn\nsend B set 1.0 b 0 2\ntake B ack 1.0\nturn\n\
    Done, B SET_0, B DONE_1\n\n\
    a frame that is cut, and one with its last bit changed | \
    --program P --hosts H --host A --start S --turns 6 --seals K | ACK_0_CUT ACK_0_ALTERED ACK_0 | - | - | \
    turn\nturn\nsend B set 1.0 b 0 2\nbad seal\nbad seal\ntake B ack 1.0\nturn\n\
    Done, B SET_0, B DONE_1\n\n\
    frames out of turn, of other links, and with no seal | \
    --program P --hosts H --host A --start S --turns 9 --seals K | \
    ACK_1 ACK_0_TO_C ACK_0_FROM_A SET_0 ACK ACK_0 | - | - | \
    turn\nturn\nsend B set 1.0 b 0 2\n\
    bad seal\nbad seal\nbad seal\nbad seal\nbad seal\ntake B ack 1.0\nturn\n\
    Done, B SET_0, B DONE_1\n\n\
    no bytes | \
    --program P --hosts H --host A --start S --turns 3 --seals K | NO_BYTES | - | - | \
    turn\nturn\nsend B set 1.0 b 0 2\nbad seal\n\
    Spent, B SET_0";

/// The host B, which answers A until it hears of the end.
const OTHER_ROWS: &str = "\
    a frame that comes once more | \
    --program P --hosts H --host B --start S --turns 4 --seals K | SET_0 SET_0 SET_0 DONE_1 | - | - | \
    take A set 1.0 b 0 2\nsend A ack 1.0\nbad seal\nbad seal\ndone A\n\
    Done, A ACK_0\n\n\
    a sealed frame with a fault of its own has had its number | \
    --program P --hosts H --host B --start S --turns 3 --seals K | NO_BYTES_0 SET_0 SET_1 | - | - | \
    bad short\nbad seal\ntake A set 1.0 b 0 2\nsend A ack 1.0\n\
    Spent, A ACK_0\n\n\
    a sealed frame that names another sender | \
    --program P --hosts H --host B --start S --turns 2 --seals K | DONE_OF_B_0 DONE_1 | - | - | \
    bad seal\ndone A\n\
    Done\n\n\
    under other keys nothing is taken | \
    --program P --hosts H --host B --start S --turns 1 --seals other_keys | SET_0 | - | - | \
    bad seal\n\
    Spent\n\n\
    a sealed frame is no frame where nothing is sealed | \
    --program P --hosts H --host B --start S --turns 1 | SET_0 | - | - | \
    bad trailing\n\
    Spent";

#[test]
fn the_root_takes_what_was_sealed_for_it(rt: HostRuntime) -> Result<(), Fail> {
    all_hold(&rt, rt.alloc(), ROOT_ROWS)
}

#[test]
fn another_host_takes_each_frame_once(rt: HostRuntime) -> Result<(), Fail> {
    all_hold(&rt, rt.alloc(), OTHER_ROWS)
}
