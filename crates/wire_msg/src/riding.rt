//! Readers of an rgoto with which values ride.
#![tactic(auto, unfolding(byte_format::specs::Reader::sequel, byte_format::specs::Reader::given, byte_format::specs::Reader::require, byte_format::specs::Reader::items_at, crate::specs::Reading::riding_at, crate::specs::Reading::rider_at, crate::specs::Reading::rgoto_with_at))]

ghost use Rattle.std.specs.Prelude.{◌≤◌, []};
ghost use Rattle.host_code.specs.declared.riders.TheConstants.{MOST_RIDERS};
ghost use Rattle.byte_format.specs.Reader.{items_at};
ghost use Rattle.wire_msg.specs.Reader.{GivesWire};
ghost use Rattle.wire_msg.specs.Reading.{riding_at, rider_at, rgoto_with_at};

use crate::error::WireError;
use crate::fields::{entry_of, frame_id_of, token_of, var_of};
use crate::numbers::{byte_of, i64_of};
use capability::Token;
use host_code::{MOST_RIDERS, Message, Riders};
use js_base::limits::HOSTS;
use js_base::{EntryId, FrameId, VarId};

/// An rgoto, and how many values are said to ride with it.
#[derive(Clone, Copy)]
pub struct Riding {
    pub frame: FrameId,
    pub entry: EntryId,
    pub token: Token,
    pub count: u8,
}

/// An rgoto, and how many values ride with it. The host of its token and the count are any bytes.
fn riding_of(bytes: &[u8]) -> Result<(Riding, &[u8]), WireError>
    ensures { GivesWire (λ x. (x.0, x.1.now)) result (riding_at bytes.now) }
{
    let (frame, rest) = frame_id_of(bytes)?;
    let (entry, rest) = entry_of(rest)?;
    let (token, rest) = token_of(rest)?;
    let (count, rest) = byte_of(rest)?;
    let riding = Riding {
        frame,
        entry,
        token,
        count,
    };
    Ok((riding, rest))
}

/// A variable, and the value that rides for it.
fn rider_of(bytes: &[u8]) -> Result<((VarId, i64), &[u8]), WireError>
    ensures { GivesWire (λ x. (x.0, x.1.now)) result (rider_at bytes.now) }
{
    let (var, rest) = var_of(bytes)?;
    let (value, rest) = i64_of(rest)?;
    Ok(((var, value), rest))
}

/// So many variables, and the values that ride for them.
fn riders_of(count: u8, bytes: &[u8]) -> Result<(Riders, &[u8]), WireError>
    requires some { 1 ≤ count }
    requires few { count ≤ MOST_RIDERS }
    ensures { GivesWire (λ x. (x.0, x.1.now)) result (items_at (λ _. rider_at) [] count bytes.now) }
{
    let (first, mut rest) = rider_of(bytes)?;
    let mut riders = Riders::one(first);
    for number in 1..count {
        let (rider, after) = rider_of(rest)?;
        riders.push(rider);
        rest = after;
    }
    Ok((riders, rest))
}

/// Where an rgoto starts a thread, and what rides with it. The host of its token is tested first, and then how many
/// values ride.
pub fn rgoto_with_of(bytes: &[u8]) -> Result<(Message, &[u8]), WireError>
    ensures { GivesWire (λ x. (x.0, x.1.now)) result (rgoto_with_at bytes.now) }
{
    let (riding, rest) = riding_of(bytes)?;
    if riding.token.host.0 as usize >= HOSTS {
        return Err(WireError::BadField);
    }
    if riding.count == 0 || riding.count as usize > MOST_RIDERS {
        return Err(WireError::BadField);
    }
    // A `match`, since a `?` on riders beside a slice has no proof.
    match riders_of(riding.count, rest) {
        Ok((pairs, rest)) => {
            let message = Message::RgotoWith {
                frame: riding.frame,
                entry: riding.entry,
                token: riding.token,
                pairs,
            };
            Ok((message, rest))
        }
        Err(error) => Err(error),
    }
}
