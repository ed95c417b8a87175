//! What arrives at a node.

ghost use Rattle.std.specs.Prelude.{◌≡◌, ◌↔◌, IsTrue};
ghost use Rattle.host_code.specs.Sound.{IsOther};
ghost use Rattle.wire_msg.specs.Reading.{reading_of};
ghost use Rattle.node_seals.specs.Arrivals.{ArrivalFits, ArrivesAs, ArrivesFrom, ArrivesOpened, IsForNode, arrival_of};
ghost use Rattle.node_seals.specs.Seals.{opened_shape};

use crate::seals::Opened;
use host_code::{Code, Message};
use js_base::HostId;
use wire_msg::{Frame, WireError, read};

/// Why what arrived is dropped.
#[derive(Clone, Copy)]
pub enum DropReason {
    /// It is no frame, for this fault, or a frame of bad fields.
    Frame(WireError),
    /// It is not the next sealed frame of a link to the node, or the frame in it names another sender.
    Seal,
}

/// What a frame comes to that arrives at a node.
#[derive(Clone, Copy)]
pub enum Arrival {
    /// It is dropped.
    Dropped(DropReason),
    /// Another host sent this message.
    Taken(HostId, Message),
    /// Another host says that it is done.
    Done(HostId),
}

/// What bytes that were opened come to.
pub fn opened_arrival(code: &Code, me: HostId, bytes: &[u8], opened: &Opened) -> Arrival
    ensures arrives { ArrivesOpened code.now me bytes.now (opened_shape opened.now) result }
    ensures fits { ArrivalFits code.now me result }
{
    match opened {
        Opened::AsTheyAre => read_arrival(code, me, bytes),
        Opened::Refused => Arrival::Dropped(DropReason::Seal),
        Opened::Unsealed(from, frame) => sealed_arrival(code, me, *from, frame),
    }
}

/// What the bytes of a frame come to that was sealed on the link from a host.
fn sealed_arrival(code: &Code, me: HostId, from: HostId, bytes: &[u8]) -> Arrival
    ensures arrives { ArrivesFrom code.now me from (reading_of bytes.now) result }
    ensures fits { ArrivalFits code.now me result }
{
    match read(bytes) {
        Ok((sender, _)) if sender != from => Arrival::Dropped(DropReason::Seal),
        _ => read_arrival(code, me, bytes),
    }
}

/// What the bytes of a frame come to.
fn read_arrival(code: &Code, me: HostId, bytes: &[u8]) -> Arrival
    ensures arrives { ArrivesAs code.now me (reading_of bytes.now) result }
    ensures fits { ArrivalFits code.now me result }
{
    match read(bytes) {
        Ok((from, frame)) if is_for_node(code, me, from, &frame) => arrival_of(from, frame),
        Ok(_) => Arrival::Dropped(DropReason::Frame(WireError::BadField)),
        Err(why) => Arrival::Dropped(DropReason::Frame(why)),
    }
}

/// What a frame comes to that is for the node.
fn arrival_of(from: HostId, frame: Frame) -> Arrival
    ensures { result ≡ arrival_of from frame }
{
    match frame {
        Frame::Message(message) => Arrival::Taken(from, message),
        Frame::Done => Arrival::Done(from),
    }
}

/// Whether another host of the code sent a frame, and it names only what is in the code.
fn is_for_node(code: &Code, me: HostId, from: HostId, frame: &Frame) -> bool
    ensures { IsTrue result ↔ IsForNode code.now me from frame.now }
{
    let is_other = (from.0 as usize) < code.hosts().len() && from != me;
    match frame {
        Frame::Message(message) => is_other && message.fits(code),
        Frame::Done => is_other,
    }
}
