//! The calls of links and journal, each one part of a unit.

ghost use Rattle.std.specs.Prelude.{◌≡◌, ◌∷◌, [], IfOk, OnOk, IfErr};
ghost use Rattle.wire_msg.specs.Frames.{NamesHosts};
ghost use Rattle.wire_msg.specs.Spelling.{frame_bytes};
ghost use Rattle.node_engine.specs.NodeWorlds.{Taking, Line, Sending};
ghost use Rattle.node_seals.specs.Seals.{after_sealing};
ghost use Rattle.node_engine.specs.Told.{PartsAreDone, HasSameHost, HasSameInside, Stops, TakesFrame, seen};
ghost use Rattle.node_engine.specs.Units.{frame_parts};

use crate::node::Node;
use crate::node_error::NodeError;
use js_base::{HostId, PutError, Sink};
use node_links::{Arrived, LinkError, Links};
use wire_msg::{Frame, write};

impl<L: Links, R: Sink> Node<'_, '_, L, R> {
    /// The next frame is taken from the links.
    pub(crate) fn taken(&mut self) -> Result<Arrived, NodeError>
        ensures ok { IfOk result (λ arrived.
            TakesFrame arrived.bytes.items (seen L.Links R.Sink self.old) (seen L.Links R.Sink self.new)) }
        ensures err { IfErr result (λ error.
            Stops error (Taking ∷ []) (seen L.Links R.Sink self.old) (seen L.Links R.Sink self.new)) }
        ensures same { HasSameInside self.old self.new }
    {
        match self.links.next(self.alloc) {
            Ok(arrived) => Ok(arrived),
            Err(LinkError::OutOfMemory) => Err(NodeError::OutOfMemory),
            Err(LinkError::Failed) => Err(NodeError::LinkFault),
        }
    }

    /// A line of the journal is put.
    pub(crate) fn noted(&mut self, line: &str) -> Result<(), NodeError>
        ensures ok { OnOk result
            (PartsAreDone (Line line.now ∷ []) (seen L.Links R.Sink self.old) (seen L.Links R.Sink self.new)) }
        ensures err { IfErr result (λ error.
            Stops error (Line line.now ∷ []) (seen L.Links R.Sink self.old) (seen L.Links R.Sink self.new)) }
        ensures same { HasSameInside self.old self.new }
    {
        match self.journal.put(self.alloc, line.as_bytes()) {
            Ok(()) => Ok(()),
            Err(PutError::OutOfMemory) => Err(NodeError::OutOfMemory),
            Err(PutError::Failed) => Err(NodeError::OutFault),
        }
    }

    /// A string is sent to a host.
    fn put_out(&mut self, to: HostId, bytes: &[u8]) -> Result<(), NodeError>
        ensures ok { OnOk result
            (PartsAreDone (Sending to bytes.now ∷ []) (seen L.Links R.Sink self.old) (seen L.Links R.Sink self.new)) }
        ensures err { IfErr result (λ error.
            Stops error (Sending to bytes.now ∷ []) (seen L.Links R.Sink self.old) (seen L.Links R.Sink self.new)) }
        ensures same { HasSameInside self.old self.new }
    {
        match self.links.send(self.alloc, to, bytes) {
            Ok(()) => Ok(()),
            Err(LinkError::OutOfMemory) => Err(NodeError::OutOfMemory),
            Err(LinkError::Failed) => Err(NodeError::LinkFault),
        }
    }

    /// A frame is sent to a host, under the node's seals.
    pub(crate) fn sent(&mut self, to: HostId, frame: &Frame) -> Result<(), NodeError>
        requires { NamesHosts self.old.me frame.now }
        ensures ok { OnOk result (PartsAreDone (frame_parts self.old.seals.now to (frame_bytes self.old.me frame.now))
            (seen L.Links R.Sink self.old) (seen L.Links R.Sink self.new)) }
        ensures raised { OnOk result (self.new.seals.now ≡ after_sealing to self.old.seals.now) }
        ensures err { IfErr result (λ error. Stops error
            (frame_parts self.old.seals.now to (frame_bytes self.old.me frame.now))
            (seen L.Links R.Sink self.old) (seen L.Links R.Sink self.new)) }
        ensures same { HasSameHost self.old self.new }
    {
        let bytes = write(self.alloc, self.me, frame)?;
        match self.seals.sealed(self.alloc, to, bytes)? {
            Some(bytes) => self.put_out(to, &bytes),
            None => Ok(()),
        }
    }
}
