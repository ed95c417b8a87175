//! The links between nodes, as a trait.

ghost use Rattle.std.specs.Prelude.{◌≡◌, ◌≤◌, ◌⊎◌, ℕ, List, Option, IfOk, OnOk, OnErr, IsErrOf, map, string_bytes};
ghost use Rattle.js_base.specs.Counts.{Rose};
ghost use Rattle.js_base.specs.declared.ids.HostId.{HostId};
ghost use Rattle.node_links.specs.Links.{Began, Gave, Took};

use js_base::HostId;
use std::alloc::{AllocError, Global};
use thiserror::Error;

/// Why a call of the links did not go well.
#[derive(Clone, Copy, Debug, PartialEq, Eq, Error)]
pub enum LinkError {
    #[error("out of memory")]
    OutOfMemory,
    /// The links' own fault, which they count.
    #[error("link fault")]
    Failed,
}

/// A frame that arrived, as its bytes came: it may be none.
#[derive(Drop)]
pub struct Arrived {
    pub bytes: Vec<u8>,
}

/// The links of a node to the other nodes. With what they began, what they have left to give and what they took is told
/// by links in memory, and not by those of the system.
pub trait Links {
    /// How many faults the links counted. It never falls.
    ghost faults: { Self → ℕ };

    /// The hosts as which they began, each with the paths of all hosts, in order, where the links tell.
    ghost begun: { Self → Option (List (HostId × List (List ℕ))) };

    /// The frames that have not been given yet, the next one first, where the links tell.
    ghost left: { Self → Option (List (List ℕ)) };

    /// The frames that were sent, each with the host that it was sent to, in order, where the links tell.
    ghost sent: { Self → Option (List (HostId × List ℕ)) };

    /// Says which host the node is, and the paths of all hosts by their numbers. It is called once, before any other
    /// call. After an error they began or they did not.
    fn begin(&mut self, alloc: Global, me: HostId, paths: &[String]) -> Result<(), LinkError>
        ensures ok { OnOk result (Began me (map string_bytes paths.now) (begun self.old) (begun self.new)) }
        ensures err { OnErr result ((begun self.new ≡ begun self.old)
            ⊎ Began me (map string_bytes paths.now) (begun self.old) (begun self.new)) }
        ensures left { left self.new ≡ left self.old }
        ensures sent { sent self.new ≡ sent self.old }
        ensures faults { faults self.old ≤ faults self.new }
        ensures no_fault { IsErrOf result LinkError.Failed ⊎ (faults self.new ≡ faults self.old) }
        ensures cause { IsErrOf result LinkError.Failed → Rose (faults self.old) (faults self.new) };

    /// The next frame that arrived, for which it may wait. After an error nothing was taken.
    fn next(&mut self, alloc: Global) -> Result<Arrived, LinkError>
        ensures ok { IfOk result (λ arrived. Gave arrived.bytes.items (left self.old) (left self.new)) }
        ensures err { OnErr result (left self.new ≡ left self.old) }
        ensures begun { begun self.new ≡ begun self.old }
        ensures sent { sent self.new ≡ sent self.old }
        ensures faults { faults self.old ≤ faults self.new }
        ensures no_fault { IsErrOf result LinkError.Failed ⊎ (faults self.new ≡ faults self.old) }
        ensures cause { IsErrOf result LinkError.Failed → Rose (faults self.old) (faults self.new) };

    /// Sends a frame to a host. After an error it was sent or it was not.
    fn send(&mut self, alloc: Global, to: HostId, bytes: &[u8]) -> Result<(), LinkError>
        ensures ok { OnOk result (Took to bytes.now (sent self.old) (sent self.new)) }
        ensures err { OnErr result
            ((sent self.new ≡ sent self.old) ⊎ Took to bytes.now (sent self.old) (sent self.new)) }
        ensures begun { begun self.new ≡ begun self.old }
        ensures left { left self.new ≡ left self.old }
        ensures faults { faults self.old ≤ faults self.new }
        ensures no_fault { IsErrOf result LinkError.Failed ⊎ (faults self.new ≡ faults self.old) }
        ensures cause { IsErrOf result LinkError.Failed → Rose (faults self.old) (faults self.new) };
}

impl From<AllocError> for LinkError {
    ghost use Rattle.std.specs.Prelude.{◌≡◌};
    ghost use Rattle.node_links.specs.declared.links.LinkError.TheVariants.{OutOfMemory};

    ghost from_gives = { λ _ e. e ≡ OutOfMemory };

    fn from(_error: AllocError) -> LinkError {
        LinkError::OutOfMemory
    }
}
