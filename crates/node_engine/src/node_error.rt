//! Why a node's work breaks off.

ghost use Rattle.std.specs.Prelude.{◌≡◌};
ghost use Rattle.node_engine.specs.Statuses.{status_of};

use js_base::{OutOfMemory, PutError, Status};
use node_links::LinkError;
use std::alloc::AllocError;
use thiserror::Error;

/// Why a node's work breaks off.
#[derive(Clone, Copy, Debug, PartialEq, Eq, Error)]
pub enum NodeError {
    #[error("out of memory")]
    OutOfMemory,
    /// The links failed.
    #[error("link fault")]
    LinkFault,
    /// The journal failed.
    #[error("output fault")]
    OutFault,
}

impl NodeError {
    /// The status with which the node ends.
    pub fn status(self) -> Status
        ensures { result ≡ status_of self }
    {
        match self {
            NodeError::OutOfMemory => Status::NoMemory,
            NodeError::LinkFault => Status::LinkFault,
            NodeError::OutFault => Status::OutFault,
        }
    }
}

impl From<OutOfMemory> for NodeError {
    ghost use Rattle.std.specs.Prelude.{◌≡◌};
    ghost use Rattle.node_engine.specs.declared.node_error.NodeError.TheVariants as node_error;

    ghost from_gives = { λ _ e. e ≡ node_error.OutOfMemory };

    fn from(_error: OutOfMemory) -> NodeError {
        NodeError::OutOfMemory
    }
}

impl From<AllocError> for NodeError {
    ghost use Rattle.std.specs.Prelude.{◌≡◌};
    ghost use Rattle.node_engine.specs.declared.node_error.NodeError.TheVariants as node_error;

    ghost from_gives = { λ _ e. e ≡ node_error.OutOfMemory };

    fn from(_error: AllocError) -> NodeError {
        NodeError::OutOfMemory
    }
}
