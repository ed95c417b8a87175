//! What a frame says.

use host_code::Message;

/// What a frame says.
#[derive(Clone, Copy, Debug)]
pub enum Frame {
    /// A message of one host to another.
    Message(Message),
    /// The sender is done.
    Done,
}
