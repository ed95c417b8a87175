//! How a node ends.

use front_end::Refusal;
use js_base::Status;

/// How a node ends: its status, and why its files are refused where they are.
#[derive(Drop)]
pub struct NodeEnd {
    pub status: Status,
    pub refusal: Option<Refusal>,
}
