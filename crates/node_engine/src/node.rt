//! A node: one host of a program, with what it needs to work.

use host_code::Code;
use host_core::Host;
use js_base::{HostId, Sink};
use node_links::Links;
use node_seals::Seals;
use std::alloc::Global;

/// A node at work: the code of all hosts, the number of its own host, and that host with its seals,
/// its links and its journal.
#[derive(Drop)]
pub struct Node<'code, 'lent, L: Links, R: Sink> {
    pub alloc: Global,
    pub code: &'code Code,
    pub me: HostId,
    pub host: &'lent mut Host,
    pub seals: &'lent mut Seals,
    pub links: &'lent mut L,
    pub journal: &'lent mut R,
}
