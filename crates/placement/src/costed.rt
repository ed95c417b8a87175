//! Plans whose cost is known.

use host_decl::Hosts;
use jif_tree::Checked;
use need_labels::{Needs, Plan};

/// A program, what its statements need, and the hosts: what the costs of plans are counted over.
#[derive(Clone, Copy)]
pub struct Counted<'a> {
    pub checked: &'a Checked,
    pub needs: &'a Needs,
    pub hosts: &'a Hosts,
}

/// A plan and what it costs.
#[derive(Drop)]
pub struct Costed {
    pub plan: Plan,
    pub cost: u64,
}

/// A plan with its cost, while moves of one part are tried.
#[derive(Drop)]
pub struct Weighed {
    pub best: Costed,
    /// What the pieces cost in it that moves of the part touch, but for walks, once that was counted.
    pub touched: Option<u64>,
}
