//! What the walk of a method knows at its places.

use crate::trace::Place;
use host_decl::Hosts;
use jif_tree::{Checked, Method};
use js_base::{HostId, StmtId, VarId};
use label_lattice::Label;
use msg_cost::{Planned, Spot};
use need_labels::{Needs, Plan};
use std::alloc::Global;

/// A program that is split by a plan.
#[derive(Clone, Copy)]
pub struct Split<'a> {
    pub alloc: Global,
    pub checked: &'a Checked,
    pub needs: &'a Needs,
    pub hosts: &'a Hosts,
    pub plan: &'a Plan,
}

impl<'a> Split<'a> {
    ghost use Rattle.std.specs.Prelude.{◌≡◌, slice_index};
    ghost use Rattle.msg_cost.specs.Views.{shape_of};
    ghost use Rattle.control_split.specs.Views.{planned_in};

    /// The program and its plan, as a cost is counted over it.
    pub fn planned(&self) -> Planned<'a>
        ensures { shape_of result ≡ planned_in self.now }
    {
        Planned {
            program: &self.checked.program,
            needs: self.needs,
            hosts: self.hosts,
            plan: self.plan,
        }
    }

    /// Who has to trust the host of a statement, nobody where there is no such statement.
    pub fn need_of(&self, statement: StmtId) -> u64
        ensures { result ≡ slice_index self.now.needs.now.need statement.0 }
    {
        self.needs
            .need()
            .get(statement.0 as usize)
            .copied()
            .unwrap_or(0)
    }
}

/// A method of a program that is split.
#[derive(Clone, Copy)]
pub struct Walk<'a> {
    pub split: Split<'a>,
    pub method: &'a Method,
}

/// The block that is walked: its owner, which is the method's head or the branch or loop around it, and its program
/// label.
#[derive(Clone, Copy)]
pub struct Around<'a> {
    pub owner: StmtId,
    pub pc: &'a Label,
}

impl<'a> Around<'a> {
    ghost use Rattle.std.specs.Prelude.{◌≡◌};

    /// Where a host gets an instruction that belongs to no statement of the block.
    pub fn place_on(&self, host: HostId) -> Place<'a>
        ensures host { result.host ≡ host }
        ensures label { result.label.now ≡ self.now.pc.now }
        ensures statement { result.statement ≡ self.now.owner }
    {
        Place {
            host,
            label: self.pc,
            statement: self.owner,
        }
    }
}

/// A spot, the number of the entry that gives back what was lent there, where it was, and the variable whose value
/// rides once the spot is left.
#[derive(Clone, Copy)]
pub struct Lane {
    pub spot: Spot,
    pub return_entry: u32,
    pub riding: Option<VarId>,
}
