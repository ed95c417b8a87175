//! The parts of a program that stand on hosts.

ghost use Rattle.std.specs.Prelude.{◌≡◌};
ghost use Rattle.placement.specs.Steps.{step_to};

use js_base::{FieldId, HostId, StmtId};
use msg_cost::Step;

/// A part of a program that stands on a host.
#[derive(Clone, Copy)]
pub enum Part {
    Field(FieldId),
    Statement(StmtId),
}

impl Part {
    /// The move of the part to a host.
    pub fn step_to(self, host: HostId) -> Step
        ensures { result ≡ step_to self host.0 }
    {
        match self {
            Part::Field(field) => Step::Field(field, host),
            Part::Statement(statement) => Step::Statement(statement, host),
        }
    }
}
