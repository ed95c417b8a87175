//! What a cost is counted over, where a part may be moved.

ghost use Rattle.std.specs.Prelude.{◌≡◌};
ghost use Rattle.need_labels.specs.Plan.{field_host, statement_host};
ghost use Rattle.msg_cost.specs.Views.{seated_shape};

use crate::step::Step;
use host_decl::Hosts;
use jif_tree::Program;
use js_base::{FieldId, HostId, StmtId};
use need_labels::{Needs, Plan};

/// A program, what its statements need, the hosts, and a plan, in which one part may be moved. So what a move costs is
/// counted without a plan for it.
#[derive(Clone, Copy)]
pub struct Seated<'a> {
    pub program: &'a Program,
    pub needs: &'a Needs,
    pub hosts: &'a Hosts,
    pub plan: &'a Plan,
    pub step: Option<Step>,
}

impl Seated<'_> {
    /// The host of a statement, and the first host where there is no such statement.
    pub fn host_of(&self, statement: StmtId) -> HostId
        ensures { result ≡ statement_host (seated_shape self.now).plan statement }
    {
        if let Some(Step::Statement(moved, host)) = self.step {
            if moved.0 == statement.0 && (moved.0 as usize) < self.plan.statements().len() {
                return host;
            }
        }
        self.plan.host_of(statement)
    }

    /// The host of a field, and the first host where there is no such field.
    pub fn host_of_field(&self, field: FieldId) -> HostId
        ensures { result ≡ field_host (seated_shape self.now).plan field }
    {
        if let Some(Step::Field(moved, host)) = self.step {
            if moved.0 == field.0 && (moved.0 as usize) < self.plan.fields().len() {
                return host;
            }
        }
        self.plan.host_of_field(field)
    }
}
