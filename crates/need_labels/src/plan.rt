//! Plans: on which host each field and each statement stands.

use js_base::{FieldId, HostId, StmtId};
use std::marker::Model;

/// A host for each field and each statement. The host of a branch or a loop evaluates its guard, and that of a method's
/// head is the method's home.
#[derive(Drop)]
pub struct Plan {
    fields: Vec<HostId>,
    statements: Vec<HostId>,
}

impl Model for Plan {
    ghost use Rattle.need_labels.specs.Plan.{PlanShape};

    ghost Value = { PlanShape };

    ghost view = { λ p. record { fields = p.fields.items; statements = p.statements.items } };
}

impl Plan {
    ghost use Rattle.std.specs.Prelude.{◌≡◌};
    ghost use Rattle.need_labels.specs.Plan.{field_host, statement_host};

    /// The plan that gives these hosts to the fields and to the statements, by their numbers.
    pub fn new(fields: Vec<HostId>, statements: Vec<HostId>) -> Plan
        ensures { result ≡ record { fields = fields.items; statements = statements.items } }
    {
        Plan { fields, statements }
    }

    /// The hosts of the fields.
    pub fn fields(&self) -> &[HostId]
        ensures { result.now ≡ self.now.fields }
    {
        &self.fields
    }

    /// The hosts of the statements.
    pub fn statements(&self) -> &[HostId]
        ensures { result.now ≡ self.now.statements }
    {
        &self.statements
    }

    /// The host of a field, and the first host where there is no such field.
    pub fn host_of_field(&self, field: FieldId) -> HostId
        ensures { result ≡ field_host self.now field }
    {
        self.fields
            .get(field.0 as usize)
            .copied()
            .unwrap_or(HostId(0))
    }

    /// The host of a statement, and the first host where there is no such statement.
    pub fn host_of(&self, statement: StmtId) -> HostId
        ensures { result ≡ statement_host self.now statement }
    {
        self.statements
            .get(statement.0 as usize)
            .copied()
            .unwrap_or(HostId(0))
    }
}
