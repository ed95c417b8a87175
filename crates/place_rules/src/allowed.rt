//! Words of hosts for the fields and the statements of a program.

use std::marker::Model;

/// Which hosts may hold each field and each statement: a word for each, with bit h set where host h may.
#[derive(Drop)]
pub struct Allowed {
    fields: Vec<u16>,
    statements: Vec<u16>,
}

impl Model for Allowed {
    ghost use Rattle.place_rules.specs.Allowed.{AllowedShape};

    ghost Value = { AllowedShape };

    ghost view = { λ a. record { fields = a.fields.items; statements = a.statements.items } };
}

impl Allowed {
    ghost use Rattle.std.specs.Prelude.{◌≡◌};

    /// These words.
    pub(crate) fn new(fields: Vec<u16>, statements: Vec<u16>) -> Allowed
        ensures { result ≡ record { fields = fields.items; statements = statements.items } }
    {
        Allowed { fields, statements }
    }

    /// The words of the fields, by their numbers.
    pub fn fields(&self) -> &[u16]
        ensures { result.now ≡ self.now.fields }
    {
        &self.fields
    }

    /// The words of the statements, by their numbers.
    pub fn statements(&self) -> &[u16]
        ensures { result.now ≡ self.now.statements }
    {
        &self.statements
    }
}
