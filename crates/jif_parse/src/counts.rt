//! What has begun, against its limits.

ghost use Rattle.std.specs.Prelude.{IfOk, IfErr};
ghost use Rattle.jif_grammar.specs.Marks.{node, statement, local, parameter, method, plain_field, array, elements};
ghost use Rattle.jif_grammar.specs.Marks.{tally_at_start};
ghost use Rattle.jif_parse.specs.Counting.{beginning_of, HasCounted, IsPast, IsTally};

use jif_grammar::What;
use js_base::limits::{
    ARRAY_SIZE, ELEMENTS, EXPRESSION_NODES, FIELDS, METHODS, PARAMETERS, STATEMENTS, VARIABLES,
};

/// What has begun so far: of the last method, its parameters and its variables, which are parameters and locals; of the
/// last statement, its nodes; and all else in all.
#[derive(Clone, Copy)]
pub struct Counts {
    pub methods: usize,
    pub statements: usize,
    pub parameters: usize,
    pub variables: usize,
    pub nodes: usize,
    pub fields: usize,
    pub elements: u32,
}

/// What begins at a token and is counted.
#[derive(Clone, Copy)]
pub enum Begins {
    /// Nothing that is counted.
    Nothing,
    Node,
    Statement,
    /// A declaration, which is a statement.
    Local,
    Parameter,
    /// A method, whose head is a statement.
    Method,
    /// A field with its one element.
    PlainField,
    Array,
    /// So many elements of an array.
    Elements(u64),
    /// The arguments of a call after `=`, from which on nodes are counted anew.
    Arguments,
}

impl Counts {
    /// What has begun before the first token.
    pub fn none() -> Counts
        ensures { IsTally result tally_at_start }
    {
        Counts {
            methods: 0,
            statements: 0,
            parameters: 0,
            variables: 0,
            nodes: 0,
            fields: 0,
            elements: 0,
        }
    }

    /// With one more of this, or the first limit that it passes.
    pub fn with(self, begins: Begins) -> Result<Counts, What>
        ensures counted { IfOk result (λ more. HasCounted self more (beginning_of begins)) }
        ensures past { IfErr result (IsPast self (beginning_of begins)) }
    {
        match begins {
            Begins::Nothing => Ok(self),
            Begins::Node => self.with_node(),
            Begins::Statement => self.with_statement(),
            Begins::Local => self.with_local(),
            Begins::Parameter => self.with_parameter(),
            Begins::Method => self.with_method(),
            Begins::PlainField => self.with_plain_field(),
            Begins::Array => self.with_array(),
            Begins::Elements(size) => self.with_elements(size),
            Begins::Arguments => Ok(Counts { nodes: 0, ..self }),
        }
    }

    fn with_node(self) -> Result<Counts, What>
        ensures counted { IfOk result (λ more. HasCounted self more node) }
        ensures past { IfErr result (IsPast self node) }
    {
        if self.nodes >= EXPRESSION_NODES {
            return Err(What::Nodes);
        }
        Ok(Counts {
            nodes: self.nodes + 1,
            ..self
        })
    }

    fn with_statement(self) -> Result<Counts, What>
        ensures counted { IfOk result (λ more. HasCounted self more statement) }
        ensures past { IfErr result (IsPast self statement) }
    {
        if self.statements >= STATEMENTS {
            return Err(What::Statements);
        }
        Ok(Counts {
            statements: self.statements + 1,
            nodes: 0,
            ..self
        })
    }

    fn with_local(self) -> Result<Counts, What>
        ensures counted { IfOk result (λ more. HasCounted self more local) }
        ensures past { IfErr result (IsPast self local) }
    {
        if self.statements >= STATEMENTS {
            return Err(What::Statements);
        }
        if self.variables >= VARIABLES {
            return Err(What::Locals);
        }
        Ok(Counts {
            statements: self.statements + 1,
            variables: self.variables + 1,
            nodes: 0,
            ..self
        })
    }

    fn with_parameter(self) -> Result<Counts, What>
        ensures counted { IfOk result (λ more. HasCounted self more parameter) }
        ensures past { IfErr result (IsPast self parameter) }
    {
        if self.parameters >= PARAMETERS {
            return Err(What::Parameters);
        }
        if self.variables >= VARIABLES {
            return Err(What::Locals);
        }
        Ok(Counts {
            parameters: self.parameters + 1,
            variables: self.variables + 1,
            ..self
        })
    }

    fn with_method(self) -> Result<Counts, What>
        ensures counted { IfOk result (λ more. HasCounted self more method) }
        ensures past { IfErr result (IsPast self method) }
    {
        if self.methods >= METHODS {
            return Err(What::Methods);
        }
        if self.statements >= STATEMENTS {
            return Err(What::Statements);
        }
        Ok(Counts {
            methods: self.methods + 1,
            statements: self.statements + 1,
            parameters: 0,
            variables: 0,
            nodes: 0,
            ..self
        })
    }

    fn with_plain_field(self) -> Result<Counts, What>
        ensures counted { IfOk result (λ more. HasCounted self more plain_field) }
        ensures past { IfErr result (IsPast self plain_field) }
    {
        if self.fields >= FIELDS {
            return Err(What::Fields);
        }
        if self.elements >= ELEMENTS {
            return Err(What::Elements);
        }
        Ok(Counts {
            fields: self.fields + 1,
            elements: self.elements + 1,
            ..self
        })
    }

    fn with_array(self) -> Result<Counts, What>
        ensures counted { IfOk result (λ more. HasCounted self more array) }
        ensures past { IfErr result (IsPast self array) }
    {
        if self.fields >= FIELDS {
            return Err(What::Fields);
        }
        Ok(Counts {
            fields: self.fields + 1,
            ..self
        })
    }

    fn with_elements(self, size: u64) -> Result<Counts, What>
        ensures counted { IfOk result (λ more. HasCounted self more (elements size)) }
        ensures past { IfErr result (IsPast self (elements size)) }
    {
        if size > u64::from(ARRAY_SIZE) {
            return Err(What::Elements);
        }
        let size = size as u32;
        if self.elements > ELEMENTS || ELEMENTS - self.elements < size {
            return Err(What::Elements);
        }
        Ok(Counts {
            elements: self.elements + size,
            ..self
        })
    }
}
