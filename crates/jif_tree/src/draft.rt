//! The trees of programs as they are written: with names in place of numbers.

use js_base::BinOp;

/// A program as it is written, with names that may be unknown. A place is the number of a token, from 0.
#[derive(Drop)]
pub struct Draft {
    pub fields: Vec<FieldDraft>,
    pub methods: Vec<MethodDraft>,
}

/// A name, and its place.
#[derive(Drop)]
pub struct NameDraft {
    pub text: String,
    pub at: u32,
}

/// A label as its names.
#[derive(Drop)]
pub struct LabelDraft {
    pub policies: Vec<PolicyDraft>,
    /// Who trusts, where the label says so.
    pub trust: Option<Vec<NameDraft>>,
}

/// A policy of an owner, who names readers.
#[derive(Drop)]
pub struct PolicyDraft {
    pub owner: NameDraft,
    pub readers: Vec<NameDraft>,
}

/// A field, or an array of a fixed size. A plain field is an array of one element.
#[derive(Drop)]
pub struct FieldDraft {
    pub label: LabelDraft,
    pub name: NameDraft,
    /// The number of elements, 1 for a plain field.
    pub size: u32,
    /// Whether it is declared as an array.
    pub array: bool,
    /// What each element starts with.
    pub first: i64,
}

/// A method.
#[derive(Drop)]
pub struct MethodDraft {
    /// The label of the result, `None` for a `void` method.
    pub result: Option<LabelDraft>,
    pub name: NameDraft,
    /// The begin label.
    pub begin: LabelDraft,
    pub params: Vec<ParamDraft>,
    /// The principals by whose authority it releases and endorses.
    pub authority: Vec<NameDraft>,
    /// The line of its first token, from 1.
    pub line: u32,
    /// The statements. A `return` stands last, whether or not the method has a result.
    pub body: Vec<StmtDraft>,
}

/// A parameter.
#[derive(Drop)]
pub struct ParamDraft {
    pub label: LabelDraft,
    pub name: NameDraft,
}

/// A statement, with the place and the line of its first token.
#[derive(Drop)]
#[cycle(statements)]
pub struct StmtDraft {
    pub at: u32,
    /// From 1.
    pub line: u32,
    pub kind: StmtKindDraft,
}

/// What a statement does.
#[derive(Drop)]
#[cycle(statements)]
pub enum StmtKindDraft {
    /// Declares a local, whose label may be left out.
    Declare {
        label: Option<LabelDraft>,
        name: NameDraft,
        value: ExprDraft,
    },
    /// Assigns to a field or a local.
    Assign {
        name: NameDraft,
        value: ExprDraft,
    },
    /// Assigns to an element of an array.
    AssignElement {
        array: NameDraft,
        index: ExprDraft,
        value: ExprDraft,
    },
    /// `no` is empty where there is no `else`.
    If {
        guard: ExprDraft,
        yes: Vec<StmtDraft>,
        no: Vec<StmtDraft>,
    },
    While {
        guard: ExprDraft,
        body: Vec<StmtDraft>,
    },
    /// Calls a method, and keeps its result where `into` names a local.
    Call {
        method: NameDraft,
        args: Vec<ExprDraft>,
        into: Option<NameDraft>,
    },
    Return {
        value: ExprDraft,
    },
}

/// An expression.
#[derive(Drop)]
pub enum ExprDraft {
    Number(i64),
    /// A field or a local.
    Name(NameDraft),
    /// An element of an array.
    Element(NameDraft, Box<ExprDraft>),
    Not(Box<ExprDraft>),
    Negate(Box<ExprDraft>),
    Binary(BinOp, Box<ExprDraft>, Box<ExprDraft>),
    Declassify(Box<ExprDraft>, LabelDraft),
    Endorse(Box<ExprDraft>, LabelDraft),
}
