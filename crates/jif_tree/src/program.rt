//! The trees of programs whose names are resolved.

use js_base::{BinOp, FieldId, MethodId, PrincipalId, SiteId, StmtId, VarId};
use label_lattice::Label;

/// A program whose names are resolved. Fields, variables, methods and statements are numbered in the order of the text.
#[derive(Drop)]
pub struct Program {
    pub fields: Vec<Field>,
    /// Method by method: its parameters, its locals, and its result where it has one.
    pub vars: Vec<Var>,
    pub methods: Vec<Method>,
    pub main: MethodId,
}

/// A field, or an array of a fixed size. A plain field is an array of one element.
#[derive(Drop)]
pub struct Field {
    pub name: String,
    pub label: Label,
    /// The number of elements, 1 for a plain field.
    pub size: u32,
    /// Whether it was declared as an array.
    pub array: bool,
    /// What each element starts with.
    pub first: i64,
}

/// A parameter, a local or the result of a method. A result is named `return`.
#[derive(Drop)]
pub struct Var {
    pub method: MethodId,
    pub name: String,
    /// `None` for a local that is declared without a label.
    pub label: Option<Label>,
}

/// A method. Its head has a statement number of its own, before those of its body.
#[derive(Drop)]
pub struct Method {
    pub name: String,
    /// The begin label: what a caller's program label may flow to, and the program label of the body.
    pub begin: Label,
    pub params: Vec<VarId>,
    /// `None` for a `void` method.
    pub result: Option<VarId>,
    /// The principals by whose authority it releases and endorses.
    pub authority: Vec<PrincipalId>,
    pub head: StmtId,
    /// The line of the head, from 1.
    pub line: u32,
    pub body: Vec<Stmt>,
}

/// A statement with its number and the line of its first token, from 1.
#[derive(Drop)]
#[cycle(numbered_statements)]
pub struct Stmt {
    pub id: StmtId,
    pub line: u32,
    pub kind: StmtKind,
}

/// What a statement does.
#[derive(Drop)]
#[cycle(numbered_statements)]
pub enum StmtKind {
    /// Assigns to a local or a parameter, also where a local is declared.
    Let {
        var: VarId,
        value: Expr,
    },
    /// Assigns to a plain field.
    SetField {
        field: FieldId,
        value: Expr,
    },
    /// Assigns to an element of an array.
    SetElement {
        field: FieldId,
        index: Expr,
        value: Expr,
    },
    /// `no` is empty where there is no `else`.
    If {
        guard: Expr,
        yes: Vec<Stmt>,
        no: Vec<Stmt>,
    },
    While {
        guard: Expr,
        body: Vec<Stmt>,
    },
    /// Calls a method, and keeps its result in `into` where there is one.
    Call {
        site: SiteId,
        method: MethodId,
        args: Vec<Expr>,
        into: Option<VarId>,
    },
    Return {
        value: Expr,
    },
}

/// An expression over 64-bit numbers. Labels stand behind pointers, since they are much larger than all else.
#[derive(Drop)]
pub enum Expr {
    Number(i64),
    /// A local or a parameter.
    Local(VarId),
    /// A plain field.
    Scalar(FieldId),
    /// An element of an array.
    Element(FieldId, Box<Expr>),
    Not(Box<Expr>),
    Negate(Box<Expr>),
    Binary(BinOp, Box<Expr>, Box<Expr>),
    Declassify(Box<Expr>, Box<Label>),
    Endorse(Box<Expr>, Box<Label>),
}

/// A program whose labels were checked.
#[derive(Drop)]
pub struct Checked {
    pub program: Program,
    /// The label of each variable.
    pub var_labels: Vec<Label>,
    /// The program label of each statement: for a `while` that of its guard, and for a head the begin label.
    pub pc: Vec<Label>,
}
