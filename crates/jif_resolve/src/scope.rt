//! What is known at a place of a method.

ghost use Rattle.std.specs.Prelude.{◌≡◌, ◌+◌, ◌<◌, ◌^◌, [], length, map, reverse, OnOk};
ghost use Rattle.std.specs.Prelude.{if◌then◌else◌};
ghost use Rattle.std.specs.List.{list_any};
ghost use Rattle.std.specs.Str.{bytes_eq};
ghost use Rattle.std.specs.String.{string_bytes};
ghost use Rattle.jif_grammar.specs.DraftShapes.{name_shape};
ghost use Rattle.jif_resolve.specs.KnownNames.{known_shape, left, after_method};
ghost use Rattle.jif_resolve.specs.Meanings.{global_meaning};
ghost use Rattle.jif_resolve.specs.Places.{next_variable, after_variable, after_statement, after_call};
ghost use Rattle.jif_resolve.specs.Places.{known_variable, local_or_global};

use crate::globals::Globals;
use crate::meaning::Meaning;
use jif_tree::NameDraft;
use js_base::{OutOfMemory, VarId};
use std::alloc::Global;
use std::marker::Model;

/// A parameter or a local that is known.
#[derive(Drop)]
struct KnownName {
    text: String,
    variable: VarId,
}

/// What stands before a place of a method: the names that are taken and those that are known, and how far variables,
/// statements and call sites are counted.
#[derive(Drop)]
pub struct Scope {
    /// The method's first variable.
    first: u32,
    /// The names of all parameters and locals so far, also of blocks that have ended.
    taken: Vec<String>,
    /// Those that are known. Of two that are the same the last counts.
    visible: Vec<KnownName>,
    /// The next statement.
    statement: u32,
    /// The next call site.
    site: u32,
}

impl Model for Scope {
    ghost use Rattle.std.specs.Prelude.{map, reverse};
    ghost use Rattle.std.specs.String.{string_bytes};
    ghost use Rattle.jif_resolve.specs.Places.{Place};
    ghost use Rattle.jif_resolve.specs.KnownNames.{known_shape};

    ghost Value = { Place };

    ghost view = { λ scope. record {
      first = scope.first;
      earlier = map string_bytes scope.taken.items;
      known = reverse (map known_shape scope.visible.items);
      statement = scope.statement;
      site = scope.site;
    } };
}

impl Scope {
    /// Where a method begins, with the numbers that its first variable, its head and its first call site have.
    pub fn at(alloc: Global, first: u32, statement: u32, site: u32) -> Scope
        ensures { result ≡ record { first = first; earlier = []; known = []; statement = statement; site = site } }
    {
        Scope {
            first,
            taken: Vec::new(alloc),
            visible: Vec::new(alloc),
            statement,
            site,
        }
    }

    /// The variable that is declared next.
    pub fn next_variable(&self) -> VarId
        requires { self.now.first + length self.now.earlier < 2 ^ 32 }
        ensures { result ≡ next_variable self.now }
    {
        VarId(self.first + self.taken.len() as u32)
    }

    /// The number of the next statement.
    pub fn statement(&self) -> u32
        ensures { result ≡ self.now.statement }
    {
        self.statement
    }

    /// The number of the next call site.
    pub fn site(&self) -> u32
        ensures { result ≡ self.now.site }
    {
        self.site
    }

    /// Declares a parameter or a local, which is known from here on.
    pub fn declare(&mut self, alloc: Global, name: &NameDraft) -> Result<(), OutOfMemory>
        requires { self.old.first + length self.old.earlier < 2 ^ 32 }
        ensures { OnOk result (self.new ≡ after_variable self.old (name_shape name.now)) }
    {
        let variable = self.next_variable();
        let taken = String::from_str(alloc, name.text.as_str())?;
        let text = String::from_str(alloc, name.text.as_str())?;
        self.taken.push(taken)?;
        self.visible.push(KnownName { text, variable })?;
        Ok(())
    }

    /// Goes on behind the number of a statement.
    pub fn pass_statement(&mut self)
        requires { self.old.statement + 1 < 2 ^ 32 }
        ensures { self.new ≡ after_statement self.old }
    {
        self.statement += 1;
    }

    /// Goes on behind a call.
    pub fn pass_call(&mut self)
        requires statement { self.old.statement + 1 < 2 ^ 32 }
        requires site { self.old.site + 1 < 2 ^ 32 }
        ensures { self.new ≡ after_call self.old }
    {
        self.statement += 1;
        self.site += 1;
    }

    /// What `leave` goes back to at the end of a block that begins here.
    pub fn mark(&self) -> usize
        ensures { result ≡ length self.now.known }
    {
        self.visible.len()
    }

    /// Ends the block that began at this mark: its locals are no longer known, but their names stay taken.
    pub fn leave(&mut self, mark: usize)
        ensures { self.new ≡ left mark self.old }
    {
        self.visible.truncate(mark);
    }

    /// Goes on at the head of the next method, behind the result of this one where it has one.
    pub fn next_method(&mut self, gives: bool)
        requires { self.old.first + length self.old.earlier + 1 < 2 ^ 32 }
        ensures { self.new ≡ after_method gives self.old }
    {
        self.first = next_first(self.first, self.taken.len(), gives);
        self.taken.clear();
        self.visible.clear();
    }

    /// Whether a parameter or a local before has the name.
    #[tactic(auto, using(crate::proofs::KnownLists::any_of))]
    pub fn is_taken(&self, name: &str) -> bool
        ensures { result ≡ list_any (bytes_eq name.now) self.now.earlier }
    {
        is_among(&self.taken, name)
    }

    /// The parameter or the local that is known by this name.
    pub fn variable(&self, name: &str) -> Option<VarId>
        ensures { result ≡ known_variable self.now.known name.now }
    {
        variable_in(&self.visible, name)
    }

    /// What a name stands for here.
    pub fn meaning(&self, globals: &Globals, name: &str) -> Option<Meaning>
        ensures { result ≡ local_or_global (known_variable self.now.known name.now)
            (global_meaning globals.now name.now) }
    {
        match self.variable(name) {
            Some(variable) => Some(Meaning::Variable(variable)),
            None => globals.meaning(name),
        }
    }
}

/// Whether one of these is the name.
fn is_among(taken: &[String], name: &str) -> bool
    ensures { result ≡ list_any (λ other. bytes_eq name.now (string_bytes other)) taken.now }
{
    taken.iter().any(|other| name == other.as_str())
}

/// The last variable of this name.
#[tactic(auto, using(crate::proofs::KnownLists::known_more))]
fn variable_in(visible: &[KnownName], name: &str) -> Option<VarId>
    ensures { result ≡ known_variable (reverse (map known_shape visible.now)) name.now }
{
    let mut found = None;
    for known in visible {
        if name == known.text.as_str() {
            found = Some(known.variable);
        }
    }
    found
}

/// The first variable of the next method.
fn next_first(first: u32, declared: usize, gives: bool) -> u32
    requires { first + declared + 1 < 2 ^ 32 }
    ensures { result ≡ first + declared + (if gives then 1 else 0) }
{
    let result = if gives { 1 } else { 0 };
    first + declared as u32 + result
}
