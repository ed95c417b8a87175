//! The names that are known in the whole program.

ghost use Rattle.std.specs.Prelude.{◌≡◌, ◌++◌, ◌<◌, ◌^◌, map, length, All, IfOk, OnOk};
ghost use Rattle.std.specs.List.{list_any, flat_map};
ghost use Rattle.std.specs.Str.{bytes_eq};
ghost use Rattle.jif_grammar.specs.DraftShapes.{name_shape, field_shape, method_shape, draft_shape};
ghost use Rattle.jif_resolve.specs.GlobalNames.{global_shape, name_in, HasFirst, IsAdded, is_sooner};
ghost use Rattle.jif_resolve.specs.Meanings.{Global, field_meaning, method_meaning, fields_from, methods_from};
ghost use Rattle.jif_resolve.specs.Meanings.{globals_of, global_meaning};
ghost use Rattle.jif_resolve.specs.Faults.{is_global_before, global_faults};
ghost use Rattle.jif_resolve.specs.First.{with_faults};
ghost use Rattle.jif_resolve.specs.Sizes.{KeepsLimits, MethodKeepsLimits};

use crate::fault::{Fault, FaultKind};
use crate::meaning::Meaning;
use crate::uses::with_kind_where;
use indexmap::IndexMap;
use jif_tree::{Draft, FieldDraft, MethodDraft, NameDraft};
use js_base::{FieldId, MethodId, OutOfMemory};
use std::alloc::Global;
use std::marker::Model;

/// A name as a field, an array or a method declares it.
#[derive(Drop)]
struct DeclaredName {
    name: NameDraft,
    meaning: Meaning,
}

/// Where a name is first declared, and what it then stands for.
#[derive(Clone, Copy)]
struct FirstName {
    at: u32,
    meaning: Meaning,
}

/// The names of fields, arrays and methods. Of several that are the same the one that stands first in the text counts.
#[derive(Drop)]
pub struct Globals {
    declared: Vec<DeclaredName>,
    first: IndexMap<String, FirstName>,
}

impl Model for Globals {
    ghost use Rattle.std.specs.Prelude.{List, map};
    ghost use Rattle.jif_resolve.specs.Meanings.{Global};

    ghost Value = { List Global };

    ghost use Rattle.jif_resolve.specs.GlobalNames.{global_shape, HasFirst};

    ghost view = { λ globals. map global_shape globals.declared.items };

    ghost invariant = { λ globals. HasFirst globals.first.entries (map global_shape globals.declared.items) };
}

/// The names of a draft.
pub fn globals_of(alloc: Global, draft: &Draft) -> Result<Globals, OutOfMemory>
    requires { KeepsLimits (draft_shape draft.now) }
    ensures { IfOk result (λ globals. globals ≡ globals_of (draft_shape draft.now)) }
{
    let mut declared = Vec::new(alloc);
    push_fields(alloc, &mut declared, &draft.fields)?;
    push_methods(alloc, &mut declared, &draft.methods)?;
    let first = first_names(alloc, &declared)?;
    Ok(Globals { declared, first })
}

impl Globals {
    /// What a name stands for in the whole program.
    pub fn meaning(&self, name: &str) -> Option<Meaning>
        ensures { result ≡ global_meaning self.now name.now }
    {
        match self.first.get(name) {
            Some(first) => Some(first.meaning),
            None => None,
        }
    }

    /// Whether a field, an array or a method has this name.
    pub fn has(&self, name: &str) -> bool
        ensures { result ≡ list_any (λ global. bytes_eq name.now global.name.text) self.now }
    {
        self.first.contains_key(name)
    }

    /// The first of the faults so far and those of names that an earlier field, array or method has.
    pub fn with_repeated(&self, first: Option<Fault>) -> Option<Fault>
        ensures { result
            ≡ with_faults first (flat_map (λ global. global_faults self.now global.name) self.now) }
    {
        with_names(first, &self.declared, self)
    }

    /// Whether a field, an array or a method that stands earlier in the text has the name.
    pub fn is_before(&self, name: &NameDraft) -> bool
        ensures { result ≡ is_global_before self.now (name_shape name.now) }
    {
        match self.first.get(name.text.as_str()) {
            Some(first) => first.at < name.at,
            None => false,
        }
    }
}

/// The first of the faults so far and those of these names.
#[tactic(auto, using(crate::proofs::Sooner::faults_more))]
fn with_names(first: Option<Fault>, names: &[DeclaredName], globals: &Globals) -> Option<Fault>
    ensures { result ≡ with_faults first
        (flat_map (λ global. global_faults globals.now global.name) (map global_shape names.now)) }
{
    let mut sooner_one = first;
    for declared in names {
        sooner_one = with_name(sooner_one, &declared.name, globals);
    }
    sooner_one
}

/// The first of the faults so far and that of a name that an earlier field, array or method has.
fn with_name(first: Option<Fault>, name: &NameDraft, globals: &Globals) -> Option<Fault>
    ensures { result ≡ with_faults first (global_faults globals.now (name_shape name.now)) }
{
    with_kind_where(first, globals.is_before(name), name.at, FaultKind::Twice)
}

/// Adds the names of fields, which are numbered from 0.
fn push_fields(
    alloc: Global,
    declared: &mut Vec<DeclaredName>,
    fields: &[FieldDraft],
) -> Result<(), OutOfMemory>
    requires { length fields.now < 2 ^ 32 }
    ensures { OnOk result (map global_shape declared.new.items
        ≡ map global_shape declared.old.items ++ fields_from 0 (map field_shape fields.now)) }
{
    for (number, field) in fields.iter().enumerate() {
        declared.push(field_name(alloc, field, FieldId(number as u32))?)?;
    }
    Ok(())
}

/// The name of a field or an array with this number.
fn field_name(alloc: Global, field: &FieldDraft, id: FieldId) -> Result<DeclaredName, OutOfMemory>
    ensures { IfOk result (λ declared. global_shape declared
        ≡ record { name = name_shape field.now.name; meaning = field_meaning id.0 (field_shape field.now) }) }
{
    let meaning = if field.array {
        Meaning::Array(id)
    } else {
        Meaning::Plain(id)
    };
    declared_name(alloc, &field.name, meaning)
}

/// Adds the names of methods, which are numbered from 0.
fn push_methods(
    alloc: Global,
    declared: &mut Vec<DeclaredName>,
    methods: &[MethodDraft],
) -> Result<(), OutOfMemory>
    requires few { length methods.now < 2 ^ 32 }
    requires each { All MethodKeepsLimits (map method_shape methods.now) }
    ensures { OnOk result (map global_shape declared.new.items
        ≡ map global_shape declared.old.items ++ methods_from 0 (map method_shape methods.now)) }
{
    for (number, method) in methods.iter().enumerate() {
        declared.push(method_name(alloc, method, MethodId(number as u32))?)?;
    }
    Ok(())
}

/// The name of a method with this number.
fn method_name(
    alloc: Global,
    method: &MethodDraft,
    id: MethodId,
) -> Result<DeclaredName, OutOfMemory>
    requires { length method.now.params.items < 2 ^ 32 }
    ensures { IfOk result (λ declared. global_shape declared
        ≡ record { name = name_shape method.now.name; meaning = method_meaning id.0 (method_shape method.now) }) }
{
    let params = method.params.len() as u32;
    let meaning = Meaning::Method(id, params, method.result.is_some());
    declared_name(alloc, &method.name, meaning)
}

/// A name that stands for this.
fn declared_name(
    alloc: Global,
    name: &NameDraft,
    meaning: Meaning,
) -> Result<DeclaredName, OutOfMemory>
    ensures { IfOk result (λ declared. global_shape declared
        ≡ record { name = name_shape name.now; meaning = meaning }) }
{
    let text = String::from_str(alloc, name.text.as_str())?;
    let at = name.at;
    Ok(DeclaredName {
        name: NameDraft { text, at },
        meaning,
    })
}

/// For each of these names the first of its declarations.
fn first_names(
    alloc: Global,
    declared: &[DeclaredName],
) -> Result<IndexMap<String, FirstName>, OutOfMemory>
    ensures { IfOk result (λ first. HasFirst first.entries (map global_shape declared.now)) }
{
    let mut first = IndexMap::new(alloc);
    for name in declared {
        add_name(alloc, &mut first, name)?;
    }
    Ok(first)
}

/// Adds a declaration of a name, unless an earlier one is there.
fn add_name(
    alloc: Global,
    first: &mut IndexMap<String, FirstName>,
    declared: &DeclaredName,
) -> Result<(), OutOfMemory>
    ensures { OnOk result (IsAdded first.old.entries first.new.entries (global_shape declared.now)) }
{
    if !is_first(first, &declared.name) {
        return Ok(());
    }
    let text = String::from_str(alloc, declared.name.text.as_str())?;
    let at = declared.name.at;
    let meaning = declared.meaning;
    first.insert(text, FirstName { at, meaning })?;
    Ok(())
}

/// Whether none of these is a declaration of this name that stands as early.
fn is_first(first: &IndexMap<String, FirstName>, name: &NameDraft) -> bool
    ensures { result ≡ is_sooner name.now.at (name_in first.now.entries (name_shape name.now).text) }
{
    match first.get(name.text.as_str()) {
        Some(other) => name.at < other.at,
        None => true,
    }
}
