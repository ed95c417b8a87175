//! The label that tokens spell.

ghost use Rattle.std.specs.Prelude.{IfOk, IfSome, IfNone};
ghost use Rattle.label_lattice.specs.declared.label.Label.{Label};
ghost use Rattle.label_lattice.specs.Written.{IsLabelOf, IsPartsOf, kinds};
ghost use Rattle.label_lattice.specs.Over.{IsLabelOver};
ghost use Rattle.label_lattice.specs.Reading.{AddsPart, IsNoPart};

mod names;
mod pieces;

use crate::Label;
use crate::tokens::names::known_names;
use crate::tokens::pieces::{after_colon, between_braces, cut_at, may_stand, unless_empty};
use jif_lex::{Symbol, Token, TokenKind};
use js_base::OutOfMemory;
use principals::Principals;
use std::alloc::Global;

/// The label that the tokens are, written with names of these principals. `None` where they are not a label, or where
/// a name in it is not declared.
pub fn read_label(
    alloc: Global,
    tokens: &[Token],
    principals: &Principals,
) -> Result<Option<Label>, OutOfMemory>
    ensures found { IfOk result (λ read. IfSome read (IsLabelOf principals.now tokens.now)) }
    ensures over { IfOk result (λ read. IfSome read (IsLabelOver principals.now)) }
    ensures none { IfOk result
        (λ read. IfNone read ((label : Label) → ¬ IsLabelOf principals.now tokens.now label)) }
{
    match between_braces(tokens) {
        Some(inside) => label_of_parts(alloc, inside, principals),
        None => Ok(None),
    }
}

/// The label of the parts that stand between the braces.
fn label_of_parts(
    alloc: Global,
    inside: &[Token],
    principals: &Principals,
) -> Result<Option<Label>, OutOfMemory>
    ensures found { IfOk result (λ read. IfSome read (IsPartsOf principals.now (kinds inside.now))) }
    ensures over { IfOk result (λ read. IfSome read (IsLabelOver principals.now)) }
    ensures none { IfOk result (λ read. IfNone read ((label : Label) →
        ¬ IsPartsOf principals.now (kinds inside.now) label)) }
{
    let mut label = Label::empty();
    let mut left = unless_empty(inside);
    while let Some(rest) = left {
        let (part, after) = cut_at(rest, Symbol::Semicolon);
        if !may_stand(part, after) {
            return Ok(None);
        }
        let Some(more) = with_part(alloc, label, part, principals)? else {
            return Ok(None);
        };
        label = more;
        left = after;
    }
    Ok(Some(label))
}

/// The label with one more part, where the tokens are one with declared names.
fn with_part(
    alloc: Global,
    label: Label,
    part: &[Token],
    principals: &Principals,
) -> Result<Option<Label>, OutOfMemory>
    ensures found { IfOk result (λ read. IfSome read (AddsPart principals.now (kinds part.now) label)) }
    ensures over { IfOk result (λ read. IfSome read (λ more.
        IsLabelOver principals.now label → IsLabelOver principals.now more)) }
    ensures none { IfOk result (λ read. IfNone read (IsNoPart principals.now (kinds part.now))) }
{
    let Some((head, names)) = after_colon(part) else {
        return Ok(None);
    };
    let Some(known) = known_names(alloc, names, principals)? else {
        return Ok(None);
    };
    if head.kind.is_symbol(Symbol::Question) {
        return Ok(Some(label.with_trust(principals, &known)));
    }
    let TokenKind::Name(owner) = &head.kind else {
        return Ok(None);
    };
    let Some(owner) = principals.find(owner.as_str()) else {
        return Ok(None);
    };
    Ok(Some(label.with_policy(principals, owner, &known)))
}
