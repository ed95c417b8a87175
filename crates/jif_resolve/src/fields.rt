//! Fields with their labels.

ghost use Rattle.std.specs.Prelude.{◌≡◌, [], IfOk, map};
ghost use Rattle.std.specs.List.{AllZip, flat_map};
ghost use Rattle.jif_tree.specs.Trees.{field_tree};
ghost use Rattle.jif_grammar.specs.DraftShapes.{label_shape, field_shape};
ghost use Rattle.jif_resolve.specs.Faults.{label_faults};
ghost use Rattle.jif_resolve.specs.Resolved.{IsFieldFor};

use crate::label_of::label_of;
use jif_tree::{Field, FieldDraft};
use js_base::OutOfMemory;
use principals::Principals;
use std::alloc::Global;

/// What a field becomes.
fn field_of(alloc: Global, draft: FieldDraft, principals: &Principals) -> Result<Field, OutOfMemory>
    requires { label_faults principals.now (label_shape draft.label) ≡ [] }
    ensures { IfOk result (λ field. IsFieldFor principals.now (field_shape draft) (field_tree field)) }
{
    let label = label_of(alloc, &draft.label, principals)?;
    Ok(Field {
        name: draft.name.text,
        label,
        size: draft.size,
        array: draft.array,
        first: draft.first,
    })
}

/// What fields become.
pub fn fields_of(
    alloc: Global,
    drafts: Vec<FieldDraft>,
    principals: &Principals,
) -> Result<Vec<Field>, OutOfMemory>
    requires { flat_map (λ field. label_faults principals.now field.label) (map field_shape drafts.items) ≡ [] }
    ensures { IfOk result (λ fields.
        AllZip (IsFieldFor principals.now) (map field_shape drafts.items) (map field_tree fields.items)) }
{
    let mut fields = Vec::new(alloc);
    for draft in drafts {
        fields.push(field_of(alloc, draft, principals)?)?;
    }
    Ok(fields)
}
