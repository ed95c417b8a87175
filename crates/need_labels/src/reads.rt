//! What the reads of expressions add.

ghost use Rattle.std.specs.Prelude.{◌≡◌, ℕ, ◌∷◌, [], OnOk};
ghost use Rattle.principals.specs.ActsFor.{Declared};
ghost use Rattle.need_labels.specs.Labelled.{Labelled};
ghost use Rattle.need_labels.specs.Finding.{AddsReads};

use crate::place::Reads;
use js_base::{FieldId, OutOfMemory, StmtId, VarId};
use label_lattice::Label;

/// A read tells this label to the holder of a field. Nothing is told where there is no such field.
pub fn tell(reads: &mut Reads, field: FieldId, label: Label)
    ensures { (principals : Declared) (labelled : Labelled) (id : StmtId) (turn : ℕ) →
        AddsReads principals labelled id turn reads.old (record { field = field; label = label } ∷ []) [] reads.new }
{
    if let Some(told) = reads.loc.get_mut(field.0 as usize) {
        *told = told.join(label);
    }
}

/// The statement of this turn reads a variable. It is a reader once. There is none where there is no such variable.
///
/// # Errors
/// That memory ran out.
pub fn read(
    reads: &mut Reads,
    statement: StmtId,
    turn: usize,
    variable: VarId,
) -> Result<(), OutOfMemory>
    ensures { OnOk result ((principals : Declared) (labelled : Labelled) →
        AddsReads principals labelled statement turn reads.old [] (variable ∷ []) reads.new) }
{
    let place = variable.0 as usize;
    if place < reads.marks.len() && place < reads.readers.len() && reads.marks[place] != turn {
        reads.readers[place].push(statement)?;
        reads.marks[place] = turn;
    }
    Ok(())
}
