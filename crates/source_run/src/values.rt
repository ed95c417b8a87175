//! The values of expressions in a call.

ghost use Rattle.std.specs.Prelude.{◌≡◌};
ghost use Rattle.jif_tree.specs.Store.{element_at, row_of};
ghost use Rattle.source_run.specs.Cells.{value_in};
ghost use Rattle.source_run.specs.Values.{value_with};
ghost use Rattle.source_run.specs.Variables.{cells_read};

use crate::frames::Variables;
use jif_tree::{Expr, Store, binary_value, inverted, negated};
use js_base::FieldId;

/// The value of an expression, where the variables are these. Both sides of every operator are evaluated.
pub fn value_of(expr: &Expr, variables: &Variables<'_>, store: &Store) -> i64
    ensures { result ≡ value_with (value_in (cells_read variables.now)) store.now expr.now }
{
    match expr {
        Expr::Number(number) => *number,
        Expr::Local(var) => variables.value(*var),
        Expr::Scalar(field) => element_of(store, *field, 0),
        Expr::Element(field, index) => element_of(store, *field, value_of(index, variables, store)),
        Expr::Not(operand) => inverted(value_of(operand, variables, store)),
        Expr::Negate(operand) => negated(value_of(operand, variables, store)),
        Expr::Binary(op, left, right) => {
            let left = value_of(left, variables, store);
            let right = value_of(right, variables, store);
            binary_value(*op, left, right)
        }
        Expr::Declassify(inner, _) => value_of(inner, variables, store),
        Expr::Endorse(inner, _) => value_of(inner, variables, store),
    }
}

/// The element of a field at an index, 0 where there is no such field or the index is out of range.
fn element_of(store: &Store, field: FieldId, index: i64) -> i64
    ensures { result ≡ element_at (row_of store.now field.0) index }
{
    match store.rows().get(field.0 as usize) {
        Some(row) => row.element(index),
        None => 0,
    }
}
