//! The values of operators on signed numbers.

ghost use Rattle.std.specs.Prelude.{◌≡◌};
ghost use Rattle.jif_tree.specs.Operators.{number_of, quotient, remainder, binary_value, negation, inversion};

use js_base::BinOp;

/// The value of a binary operator. `+`, `-` and `*` wrap, `/` truncates towards zero and `%` has the sign of the
/// dividend. Where the divisor is 0, both give 0. Comparisons, `&&` and `||` give 1 or 0, and every number but 0 counts
/// as true.
pub fn binary_value(op: BinOp, left: i64, right: i64) -> i64
    ensures { result ≡ binary_value op left right }
{
    match op {
        BinOp::Or => number_of(left != 0 || right != 0),
        BinOp::And => number_of(left != 0 && right != 0),
        BinOp::Equal => number_of(left == right),
        BinOp::NotEqual => number_of(left != right),
        BinOp::Less => number_of(left < right),
        BinOp::LessEqual => number_of(left <= right),
        BinOp::Greater => number_of(left > right),
        BinOp::GreaterEqual => number_of(left >= right),
        BinOp::Add => left.wrapping_add(right),
        BinOp::Subtract => left.wrapping_sub(right),
        BinOp::Multiply => left.wrapping_mul(right),
        BinOp::Divide => quotient(left, right),
        BinOp::Remainder => remainder(left, right),
    }
}

/// The value of `-`, which wraps.
pub fn negated(value: i64) -> i64
    ensures { result ≡ negation value }
{
    value.wrapping_neg()
}

/// The value of `!`: 1 for 0, and 0 for every other number.
pub fn inverted(value: i64) -> i64
    ensures { result ≡ inversion value }
{
    number_of(value == 0)
}

/// 1 for true and 0 for false.
fn number_of(truth: bool) -> i64
    ensures { result ≡ number_of truth }
{
    if truth { 1 } else { 0 }
}

/// The quotient, 0 where the divisor is 0.
fn quotient(left: i64, right: i64) -> i64
    ensures { result ≡ quotient left right }
{
    if right == 0 {
        return 0;
    }
    left.wrapping_div(right)
}

/// What the division leaves, 0 where the divisor is 0.
fn remainder(left: i64, right: i64) -> i64
    ensures { result ≡ remainder left right }
{
    if right == 0 {
        return 0;
    }
    left.wrapping_rem(right)
}
