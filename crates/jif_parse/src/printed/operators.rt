//! How operators are printed.

ghost use Rattle.std.specs.Prelude.{◌≡◌};
ghost use Rattle.jif_lex.specs.Symbols.{symbol_text};
ghost use Rattle.jif_tree.specs.Trees.{expr_tree};
ghost use Rattle.jif_grammar.specs.Grouping.{level};
ghost use Rattle.jif_grammar.specs.Operators.{operator_symbol, tightest_level};
ghost use Rattle.jif_parse.specs.PrintedNames.{naming_of};
ghost use Rattle.jif_parse.specs.PrintedExprs.{expr_phrase};

use crate::operators::level_of;
use crate::printed::names::Names;
use jif_tree::Expr;
use js_base::BinOp;

/// The level of signs, and of all that no operator makes.
pub const TIGHTEST: u32 = 6;

/// The symbol of an operator.
pub fn operator_text(operator: BinOp) -> &'static str
    ensures { result.now ≡ symbol_text (operator_symbol operator) }
{
    match operator {
        BinOp::Or => "||",
        BinOp::And => "&&",
        BinOp::Equal => "==",
        BinOp::NotEqual => "!=",
        BinOp::Less => "<",
        BinOp::LessEqual => "<=",
        BinOp::Greater => ">",
        BinOp::GreaterEqual => ">=",
        BinOp::Add => "+",
        BinOp::Subtract => "-",
        BinOp::Multiply => "*",
        BinOp::Divide => "/",
        BinOp::Remainder => "%",
    }
}

/// How tightly an expression holds together.
pub fn expr_level(names: &Names<'_>, expr: &Expr) -> u32
    ensures { result ≡ level (expr_phrase (naming_of names.now) (expr_tree expr.now)) }
{
    match expr {
        Expr::Binary(operator, _, _) => level_of(*operator),
        _ => TIGHTEST,
    }
}
