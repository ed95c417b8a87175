//! The operators as tokens.

ghost use Rattle.std.specs.Prelude.{◌≡◌, ◌≤◌, IfSome, IfNone};
ghost use Rattle.jif_grammar.specs.Operators as operators;
ghost use Rattle.jif_grammar.specs.Operators.{operator_symbol, operator_level};
ghost use Rattle.jif_parse.specs.Reading.{IsNextSymbol};
ghost use Rattle.jif_parse.specs.Phrases.{StopsAt};

use crate::cursor::Cursor;
use jif_lex::{Symbol, TokenKind};
use js_base::BinOp;

/// The operator that a symbol writes between two operands.
pub fn operator_of(symbol: Symbol) -> Option<BinOp>
    ensures { result ≡ operators.operator_of symbol }
{
    match symbol {
        Symbol::Or => Some(BinOp::Or),
        Symbol::And => Some(BinOp::And),
        Symbol::Equal => Some(BinOp::Equal),
        Symbol::NotEqual => Some(BinOp::NotEqual),
        Symbol::Less => Some(BinOp::Less),
        Symbol::LessOrEqual => Some(BinOp::LessEqual),
        Symbol::Greater => Some(BinOp::Greater),
        Symbol::GreaterOrEqual => Some(BinOp::GreaterEqual),
        Symbol::Plus => Some(BinOp::Add),
        Symbol::Minus => Some(BinOp::Subtract),
        Symbol::Star => Some(BinOp::Multiply),
        Symbol::Slash => Some(BinOp::Divide),
        Symbol::Percent => Some(BinOp::Remainder),
        _ => None,
    }
}

/// How tightly an operator binds: the tighter, the larger.
pub fn level_of(operator: BinOp) -> u32
    ensures { result ≡ operator_level operator }
{
    match operator {
        BinOp::Or => 0,
        BinOp::And => 1,
        BinOp::Equal | BinOp::NotEqual => 2,
        BinOp::Less | BinOp::LessEqual | BinOp::Greater | BinOp::GreaterEqual => 3,
        BinOp::Add | BinOp::Subtract => 4,
        BinOp::Multiply | BinOp::Divide | BinOp::Remainder => 5,
    }
}

/// The next token as an operator of this level or a tighter one.
pub fn next_operator(cursor: &Cursor, least: u32) -> Option<BinOp>
    ensures found { IfSome result (λ operator. (least ≤ operator_level operator)
        × IsNextSymbol cursor.now (operator_symbol operator)) }
    ensures none { IfNone result (StopsAt least cursor.now) }
{
    let token = cursor.next()?;
    let TokenKind::Symbol(symbol) = &token.kind else {
        return None;
    };
    let operator = operator_of(*symbol)?;
    if level_of(operator) < least {
        return None;
    }
    Some(operator)
}
