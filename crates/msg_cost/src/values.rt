//! What it costs to read values of other hosts, and to send them values.

ghost use Rattle.std.specs.Prelude.{◌≡◌, [], ◌∷◌, length, min};
ghost use Rattle.jif_tree.specs.Trees.{expr_tree};
ghost use Rattle.msg_cost.specs.Cost.{cost_of};
ghost use Rattle.msg_cost.specs.Kept.{IsReadingWord, AreReadersOf, AreReadingWords, AreRecent};
ghost use Rattle.msg_cost.specs.declared.kept.TheConstants.{KEPT_VARIABLES};
ghost use Rattle.msg_cost.specs.Moves.{is_to};
ghost use Rattle.msg_cost.specs.Terms.{exchange, expr_terms, forwards, given_terms};
ghost use Rattle.need_labels.specs.Plan.{field_host};
ghost use Rattle.msg_cost.specs.Views.{seated_shape, capped};

use crate::carried::moved_reads;
use crate::kept::{
    KEPT_VARIABLES, Kept, RECENT_VARIABLES, ReadingWord, RecentReaders, VariableReaders,
};
use crate::messages::exchange;
use crate::seated::Seated;
use jif_tree::Expr;
use js_base::bits::{WORD_BITS, has_bit, with_bit};
use js_base::{FieldId, HostId, StmtId, VarId};

/// The cost of reading or writing a field.
pub fn field_cost(planned: &Seated<'_>, weight: u64, host: HostId, field: FieldId) -> u64
    ensures { result ≡ capped (cost_of planned.now.hosts.now
        (exchange weight host (field_host (seated_shape planned.now).plan field) ∷ [])) }
{
    exchange(planned.hosts, weight, host, planned.host_of_field(field))
}

/// The cost of what a host reads of others for an expression.
pub fn expr_cost(planned: &Seated<'_>, weight: u64, host: HostId, expr: &Expr) -> u64
    ensures { result ≡ capped (cost_of planned.now.hosts.now
        (expr_terms (seated_shape planned.now) weight host (expr_tree expr.now))) }
{
    match expr {
        Expr::Number(_) => 0,
        Expr::Local(_) => 0,
        Expr::Scalar(field) => field_cost(planned, weight, host, *field),
        Expr::Element(field, index) => {
            let inner = expr_cost(planned, weight, host, index);
            inner.saturating_add(field_cost(planned, weight, host, *field))
        }
        Expr::Not(operand) => expr_cost(planned, weight, host, operand),
        Expr::Negate(operand) => expr_cost(planned, weight, host, operand),
        Expr::Binary(_, left, right) => {
            let first = expr_cost(planned, weight, host, left);
            first.saturating_add(expr_cost(planned, weight, host, right))
        }
        Expr::Declassify(operand, _) => expr_cost(planned, weight, host, operand),
        Expr::Endorse(operand, _) => expr_cost(planned, weight, host, operand),
    }
}

/// A word with a bit for each host on which a statement reads the variable.
pub fn reading_hosts(planned: &Seated<'_>, x: VarId) -> u64
    ensures { IsReadingWord (seated_shape planned.now) x result }
{
    let mut word = 0;
    for statement in planned.needs.readers(x) {
        let host = planned.host_of(*statement);
        if host.0 < WORD_BITS {
            word = with_bit(word, host.0);
        }
    }
    word
}

/// Notes the words of the first variables of a program, as many as there is room for, and answers of how many.
pub fn note_reading(planned: &Seated<'_>, words: &mut [u64]) -> usize
    ensures words { AreReadingWords (seated_shape planned.now) result words.new }
    ensures count { result
        ≡ min (min (length (seated_shape planned.now).program.vars) (length words.old)) KEPT_VARIABLES }
{
    let count = planned
        .program
        .vars
        .len()
        .min(words.len())
        .min(KEPT_VARIABLES);
    for number in 0..count {
        words[number] = reading_hosts(planned, VarId(number as u32));
    }
    count
}

/// The word of a variable, which is looked up where it was noted.
pub fn kept_reading(planned: &Seated<'_>, kept: &Kept<'_>, x: VarId) -> ReadingWord
    requires { AreReadingWords (seated_shape planned.now) kept.now.found kept.now.reading.now }
    ensures variable { result.variable ≡ x }
    ensures word { IsReadingWord (seated_shape planned.now) x result.word }
{
    let word = if (x.0 as usize) < kept.found {
        kept.reading.get(x.0 as usize).copied().unwrap_or(0)
    } else {
        reading_hosts(planned, x)
    };
    ReadingWord { variable: x, word }
}

/// What is so of the readers of a variable, which is looked up where it was kept, and kept otherwise. So a row of many
/// pieces that speak of one variable goes over its readers once.
pub fn recent_readers(
    planned: &Seated<'_>,
    moved: Option<StmtId>,
    recent: &mut RecentReaders,
    x: VarId,
) -> VariableReaders
    requires { AreRecent (seated_shape planned.now) moved recent.old }
    ensures readers { AreReadersOf (seated_shape planned.now) moved x result }
    ensures recent { AreRecent (seated_shape planned.now) moved recent.new }
{
    let place = x.0 as usize % RECENT_VARIABLES;
    if let Some(known) = recent[place] {
        if known.reading.variable.0 == x.0 {
            return known;
        }
    }
    let readers = VariableReaders {
        reading: ReadingWord {
            variable: x,
            word: reading_hosts(planned, x),
        },
        moved: moved_reads(planned.needs, moved, x),
    };
    recent[place] = Some(readers);
    readers
}

/// Whether a value rides to this host.
fn rides_to(carried: Option<HostId>, other: u8) -> bool
    ensures { result ≡ is_to carried other }
{
    match carried {
        Some(host) => other == host.0,
        None => false,
    }
}

/// The cost of sending a variable's value to each other host that reads it, but for the one to which it rides.
pub fn forwards(
    planned: &Seated<'_>,
    reading: ReadingWord,
    weight: u64,
    host: HostId,
    carried: Option<HostId>,
) -> u64
    requires { IsReadingWord (seated_shape planned.now) reading.variable reading.word }
    ensures { result ≡ capped (cost_of planned.now.hosts.now
        (forwards (seated_shape planned.now) weight host reading.variable carried)) }
{
    let count = planned.hosts.hosts().len() as u8;
    let mut total: u64 = 0;
    for other in 0..count {
        if other != host.0 && has_bit(reading.word, other) && !rides_to(carried, other) {
            total = total.saturating_add(exchange(planned.hosts, weight, host, HostId(other)));
        }
    }
    total
}

/// The same where a value is given at all.
pub fn given(
    planned: &Seated<'_>,
    kept: &Kept<'_>,
    weight: u64,
    host: HostId,
    gives: Option<VarId>,
    carried: Option<HostId>,
) -> u64
    requires { AreReadingWords (seated_shape planned.now) kept.now.found kept.now.reading.now }
    ensures { result ≡ capped (cost_of planned.now.hosts.now
        (given_terms (seated_shape planned.now) weight host gives carried)) }
{
    match gives {
        Some(x) => {
            let reading = kept_reading(planned, kept, x);
            forwards(planned, reading, weight, host, carried)
        }
        None => 0,
    }
}
