//! The search for the refused statement, and for what brings one trait into the label that it asks about.

ghost use Rattle.std.specs.Prelude.{◌≡◌, ℕ, ◌∷◌, [], map};
ghost use Rattle.std.specs.List.{flat_map};
ghost use Rattle.jif_tree.specs.Trees.{BlockTree, done, set_local, block_tree, tree_before, expr_tree};
ghost use Rattle.jif_tree.specs.Trees.{program_tree};
ghost use Rattle.jif_tree.specs.LabelRules.{guarded, method_at, result_of, variable_label};
ghost use Rattle.label_reasons.specs.Causes.{guarded_cause};
ghost use Rattle.label_reasons.specs.Asks.{Ask, release_ask, trust_ask, endorse_ask, expr_asks, value_ask, value_asks};
ghost use Rattle.label_reasons.specs.Asks.{element_asks, argument_asks, result_asks, call_asks, return_asks};
ghost use Rattle.label_reasons.specs.Search.{setting_at, authority_at, listed_cause, IsSearchPlace, AreCausesKnown};
ghost use Rattle.label_reasons.specs.Search.{ShowsAsk, Finds};
ghost use Rattle.label_reasons.specs.Search.{FindsAt, Walks, stand_inside, label_is, cause_is, some_fails_in};
ghost use Rattle.label_reasons.specs.Reasons.{constraint_of};

use crate::demand::Demand;
use crate::listed_traits::some_fails;
use crate::reason::{Cause, Source, Via, Wanted};
use crate::search_place::{Found, Known, Place, Stand};
use crate::values::{
    assign, cause_where, expr_cause, expr_label, or_else, through, variable_label,
};
use jif_tree::{Expr, Stmt, StmtKind, begin_label, field_label, params_of, result_of, tree_laws};
use js_base::{FieldId, MethodId, StmtId, VarId};
use label_lattice::Label;

/// Whether something fails where this is demanded.
fn is_refused(place: &Place<'_>, demand: &Demand) -> bool
    requires { IsSearchPlace place.now }
    ensures { result ≡ some_fails_in place.now.principals.now (constraint_of (authority_at place.now) demand.now) }
{
    let authority = &place.method.authority;
    some_fails(place.principals, authority, demand, place.pairs)
        || some_fails(place.principals, authority, demand, place.distrusts)
}

/// What was found before, and otherwise what is asked for where it is refused.
fn offered(place: &Place<'_>, asked: &Found, before: Option<Found>) -> Option<Found>
    requires { IsSearchPlace place.now }
    ensures { (ask : Ask) → ShowsAsk place.now.held (authority_at place.now) ask asked.now →
        Finds place.now.principals.now place.now.held (authority_at place.now) (ask ∷ []) before result }
{
    match before {
        Some(_) => before,
        None => {
            if is_refused(place, &asked.demand) {
                Some(*asked)
            } else {
                None
            }
        }
    }
}

/// The label of an expression.
fn label_of(place: &Place<'_>, stand: &Stand, known: &Known, expr: &Expr) -> Label
    ensures { result ≡ label_is place.now stand.now known.now (expr_tree expr.now) }
{
    expr_label(place, &stand.pc, &known.labels, expr)
}

/// What brings the trait into an expression of a statement.
fn cause_of(
    place: &Place<'_>,
    here: StmtId,
    stand: &Stand,
    known: &Known,
    expr: &Expr,
) -> Option<Cause>
    requires { IsSearchPlace place.now }
    ensures { result ≡ cause_is place.now here stand.now known.now (expr_tree expr.now) }
{
    expr_cause(place, here, stand.of_pc, &known.causes, expr)
}

/// The label of a variable.
fn variable_in(known: &Known, var: VarId) -> Label
    ensures { result ≡ variable_label known.now.labels.items var }
{
    variable_label(&known.labels, var)
}

/// Looks at what the expressions in an expression ask for.
#[cycle(asks)]
fn search_expr(
    place: &Place<'_>,
    here: StmtId,
    stand: &Stand,
    known: &Known,
    expr: &Expr,
    found: &mut Option<Found>,
)
    requires { IsSearchPlace place.now }
    ensures { FindsAt place.now stand.now known.now (λ spot. expr_asks spot here (expr_tree expr.now)) found.old
        found.new }
{
    match expr {
        Expr::Number(_) | Expr::Local(_) | Expr::Scalar(_) => {}
        Expr::Element(_, index) => search_expr(place, here, stand, known, index, found),
        Expr::Not(operand) => search_expr(place, here, stand, known, operand, found),
        Expr::Negate(operand) => search_expr(place, here, stand, known, operand, found),
        Expr::Binary(_, left, right) => {
            search_expr(place, here, stand, known, left, found);
            search_expr(place, here, stand, known, right, found);
        }
        Expr::Declassify(operand, to) => {
            search_expr(place, here, stand, known, operand, found);
            search_release(place, here, stand, known, operand, to, found);
        }
        Expr::Endorse(operand, to) => {
            search_expr(place, here, stand, known, operand, found);
            search_endorsement(place, here, stand, known, operand, to, found);
        }
    }
}

/// Looks at whether the operand may be released to a label, by those who are trusted with it.
fn search_release(
    place: &Place<'_>,
    here: StmtId,
    stand: &Stand,
    known: &Known,
    operand: &Expr,
    to: &Label,
    found: &mut Option<Found>,
)
    requires { IsSearchPlace place.now }
    ensures { FindsAt place.now stand.now known.now
        (λ spot. release_ask spot here (expr_tree operand.now) to.now ∷ trust_ask spot here ∷ []) found.old found.new }
{
    let from = label_of(place, stand, known, operand);
    let release = Found {
        statement: here,
        wanted: Wanted::Released,
        demand: Demand::Release(from, *to),
        cause: cause_of(place, here, stand, known, operand),
    };
    *found = offered(place, &release, *found);
    let trust = Found {
        statement: here,
        wanted: Wanted::ReleaseTrusted,
        demand: Demand::Trust(stand.pc),
        cause: stand.of_pc,
    };
    *found = offered(place, &trust, *found);
}

/// Looks at whether the operand may be endorsed by a label.
fn search_endorsement(
    place: &Place<'_>,
    here: StmtId,
    stand: &Stand,
    known: &Known,
    operand: &Expr,
    to: &Label,
    found: &mut Option<Found>,
)
    requires { IsSearchPlace place.now }
    ensures { FindsAt place.now stand.now known.now
        (λ spot. endorse_ask spot here (expr_tree operand.now) to.now ∷ []) found.old found.new }
{
    let from = label_of(place, stand, known, operand);
    let endorsement = Found {
        statement: here,
        wanted: Wanted::Endorsed,
        demand: Demand::Endorse(from, *to),
        cause: cause_of(place, here, stand, known, operand),
    };
    *found = offered(place, &endorsement, *found);
}

/// Looks at whether a value may flow to a label.
fn search_flow(
    place: &Place<'_>,
    here: StmtId,
    stand: &Stand,
    known: &Known,
    wanted: Wanted,
    value: &Expr,
    to: &Label,
    found: &mut Option<Found>,
)
    requires { IsSearchPlace place.now }
    ensures { FindsAt place.now stand.now known.now
        (λ spot. value_ask spot here wanted (expr_tree value.now) to.now ∷ []) found.old found.new }
{
    let from = label_of(place, stand, known, value);
    let cause = cause_of(place, here, stand, known, value);
    let flow = Found {
        statement: here,
        wanted,
        demand: Demand::Flow(from.join(stand.pc), *to),
        cause: or_else(cause, stand.of_pc),
    };
    *found = offered(place, &flow, *found);
}

/// Looks at a value that flows to a label, behind what it asks for itself.
fn search_value(
    place: &Place<'_>,
    here: StmtId,
    stand: &Stand,
    known: &Known,
    wanted: Wanted,
    value: &Expr,
    to: &Label,
    found: &mut Option<Found>,
)
    requires { IsSearchPlace place.now }
    ensures { FindsAt place.now stand.now known.now
        (λ spot. value_asks spot here wanted (expr_tree value.now) to.now) found.old found.new }
{
    search_expr(place, here, stand, known, value, found);
    search_flow(place, here, stand, known, wanted, value, to, found);
}

/// Looks at an assignment to an element of an array.
fn search_element(
    place: &Place<'_>,
    here: StmtId,
    stand: &Stand,
    known: &Known,
    field: FieldId,
    index: &Expr,
    value: &Expr,
    found: &mut Option<Found>,
)
    requires { IsSearchPlace place.now }
    ensures { FindsAt place.now stand.now known.now
        (λ spot. element_asks spot here field (expr_tree index.now) (expr_tree value.now)) found.old found.new }
{
    search_expr(place, here, stand, known, index, found);
    search_expr(place, here, stand, known, value, found);
    let at = label_of(place, stand, known, index);
    let from = at.join(label_of(place, stand, known, value));
    let of_index = cause_of(place, here, stand, known, index);
    let of_value = cause_of(place, here, stand, known, value);
    let flow = Found {
        statement: here,
        wanted: Wanted::KeptInElement(field),
        demand: Demand::Flow(from.join(stand.pc), field_label(place.program, field)),
        cause: or_else(or_else(of_index, of_value), stand.of_pc),
    };
    *found = offered(place, &flow, *found);
}

/// Looks at what the arguments of a call ask for themselves.
fn search_arguments(
    place: &Place<'_>,
    here: StmtId,
    stand: &Stand,
    known: &Known,
    args: &[Expr],
    found: &mut Option<Found>,
)
    requires { IsSearchPlace place.now }
    ensures { FindsAt place.now stand.now known.now (λ spot. flat_map (expr_asks spot here) (map expr_tree args.now))
        found.old found.new }
{
    for arg in args {
        search_expr(place, here, stand, known, arg, found);
    }
}

/// Looks at the arguments of a call that flow to parameters.
fn search_params(
    place: &Place<'_>,
    here: StmtId,
    stand: &Stand,
    known: &Known,
    method: MethodId,
    args: &[Expr],
    params: &[VarId],
    found: &mut Option<Found>,
)
    requires { IsSearchPlace place.now }
    ensures { FindsAt place.now stand.now known.now
        (λ spot. argument_asks spot here method 0 (map expr_tree args.now) params.now) found.old found.new }
{
    for number in 0..params.len() {
        if number >= args.len() {
            return;
        }
        let param = params[number];
        let to = variable_in(known, param);
        let wanted = Wanted::Given(number, param, method);
        search_flow(place, here, stand, known, wanted, &args[number], &to, found);
    }
}

/// Looks at a result that flows to the variable that keeps it.
fn search_result(
    place: &Place<'_>,
    here: StmtId,
    stand: &Stand,
    known: &Known,
    method: MethodId,
    into: Option<VarId>,
    found: &mut Option<Found>,
)
    requires { IsSearchPlace place.now }
    ensures { FindsAt place.now stand.now known.now (λ spot. result_asks spot here method
        (result_of (method_at (program_tree place.now.program.now) method)) into) found.old found.new }
{
    let (Some(result), Some(into)) = (result_of(place.program, method), into) else {
        return;
    };
    let from = variable_in(known, result);
    let cause = cause_where(place.held, &from, Source::OfVariable(result));
    let flow = Found {
        statement: here,
        wanted: Wanted::ResultKept(method, into),
        demand: Demand::Flow(from.join(stand.pc), variable_in(known, into)),
        cause: or_else(cause, stand.of_pc),
    };
    *found = offered(place, &flow, *found);
}

/// Looks at a call.
fn search_call(
    place: &Place<'_>,
    here: StmtId,
    stand: &Stand,
    known: &Known,
    method: MethodId,
    args: &[Expr],
    into: Option<VarId>,
    found: &mut Option<Found>,
)
    requires { IsSearchPlace place.now }
    ensures { FindsAt place.now stand.now known.now
        (λ spot. call_asks spot here method (map expr_tree args.now) into) found.old found.new }
{
    search_arguments(place, here, stand, known, args, found);
    let begin = Found {
        statement: here,
        wanted: Wanted::Begun(method),
        demand: Demand::Begin(stand.pc, begin_label(place.program, method)),
        cause: stand.of_pc,
    };
    *found = offered(place, &begin, *found);
    search_params(
        place,
        here,
        stand,
        known,
        method,
        args,
        params_of(place.program, method),
        found,
    );
    search_result(place, here, stand, known, method, into, found);
}

/// Looks at what a method gives back.
fn search_return(
    place: &Place<'_>,
    here: StmtId,
    stand: &Stand,
    known: &Known,
    value: &Expr,
    found: &mut Option<Found>,
)
    requires { IsSearchPlace place.now }
    ensures { FindsAt place.now stand.now known.now (λ spot. return_asks spot here (expr_tree value.now))
        found.old found.new }
{
    search_expr(place, here, stand, known, value, found);
    if let Some(result) = place.method.result {
        let to = variable_in(known, result);
        search_flow(
            place,
            here,
            stand,
            known,
            Wanted::GivenBack(result),
            value,
            &to,
            found,
        );
    }
}

/// Looks at an assignment to a variable, which takes the label of the value where it has none yet.
fn search_assignment(
    place: &Place<'_>,
    here: StmtId,
    stand: &Stand,
    known: &mut Known,
    var: VarId,
    value: &Expr,
    found: &mut Option<Found>,
)
    requires place { IsSearchPlace place.now }
    requires known { AreCausesKnown known.old }
    ensures { (rest : BlockTree) (line : ℕ) → Walks place.now stand.now known.old found.old
        (set_local (record { id = here; line = line }) var (expr_tree value.now) rest) known.new found.new rest }
{
    search_expr(place, here, stand, known, value, found);
    let label = label_of(place, stand, known, value).join(stand.pc);
    let cause = or_else(cause_of(place, here, stand, known, value), stand.of_pc);
    assign(known, var, here, label, cause);
    let flow = Found {
        statement: here,
        wanted: Wanted::KeptInLocal(var),
        demand: Demand::Flow(label, variable_in(known, var)),
        cause,
    };
    *found = offered(place, &flow, *found);
}

/// Where the blocks inside a branch or a loop stand.
fn inside(place: &Place<'_>, here: StmtId, stand: &Stand, known: &Known, guard: &Expr) -> Stand
    requires { IsSearchPlace place.now }
    ensures { result ≡ stand_inside place.now here stand.now known.now (expr_tree guard.now) }
{
    let from = label_of(place, stand, known, guard);
    let cause = cause_of(place, here, stand, known, guard);
    Stand {
        pc: stand.pc.join(from),
        of_pc: or_else(stand.of_pc, through(Via::ByGuard(here), cause)),
    }
}

/// Looks at the statements of a block.
#[cycle(blocks)]
pub fn search_block(
    place: &Place<'_>,
    stand: &Stand,
    statements: &[Stmt],
    known: &mut Known,
    found: &mut Option<Found>,
)
    requires place { IsSearchPlace place.now }
    requires known { AreCausesKnown known.old }
    ensures { Walks place.now stand.now known.old found.old (block_tree statements.now) known.new found.new done }
{
    for statement in statements {
        search_statement(place, stand, statement, known, found);
    }
}

/// Looks at a statement, and at those in it.
#[cycle(blocks)]
fn search_statement(
    place: &Place<'_>,
    stand: &Stand,
    statement: &Stmt,
    known: &mut Known,
    found: &mut Option<Found>,
)
    requires place { IsSearchPlace place.now }
    requires known { AreCausesKnown known.old }
    ensures { (rest : BlockTree) →
        Walks place.now stand.now known.old found.old (tree_before statement.now rest) known.new found.new rest }
{
    tree_laws();
    let here = statement.id;
    match &statement.kind {
        StmtKind::Let { var, value } => search_assignment(
            place, here, stand, known, *var, value, found,
        ),
        StmtKind::SetField { field, value } => {
            let to = field_label(place.program, *field);
            search_value(
                place,
                here,
                stand,
                known,
                Wanted::KeptInField(*field),
                value,
                &to,
                found,
            );
        }
        StmtKind::SetElement {
            field,
            index,
            value,
        } => search_element(place, here, stand, known, *field, index, value, found),
        StmtKind::If { guard, yes, no } => {
            search_expr(place, here, stand, known, guard, found);
            let inside = inside(place, here, stand, known, guard);
            search_block(place, &inside, yes, known, found);
            search_block(place, &inside, no, known, found);
        }
        StmtKind::While { guard, body } => {
            search_expr(place, here, stand, known, guard, found);
            let inside = inside(place, here, stand, known, guard);
            search_expr(place, here, &inside, known, guard, found);
            search_block(place, &inside, body, known, found);
        }
        StmtKind::Call {
            method,
            args,
            into,
            ..
        } => search_call(place, here, stand, known, *method, args, *into, found),
        StmtKind::Return { value } => search_return(place, here, stand, known, value, found),
    }
}
