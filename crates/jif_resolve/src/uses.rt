//! The faults of names that are used: in an expression, in an assignment or in a call.

ghost use Rattle.std.specs.Prelude.{◌≡◌, not};
ghost use Rattle.jif_resolve.specs.First.{with_fault, with_faults};
ghost use Rattle.jif_resolve.specs.Faults.{variable_faults, array_faults, keeper_faults, called_faults, same_truth};
ghost use Rattle.jif_resolve.specs.Faults.{fault_where};

use crate::fault::{Fault, FaultKind, sooner};
use crate::meaning::Meaning;

/// The first of the faults so far and that of a name at this token whose value is read or that is assigned to.
pub fn with_variable(first: Option<Fault>, at: u32, meaning: Option<Meaning>) -> Option<Fault>
    ensures { result ≡ with_faults first (variable_faults at meaning) }
{
    match meaning {
        None => with_kind(first, at, FaultKind::UnknownName),
        Some(Meaning::Variable(_)) => first,
        Some(Meaning::Plain(_)) => first,
        Some(Meaning::Array(_)) => with_kind(first, at, FaultKind::WrongType),
        Some(Meaning::Method(_, _, _)) => with_kind(first, at, FaultKind::WrongType),
    }
}

/// The same for a name of which an element is read or assigned to.
pub fn with_array(first: Option<Fault>, at: u32, meaning: Option<Meaning>) -> Option<Fault>
    ensures { result ≡ with_faults first (array_faults at meaning) }
{
    match meaning {
        None => with_kind(first, at, FaultKind::UnknownName),
        Some(Meaning::Variable(_)) => with_kind(first, at, FaultKind::WrongType),
        Some(Meaning::Plain(_)) => with_kind(first, at, FaultKind::WrongType),
        Some(Meaning::Array(_)) => first,
        Some(Meaning::Method(_, _, _)) => with_kind(first, at, FaultKind::WrongType),
    }
}

/// The same for a name that keeps the result of a call.
pub fn with_keeper(first: Option<Fault>, at: u32, meaning: Option<Meaning>) -> Option<Fault>
    ensures { result ≡ with_faults first (keeper_faults at meaning) }
{
    match meaning {
        None => with_kind(first, at, FaultKind::UnknownName),
        Some(Meaning::Variable(_)) => first,
        Some(Meaning::Plain(_)) => with_kind(first, at, FaultKind::WrongType),
        Some(Meaning::Array(_)) => with_kind(first, at, FaultKind::WrongType),
        Some(Meaning::Method(_, _, _)) => with_kind(first, at, FaultKind::WrongType),
    }
}

/// The same for a name that is called with so many arguments, and whose result is kept or not.
#[tactic(auto, using(crate::proofs::Sooner::faults_joined))]
pub fn with_called(
    first: Option<Fault>,
    at: u32,
    keeps: bool,
    args: usize,
    meaning: Option<Meaning>,
) -> Option<Fault>
    ensures { result ≡ with_faults first (called_faults at keeps args meaning) }
{
    match meaning {
        None => with_kind(first, at, FaultKind::UnknownName),
        Some(Meaning::Variable(_)) => with_kind(first, at, FaultKind::WrongType),
        Some(Meaning::Plain(_)) => with_kind(first, at, FaultKind::WrongType),
        Some(Meaning::Array(_)) => with_kind(first, at, FaultKind::WrongType),
        Some(Meaning::Method(_, params, gives)) => {
            let wrong_result = is_other_truth(keeps, gives);
            let first = with_kind_where(first, wrong_result, at, FaultKind::WrongType);
            let wrong_count = args != params as usize;
            with_kind_where(first, wrong_count, at, FaultKind::WrongCount)
        }
    }
}

/// The first of the faults so far and one of this kind at this token.
fn with_kind(first: Option<Fault>, at: u32, kind: FaultKind) -> Option<Fault>
    ensures { result ≡ with_fault first (record { at = at; kind = kind }) }
{
    sooner(first, Fault { at, kind })
}

/// The same, where something is wrong.
pub fn with_kind_where(first: Option<Fault>, wrong: bool, at: u32, kind: FaultKind) -> Option<Fault>
    ensures { result ≡ with_faults first (fault_where wrong kind at) }
{
    if wrong {
        with_kind(first, at, kind)
    } else {
        first
    }
}

/// Whether a result is kept where there is none, or not kept where there is one.
fn is_other_truth(keeps: bool, gives: bool) -> bool
    ensures { result ≡ not (same_truth keeps gives) }
{
    if keeps { !gives } else { gives }
}
