//! Laws of programs that are made. The call does nothing.

ghost use Rattle.std.specs.Prelude.{◌<◌, ℕ};
ghost use Rattle.js_base.specs.declared.limits.TheConstants.{STATEMENTS};
ghost use Rattle.made_laws.specs.Made.{IsMadeAccepted};

use jif_grammar::verdict_laws;
use jif_lex::spelled_laws;
use label_lattice::{label_laws, written_laws};
use need_labels::need_laws;
use place_rules::place_rule_laws;

/// What is made for a number of statements is a program with its hosts, whatever the number: with the head of `main` it
/// has one statement more, and is within the limits of programs up to there.
pub fn made_laws()
    // It is read, resolved and accepted, each of its parts has a host, and it runs to its end in so many steps.
    ensures accepted { (statements : ℕ) → statements < STATEMENTS → IsMadeAccepted statements }
{
    spelled_laws();
    label_laws();
    written_laws();
    verdict_laws();
    need_laws();
    place_rule_laws();
}
