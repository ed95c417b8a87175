//! What becomes of the texts of programs and host files.

ghost use Rattle.std.specs.Prelude.{IfOk};
ghost use Rattle.jif_grammar.specs.DraftShapes.{draft_shape};
ghost use Rattle.jif_resolve.specs.Sizes.{KeepsLimits};
ghost use Rattle.jif_tree.specs.Trees.{program_tree};
ghost use Rattle.jif_tree.specs.Limits.{IsWithinLimits};
ghost use Rattle.need_labels.specs.Needs.{AreAuthoritiesDeclared};

use host_decl::{Hosts, read_hosts};
use jif_lex::{lex, token_laws};
use jif_parse::parse;
use jif_resolve::{limit_laws, program_laws, resolve};
use jif_tree::{Checked, Draft, Program};
use label_check::check;
use principals::Principals;
use std::alloc::Global;
use std::test::Fail;

/// Alice and Bob, each with a host of their own that nobody trusts.
pub const OWN_HOSTS: &str = "principals = [\"Alice\", \"Bob\"]\n\
    [[host]]\nname = \"A\"\nlabel = \"{Alice:}\"\n\
    [[host]]\nname = \"B\"\nlabel = \"{Bob:}\"\n";

/// The hosts of a host file.
pub fn hosts_of(alloc: Global, text: &str) -> Result<Hosts, Fail> {
    Ok(read_hosts(alloc, text.as_bytes())?)
}

/// The draft of a text.
fn drafted(alloc: Global, text: &str) -> Result<Draft, Fail>
    ensures { IfOk result (λ draft. KeepsLimits (draft_shape draft)) }
{
    token_laws();
    limit_laws();
    let tokens = lex(alloc, text.as_bytes())?;
    Ok(parse(alloc, tokens.as_slice())?)
}

/// The program of a text.
pub fn resolved(alloc: Global, text: &str, principals: &Principals) -> Result<Program, Fail>
    ensures within { IfOk result (λ program. IsWithinLimits (program_tree program)) }
    ensures authorities { IfOk result (λ program. AreAuthoritiesDeclared principals.now (program_tree program)) }
{
    program_laws();
    let draft = drafted(alloc, text)?;
    Ok(resolve(alloc, draft, principals)?)
}

/// The program of a text with its labels, whose principals are those of the hosts.
pub fn checked(alloc: Global, text: &str, hosts: &Hosts) -> Result<Checked, Fail>
    ensures within { IfOk result (λ checked. IsWithinLimits (program_tree checked.program)) }
    ensures authorities { IfOk result (λ checked.
        AreAuthoritiesDeclared hosts.now.principals (program_tree checked.program)) }
{
    let principals = hosts.principals();
    let program = resolved(alloc, text, principals)?;
    Ok(check(alloc, program, principals)?)
}
