//! What the principals of an authority may do.

ghost use Rattle.std.specs.Prelude.{◌↔◌, ◌<◌, IsTrue, length};
ghost use Rattle.principals.specs.ActsFor.{AreDeclared};
ghost use Rattle.label_lattice.specs.Label.{Trusts};
ghost use Rattle.jif_tree.specs.LabelRules.{Holds, may_release, trusted, may_endorse};

use js_base::PrincipalId;
use js_base::bits::with_bit;
use label_lattice::Label;
use principals::Principals;

/// Whether these may release a value of the first label as one of the second: to its policies they may add one of each
/// of them that names no reader.
pub fn may_release(
    principals: &Principals,
    authority: &[PrincipalId],
    from: &Label,
    to: &Label,
) -> bool
    requires { AreDeclared principals.now authority.now }
    ensures { IsTrue result ↔ Holds principals.now (may_release authority.now from.now to.now) }
{
    let mut allowed = *to;
    for member in authority {
        allowed = allowed.with_policy(principals, *member, &[]);
    }
    from.conf_flows(&allowed)
}

/// Whether these may endorse a value of the first label as one of the second, in the name of whomever they act for.
pub fn may_endorse(
    principals: &Principals,
    authority: &[PrincipalId],
    from: &Label,
    to: &Label,
) -> bool
    requires { AreDeclared principals.now authority.now }
    ensures { IsTrue result ↔ Holds principals.now (may_endorse authority.now from.now to.now) }
{
    from.with_trust(principals, authority).integ_flows(to)
}

/// Whether each of these trusts the label.
pub fn is_trusted(principals: &Principals, authority: &[PrincipalId], label: &Label) -> bool
    requires { AreDeclared principals.now authority.now }
    ensures { IsTrue result ↔ Holds principals.now (trusted authority.now label.now) }
{
    for member in authority {
        if !trusts(principals, *member, label) {
            return false;
        }
    }
    true
}

/// Whether the principal trusts the label.
fn trusts(principals: &Principals, member: PrincipalId, label: &Label) -> bool
    requires { member.0 < length principals.now.names }
    ensures { IsTrue result ↔ Trusts label.now member.0 }
{
    let _declared = principals.count();
    label.is_trusted_by(with_bit(0, member.0))
}
