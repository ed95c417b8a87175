//! What the policies and the trust of declared principals come to, as words of bits.

ghost use Rattle.std.specs.Prelude.{◌≡◌, ℕ, ◌<◌, ◌↔◌, IsTrue, List, All, length};
ghost use Rattle.std.specs.Int.{bit_at};
ghost use Rattle.principals.specs.ActsFor.{ActsFor};
ghost use Rattle.label_lattice.specs.Label.{KeepsOut};

use crate::label::READERS;
use js_base::PrincipalId;
use js_base::bits::with_bit;
use js_base::limits::PRINCIPALS;
use principals::{Principals, acts_for_laws};

/// The bit of the reader who stands for everyone who is not a declared principal.
const OUTSIDER: u8 = PRINCIPALS as u8;

/// The readers whom a policy keeps out, a bit for each.
pub fn forbidden_readers(
    principals: &Principals,
    owner: PrincipalId,
    readers: &[PrincipalId],
) -> u64
    requires owner { owner.0 < length principals.now.names }
    requires readers { All (λ named. named.0 < length principals.now.names) readers.now }
    ensures { (reader : ℕ) → reader < READERS →
        ((bit_at result reader ≡ 1) ↔ KeepsOut principals.now owner readers.now reader) }
{
    acts_for_laws();
    let mut forbidden = with_bit(0, OUTSIDER);
    for place in 0..principals.count() {
        if is_kept_out(principals, owner, readers, PrincipalId(place)) {
            forbidden = with_bit(forbidden, place);
        }
    }
    forbidden
}

/// Whether a policy keeps out this reader.
fn is_kept_out(
    principals: &Principals,
    owner: PrincipalId,
    readers: &[PrincipalId],
    reader: PrincipalId,
) -> bool
    requires owner { owner.0 < length principals.now.names }
    requires readers { All (λ named. named.0 < length principals.now.names) readers.now }
    requires reader { reader.0 < length principals.now.names }
    ensures { IsTrue result ↔ KeepsOut principals.now owner readers.now reader.0 }
{
    !principals.acts_for(reader, owner) && acts_for_none(principals, reader, readers)
}

/// Whether the principal acts for none of the others.
fn acts_for_none(principals: &Principals, p: PrincipalId, others: &[PrincipalId]) -> bool
    requires p { p.0 < length principals.now.names }
    requires others { All (λ other. other.0 < length principals.now.names) others.now }
    ensures { IsTrue result ↔ All (λ other. ¬ ActsFor principals.now p.0 other.0) others.now }
{
    for other in others {
        if principals.acts_for(p, *other) {
            return false;
        }
    }
    true
}

/// The principals whom this one acts for, a bit for each.
pub fn acted_for(principals: &Principals, member: PrincipalId) -> u64
    requires { member.0 < length principals.now.names }
    ensures bits { (principal : ℕ) → principal < READERS →
        ((bit_at result principal ≡ 1) ↔ ActsFor principals.now member.0 principal) }
    ensures declared { (principal : ℕ) → ActsFor principals.now member.0 principal →
        principal < length principals.now.names }
{
    acts_for_laws();
    let mut word = 0;
    for place in 0..principals.count() {
        if principals.acts_for(member, PrincipalId(place)) {
            word = with_bit(word, place);
        }
    }
    word
}
