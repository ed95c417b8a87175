//! Labels, and what is made of them.

ghost use Rattle.std.specs.Prelude.{◌≡◌, ℕ, ◌<◌, ◌↔◌, IsTrue, List, All, length, slice_index};
ghost use Rattle.label_lattice.specs.Label.{ConfFlows, IntegFlows, IsTrustedBy};
ghost use Rattle.label_lattice.specs.Printed.{forbids_some};

use crate::policy::{acted_for, forbidden_readers};
use js_base::PrincipalId;
use js_base::bits::{all_bits, bits_within, common_bits, with_bit, without_bits};
use js_base::limits::PRINCIPALS;
use principals::{Principals, acts_for_laws};

/// How many readers there may be: the declared principals, and the outsider, who is the last.
pub const READERS: usize = PRINCIPALS + 1;

/// Which readers each owner of a value forbids, and which principals trust it, after the decentralized label model of
/// Myers and Liskov.
#[derive(Clone, Copy, Debug, PartialEq, Eq, Hash)]
pub struct Label {
    /// For each owner a word with a bit for each reader that the owner allows. The last bit is that
    /// of the outsider.
    rows: [u64; PRINCIPALS],
    /// A word with a bit for each principal that trusts.
    trust: u64,
}

impl Label {
    ghost use Rattle.principals.specs.ActsFor.{Declared};
    ghost use Rattle.label_lattice.specs.Label.{IsUntrusted, IsBottom, ForbidsNothing, AddsPolicy, AddsTrust};
    ghost use Rattle.label_lattice.specs.Label.{SameTrust, SameForbidden};
    ghost use Rattle.label_lattice.specs.Lattice.{IsJoin, IsIntegrityMeet, empty_label, bottom_of};
    ghost use Rattle.label_lattice.specs.Lattice.{join_of, meet_of};
    ghost use Rattle.label_lattice.specs.Over.{IsLabelOver};

    /// The label of these words: one for each owner, with a bit for each reader that the owner allows, and one with a
    /// bit for each principal that trusts.
    pub fn from_words(rows: [u64; PRINCIPALS], trust: u64) -> Self
        ensures { result ≡ record { rows = rows; trust = trust } }
    {
        Label { rows, trust }
    }

    /// A word for each owner, with a bit for each reader that the owner allows.
    pub fn rows(&self) -> &[u64; PRINCIPALS]
        ensures { result.now ≡ self.now.rows }
    {
        &self.rows
    }

    /// A word with a bit for each principal that trusts.
    pub fn trust(&self) -> u64
        ensures { result ≡ self.now.trust }
    {
        self.trust
    }

    /// The label `{}`, which forbids nothing and is trusted by nobody.
    pub fn empty() -> Self
        ensures forbids { ForbidsNothing result }
        ensures trusts { IsUntrusted result }
        ensures value { result ≡ empty_label }
        ensures over { (principals : Declared) → IsLabelOver principals result }
    {
        Label {
            rows: [u64::MAX; PRINCIPALS],
            trust: 0,
        }
    }

    /// The label that forbids nothing and is trusted by every declared principal. It may flow to each label that only
    /// these principals trust.
    pub fn bottom(principals: &Principals) -> Self
        ensures sets { IsBottom principals.now result }
        ensures value { result ≡ bottom_of principals.now }
        ensures over { IsLabelOver principals.now result }
    {
        acts_for_laws();
        let mut trust = 0;
        for place in 0..principals.count() {
            trust = with_bit(trust, place);
        }
        Label {
            rows: [u64::MAX; PRINCIPALS],
            trust,
        }
    }

    /// The label with one more policy, that of the owner and of the readers whom the owner names. It also forbids each
    /// reader who acts for none of these, on behalf of each principal whom the owner acts for. It is trusted as before.
    pub fn with_policy(
        self,
        principals: &Principals,
        owner: PrincipalId,
        readers: &[PrincipalId],
    ) -> Self
        requires owner { owner.0 < length principals.now.names }
        requires readers { All (λ named. named.0 < length principals.now.names) readers.now }
        ensures forbids { AddsPolicy self result principals.now owner readers.now }
        ensures trusts { SameTrust self result }
        ensures over { IsLabelOver principals.now self → IsLabelOver principals.now result }
    {
        acts_for_laws();
        let forbidden = forbidden_readers(principals, owner, readers);
        let mut rows = self.rows;
        for place in 0..principals.count() {
            if principals.acts_for(owner, PrincipalId(place)) {
                rows[place as usize] = without_bits(rows[place as usize], forbidden);
            }
        }
        Label {
            rows,
            trust: self.trust,
        }
    }

    /// The label that is also trusted by every principal whom one of these acts for. It forbids as before.
    pub fn with_trust(self, principals: &Principals, by: &[PrincipalId]) -> Self
        requires { All (λ member. member.0 < length principals.now.names) by.now }
        ensures forbids { SameForbidden self result }
        ensures trusts { AddsTrust self result principals.now by.now }
        ensures over { IsLabelOver principals.now self → IsLabelOver principals.now result }
    {
        acts_for_laws();
        let rows = self.rows;
        let mut trust = self.trust;
        for member in by {
            trust = all_bits(trust, acted_for(principals, *member));
        }
        Label { rows, trust }
    }

    /// The least label to which both may flow: it forbids what either forbids, and is trusted by whoever trusts both.
    pub fn join(self, other: Label) -> Self
        ensures sets { IsJoin self other result }
        ensures value { result ≡ join_of self other }
        ensures over { (principals : Declared) → IsLabelOver principals self → IsLabelOver principals other →
            IsLabelOver principals result }
    {
        let mut rows = self.rows;
        for owner in 0..PRINCIPALS {
            rows[owner] = common_bits(rows[owner], other.rows[owner]);
        }
        Label {
            rows,
            trust: common_bits(self.trust, other.trust),
        }
    }

    /// The label with this one's confidentiality that is trusted by whoever trusts either.
    pub fn meet_integrity(self, other: Label) -> Self
        ensures sets { IsIntegrityMeet self other result }
        ensures value { result ≡ meet_of self other }
        ensures over { (principals : Declared) → IsLabelOver principals self → IsLabelOver principals other →
            IsLabelOver principals result }
    {
        let rows = self.rows;
        let trust = all_bits(self.trust, other.trust);
        Label { rows, trust }
    }

    /// Whether the confidentiality of this label may flow to that of the other.
    pub fn conf_flows(&self, to: &Label) -> bool
        ensures { IsTrue result ↔ ConfFlows self.now to.now }
    {
        for owner in 0..PRINCIPALS {
            if !bits_within(to.rows[owner], self.rows[owner]) {
                return false;
            }
        }
        true
    }

    /// Whether the integrity of this label may flow to that of the other.
    pub fn integ_flows(&self, to: &Label) -> bool
        ensures { IsTrue result ↔ IntegFlows self.now to.now }
    {
        bits_within(to.trust, self.trust)
    }

    /// Whether each principal of a word trusts the label, where bit p of the word is that of principal p.
    pub fn is_trusted_by(&self, principals: u64) -> bool
        ensures { IsTrue result ↔ IsTrustedBy self.now principals }
    {
        bits_within(principals, self.trust)
    }

    /// Whether this owner forbids some reader.
    pub(crate) fn forbids_some(&self, owner: PrincipalId) -> bool
        requires { owner.0 < PRINCIPALS }
        ensures { result ≡ forbids_some self.now owner.0 }
    {
        !bits_within(u64::MAX, self.rows[owner.0 as usize])
    }

    /// The readers whom this owner allows, a bit for each.
    pub(crate) fn allowed_by(&self, owner: PrincipalId) -> u64
        requires { owner.0 < PRINCIPALS }
        ensures { result ≡ slice_index self.now.rows owner.0 }
    {
        self.rows[owner.0 as usize]
    }
}
