//! Laws of labels.

ghost use Rattle.std.specs.Prelude.{◌≡◌, ℕ, ◌<◌, ◌↔◌, ◌⊎◌, List, [], All, IsTrue, length, codes};
ghost use Rattle.std.specs.List.{AllByRecursion, AllZip};
ghost use Rattle.js_base.specs.declared.ids.PrincipalId.{PrincipalId};
ghost use Rattle.principals.specs.ActsFor.{Declared, ActsFor, IsDeclared};
ghost use Rattle.jif_lex.specs.declared.token.Token.{Token};
ghost use Rattle.label_lattice.specs.declared.label.Label.{Label};
ghost use Rattle.label_lattice.specs.Label.{IsLabel, Forbids, Trusts, ConfFlows, IntegFlows, Flows};
ghost use Rattle.label_lattice.specs.Label.{ForbidsNothing, IsUntrusted, IsBottom, IsPolicy, AddsPolicy};
ghost use Rattle.label_lattice.specs.Lattice.{IsJoin, IsIntegrityMeet, empty_label, bottom_of, join_of, meet_of};
ghost use Rattle.label_lattice.specs.Over.{IsLabelOver};
ghost use Rattle.label_lattice.specs.Written.{Part, HasDeclaredNames, KnownPart, IsKnownPart, IsMadeOf, IsLabelOf};
ghost use Rattle.label_lattice.specs.Printed.{allows, forbids_some, is_trusted_by, printed_label, ReadsBack};
ghost use Rattle.label_lattice.specs.PrintedExamples.{alice_and_bob, keeps_bob_out, keeps_all_out};

use crate::label::READERS;
use jif_lex::{lex_laws, spelled_laws};
use principals::acts_for_laws;

/// Laws of labels, for who reasons about them. The call does nothing.
pub fn label_laws()
    // May-flow is an order: two labels that may flow to each other are one.
    ensures reflexive { (label : Label) → Flows label label }
    ensures transitive { (first second third : Label) → Flows first second →
        Flows second third → Flows first third }
    ensures antisymmetric { (first second : Label) → IsLabel first → IsLabel second →
        Flows first second → Flows second first → first ≡ second }

    // The join is the least label to which both may flow, and the meet of integrity the greatest that may flow to both.
    ensures join_above { (first second join : Label) → IsJoin first second join →
        Flows first join × Flows second join }
    ensures join_least { (first second join above : Label) → IsJoin first second join →
        Flows first above → Flows second above → Flows join above }
    ensures meet_below { (first second meet : Label) → IsIntegrityMeet first second meet →
        IntegFlows meet first × IntegFlows meet second }
    ensures meet_greatest { (first second meet below : Label) → IsIntegrityMeet first second meet →
        IntegFlows below first → IntegFlows below second → IntegFlows below meet }

    // The values have the sets that they are named after, and no other label has them.
    ensures empty_sets { ForbidsNothing empty_label × IsUntrusted empty_label }
    ensures bottom_sets { (principals : Declared) → IsBottom principals (bottom_of principals) }
    ensures join_sets { (first second : Label) → IsLabel first → IsLabel second →
        IsJoin first second (join_of first second) }
    ensures meet_sets { (first second : Label) → IsIntegrityMeet first second (meet_of first second) }
    ensures join_once { (first second join : Label) → IsLabel first → IsLabel second → IsLabel join →
        IsJoin first second join → join ≡ join_of first second }
    ensures meet_once { (first second meet : Label) → IsLabel first → IsLabel second → IsLabel meet →
        IsIntegrityMeet first second meet → meet ≡ meet_of first second }

    // Joins and meets of labels over the same principals are such labels.
    ensures empty_over { (principals : Declared) → IsLabelOver principals empty_label }
    ensures bottom_over { (principals : Declared) → IsDeclared principals →
        IsLabelOver principals (bottom_of principals) }
    ensures join_over { (principals : Declared) (first second : Label) → IsLabelOver principals first →
        IsLabelOver principals second → IsLabelOver principals (join_of first second) }
    ensures meet_over { (principals : Declared) (first second : Label) → IsLabelOver principals first →
        IsLabelOver principals second → IsLabelOver principals (meet_of first second) }

    // The order and the grouping of a join do not matter, nor does what stands in it twice. The meet keeps the
    // confidentiality of its first label, so there only the grouping does not matter.
    ensures join_commutative { (first second : Label) → join_of first second ≡ join_of second first }
    ensures join_associative { (first second third : Label) →
        join_of (join_of first second) third ≡ join_of first (join_of second third) }
    ensures join_idempotent { (label : Label) → join_of label label ≡ label }
    ensures meet_associative { (first second third : Label) →
        meet_of (meet_of first second) third ≡ meet_of first (meet_of second third) }
    ensures meet_idempotent { (label : Label) → meet_of label label ≡ label }

    // The bottom adds nothing to a join, and the empty label nothing to a meet. Joined with the empty label, a label
    // keeps its confidentiality and loses its trust.
    ensures join_bottom { (principals : Declared) (label : Label) → IsDeclared principals →
        IsLabelOver principals label → join_of (bottom_of principals) label ≡ label }
    ensures meet_empty { (label : Label) → meet_of label empty_label ≡ label }
    ensures join_empty { (label : Label) → IsLabel label →
        join_of label empty_label ≡ record label { trust = 0 } }

    // The bottom label may flow to each label that only declared principals trust.
    ensures from_bottom { (principals : Declared) (bottom label : Label) → IsBottom principals bottom →
        ((principal : ℕ) → principal < READERS → Trusts label principal →
        principal < length principals.names) →
        Flows bottom label }

    // The confidentiality of a label without policies flows to every label, and that of none with a policy flows to it.
    ensures from_free { (free label : Label) → ForbidsNothing free → ConfFlows free label }
    ensures to_free { (label free : Label) (principals : Declared) (owner : PrincipalId)
        (readers : List PrincipalId) →
        IsDeclared principals → owner.0 < length principals.names →
        All (λ named. named.0 < length principals.names) readers →
        IsPolicy label principals owner readers → ForbidsNothing free → ¬ ConfFlows label free }

    // A policy that is added to such a label is all that the label forbids.
    ensures first_policy { (free label : Label) (principals : Declared) (owner : PrincipalId)
        (readers : List PrincipalId) → ForbidsNothing free → AddsPolicy free label principals owner readers →
        IsPolicy label principals owner readers }

    // What one owner keeps from all others flows to what another keeps from all others just where that one acts for it.
    ensures owners { (from to : Label) (principals : Declared) (first second : PrincipalId) →
        IsDeclared principals →
        first.0 < length principals.names → second.0 < length principals.names →
        IsPolicy from principals first [] → IsPolicy to principals second [] →
        (ConfFlows from to ↔ ActsFor principals second.0 first.0) }

    // Tokens are one label at most.
    ensures written_once { (principals : Declared) (tokens : List Token) (first second : Label) →
        IsDeclared principals → IsLabelOver principals first → IsLabelOver principals second →
        IsLabelOf principals tokens first → IsLabelOf principals tokens second → first ≡ second }
{
    acts_for_laws();
}

/// Laws of printed labels. The call does nothing.
pub fn text_laws()
    // The tests by which a label is printed are those of its sets.
    ensures allows { (label : Label) (owner reader : ℕ) →
        (IsTrue (allows label owner reader) ↔ ¬ Forbids label owner reader) }
    ensures forbids_some { (label : Label) (owner : ℕ) → (IsTrue (forbids_some label owner) ↔
        ((reader : ℕ) × (reader < READERS) × Forbids label owner reader)) }
    ensures trusts { (label : Label) (principal : ℕ) →
        (IsTrue (is_trusted_by label principal) ↔ Trusts label principal) }

    // The text of a label over declared principals is read as this label, and no other label has it.
    ensures reads_back { (principals : Declared) (label : Label) → IsDeclared principals →
        IsLabelOver principals label → ReadsBack principals label }
    ensures printed_once { (principals : Declared) (first second : Label) → IsDeclared principals →
        IsLabelOver principals first → IsLabelOver principals second →
        printed_label principals first ≡ printed_label principals second → first ≡ second }

    // Some labels of Alice and Bob, and how they are printed.
    ensures worked_empty { printed_label alice_and_bob empty_label ≡ codes "{}" }
    ensures worked_bottom { printed_label alice_and_bob (bottom_of alice_and_bob) ≡ codes "{?: Alice, Bob}" }
    ensures worked_policy { printed_label alice_and_bob keeps_bob_out ≡ codes "{Alice: Alice; ?: Alice}" }
    ensures worked_nobody { printed_label alice_and_bob keeps_all_out ≡ codes "{Alice: ; Bob: Alice, Bob}" }
{
    acts_for_laws();
    lex_laws();
    spelled_laws();
    label_laws();
}

/// Laws of written labels. The call does nothing.
pub fn written_laws()
    // Parts with names of declared principals make a label.
    ensures parts_make { (principals : Declared) (parts : List Part) → IsDeclared principals →
        AllByRecursion (HasDeclaredNames principals) parts →
        (known : List KnownPart) × (label : Label) × AllZip (IsKnownPart principals) parts known
        × IsMadeOf principals known label × IsLabelOver principals label }

    // Tokens are a label over these principals, or are no label at all.
    ensures label_or_none { (principals : Declared) (list : List Token) → IsDeclared principals →
        ((label : Label) × IsLabelOver principals label × IsLabelOf principals list label)
        ⊎ ((label : Label) → ¬ IsLabelOf principals list label) }
{
    acts_for_laws();
}
