//! Laws of what a node sends and takes under seals.

ghost use Rattle.std.specs.Prelude.{◌≡◌, ◌≢◌, ◌<◌, ◌∷◌, ◌++◌, [], ℕ, List, None, Some, Ok, codes, false, length};
ghost use Rattle.byte_format.specs.Numbers.{AreBytes};
ghost use Rattle.js_base.specs.declared.text.TheConstants.{LINE_FEED};
ghost use Rattle.js_base.specs.declared.ids.HostId.{HostId};
ghost use Rattle.host_code.specs.Code.{CodeShape};
ghost use Rattle.link_seal.specs.Links.{CanSeal, LinkShape, next_sealed};
ghost use Rattle.node_seals.specs.declared.arrivals.Arrival.TheVariants as arrival;
ghost use Rattle.node_seals.specs.declared.arrivals.DropReason.TheVariants as dropped;
ghost use Rattle.node_seals.specs.Arrivals.{Arrives};
ghost use Rattle.node_engine.specs.NodeWorlds.{Inside, NodePart, Line, Sealing, Sending};
ghost use Rattle.node_seals.specs.Seals.{SealedLinks, SealsShape, after_opening, link_of, opened_of};
ghost use Rattle.node_seals.specs.Seals.{refused, string_for, unsealed};
ghost use Rattle.node_seals.specs.SealsFile.{lacks, seals_of};
ghost use Rattle.node_engine.specs.Units.{AreArrivalParts, frame_parts};

use link_seal::seal_laws;

/// Laws of what a node sends and takes under seals, for who reasons about them. The call does nothing.
pub fn sealing_laws()
    // Under seals all that is sent is sealed, with the next number of the link to its host.
    ensures sends_sealed { (links : SealedLinks) (to : HostId) (frame bytes : List ℕ) →
        string_for (Some links) to frame ≡ Some bytes →
        (link : LinkShape) × (link_of links.sealers to ≡ Some link) × (bytes ≡ next_sealed link frame) }

    // And what is taken of a host are the bytes of a frame that was so sealed for the link from it.
    ensures takes_sealed { (links : SealedLinks) (bytes : List ℕ) (from : HostId) (frame : List ℕ) →
        AreBytes bytes → opened_of (Some links) bytes ≡ unsealed from frame →
        (link : LinkShape) × (link_of links.openers from ≡ Some link) × CanSeal link.next frame
        × (bytes ≡ next_sealed link frame) }

    // What was sealed next for the link from a host is taken, and once alone.
    ensures taken { (links : SealedLinks) (link : LinkShape) (frame : List ℕ) →
        link_of links.openers link.from ≡ Some link → CanSeal link.next frame →
        opened_of (Some links) (next_sealed link frame) ≡ unsealed link.from frame }
    ensures taken_once { (links : SealedLinks) (link : LinkShape) (frame : List ℕ) →
        link_of links.openers link.from ≡ Some link → CanSeal link.next frame →
        opened_of (after_opening link.from (Some links)) (next_sealed link frame) ≡ refused }

    // The seals that a file gives have a link to each other host of the code, and one from it.
    ensures nothing_lacks { (code : CodeShape) (me : HostId) (bytes : List ℕ) (seals : SealsShape) →
        seals_of code me bytes ≡ Ok seals →
        (links : SealedLinks) × (seals ≡ Some links)
        × ((number : ℕ) → number < length code.hosts → lacks links me (record { 0 = number }) ≡ false) }

    // Worked: under seals no bytes are dropped for their seal, and have one line in the journal.
    ensures worked_seal { (code : CodeShape) (me : HostId) (links : SealedLinks) →
        Arrives code me (Some links) [] (arrival.Dropped dropped.Seal) }
    ensures worked_seal_line { (code : CodeShape) (me : HostId) (inside : Inside) (parts : List NodePart) →
        AreArrivalParts code me inside (arrival.Dropped dropped.Seal) parts →
        parts ≡ Line (codes "bad seal" ++ LINE_FEED ∷ []) ∷ [] }

    // Worked: a frame goes out to the host 1 by two parts.
    ensures worked_parts { (link : LinkShape) (frame : List ℕ) → let to : HostId = record { 0 = 1 } in
        let links : SealedLinks = record { sealers = None ∷ Some link ∷ []; openers = [] } in
        frame_parts (Some links) to frame ≡ Sealing to ∷ Sending to (next_sealed link frame) ∷ [] }
{
    seal_laws();
}
