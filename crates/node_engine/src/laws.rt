//! Laws of what a node does.

ghost use Rattle.std.specs.Prelude.{◌≡◌, ◌∷◌, ◌++◌, [], ℕ, List, None, codes};
ghost use Rattle.js_base.specs.declared.text.TheConstants.{LINE_FEED};
ghost use Rattle.js_base.specs.declared.ids.HostId.{HostId};
ghost use Rattle.js_base.specs.declared.status.Status.{Status};
ghost use Rattle.host_code.specs.Code.{CodeShape};
ghost use Rattle.wire_msg.specs.declared.error.WireError.TheVariants as wire_error;
ghost use Rattle.wire_msg.specs.declared.frame.Frame.TheVariants as frame;
ghost use Rattle.wire_msg.specs.Spelling.{frame_bytes};
ghost use Rattle.node_seals.specs.declared.arrivals.Arrival.{Arrival};
ghost use Rattle.node_seals.specs.declared.arrivals.Arrival.TheVariants as arrival;
ghost use Rattle.node_seals.specs.declared.arrivals.DropReason.TheVariants as dropped;
ghost use Rattle.node_seals.specs.Arrivals.{Arrives};
ghost use Rattle.node_engine.specs.NodeWorlds.{Inside, NodeWorld, NodePart, Taking, Line, Sending};
ghost use Rattle.node_engine.specs.Notes.{IsNoted};
ghost use Rattle.node_seals.specs.Seals.{SealsShape};
ghost use Rattle.node_engine.specs.Serving.{Serves, closing_from};
ghost use Rattle.node_engine.specs.Units.{AreArrivalParts, AreTakingParts, AreUnitParts};

use host_core::step_laws;
use wire_msg::wire_laws;

/// Laws of the units of a node, for who reasons about them. The call does nothing.
pub fn unit_laws()
    // All bytes come to one thing.
    ensures some_arrival { (code : CodeShape) (me : HostId) (seals : SealsShape) (bytes : List ℕ) →
        (arrival : Arrival) × Arrives code me seals bytes arrival }
    ensures one_arrival { (code : CodeShape) (me : HostId) (seals : SealsShape) (bytes : List ℕ)
        (first second : Arrival) →
        Arrives code me seals bytes first → Arrives code me seals bytes second → first ≡ second }

    // In every world a unit has parts, and one that takes a frame has them whatever is left.
    ensures some_taking { (code : CodeShape) (me : HostId) (inside : Inside) (left : List (List ℕ)) →
        (others : List NodePart) × AreTakingParts code me inside left (Taking ∷ others) }
    ensures some_parts { (code : CodeShape) (me : HostId) (world : NodeWorld) →
        (parts : List NodePart) × AreUnitParts code me world parts }

    // And only these.
    ensures one_parts { (code : CodeShape) (me : HostId) (world : NodeWorld) (first second : List NodePart) →
        AreUnitParts code me world first → AreUnitParts code me world second → first ≡ second }

    // However a node ends, the whole lines of its journal tell the steps that its host made, or all but the last.
    ensures steps_noted { (code : CodeShape) (me : HostId) (units : ℕ) (answer : Status) (world new : NodeWorld) →
        Serves code me units answer world new → IsNoted code world.host new.host world.journal new.journal }

    // Worked: no bytes are dropped as a frame that is too short, and have one line in the journal.
    ensures worked_short { (code : CodeShape) (me : HostId) →
        Arrives code me None [] (arrival.Dropped (dropped.Frame wire_error.Short)) }
    ensures worked_line { (code : CodeShape) (me : HostId) (inside : Inside) (parts : List NodePart) →
        AreArrivalParts code me inside (arrival.Dropped (dropped.Frame wire_error.Short)) parts →
        parts ≡ Line (codes "bad short" ++ LINE_FEED ∷ []) ∷ [] }

    // Worked: the first of three hosts tells the two others that the program is done, and the second of two the first.
    ensures worked_closing { let me : HostId = record { 0 = 0 } in closing_from me None 0 3
        ≡ Sending (record { 0 = 1 }) (frame_bytes me frame.Done)
        ∷ Sending (record { 0 = 2 }) (frame_bytes me frame.Done) ∷ [] }
    ensures worked_closing_second { let me : HostId = record { 0 = 1 } in closing_from me None 0 2
        ≡ Sending (record { 0 = 0 }) (frame_bytes me frame.Done) ∷ [] }
{
    step_laws();
    wire_laws();
}
