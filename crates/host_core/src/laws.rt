//! Laws of what a host does with a message and at a turn. The call does nothing.

ghost use Rattle.js_base.specs.declared.ids.HostId.{HostId};
ghost use Rattle.host_code.specs.Code.{CodeShape};
ghost use Rattle.host_code.specs.declared.message.Message.{Message};
ghost use Rattle.host_core.specs.Host.{HostState, Outcome};
ghost use Rattle.host_core.specs.Taking.{IsTaking};
ghost use Rattle.host_core.specs.Turn.{IsTurn};

/// In any state, taking any message leaves something, and so does a turn.
pub fn step_laws()
    ensures some_taking { (code : CodeShape) (state : HostState) (from : HostId) (message : Message) →
        (outcome : Outcome) × IsTaking code state from message outcome }
    ensures some_turn { (code : CodeShape) (state : HostState) → (outcome : Outcome) × IsTurn code state outcome }
{}
