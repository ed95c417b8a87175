//! The step of one host among all.

ghost use Rattle.std.specs.Prelude.{◌≡◌, None, Some, OnOk, OnErr, IfSome, IsSomeAnd};
ghost use Rattle.host_code.specs.Sound.{IsLabelNumber};
ghost use Rattle.host_core.specs.Calls.{CountsCall};
ghost use Rattle.host_core.specs.Fits.{SentFits};
ghost use Rattle.host_core.specs.Host.{state_of, IsStopped};
ghost use Rattle.host_core.specs.Turn.{label_of_turn};
ghost use Rattle.net_world.specs.World.{present};
ghost use Rattle.net_world.specs.Fits.{HostsFit, PresentFits, states_of};
ghost use Rattle.net_world.specs.Steps.{IsMove, IsMovable, MoveFits, HasMoved, HasCountedCall, ChangesOnlyHost};

use host_code::{Code, Message};
use host_core::{Host, HostError, Sent};
use js_base::{HostId, OutOfMemory};

/// The label of the instruction that a host runs at its turn, none where no thread runs.
pub fn label_of(host: &Host, code: &Code, me: HostId) -> Option<u32>
    requires { PresentFits code.now me host.now }
    ensures label { result ≡ label_of_turn code.now (state_of host.now) }
    ensures fits { IfSome result (IsLabelNumber code.now) }
{
    let _sound = code.hosts();
    let at = host.place()?;
    let instruction = code.instruction(me, at)?;
    Some(instruction.label)
}

/// What a host does at an event: it takes a message from another host, or makes a turn.
#[derive(Clone, Copy)]
pub enum Move<'a> {
    Take(HostId, &'a Message),
    Turn,
}

/// A host that can make a move makes it. After want of memory it answers no more.
fn move_of(
    host: &mut Host,
    code: &Code,
    me: HostId,
    step: Move,
    sent: &mut Sent,
) -> Result<(), OutOfMemory>
    requires movable { IsMovable step host.old }
    requires fits { PresentFits code.now me host.old }
    requires move_fits { MoveFits code.now me step }
    ensures ok { OnOk result (IsMove code.now step.entry (state_of host.old)
        (record { state = state_of host.new; sent = sent.new })) }
    ensures err { OnErr result (state_of host.new ≡ state_of host.old) }
    ensures stopped { OnErr result (IsStopped host.new) }
    ensures counted { OnOk result (CountsCall host.old host.new) }
    ensures fits { PresentFits code.now me host.new }
    ensures sent { OnOk result (SentFits code.now me sent.new) }
{
    let done = match step {
        Move::Take(from, message) => host.deliver_into(code, from, message, sent),
        Move::Turn => host.turn_into(code, sent),
    };
    match done {
        Ok(()) => Ok(()),
        Err(HostError::OutOfMemory) => Err(OutOfMemory),
        Err(HostError::Stopped) => unreachable!(),
    }
}

/// The host of a number makes a move.
pub fn move_at(
    hosts: &mut Vec<Option<Host>>,
    code: &Code,
    me: HostId,
    step: Move,
    sent: &mut Sent,
) -> Result<(), OutOfMemory>
    requires movable { IsSomeAnd (present hosts.old.items me) (IsMovable step) }
    requires fits { HostsFit code.now hosts.old.items }
    requires move_fits { MoveFits code.now me step }
    ensures ok { OnOk result (HasMoved (IsMove code.now step.entry) hosts.old.items hosts.new.items me sent.new) }
    ensures err { OnErr result (states_of hosts.new.items ≡ states_of hosts.old.items) }
    ensures stopped { OnErr result (IsSomeAnd (present hosts.new.items me) IsStopped) }
    ensures counted { OnOk result (HasCountedCall me hosts.old.items hosts.new.items) }
    ensures others { ChangesOnlyHost me hosts.old.items hosts.new.items }
    ensures fits { HostsFit code.now hosts.new.items }
    ensures sent { OnOk result (SentFits code.now me sent.new) }
{
    match &mut hosts[me.0 as usize] {
        Some(host) => move_of(host, code, me, step, sent),
        None => unreachable!(),
    }
}
