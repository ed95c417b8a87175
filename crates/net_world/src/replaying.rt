//! Worlds in which events happen one after the other, each of which stands on a line of a script.

ghost use Rattle.std.specs.Prelude.{◌≡◌, All, OnOk, IfErr};
ghost use Rattle.net_world.specs.Fits.{WorldFits, HasOwnToken, world_of};
ghost use Rattle.net_world.specs.Steps.{HaveMade};
ghost use Rattle.net_world.specs.World.{IsRun};
ghost use Rattle.net_world.specs.Replay.{IsReplayError, IsReplayErrorOf, events_in, number_presented};
ghost use Rattle.net_world.specs.Replay.{number_in_message, number_in_token};

use crate::laws::fits_laws;
use crate::world::{EventError, World};
use event_text::{BadMessage, BadToken, Event};
use host_code::Code;
use js_base::OutOfMemory;

/// Why events did not all happen.
#[derive(Clone, Copy)]
pub enum ReplayError {
    OutOfMemory,
    /// There is no such event as the line says.
    NotThere(u32),
    /// The host of the event on the line runs a thread.
    HostBusy(u32),
    /// The sender of the act on the line obeys.
    NotBad(u32),
    /// The act on the line presents the token of the first number, and misbehaving hosts were sent so many as the
    /// second says.
    NoSuchToken(u32, u64, u64),
}

impl From<OutOfMemory> for ReplayError {
    ghost use Rattle.std.specs.Prelude.{◌≡◌};
    ghost use Rattle.net_world.specs.declared.replaying.ReplayError.TheVariants as error;

    ghost from_gives = { λ _ e. e ≡ error.OutOfMemory };

    fn from(_error: OutOfMemory) -> ReplayError {
        ReplayError::OutOfMemory
    }
}

/// Makes events happen, each of which stands on a line, up to the first that is refused.
pub fn replay(code: &Code, world: &mut World, events: &[(u32, Event)]) -> Result<(), ReplayError>
    requires fits { WorldFits code.now world.old }
    requires fresh { HaveMade 0 world.old.hosts }
    requires own { All (λ one. HasOwnToken (world_of world.old) one.1) events.now }
    ensures happened { OnOk result (IsRun code.now (world_of world.old) (events_in events.now) (world_of world.new)) }
    ensures refused { IfErr result (IsReplayError code.now (world_of world.old) events.now) }
    ensures fits { WorldFits code.now world.new }
{
    fits_laws();
    for (line, event) in events {
        if let Err(error) = world.apply(code, event) {
            return Err(refused(*line, event, error));
        }
    }
    Ok(())
}

/// Why the event on a line did not happen. No host has made so many steps that it answers no more.
pub fn refused(line: u32, event: &Event, error: EventError) -> ReplayError
    requires { error ≡ EventError.Stopped → ⊥ }
    ensures { IsReplayErrorOf line event.now error result }
{
    match error {
        EventError::OutOfMemory => ReplayError::OutOfMemory,
        EventError::NotThere => ReplayError::NotThere(line),
        EventError::HostBusy => ReplayError::HostBusy(line),
        EventError::NotBad => ReplayError::NotBad(line),
        EventError::NoSuchToken(count) => ReplayError::NoSuchToken(
            line,
            number_presented(event),
            count,
        ),
        EventError::Stopped => unreachable!(),
    }
}

/// The number of the sent token that an event presents, and 0 where it presents none.
fn number_presented(event: &Event) -> u64
    ensures { result ≡ number_presented event.now }
{
    match event {
        Event::Act(_, _, made) => number_in_message(made),
        _ => 0,
    }
}

/// The number of the sent token in a message, and 0 where there is none.
fn number_in_message(made: &BadMessage) -> u64
    ensures { result ≡ number_in_message made.now }
{
    match made {
        BadMessage::Sync { token, .. }
        | BadMessage::Rgoto { token, .. }
        | BadMessage::RgotoWith { token, .. }
        | BadMessage::Lgoto { token }
        | BadMessage::Token { token, .. } => number_in_token(token),
        _ => 0,
    }
}

/// The number of a sent token, and 0 for one of a misbehaving host's own.
fn number_in_token(token: &BadToken) -> u64
    ensures { result ≡ number_in_token token.now }
{
    match token {
        BadToken::Sent(number) => *number,
        BadToken::Own(_) => 0,
    }
}
