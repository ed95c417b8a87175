//! The lines of a journal, one after the other.

ghost use Rattle.std.specs.Prelude.{◌≡◌, ◌<◌, ◌≤◌, ◌+◌, ◌↔◌, drop, length, Option, IfOk, IfSome, OnOk, IsTrue};
ghost use Rattle.std.specs.Prelude.{◌≢◌, IfErr, IfNone, IsSome, None, ℕ, List};
ghost use Rattle.js_base.specs.declared.ids.HostId.{HostId};
ghost use Rattle.host_code.specs.declared.message.Message.{Message};
ghost use Rattle.host_code.specs.Messages.{MessageFits};
ghost use Rattle.host_code.specs.Sound.{IsHost, IsSoundCode};
ghost use Rattle.host_core.specs.declared.host.TheConstants.{MOST_CALLS};
ghost use Rattle.host_core.specs.Fits.{HostFits, SentFits};
ghost use Rattle.host_core.specs.Host.{HostState, state_of};
ghost use Rattle.host_core.specs.Start.{host_at_start};
ghost use Rattle.host_core.specs.Told.{told_key};
ghost use Rattle.event_text.specs.JournalText.{sent_words, take_words, turn_words};
ghost use Rattle.event_text.specs.Lines.{words};
ghost use Rattle.record_merge.specs.JournalLines.{journal_of};
ghost use Rattle.journal_laws.specs.Plays.{HaveOwnNames, IsJournalOf, MayTake};
ghost use Rattle.journal_laws.specs.Steps.{Step};
ghost use Rattle.journal_laws.specs.ToldPlays.{IsPlayed, TurnsNext};
ghost use Rattle.journal_player.specs.Playing.{AnswersOn, IsLeftBehindStep, Makes, MakesTurn, MakesTake};
ghost use Rattle.journal_player.specs.Playing.{CanTake, IsBadLine, IsBadNext, IsBadStep, IsPlayError, IsPlayRefusal};
ghost use Rattle.journal_player.specs.Playing.{LacksStep};

use crate::letters::taken;
use event_text::Line;
use host_code::{Code, Message};
use host_core::{HostError, Sent, ToldHost};
use jif_tree::Store;
use journal_laws::field_laws;
use js_base::{HostId, OutOfMemory};
use record_merge::{is_send_line, is_take_line, is_turn_line};
use std::alloc::Global;
use wire_msg::message_law;

/// Why a journal is not played to its end.
#[derive(Clone, Copy, Debug, PartialEq, Eq)]
pub enum PlayError {
    OutOfMemory,
    /// The host does not go on by the line with this number.
    NoRun(u32),
}

impl From<OutOfMemory> for PlayError {
    ghost use Rattle.std.specs.Prelude.{◌≡◌};
    ghost use Rattle.journal_player.specs.declared.player.PlayError.TheVariants as error;

    ghost from_gives = { λ _ e. e ≡ error.OutOfMemory };

    fn from(_error: OutOfMemory) -> PlayError {
        PlayError::OutOfMemory
    }
}

/// Plays the lines of a journal that tell of turns, takes and what was sent. The host that is left has the fields of
/// each host that has this journal, and some host has it.
///
/// # Errors
/// `NoRun` with the number of the first line up to which no host has these lines.
pub fn play(
    alloc: Global,
    code: &Code,
    me: HostId,
    store: &Store,
    lines: &[Line<'_>],
) -> Result<ToldHost, PlayError>
    requires me { IsHost code.now me }
    requires few { length lines.now < MOST_CALLS }
    ensures played { IfOk result (λ host. IsPlayed code.now (host_at_start code.now store.now told_key me)
        (journal_of lines.now) (state_of host)) }
    ensures fields { IfOk result (λ host. (key : List ℕ) (steps : List Step) (last : HostState) →
        HaveOwnNames code.now →
        IsJournalOf code.now (host_at_start code.now store.now key me) (journal_of lines.now) steps last →
        last.rows ≡ host.stores.rows) }
    ensures real { IfOk result (λ host. HaveOwnNames code.now →
        (key : List ℕ) × (steps : List Step) × (last : HostState)
        × IsJournalOf code.now (host_at_start code.now store.now key me) (journal_of lines.now) steps last
        × (last.rows ≡ host.stores.rows)) }
    ensures refused { IfErr result (IsPlayError code.now store.now me lines.now) }
{
    field_laws();
    sound_code(code);
    play_all(alloc, code, me, store, lines)
}

/// A code is sound.
fn sound_code(code: &Code)
    ensures { IsSoundCode code.now }
{
    let _hosts = code.hosts();
}

/// Plays the lines one after the other.
fn play_all(
    alloc: Global,
    code: &Code,
    me: HostId,
    store: &Store,
    lines: &[Line<'_>],
) -> Result<ToldHost, PlayError>
    requires me { IsHost code.now me }
    requires few { length lines.now < MOST_CALLS }
    ensures played { IfOk result (λ host. IsPlayed code.now (host_at_start code.now store.now told_key me)
        (journal_of lines.now) (state_of host)) }
    ensures refused { IfErr result (IsPlayRefusal code.now (host_at_start code.now store.now told_key me) lines.now) }
{
    let mut host = ToldHost::start(alloc, code, me, store)?;
    let mut place = 0;
    while place < lines.len() {
        let line = lines[place];
        let others = &lines[place + 1..];
        let more = play_line(alloc, code, me, &mut host, line, others)?;
        place = place + 1 + more;
    }
    Ok(host)
}

/// Plays a line, and that of what was sent where something was. It gives the number of lines behind it that are played.
fn play_line(
    alloc: Global,
    code: &Code,
    me: HostId,
    host: &mut ToldHost,
    line: Line<'_>,
    others: &[Line<'_>],
) -> Result<usize, PlayError>
    requires own { host.old.me ≡ me }
    requires fits { HostFits code.now host.old }
    requires answers { AnswersOn host.old }
    ensures own { host.new.me ≡ host.old.me }
    ensures made { IfOk result (λ more. (sent : Option (HostId × Message))
        × Makes code.now (state_of host.old) (words line.entry.bytes.now) sent (state_of host.new)
        (journal_of others.now)
        × IsLeftBehindStep (sent_words code.now sent) (journal_of others.now) (drop more (journal_of others.now))) }
    ensures few { IfOk result (λ more. more ≤ length others.now) }
    ensures refused { IfErr result (IsBadLine code.now (state_of host.old) line.entry others.now) }
    ensures fits { HostFits code.now host.new }
    ensures counts { OnOk result ((host.new.calls ≡ host.old.calls + 1) × (host.new.stopped ≡ host.old.stopped)) }
{
    let sent = if is_turn_line(line.bytes) {
        make_turn(code, host, line, others)?
    } else {
        make_take(alloc, code, me, host, line, others)?
    };
    behind_step(alloc, code, sent, others)
}

/// Whether a turn comes next, or nothing.
fn turns_next(others: &[Line<'_>]) -> bool
    ensures { IsTrue result ↔ TurnsNext (journal_of others.now) }
{
    match others {
        [] => true,
        [next, ..] => is_turn_line(next.bytes),
    }
}

/// Makes a turn, and gives what was sent.
fn make_turn(
    code: &Code,
    host: &mut ToldHost,
    line: Line<'_>,
    others: &[Line<'_>],
) -> Result<Sent, PlayError>
    requires line { words line.bytes.now ≡ turn_words }
    requires fits { HostFits code.now host.old }
    requires answers { AnswersOn host.old }
    ensures own { host.new.me ≡ host.old.me }
    ensures refused { IfErr result (IsBadStep code.now (state_of host.old) line.entry) }
    ensures made { IfOk result (λ sent. MakesTurn code.now (state_of host.old) sent (state_of host.new)
        (journal_of others.now)) }
    ensures sent { IfOk result (SentFits code.now host.old.me) }
    ensures fits { HostFits code.now host.new }
    ensures counts { OnOk result ((host.new.calls ≡ host.old.calls + 1) × (host.new.stopped ≡ host.old.stopped)) }
{
    if host.rest() {
        return Err(PlayError::NoRun(line.number));
    }
    let _open = host.is_open_turn(code);
    let passes = turns_next(others);
    let mut sent = None;
    match host.turn(code, passes, &mut sent) {
        Ok(()) => Ok(sent),
        Err(HostError::OutOfMemory) => Err(PlayError::OutOfMemory),
        Err(HostError::Stopped) => unreachable!(),
    }
}

/// Takes the message of a line, and gives what was sent.
fn make_take(
    alloc: Global,
    code: &Code,
    me: HostId,
    host: &mut ToldHost,
    line: Line<'_>,
    others: &[Line<'_>],
) -> Result<Sent, PlayError>
    requires line { words line.bytes.now ≢ turn_words }
    requires own { host.old.me ≡ me }
    requires fits { HostFits code.now host.old }
    requires answers { AnswersOn host.old }
    ensures own { host.new.me ≡ host.old.me }
    ensures refused { IfErr result (IsBadStep code.now (state_of host.old) line.entry) }
    ensures made { IfOk result (λ sent. MakesTake code.now (state_of host.old) (words line.entry.bytes.now) sent
        (state_of host.new) (journal_of others.now)) }
    ensures sent { IfOk result (SentFits code.now host.old.me) }
    ensures fits { HostFits code.now host.new }
    ensures counts { OnOk result ((host.new.calls ≡ host.old.calls + 1) × (host.new.stopped ≡ host.old.stopped)) }
{
    let Some((from, message)) = takeable(alloc, code, me, host, line)? else {
        return Err(PlayError::NoRun(line.number));
    };
    let _open = host.is_open_taking(&message);
    let passes = turns_next(others);
    let mut sent = None;
    match host.take(code, from, &message, passes, &mut sent) {
        Ok(()) => Ok(sent),
        Err(HostError::OutOfMemory) => Err(PlayError::OutOfMemory),
        Err(HostError::Stopped) => unreachable!(),
    }
}

/// The message of a line, where the host may take it.
fn takeable(
    alloc: Global,
    code: &Code,
    me: HostId,
    host: &ToldHost,
    line: Line<'_>,
) -> Result<Option<(HostId, Message)>, OutOfMemory>
    requires line { words line.bytes.now ≢ turn_words }
    requires own { host.now.me ≡ me }
    ensures some { IfOk result (λ found. IfSome found (λ letter.
        MayTake code.now (state_of host.now) letter.0 letter.1
        × (words line.entry.bytes.now ≡ take_words code.now letter.0 letter.1))) }
    ensures none { IfOk result (λ found. IfNone found (LacksStep code.now (state_of host.now)
        (words line.entry.bytes.now))) }
{
    sound_code(code);
    let Some((from, message)) = taken(code, line.bytes) else {
        return Ok(None);
    };
    message_law(message);
    if !may_take(code, me, host, from, &message) {
        return Ok(None);
    }
    if is_take_line(alloc, code, line.bytes, from, &message)? {
        Ok(Some((from, message)))
    } else {
        Ok(None)
    }
}

/// Whether the host may take a message from another.
fn may_take(code: &Code, me: HostId, host: &ToldHost, from: HostId, message: &Message) -> bool
    requires own { host.now.me ≡ me }
    ensures { IsTrue result ↔ CanTake code.now (state_of host.now) from message.now }
{
    host.rest() && from != me && (from.0 as usize) < code.hosts().len() && message.fits(code)
}

/// The number of lines that are played behind a step that sent this.
fn behind_step(
    alloc: Global,
    code: &Code,
    sent: Sent,
    others: &[Line<'_>],
) -> Result<usize, PlayError>
    requires { IfSome sent (λ letter. MessageFits code.now letter.1) }
    ensures behind { IfOk result (λ more.
        IsLeftBehindStep (sent_words code.now sent) (journal_of others.now) (drop more (journal_of others.now))) }
    ensures few { IfOk result (λ more. more ≤ length others.now) }
    ensures refused { IfErr result (IsBadNext (sent_words code.now sent) others.now) }
{
    let Some((to, message)) = sent else {
        return Ok(0);
    };
    match others {
        [] => Ok(0),
        [next, ..] => {
            if is_send_line(alloc, code, next.bytes, to, &message)? {
                Ok(1)
            } else {
                Err(PlayError::NoRun(next.number))
            }
        }
    }
}
