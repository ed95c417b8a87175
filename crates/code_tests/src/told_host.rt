//! A host that is played from its journal.

ghost use Rattle.std.specs.Prelude.{◌≡◌};
ghost use Rattle.host_code.specs.Sound.{IsHost, IsOther};
ghost use Rattle.host_core.specs.Fits.{HostFits, TokensFit};

use crate::read_code::read_code;
use capability::{TAG_BYTES, Token};
use event_text::read_events;
use host_code::{Code, Message};
use host_core::{Sent, ToldHost};
use js_base::{EntryId, FieldId, FrameId, HostId, RequestId, SiteId};
use std::process::Abort;
use std::test::Fail;

const A: HostId = HostId(0);

const B: HostId = HostId(1);

/// The plain field of A.
const N: FieldId = FieldId(1);

/// The entry of `main`.
const MAIN: EntryId = EntryId(1);

const FRAME: FrameId = FrameId {
    site: SiteId(0),
    count: 0,
};

/// The token of the first push of `main`, as a journal names it.
const NAMED: Token = Token {
    host: A,
    frame: FRAME,
    entry: MAIN,
    serial: 0,
    tag: [0; TAG_BYTES],
};

/// The running thread gives back its own token, so the turn is not open.
fn ends(rt: &impl Abort, code: &Code, host: &mut ToldHost)
    requires { HostFits code.now host.old }
    ensures fits { HostFits code.now host.new }
    ensures me { host.new.me ≡ host.old.me }
{
    assert!(rt; !host.pops());
    assert!(rt; !host.is_open_turn(code));
    let mut sent = None;
    if !host.rest() {
        assert_eq!(rt; host.turn(code, false, &mut sent), Ok(()));
    }
    assert!(rt; sent.is_none());
}

/// What A sends for a message from B.
fn answer(
    rt: &impl Abort,
    code: &Code,
    host: &mut ToldHost,
    message: &Message,
    passes: bool,
) -> Sent
    requires fits { HostFits code.now host.old }
    requires from { IsOther code.now host.old.me B }
    requires tokens { TokensFit code.now message.now }
    ensures fits { HostFits code.now host.new }
    ensures me { host.new.me ≡ host.old.me }
{
    let mut sent = None;
    if host.rest() {
        assert_eq!(rt; host.take(code, B, message, passes, &mut sent), Ok(()));
    }
    sent
}

/// B has `main` pushed, and gives back a token with the numbers of that push. It takes the entry off where the host is
/// told so.
fn takes_an_open_token(rt: &impl Abort, code: &Code, host: &mut ToldHost)
    requires fits { HostFits code.now host.old }
    requires me { IsHost code.now A }
    requires from { IsOther code.now host.old.me B }
{
    let request = RequestId { at: 0, count: 0 };
    let sync = Message::Sync {
        request,
        frame: FRAME,
        entry: MAIN,
        token: NAMED,
    };
    let lgoto = Message::Lgoto { token: NAMED };
    assert!(rt; !host.is_open_taking(&lgoto));
    assert!(rt; answer(rt, code, host, &sync, false).is_some());
    assert!(rt; host.pops());
    assert!(rt; host.is_open_taking(&lgoto));
    assert!(rt; answer(rt, code, host, &lgoto, false).is_none());
    assert!(rt; host.rest());
    assert!(rt; answer(rt, code, host, &lgoto, true).is_none());
    assert!(rt; !host.rest());
}

#[test]
fn an_open_step_passes_where_the_host_is_told_so(rt: HostRuntime) -> Result<(), Fail> {
    let alloc = rt.alloc();
    let code = read_code(&rt, alloc)?;
    let script = read_events(alloc, &code, b"")?;
    assert!(rt; code.hosts().len() == 2);
    let mut host = ToldHost::start(alloc, &code, A, script.start())?;
    assert_eq!(rt; host.field(N, 0), 2);
    ends(&rt, &code, &mut host);
    takes_an_open_token(&rt, &code, &mut host);
    Ok(())
}
