//! The checks of one host, made once for its code.

ghost use Rattle.std.specs.Prelude.{◌≡◌, ◌<◌, ◌^◌, ◌↔◌, ℕ, IsTrue, IfOk, length, slice_index};
ghost use Rattle.js_base.specs.declared.ids.HostId.{HostId};
ghost use Rattle.host_code.specs.Code.{CodeShape};
ghost use Rattle.entry_check.specs.Checks.{May, IsWordOfAsk, AreChecksOf, ask_of};

use crate::ask::Ask;
use crate::rule::may;
use host_code::Code;
use js_base::bits::{has_bit, with_bit};
use js_base::limits::HOSTS;
use js_base::{EntryId, FieldId, HostId, OutOfMemory, VarId};
use std::alloc::Global;
use std::marker::Model;

/// The kinds of what is asked.
#[derive(Clone, Copy)]
pub enum Kind {
    Get,
    Set,
    Forward,
    Enter,
}

/// What each host may ask of one host. For each field, variable and entry it has a word with a bit for each host that
/// may.
#[derive(Drop)]
pub struct Checks {
    gets: Vec<u64>,
    sets: Vec<u64>,
    forwards: Vec<u64>,
    enters: Vec<u64>,
}

impl Model for Checks {
    ghost use Rattle.entry_check.specs.Checks.{ChecksShape};

    ghost Value = { ChecksShape };

    ghost view = { λ c. record {
      gets = c.gets.items;
      sets = c.sets.items;
      forwards = c.forwards.items;
      enters = c.enters.items;
    } };
}

impl Checks {
    /// The checks of host `me`.
    pub fn new(alloc: Global, code: &Code, me: HostId) -> Result<Checks, OutOfMemory>
        ensures { IfOk result (AreChecksOf code.now me) }
    {
        let fields = code.fields().len();
        let vars = code.vars().len();
        let entries = code.entries().len();
        Ok(Checks {
            gets: words_of(alloc, code, me, Kind::Get, fields)?,
            sets: words_of(alloc, code, me, Kind::Set, fields)?,
            forwards: words_of(alloc, code, me, Kind::Forward, vars)?,
            enters: words_of(alloc, code, me, Kind::Enter, entries)?,
        })
    }

    /// Whether host `from` may ask this of the host whose checks they are. What is not there may not be asked for, nor
    /// what is not on the host.
    pub fn may(&self, ask: Ask, from: HostId) -> bool
        requires { from.0 < HOSTS }
        ensures { (code : CodeShape) (me : HostId) → AreChecksOf code me self.now →
            (IsTrue result ↔ May code me ask from) }
    {
        let word = match ask {
            Ask::Get(field) => word_at(&self.gets, field.0),
            Ask::Set(field) => word_at(&self.sets, field.0),
            Ask::Forward(var) => word_at(&self.forwards, var.0),
            Ask::Enter(entry) => word_at(&self.enters, entry.0),
        };
        has_bit(word, from.0)
    }
}

/// The word of a number, no bits where there is none.
fn word_at(words: &[u64], number: u32) -> u64
    ensures { result ≡ slice_index words.now number }
{
    words.get(number as usize).copied().unwrap_or(0)
}

/// The words of this kind for so many numbers.
fn words_of(
    alloc: Global,
    code: &Code,
    me: HostId,
    kind: Kind,
    count: usize,
) -> Result<Vec<u64>, OutOfMemory>
    requires { count < 2 ^ 32 }
    ensures count { IfOk result (λ words. length words.items ≡ count) }
    ensures words { IfOk result (λ words. (number : ℕ) → number < count →
        IsWordOfAsk code.now me (ask_of kind number) (slice_index words.items number)) }
{
    let mut words = Vec::new(alloc);
    for number in 0..count {
        words.push(word_of(code, me, ask_of(kind, number as u32)))?;
    }
    Ok(words)
}

/// What is asked by this kind of this number.
fn ask_of(kind: Kind, number: u32) -> Ask
    ensures { result ≡ ask_of kind number }
{
    match kind {
        Kind::Get => Ask::Get(FieldId(number)),
        Kind::Set => Ask::Set(FieldId(number)),
        Kind::Forward => Ask::Forward(VarId(number)),
        Kind::Enter => Ask::Enter(EntryId(number)),
    }
}

/// The word with a bit for each host that may ask this.
fn word_of(code: &Code, me: HostId, ask: Ask) -> u64
    ensures { IsWordOfAsk code.now me ask result }
{
    let mut word = 0;
    for from in 0..HOSTS as u8 {
        if may(code, me, ask, HostId(from)) {
            word = with_bit(word, from);
        }
    }
    word
}
