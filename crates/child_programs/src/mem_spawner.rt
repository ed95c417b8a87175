//! A spawner in memory that fails at listed calls.

ghost use Rattle.std.specs.Prelude.{◌≡◌, ◌<◌, ◌≤◌, ◌⊎◌, ◌↔◌, ◌∷◌, ◌++◌, [], ℕ, Some, None, IsTrue, map, Contains};
ghost use Rattle.std.specs.Prelude.{IfOk, OnOk, OnErr, IsErrOf, string_bytes};
ghost use Rattle.js_base.specs.Counts.{Rose};
ghost use Rattle.node_links.specs.Links.{OneMore};
ghost use Rattle.child_programs.specs.Children.{without};
ghost use Rattle.child_programs.specs.MemSpawner.{IsListed, after_call, after_end, after_fault, after_refusal};
ghost use Rattle.child_programs.specs.MemSpawner.{after_start, after_wait, status_of};

use crate::live::remove_number;
use crate::spawner::{SpawnError, Spawner};
use js_base::OutOfMemory;
use js_base::text::{owned_text, owned_texts};
use std::alloc::{AllocError, Global};
use std::marker::Model;

/// A spawner in memory, whose children end with the statuses that were listed, and which fails at the calls that were
/// listed. It starts nothing.
#[derive(Drop)]
pub struct MemSpawner {
    asked: Vec<(String, Vec<String>)>,
    gave: Vec<Option<u32>>,
    ended: Vec<(u32, i32)>,
    live: Vec<u32>,
    statuses: Vec<i32>,
    failing: Vec<u64>,
    next: u32,
    calls: u64,
    faults: u64,
}

impl Model for MemSpawner {
    ghost use Rattle.std.specs.Prelude.{All, ◌<◌, map, string_bytes};
    ghost use Rattle.child_programs.specs.MemSpawner.{SpawnerInMemory};

    ghost Value = { SpawnerInMemory };

    ghost view = { λ s. record {
      asked = map (λ one. (string_bytes one.0, map string_bytes one.1.items)) s.asked.items;
      gave = s.gave.items;
      ended = s.ended.items;
      live = s.live.items;
      statuses = s.statuses.items;
      failing = s.failing.items;
      next = s.next;
      calls = s.calls;
      faults = s.faults;
    } };

    ghost invariant = { λ s. All (λ number. number < s.next) s.live.items };
}

impl MemSpawner {
    /// Was asked for nothing. Children end with these statuses, in the order of their starts, and with 0 past the list.
    /// The calls of `spawn` and `wait` are numbered together from 0, and those whose number is in `failing` fail.
    pub fn new(alloc: Global, statuses: Vec<i32>, failing: Vec<u64>) -> Self
        ensures { result ≡ record {
          asked = [];
          gave = [];
          ended = [];
          live = [];
          statuses = statuses.items;
          failing = failing.items;
          next = 0;
          calls = 0;
          faults = 0;
        } }
    {
        MemSpawner {
            asked: Vec::new(alloc),
            gave: Vec::new(alloc),
            ended: Vec::new(alloc),
            live: Vec::new(alloc),
            statuses,
            failing,
            next: 0,
            calls: 0,
            faults: 0,
        }
    }

    /// The programs that it was asked to start, each with its words, also those whose start failed.
    pub fn asked(&self) -> &[(String, Vec<String>)]
        ensures { map (λ one. (string_bytes one.0, map string_bytes one.1.items)) result.now ≡ self.now.asked }
    {
        self.asked.as_slice()
    }

    /// Counts a call, and says whether it is listed.
    fn start(&mut self) -> bool
        ensures listed { IsTrue result ↔ IsListed self.old }
        ensures after { self.new ≡ after_call self.old }
    {
        let listed = is_listed(&self.failing, self.calls);
        self.calls = self.calls.saturating_add(1);
        listed
    }

    /// Counts a fault.
    fn fail(&mut self) -> SpawnError
        ensures after { self.new ≡ after_fault self.old }
        ensures faults { self.old.faults ≤ self.new.faults }
        ensures cause { Rose self.old.faults self.new.faults }
        ensures failed { result ≡ SpawnError.Failed }
    {
        self.faults = self.faults.saturating_add(1);
        SpawnError::Failed
    }

    /// Keeps a request that gave no child, or nothing where memory is out.
    fn refuse(&mut self, request: (String, Vec<String>)) -> Result<(), AllocError>
        ensures ok { OnOk result
            (self.new ≡ after_refusal (string_bytes request.0) (map string_bytes request.1.items) self.old) }
        ensures err { OnErr result (self.new ≡ self.old) }
    {
        self.gave.reserve(1)?;
        self.asked.push(request)?;
        let given = self.gave.push(None);
        prove!(given.is_ok());
        Ok(())
    }

    /// Keeps a request that gave the next child, or nothing where memory is out.
    fn give(&mut self, request: (String, Vec<String>)) -> Result<(), AllocError>
        requires { self.old.next < 4294967295 }
        ensures ok { OnOk result
            (self.new ≡ after_start (string_bytes request.0) (map string_bytes request.1.items) self.old) }
        ensures err { OnErr result (self.new ≡ self.old) }
    {
        self.gave.reserve(1)?;
        self.live.reserve(1)?;
        self.asked.push(request)?;
        let given = self.gave.push(Some(self.next));
        prove!(given.is_ok());
        let lives = self.live.push(self.next);
        prove!(lives.is_ok());
        self.next += 1;
        Ok(())
    }

    /// The status with which a child ends.
    fn status(&self, child: u32) -> i32
        ensures { result ≡ status_of self.now child }
    {
        self.statuses.get(child as usize).copied().unwrap_or(0)
    }

    /// Takes out a child that it was waited for.
    fn forget(&mut self, child: u32)
        ensures { self.new ≡ after_wait child self.old }
    {
        remove_number(&mut self.live, child);
    }

    /// Keeps how a child ended, or nothing where memory is out.
    fn end(&mut self, child: u32, status: i32) -> Result<(), AllocError>
        requires { status ≡ status_of self.old child }
        ensures ok { OnOk result (self.new ≡ after_end child self.old) }
        ensures err { OnErr result (self.new ≡ self.old) }
    {
        Ok(self.ended.push((child, status))?)
    }
}

/// Whether a call's number is among those that are to fail.
fn is_listed(failing: &[u64], call: u64) -> bool
    ensures { IsTrue result ↔ Contains failing.now call }
{
    failing.contains(&call)
}

/// A request to start a program with words.
fn request_for(
    alloc: Global,
    program: &str,
    words: &[String],
) -> Result<(String, Vec<String>), OutOfMemory>
    ensures { IfOk result (λ request. (string_bytes request.0 ≡ program.now)
        × (map string_bytes request.1.items ≡ map string_bytes words.now)) }
{
    let name = owned_text(alloc, program)?;
    let words = owned_texts(alloc, words)?;
    Ok((name, words))
}

impl Spawner for MemSpawner {
    ghost faults = { λ s. s.faults };

    ghost live = { λ s. s.live };

    ghost asked = { λ s. Some s.asked };

    ghost gave = { λ s. Some s.gave };

    ghost ended = { λ s. Some s.ended };

    /// It also fails where all numbers of children are given.
    fn spawn(&mut self, alloc: Global, program: &str, words: &[String]) -> Result<u32, SpawnError>
        ensures live { IfOk result (λ child. self.new.live ≡ self.old.live ++ child ∷ []) }
        ensures fresh { IfOk result (λ child. ¬ Contains self.old.live child) }
        ensures err { OnErr result (self.new.live ≡ self.old.live) }
        ensures asked { (IsErrOf result SpawnError.OutOfMemory → ⊥) →
            OneMore (program.now, map string_bytes words.now) (Some self.old.asked) (Some self.new.asked) }
        ensures gave { IfOk result (λ child. OneMore (Some child) (Some self.old.gave) (Some self.new.gave)) }
        ensures gave_none { IsErrOf result SpawnError.Failed →
            OneMore None (Some self.old.gave) (Some self.new.gave) }
        ensures memory { IsErrOf result SpawnError.OutOfMemory →
            ((Some self.new.asked ≡ Some self.old.asked) × (Some self.new.gave ≡ Some self.old.gave))
            ⊎ (OneMore (program.now, map string_bytes words.now) (Some self.old.asked) (Some self.new.asked)
            × OneMore None (Some self.old.gave) (Some self.new.gave)) }
        ensures ended { Some self.new.ended ≡ Some self.old.ended }
        ensures faults { self.old.faults ≤ self.new.faults }
        ensures no_fault { IsErrOf result SpawnError.Failed ⊎ (self.new.faults ≡ self.old.faults) }
        ensures cause { IsErrOf result SpawnError.Failed → Rose self.old.faults self.new.faults }

        // It fails at the listed calls and at no other, while there are numbers.
        ensures listed { IsErrOf result SpawnError.Failed → IsListed self.old ⊎ (self.old.next ≡ 4294967295) }
        ensures unlisted { OnOk result (¬ IsListed self.old) }

        ensures child { IfOk result (λ child. child ≡ self.old.next) }
        ensures after { OnOk result
            (self.new ≡ after_start program.now (map string_bytes words.now) (after_call self.old)) }
        ensures after_fault { IsErrOf result SpawnError.Failed →
            self.new ≡ after_fault (after_refusal program.now (map string_bytes words.now) (after_call self.old)) }
        ensures no_memory { IsErrOf result SpawnError.OutOfMemory → self.new ≡ after_call self.old }
    {
        let listed = self.start();
        let request = request_for(alloc, program, words)?;
        let child = self.next;
        if listed || child == u32::MAX {
            self.refuse(request)?;
            return Err(self.fail());
        }
        self.give(request)?;
        Ok(child)
    }

    fn wait(&mut self, child: u32) -> Result<i32, SpawnError>
        ensures live { self.new.live ≡ without child self.old.live }
        ensures asked { Some self.new.asked ≡ Some self.old.asked }
        ensures gave { Some self.new.gave ≡ Some self.old.gave }
        ensures ended { IfOk result (λ status. OneMore (child, status) (Some self.old.ended) (Some self.new.ended)) }
        ensures err { OnErr result (Some self.new.ended ≡ Some self.old.ended) }
        ensures faults { self.old.faults ≤ self.new.faults }
        ensures no_fault { IsErrOf result SpawnError.Failed ⊎ (self.new.faults ≡ self.old.faults) }
        ensures cause { IsErrOf result SpawnError.Failed → Rose self.old.faults self.new.faults }

        // It fails at the listed calls and at no other.
        ensures listed { IsErrOf result SpawnError.Failed → IsListed self.old }
        ensures unlisted { OnOk result (¬ IsListed self.old) }

        ensures status { IfOk result (λ status. status ≡ status_of self.old child) }
        ensures after { OnOk result (self.new ≡ after_end child (after_wait child (after_call self.old))) }
        ensures after_fault { IsErrOf result SpawnError.Failed →
            self.new ≡ after_fault (after_wait child (after_call self.old)) }
        ensures no_memory { IsErrOf result SpawnError.OutOfMemory →
            self.new ≡ after_wait child (after_call self.old) }
    {
        let listed = self.start();
        self.forget(child);
        if listed {
            return Err(self.fail());
        }
        let status = self.status(child);
        self.end(child, status)?;
        Ok(status)
    }
}
