//! Programs of the system.

ghost use Rattle.std.specs.Prelude.{◌≡◌, ◌<◌, ◌≤◌, ◌⊎◌, ◌∷◌, ◌++◌, [], None, Contains, OnOk, OnErr};
ghost use Rattle.js_base.specs.Counts.{Rose};
ghost use Rattle.child_programs.specs.Children.{without};

use crate::live::remove_number;
use crate::spawner::{SpawnError, Spawner};
use std::alloc::{AllocError, Global};
use std::io::{self, ErrorKind};
use std::marker::Model;
use std::process::{Child, Command, Processes};

/// What is started for a program of a name: a file, with some words in front of those of the request.
#[derive(Drop)]
pub struct Stand {
    pub name: String,
    pub file: String,
    pub first: Vec<String>,
}

/// A child under its number.
#[derive(Drop)]
struct Numbered<C> {
    number: u32,
    child: C,
}

/// Programs of the system, each under the next number. Which children are still to be waited for it tells, and nothing
/// of what it was asked to start or of how children ended.
#[derive(Drop)]
pub struct RealSpawner<R: Processes> {
    runtime: R,
    stand: Stand,
    children: Vec<Numbered<Child<R::Started>>>,
    live: Vec<u32>,
    next: u32,
    faults: u64,
}

impl<R: Processes> Model for RealSpawner<R> {
    ghost use Rattle.std.specs.Prelude.{All, ◌<◌};
    ghost use Rattle.child_programs.specs.RealSpawner.{SpawnerCounts};

    ghost Value = { SpawnerCounts };

    ghost view = { λ s. record { live = s.live.items; next = s.next; faults = s.faults } };

    ghost invariant = { λ s. All (λ number. number < s.next) s.live.items };
}

impl<R: Processes + AllocGlobal + Drop> RealSpawner<R> {
    /// Has started nothing. For the program of the stand's name the stand's file is started; any other is started as it
    /// is named.
    pub fn new(runtime: R, stand: Stand) -> Self
        ensures { result ≡ record { live = []; next = 0; faults = 0 } }
    {
        let children = Vec::new(runtime.alloc());
        let live = Vec::new(runtime.alloc());
        RealSpawner {
            runtime,
            stand,
            children,
            live,
            next: 0,
            faults: 0,
        }
    }

    /// Starts a program with words, or what stands for it.
    fn start(
        &self,
        alloc: Global,
        program: &str,
        words: &[String],
    ) -> io::Result<Child<R::Started>> {
        let mut command = self.command(alloc, program)?;
        for word in words {
            command.arg(word)?;
        }
        command.spawn(&self.runtime)
    }

    /// The command of a program, or of what stands for it, with the words in front.
    fn command(&self, alloc: Global, program: &str) -> io::Result<Command> {
        if program != self.stand.name.as_str() {
            return Ok(Command::new(alloc, program)?);
        }
        let mut command = Command::new(alloc, &self.stand.file)?;
        for word in &self.stand.first {
            command.arg(word)?;
        }
        Ok(command)
    }

    /// Keeps a child that was started, under a number.
    fn keep(&mut self, number: u32, child: Child<R::Started>) -> Result<(), AllocError>
        requires { number < self.old.next }
        ensures ok { OnOk result (self.new ≡ record self.old { live = self.old.live ++ number ∷ [] }) }
        ensures err { OnErr result (self.new ≡ self.old) }
    {
        self.children.push(Numbered { number, child })?;
        self.live.push(number)?;
        Ok(())
    }

    /// Waits for a child, and gives its status, or -1 where a signal ended it.
    fn end(&mut self, number: u32) -> io::Result<i32>
        ensures { self.new ≡ self.old }
    {
        for started in self.children.iter_mut() {
            if started.number == number {
                let status = started.child.wait()?;
                return Ok(status.code().unwrap_or(-1));
            }
        }
        Err(io::Error::from(ErrorKind::NotFound))
    }

    /// What is answered after an error of the system. It is a fault where it is not want of memory.
    fn failed(&mut self, error: &io::Error) -> SpawnError
        ensures live { self.new.live ≡ self.old.live }
        ensures next { self.new.next ≡ self.old.next }
        ensures faults { self.old.faults ≤ self.new.faults }
        ensures no_fault { (result ≡ SpawnError.Failed) ⊎ (self.new.faults ≡ self.old.faults) }
        ensures cause { result ≡ SpawnError.Failed → Rose self.old.faults self.new.faults }
    {
        if error.kind() == ErrorKind::OutOfMemory {
            return SpawnError::OutOfMemory;
        }
        self.faults = self.faults.saturating_add(1);
        SpawnError::Failed
    }

    /// Takes out a child that it was waited for.
    fn forget(&mut self, number: u32)
        ensures { self.new ≡ record self.old { live = without number self.old.live } }
    {
        remove_number(&mut self.live, number);
    }
}

impl<R: Processes + AllocGlobal + Drop> Spawner for RealSpawner<R> {
    ghost faults = { λ s. s.faults };

    ghost live = { λ s. s.live };

    ghost asked = { λ _. None };

    ghost gave = { λ _. None };

    ghost ended = { λ _. None };

    fn spawn(&mut self, alloc: Global, program: &str, words: &[String]) -> Result<u32, SpawnError> {
        let number = self.next;
        if number == u32::MAX {
            return Err(self.failed(&io::Error::from(ErrorKind::NotFound)));
        }
        let child = match self.start(alloc, program, words) {
            Ok(child) => child,
            Err(error) => return Err(self.failed(&error)),
        };
        self.next = number + 1;
        match self.keep(number, child) {
            Ok(()) => Ok(number),
            Err(_) => Err(SpawnError::OutOfMemory),
        }
    }

    fn wait(&mut self, child: u32) -> Result<i32, SpawnError> {
        let ended = self.end(child);
        self.forget(child);
        match ended {
            Ok(status) => Ok(status),
            Err(error) => Err(self.failed(&error)),
        }
    }
}
