//! Links over sockets of the system.

ghost use Rattle.std.specs.Prelude.{◌≡◌, ◌≤◌, ◌⊎◌, None};
ghost use Rattle.js_base.specs.Counts.{Rose};

use crate::copies::copies;
use crate::links::{Arrived, LinkError, Links};
use js_base::HostId;
use std::alloc::Global;
use std::io::{self, ErrorKind, Read, Write};
use std::marker::Model;
use std::net::Net;
use std::os::unix::net::{UnixListener, UnixStream};
use std::{fs, rt};

/// The most bytes that are taken from one connection: more than the longest frame has.
const MOST_BYTES: u64 = 4_200;

/// How often a path at which nobody listens yet is tried.
const TRIES: u32 = 4_000_000;

/// Links over Unix sockets, with one connection for each frame. Each host listens at its own path. They tell nothing of
/// what is given or sent.
#[derive(Drop)]
pub struct UnixLinks<R> {
    runtime: R,
    listener: Option<UnixListener>,
    /// The paths of all hosts, by their numbers.
    paths: Vec<String>,
    faults: u64,
}

impl<R> Model for UnixLinks<R> {
    ghost use Rattle.std.specs.Prelude.{ℕ};

    // the faults so far
    ghost Value = { ℕ };

    ghost view = { λ l. l.faults };
}

impl<R: rt::Files + Net + AllocGlobal + Drop> UnixLinks<R> {
    /// Links that have not begun.
    pub fn new(runtime: R) -> Self
        ensures { result ≡ 0 }
    {
        let paths = Vec::new(runtime.alloc());
        UnixLinks {
            runtime,
            listener: None,
            paths,
            faults: 0,
        }
    }

    /// Listens at the path of a host, after the file that an earlier run left there is removed.
    fn listen(&mut self, alloc: Global, me: HostId, paths: &[String]) -> io::Result<()>
        ensures { self.new ≡ self.old }
    {
        let kept = copies(alloc, paths)?;
        let Some(own) = paths.get(me.0 as usize) else {
            return Err(io::Error::from(ErrorKind::InvalidInput));
        };
        match fs::remove_file(&self.runtime, own) {
            Ok(()) => {}
            Err(error) if error.kind() == ErrorKind::NotFound => {}
            Err(error) => return Err(error),
        }
        self.listener = Some(UnixListener::bind(&self.runtime, own)?);
        self.paths = kept;
        Ok(())
    }

    /// The bytes of the next connection, also where it broke off.
    fn take(&mut self, alloc: Global) -> io::Result<Vec<u8>>
        ensures { self.new ≡ self.old }
    {
        let Some(listener) = &self.listener else {
            return Err(io::Error::from(ErrorKind::NotConnected));
        };
        let (stream, _) = listener.accept()?;
        let mut bytes = Vec::new(alloc);
        match stream.take(MOST_BYTES).read_to_end(&mut bytes) {
            Ok(_) => Ok(bytes),
            Err(error) if error.kind() == ErrorKind::OutOfMemory => Err(error),
            Err(_) => Ok(bytes),
        }
    }

    /// Sends a frame to a host over a connection of its own.
    fn deliver(&mut self, to: HostId, bytes: &[u8]) -> io::Result<()>
        ensures { self.new ≡ self.old }
    {
        let Some(path) = self.paths.get(to.0 as usize) else {
            return Err(io::Error::from(ErrorKind::InvalidInput));
        };
        connected(&self.runtime, path)?.write_all(bytes)
    }

    /// What is answered after an error of the system. It is a fault where it is not want of memory.
    fn failed(&mut self, error: &io::Error) -> LinkError
        ensures faults { self.old ≤ self.new }
        ensures no_fault { (result ≡ LinkError.Failed) ⊎ (self.new ≡ self.old) }
        ensures cause { result ≡ LinkError.Failed → Rose self.old self.new }
    {
        if error.kind() == ErrorKind::OutOfMemory {
            return LinkError::OutOfMemory;
        }
        self.faults = self.faults.saturating_add(1);
        LinkError::Failed
    }
}

/// A connection to a path. Where nobody listens there yet, it is tried again, so many times.
fn connected(net: &impl Net, path: &str) -> io::Result<UnixStream> {
    for _ in 1..TRIES {
        match UnixStream::connect(net, path) {
            Ok(stream) => return Ok(stream),
            Err(error) => match error.kind() {
                ErrorKind::NotFound | ErrorKind::ConnectionRefused => {}
                _ => return Err(error),
            },
        }
    }
    UnixStream::connect(net, path)
}

impl<R: rt::Files + Net + AllocGlobal + Drop> Links for UnixLinks<R> {
    ghost faults = { λ faults. faults };

    ghost begun = { λ _. None };

    ghost left = { λ _. None };

    ghost sent = { λ _. None };

    fn begin(&mut self, alloc: Global, me: HostId, paths: &[String]) -> Result<(), LinkError> {
        match self.listen(alloc, me, paths) {
            Ok(()) => Ok(()),
            Err(error) => Err(self.failed(&error)),
        }
    }

    fn next(&mut self, alloc: Global) -> Result<Arrived, LinkError> {
        match self.take(alloc) {
            Ok(bytes) => Ok(Arrived { bytes }),
            Err(error) => Err(self.failed(&error)),
        }
    }

    fn send(&mut self, _alloc: Global, to: HostId, bytes: &[u8]) -> Result<(), LinkError> {
        match self.deliver(to, bytes) {
            Ok(()) => Ok(()),
            Err(error) => Err(self.failed(&error)),
        }
    }
}
