ghost use Rattle.std.specs.Prelude.{◌≡◌, ◌<◌, None, length, IfOk, OnOk, OnErr, IsErrOf, Ok, string_bytes};
ghost use Rattle.fm_io.specs.Count.{Counts, Raised};
ghost use Rattle.fm_io.specs.Files.{HasBytes};
ghost use Rattle.fm_io.specs.Host.{AsksOnce, ComesTo, EndsAt, way_to};

use crate::count::raised;
use crate::fault::Fault;
use crate::files::{Files, Piece};
use crate::system::{System, Way};
use std::alloc::{AllocError, Global};
use std::io::{self, ErrorKind};

/// The files of a system, by their paths. It tells nothing of what they hold.
///
/// A name is opened once and read on where the last read ended, until another name is read or a read
/// fails. So a file that is renamed, removed or replaced meanwhile is still read as one file, and a
/// pipe can be read, though not twice. A folder, a file that may not be read and a path that leads
/// through a file are faults; only a name that doesn't exist is missing.
#[derive(Drop)]
pub struct HostFiles<S: System> {
    system: S,
    name: String,
    next: Option<u64>,
    faults: u64,
    misses: u64,
}

impl<S: System> HostFiles<S> {
    /// No file is open yet, no read has failed, and none has missed.
    pub fn new(alloc: Global, system: S) -> HostFiles<S>
        ensures system { result.system ≡ system }
        ensures closed { result.next ≡ None }
        ensures faults { result.faults ≡ 0 }
        ensures misses { result.misses ≡ 0 }
    {
        HostFiles {
            system,
            name: String::new(alloc),
            next: None,
            faults: 0,
            misses: 0,
        }
    }

    /// How the next read comes by its place. A name that is opened is kept, which may want memory.
    fn way_to(&mut self, name: &str, at: u64) -> Result<Way, AllocError>
        ensures way { IfOk result
            (λ way. way ≡ way_to self.old.next (string_bytes self.old.name) name.now at) }
        ensures kept { OnOk result (string_bytes self.new.name ≡ name.now) }
        ensures opens { OnErr result
            (way_to self.old.next (string_bytes self.old.name) name.now at ≡ Way.Open) }
        ensures closed { OnErr result (self.new.next ≡ None) }
        ensures rest { self.new ≡ record self.old { name = self.new.name; next = self.new.next } }
    {
        if let Some(next) = self.next {
            if self.name.as_str() == name {
                return Ok(if next == at { Way::Follow } else { Way::Seek });
            }
        }
        self.next = None;
        self.name.clear();
        self.name.push_str(name)?;
        Ok(Way::Open)
    }
}

/// Where the next read would follow.
fn end_of(at: u64, read: &io::Result<usize>) -> Option<u64>
    ensures { EndsAt at read.now result }
{
    match read {
        Ok(n) => at.checked_add(*n as u64),
        Err(_) => None,
    }
}

/// What a read came to.
fn piece_of(read: io::Result<usize>) -> Result<Piece, Fault>
    ensures { ComesTo read result }
{
    match read {
        Ok(0) => Ok(Piece::End),
        Ok(n) => Ok(Piece::Got(n)),
        Err(e) if e.kind() == ErrorKind::NotFound => Ok(Piece::Missing),
        Err(_) => Err(Fault::Failed),
    }
}

impl<S: System> Files for HostFiles<S> {
    ghost view = { λ f. record { holds = None; reads = None; faults = f.faults; misses = f.misses } };

    fn read_at(&mut self, name: &str, at: u64, buf: &mut [u8]) -> Result<Piece, Fault>
        requires { 0 < length buf.old }
        ensures bytes { IfOk result (HasBytes (length buf.old)) }
        ensures asks { AsksOnce S.asked self.old.system self.new.system self.old.next
            (string_bytes self.old.name) (string_bytes self.new.name) name.now at (length buf.old) result self.new.next }
        ensures faults { Counts Raised (IsErrOf result Fault.Failed) self.old.faults self.new.faults }
        ensures misses { Counts Raised (result ≡ Ok Piece.Missing) self.old.misses self.new.misses }
    {
        let way = self.way_to(name, at)?;
        let read = self.system.read_by(way, name, at, buf);
        self.next = end_of(at, &read);
        match piece_of(read) {
            Ok(Piece::Missing) => {
                self.misses = raised(self.misses);
                Ok(Piece::Missing)
            }
            Err(Fault::Failed) => {
                self.faults = raised(self.faults);
                Err(Fault::Failed)
            }
            piece => piece,
        }
    }

    fn guess(&self, name: &str) -> Option<u64> {
        self.system.guess(name)
    }
}
