ghost use Rattle.std.specs.Prelude.{◌≤◌, ◌≢◌, None, IfOk, IfErr, length};
ghost use Rattle.std.specs.Io.KnownBytes.{ReadConsumes};
ghost use Rattle.std.specs.IoError.{error_kind};

use crate::system::{System, Way};
use std::fs::File;
use std::io::{self, ErrorKind, Read, Seek, SeekFrom};
use std::rt;

/// The files of the host, by their paths. It tells nothing of them.
#[derive(Drop)]
pub struct HostSystem<R: rt::Files> {
    rt: R,
    file: Option<R::File>,
}

impl<R: rt::Files> HostSystem<R> {
    /// No file is open yet.
    pub fn new(rt: R) -> HostSystem<R> {
        HostSystem { rt, file: None }
    }
}

/// One read, made again where a signal interrupts it, as std's readers do.
pub fn read_uninterrupted<F: Read>(file: &mut F, buf: &mut [u8]) -> io::Result<usize>
    ensures bound { IfOk result (λ n. n ≤ length buf.old) }
    ensures bytes { ReadConsumes (F.remaining file.old) (F.remaining file.new) result buf.new }
    ensures retried { IfErr result (λ e. error_kind e ≢ ErrorKind.Interrupted) }
{
    for _ in 0..u64::MAX {
        match file.read(buf) {
            Err(e) if e.kind() == ErrorKind::Interrupted => {}
            answer => return answer,
        }
    }
    Err(io::Error::from(ErrorKind::TimedOut))
}

impl<R: rt::Files> System for HostSystem<R> {
    ghost asked = { λ _. None };

    fn read_by(&mut self, way: Way, name: &str, at: u64, buf: &mut [u8]) -> io::Result<usize> {
        if way == Way::Open {
            self.file = Some(File::open(&self.rt, name)?);
        }
        let Some(file) = &mut self.file else {
            return Err(io::Error::from(ErrorKind::NotConnected));
        };
        if way == Way::Seek || (way == Way::Open && at > 0) {
            file.seek(SeekFrom::Start(at))?;
        }
        read_uninterrupted(file, buf)
    }

    /// What the system tells of a file's size; of what is no file, as a pipe or a folder, it tells none.
    fn guess(&self, name: &str) -> Option<u64> {
        match self.rt.metadata(name) {
            Ok(found) if found.is_file() => Some(found.len()),
            _ => None,
        }
    }
}
