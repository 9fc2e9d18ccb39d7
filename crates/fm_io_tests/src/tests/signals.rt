//! Files of a host whose reads signals interrupt.
use crate::tests::compared::same;
use fm_io::{HostSystem, System, Way};
use std::alloc::Allocator;
use std::fs::{FileTimes, Metadata, OpenFile, OpenOptions, Permissions};
use std::io::{self, ErrorKind, PipeReader, PipeWriter, Read, Seek, SeekFrom, Write};
use std::os::fd::BorrowedFd;
use std::os::unix::net::SocketAddr;
use std::path::PathBuf;
use std::process::Abort;
use std::rt;

/// A file that a signal interrupts so often before it gives a byte, and that fails then.
#[derive(Clone, Copy, Drop)]
struct Signalled {
    interrupts: u32,
    left: u32,
}

impl Read for Signalled {
    fn read(&mut self, buf: &mut [u8]) -> io::Result<usize> {
        if self.interrupts > 0 {
            self.interrupts -= 1;
            return Err(ErrorKind::Interrupted.into());
        }
        match buf {
            [byte, ..] if self.left > 0 => {
                self.left -= 1;
                *byte = b'b';
                Ok(1)
            }
            _ => Err(ErrorKind::Other.into()),
        }
    }
}

/// What such a file answers to all else.
fn unsupported<T>() -> io::Result<T> {
    Err(io::Error::from(ErrorKind::Unsupported))
}

impl Write for Signalled {
    fn write(&mut self, _buf: &[u8]) -> io::Result<usize> {
        Err(ErrorKind::Unsupported.into())
    }

    fn flush(&mut self) -> io::Result<()> {
        unsupported()
    }

    fn write_all(&mut self, _buf: &[u8]) -> io::Result<()> {
        unsupported()
    }
}

impl Seek for Signalled {
    fn seek(&mut self, _to: SeekFrom) -> io::Result<u64> {
        unsupported()
    }

    fn rewind(&mut self) -> io::Result<()> {
        unsupported()
    }

    fn stream_position(&mut self) -> io::Result<u64> {
        unsupported()
    }

    fn seek_relative(&mut self, _offset: i64) -> io::Result<()> {
        unsupported()
    }
}

impl OpenFile for Signalled {
    fn metadata(&self) -> io::Result<Metadata> {
        unsupported()
    }

    fn set_len(&self, _size: u64) -> io::Result<()> {
        unsupported()
    }

    fn sync_all(&self) -> io::Result<()> {
        unsupported()
    }

    fn sync_data(&self) -> io::Result<()> {
        unsupported()
    }

    fn set_permissions(&self, _perm: Permissions) -> io::Result<()> {
        unsupported()
    }

    fn set_times(&self, _times: FileTimes) -> io::Result<()> {
        unsupported()
    }

    fn try_clone(&self) -> io::Result<Signalled> {
        unsupported()
    }
}

/// A host that opens such a file under each name, and nothing else.
#[derive(Drop)]
struct Signalling {
    file: Signalled,
}

impl rt::Files for Signalling {
    type File = Signalled;

    type Dir = Signalled;

    fn open_file(&self, _how: &OpenOptions, _path: &str) -> io::Result<Signalled> {
        Ok(self.file)
    }

    fn open_dir(&self, _path: &str) -> io::Result<Signalled> {
        unsupported()
    }

    fn metadata(&self, _path: &str) -> io::Result<Metadata> {
        unsupported()
    }

    fn symlink_metadata(&self, _path: &str) -> io::Result<Metadata> {
        unsupported()
    }

    fn copy(&self, _from: &str, _to: &str) -> io::Result<u64> {
        unsupported()
    }

    fn rename(&self, _from: &str, _to: &str) -> io::Result<()> {
        unsupported()
    }

    fn remove_file(&self, _path: &str) -> io::Result<()> {
        unsupported()
    }

    fn create_dir(&self, _path: &str) -> io::Result<()> {
        unsupported()
    }

    fn remove_dir(&self, _path: &str) -> io::Result<()> {
        unsupported()
    }

    fn remove_dir_all<B: Allocator>(&self, _alloc: B, _path: &str) -> io::Result<()> {
        unsupported()
    }

    fn canonicalize<B: Allocator>(&self, _alloc: B, _path: &str) -> io::Result<PathBuf<B>> {
        unsupported()
    }

    fn read_link<B: Allocator>(&self, _alloc: B, _path: &str) -> io::Result<PathBuf<B>> {
        unsupported()
    }

    fn hard_link(&self, _original: &str, _link: &str) -> io::Result<()> {
        unsupported()
    }

    fn set_permissions(&self, _path: &str, _perm: Permissions) -> io::Result<()> {
        unsupported()
    }

    fn symlink(&self, _original: &str, _link: &str) -> io::Result<()> {
        unsupported()
    }

    fn pipe(&self) -> io::Result<(PipeReader, PipeWriter)> {
        unsupported()
    }

    fn chown(&self, _path: &str, _uid: Option<u32>, _gid: Option<u32>) -> io::Result<()> {
        unsupported()
    }

    fn lchown(&self, _path: &str, _uid: Option<u32>, _gid: Option<u32>) -> io::Result<()> {
        unsupported()
    }

    fn create_dir_with_mode(&self, _path: &str, _mode: u32) -> io::Result<()> {
        unsupported()
    }

    fn bind_unix(&self, _socket: BorrowedFd<'_>, _addr: &SocketAddr) -> io::Result<()> {
        unsupported()
    }
}

/// Compares the kinds of what two reads of such a file answer with what is wanted: the byte, and then the failure.
fn is_read_through<R: Abort>(rt: &R, interrupts: u32) {
    let file = Signalled {
        interrupts,
        left: 1,
    };
    let mut system = HostSystem::new(Signalling { file });
    let mut buf = [0; 4];
    let first = system.read_by(Way::Open, "f", 0, &mut buf);
    same(rt, first.ok(), Some(1));
    same(rt, buf[0], b'b');
    let second = system.read_by(Way::Follow, "f", 1, &mut buf);
    same(rt, second.map_err(kind_of), Err(ErrorKind::Other));
}

fn kind_of(error: io::Error) -> ErrorKind {
    error.kind()
}

#[test]
fn a_read_that_is_interrupted_is_made_again(rt: HostRuntime) {
    is_read_through(&rt, 0);
    is_read_through(&rt, 1);
    is_read_through(&rt, 3);
}
