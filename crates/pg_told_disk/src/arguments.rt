//! A system whose arguments are given and whose files may fail.
ghost use Rattle.std.specs.Prelude.{◌≤◌, length, IfOk};

use crate::scripted::{Broken, Call, ScriptedFile, failure};
use std::alloc::Allocator;
use std::env::FillError;
use std::fs::{Metadata, OpenOptions, Permissions};
use std::io::{Error, ErrorKind, PipeReader, PipeWriter};
use std::os::fd::BorrowedFd;
use std::os::unix::net::SocketAddr;
use std::path::PathBuf;
use std::time::Duration;
use std::{io, rt};

/// A system, but for its arguments and its files. The first argument is the program's name, and
/// `words` are those behind it. The opened files read and write as the list of calls says, and the
/// broken step fails.
#[derive(Drop)]
pub struct ScriptedSystem<'a, R> {
    /// The system that does all the rest.
    pub system: &'a R,
    /// The arguments behind the program's name.
    pub words: &'a [&'a [u8]],
    /// How the reads and writes of each opened file go.
    pub calls: &'a [Call],
    /// The step that fails.
    pub broken: Broken,
}

impl<'a, R> ScriptedSystem<'a, R> {
    /// A system without arguments. Its files read and write as `calls` says, and the step `broken`
    /// fails.
    pub fn with_calls(system: &'a R, calls: &'a [Call], broken: Broken) -> ScriptedSystem<'a, R> {
        ScriptedSystem {
            system,
            words: &[],
            calls,
            broken,
        }
    }
}

/// The reason of a call that the system does not support.
fn unsupported() -> Error {
    Error::from(ErrorKind::Unsupported)
}

/// Copies a text to the start of the buffer.
fn fill(text: &[u8], buffer: &mut [u8]) -> Result<usize, FillError>
    ensures { IfOk result (λ n. n ≤ length buffer.new) }
{
    if buffer.len() < text.len() {
        return Err(FillError::TooLong);
    }
    buffer[..text.len()].copy_from_slice(text);
    Ok(text.len())
}

impl<'a, R> rt::Env for ScriptedSystem<'a, R> {
    fn arg(&self, i: usize, buf: &mut [u8]) -> Result<usize, FillError> {
        if i == 0 {
            return fill(b"patgen", buf);
        }
        match self.words.get(i - 1) {
            Some(word) => fill(word, buf),
            None => Err(FillError::NotPresent),
        }
    }

    fn var(&self, _name: &str, _buf: &mut [u8]) -> Result<usize, FillError> {
        Err(FillError::NotPresent)
    }

    fn var_at(&self, _i: usize, _buf: &mut [u8]) -> Result<usize, FillError> {
        Err(FillError::NotPresent)
    }
}

impl<'a, R: rt::Clock> rt::Clock for ScriptedSystem<'a, R> {
    fn monotonic(&self) -> io::Result<Duration> {
        self.system.monotonic()
    }

    fn since_1970(&self) -> io::Result<Duration> {
        self.system.since_1970()
    }
}

impl<'a, R: Alloc> Alloc for ScriptedSystem<'a, R> {
    type A = R::A;

    fn alloc(&self) -> R::A {
        self.system.alloc()
    }
}

impl<'a, R: rt::Files> rt::Files for ScriptedSystem<'a, R> {
    type File = ScriptedFile<'a, R::File>;

    type Dir = R::Dir;

    fn open_file(&self, how: &OpenOptions, path: &str) -> io::Result<ScriptedFile<'a, R::File>> {
        Ok(ScriptedFile {
            inner: self.system.open_file(how, path)?,
            calls: self.calls,
            broken: self.broken,
        })
    }

    fn open_dir(&self, path: &str) -> io::Result<R::Dir> {
        self.system.open_dir(path)
    }

    fn metadata(&self, path: &str) -> io::Result<Metadata> {
        self.system.metadata(path)
    }

    fn symlink_metadata(&self, path: &str) -> io::Result<Metadata> {
        self.system.symlink_metadata(path)
    }

    fn copy(&self, from: &str, to: &str) -> io::Result<u64> {
        self.system.copy(from, to)
    }

    fn rename(&self, from: &str, to: &str) -> io::Result<()> {
        if self.broken == Broken::Rename {
            return Err(failure());
        }
        self.system.rename(from, to)
    }

    fn remove_file(&self, path: &str) -> io::Result<()> {
        self.system.remove_file(path)
    }

    fn create_dir(&self, path: &str) -> io::Result<()> {
        self.system.create_dir(path)
    }

    fn remove_dir(&self, path: &str) -> io::Result<()> {
        self.system.remove_dir(path)
    }

    fn remove_dir_all<B: Allocator>(&self, alloc: B, path: &str) -> io::Result<()> {
        self.system.remove_dir_all(alloc, path)
    }

    // The rest is not supported, as where a system leaves these out. Each is written out because
    // the proof of a method that an impl leaves out takes three times as long.

    fn canonicalize<B: Allocator>(&self, _alloc: B, _path: &str) -> io::Result<PathBuf<B>> {
        Err(unsupported())
    }

    fn read_link<B: Allocator>(&self, _alloc: B, _path: &str) -> io::Result<PathBuf<B>> {
        Err(unsupported())
    }

    fn hard_link(&self, _original: &str, _link: &str) -> io::Result<()> {
        Err(unsupported())
    }

    fn set_permissions(&self, _path: &str, _perm: Permissions) -> io::Result<()> {
        Err(unsupported())
    }

    fn symlink(&self, _original: &str, _link: &str) -> io::Result<()> {
        Err(unsupported())
    }

    fn pipe(&self) -> io::Result<(PipeReader, PipeWriter)> {
        Err(unsupported())
    }

    fn chown(&self, _path: &str, _uid: Option<u32>, _gid: Option<u32>) -> io::Result<()> {
        Err(unsupported())
    }

    fn lchown(&self, _path: &str, _uid: Option<u32>, _gid: Option<u32>) -> io::Result<()> {
        Err(unsupported())
    }

    fn create_dir_with_mode(&self, _path: &str, _mode: u32) -> io::Result<()> {
        Err(unsupported())
    }

    fn bind_unix(&self, _socket: BorrowedFd<'_>, _addr: &SocketAddr) -> io::Result<()> {
        Err(unsupported())
    }
}
