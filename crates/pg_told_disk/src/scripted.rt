//! A reader, writer or file whose calls go as a list says.
use std::fs::{FileTimes, Metadata, OpenFile, Permissions};
use std::io::{self, Error, ErrorKind, Read, Seek, SeekFrom, Write};

/// How a read or a write goes.
#[derive(Clone, Copy)]
pub enum Call {
    /// It takes at most so many bytes.
    Takes(usize),
    /// It is interrupted, and takes none.
    Interrupted,
    /// It fails.
    Fails,
}

/// A step of the system that fails.
#[derive(Clone, Copy, PartialEq, Eq)]
pub enum Broken {
    /// None fails.
    Nothing,
    /// Setting the permissions of an opened file.
    Permissions,
    /// Handing a file to its device.
    Sync,
    /// Giving a file another name.
    Rename,
}

/// A reader or writer whose calls go as the list says, and which takes all bytes after its end.
#[derive(Drop)]
pub struct ScriptedFile<'a, F: Drop> {
    /// What it reads or writes.
    pub inner: F,
    /// How the next calls go.
    pub calls: &'a [Call],
    /// The step that fails.
    pub broken: Broken,
}

/// The reason of a call that fails.
pub fn failure() -> Error {
    Error::from(ErrorKind::Other)
}

impl<'a, F: Drop> ScriptedFile<'a, F> {
    /// One over this reader or writer, with these calls. No other step fails.
    pub fn new(inner: F, calls: &'a [Call]) -> ScriptedFile<'a, F> {
        ScriptedFile {
            inner,
            calls,
            broken: Broken::Nothing,
        }
    }

    /// How many bytes the next call takes at most.
    fn next(&mut self) -> io::Result<usize> {
        let Some((call, later)) = self.calls.split_first() else {
            return Ok(usize::MAX);
        };
        self.calls = later;
        match call {
            Call::Takes(most) => Ok(*most),
            Call::Interrupted => Err(Error::from(ErrorKind::Interrupted)),
            Call::Fails => Err(failure()),
        }
    }

    /// Fails where this is the broken step.
    fn check(&self, step: Broken) -> io::Result<()> {
        if self.broken == step {
            return Err(failure());
        }
        Ok(())
    }
}

impl<F: Read + Drop> Read for ScriptedFile<'_, F> {
    fn read(&mut self, buffer: &mut [u8]) -> io::Result<usize> {
        let most = self.next()?.min(buffer.len());
        self.inner.read(&mut buffer[..most])
    }
}

impl<F: Write + Drop> Write for ScriptedFile<'_, F> {
    fn write(&mut self, buffer: &[u8]) -> io::Result<usize> {
        let most = self.next()?.min(buffer.len());
        self.inner.write(&buffer[..most])
    }

    fn flush(&mut self) -> io::Result<()> {
        self.inner.flush()
    }
}

impl<F: Seek + Drop> Seek for ScriptedFile<'_, F> {
    fn seek(&mut self, to: SeekFrom) -> io::Result<u64> {
        self.inner.seek(to)
    }
}

impl<F: OpenFile + Drop> OpenFile for ScriptedFile<'_, F> {
    fn metadata(&self) -> io::Result<Metadata> {
        self.inner.metadata()
    }

    fn set_len(&self, size: u64) -> io::Result<()> {
        self.inner.set_len(size)
    }

    fn sync_all(&self) -> io::Result<()> {
        self.check(Broken::Sync)?;
        self.inner.sync_all()
    }

    fn sync_data(&self) -> io::Result<()> {
        self.inner.sync_data()
    }

    fn set_permissions(&self, permissions: Permissions) -> io::Result<()> {
        self.check(Broken::Permissions)?;
        self.inner.set_permissions(permissions)
    }

    fn set_times(&self, times: FileTimes) -> io::Result<()> {
        self.inner.set_times(times)
    }
}
