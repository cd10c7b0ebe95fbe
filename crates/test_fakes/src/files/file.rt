//! An open file.
use crate::files::script::Script;
use std::fs::{FileTimes, Metadata, OpenFile, Permissions};
use std::io;
use std::io::{Read, Seek, SeekFrom, Write};

/// An open file of a runtime, whose calls are counted and may fail.
#[derive(Drop)]
pub struct FakeFile<F: Drop> {
    pub(crate) inner: F,
    pub(crate) script: &'static Script,
}

impl<F: Read + Drop> Read for FakeFile<F> {
    fn read(&mut self, buf: &mut [u8]) -> io::Result<usize> {
        self.script.pass("read", "")?;
        self.inner.read(buf)
    }
}

impl<F: Write + Drop> Write for FakeFile<F> {
    fn write(&mut self, buf: &[u8]) -> io::Result<usize> {
        self.script.pass_change("write", "")?;
        self.inner.write(buf)
    }

    fn flush(&mut self) -> io::Result<()> {
        self.inner.flush()
    }
}

impl<F: Seek + Drop> Seek for FakeFile<F> {
    fn seek(&mut self, to: SeekFrom) -> io::Result<u64> {
        self.script.pass("file", "")?;
        self.inner.seek(to)
    }
}

impl<F: OpenFile + Drop> OpenFile for FakeFile<F> {
    fn metadata(&self) -> io::Result<Metadata> {
        self.script.pass("file", "")?;
        self.inner.metadata()
    }

    fn set_len(&self, size: u64) -> io::Result<()> {
        self.script.pass_change("file", "")?;
        self.inner.set_len(size)
    }

    fn sync_all(&self) -> io::Result<()> {
        self.script.pass("file", "")?;
        self.inner.sync_all()
    }

    fn sync_data(&self) -> io::Result<()> {
        self.script.pass("file", "")?;
        self.inner.sync_data()
    }

    fn set_permissions(&self, permissions: Permissions) -> io::Result<()> {
        self.script.pass_change("file", "")?;
        self.inner.set_permissions(permissions)
    }

    fn set_times(&self, times: FileTimes) -> io::Result<()> {
        self.script.pass_change("file", "")?;
        self.inner.set_times(times)
    }
}
