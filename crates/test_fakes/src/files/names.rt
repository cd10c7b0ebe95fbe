//! The names in a folder.
use crate::files::answers::error_of;
use std::io;
use std::io::Read;

/// An open folder: that of a runtime, or one whose names a script says.
#[derive(Drop)]
pub enum FakeDir<D: Drop> {
    Real(D),
    Told(ToldNames),
}

/// Names that a script says: those that are left.
#[derive(Clone, Copy, Debug)]
pub struct ToldNames {
    rest: &'static str,
}

impl ToldNames {
    /// Returns the names of the text, in which a slash ends a name, `|` a read, and `?` stands for a byte that is no
    /// text. A read of `!Other` fails so.
    pub fn new(text: &'static str) -> ToldNames {
        ToldNames { rest: text }
    }

    /// Takes out what the next read gives.
    fn next_read(&mut self) -> &'static str {
        let (read, rest) = self.rest.split_once('|').unwrap_or((self.rest, ""));
        self.rest = rest;
        read
    }
}

impl Read for ToldNames {
    /// What doesn't fit is lost: a read of the text is to be shorter than a test's buffer.
    fn read(&mut self, buf: &mut [u8]) -> io::Result<usize> {
        let text = self.next_read();
        if let Some(word) = text.strip_prefix('!') {
            return Err(error_of(word));
        }
        let count = text.as_bytes().read(buf)?;
        for byte in buf.iter_mut() {
            *byte = byte_of(*byte);
        }
        Ok(count)
    }
}

/// The byte that a byte of the text stands for.
fn byte_of(byte: u8) -> u8 {
    match byte {
        b'/' => 0,
        b'?' => 0xff,
        other => other,
    }
}

impl<D: Read + Drop> Read for FakeDir<D> {
    fn read(&mut self, buf: &mut [u8]) -> io::Result<usize> {
        match self {
            FakeDir::Real(dir) => dir.read(buf),
            FakeDir::Told(names) => names.read(buf),
        }
    }
}
