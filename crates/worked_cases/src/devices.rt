//! A reader and a writer of which one call fails.
use std::io;
use std::io::{ErrorKind, Read, Write};

/// How many bytes a call gives or takes at most.
pub const PIECE: usize = 16;

/// Whether this call fails: the one that counts `left` down to 0. If it is 0 already, none does.
fn fails(left: &mut u64) -> bool {
    match *left {
        0 => false,
        more => {
            *left = more.saturating_sub(1);
            *left == 0
        }
    }
}

/// Gives the bytes. Its `left`th read from now fails, or none if that is 0.
#[derive(Drop)]
pub struct Torn<'a> {
    pub bytes: &'a [u8],
    pub left: u64,
}

impl<'a> Read for Torn<'a> {
    fn read(&mut self, buf: &mut [u8]) -> io::Result<usize> {
        if fails(&mut self.left) {
            return Err(io::Error::from(ErrorKind::ConnectionReset));
        }
        let most = self.bytes.len().min(buf.len()).min(PIECE);
        let (given, rest) = self.bytes.split_at(most);
        buf[..most].copy_from_slice(given);
        self.bytes = rest;
        Ok(most)
    }
}

/// Keeps what is written. Of its writes the one of this number from now fails, and of its flushes; 0 is
/// none.
#[derive(Drop)]
pub struct Narrow {
    pub got: Vec<u8>,
    pub writes: u64,
    pub flushes: u64,
}

impl Write for Narrow {
    fn write(&mut self, buf: &[u8]) -> io::Result<usize> {
        if fails(&mut self.writes) {
            return Err(io::Error::from(ErrorKind::BrokenPipe));
        }
        let most = buf.len().min(PIECE);
        self.got.extend_from_slice(&buf[..most])?;
        Ok(most)
    }

    fn flush(&mut self) -> io::Result<()> {
        if fails(&mut self.flushes) {
            return Err(io::Error::from(ErrorKind::BrokenPipe));
        }
        Ok(())
    }
}
