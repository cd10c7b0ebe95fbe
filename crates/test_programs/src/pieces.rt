//! Outputs that take two bytes at a time, are interrupted, and take nothing more.
use program_frame::whole::write_bytes;
use std::io;
use std::io::{ErrorKind, Write};

/// Keeps what is written: two bytes at a time, and so many in all. Each other write is interrupted.
#[derive(Drop)]
struct Pieces {
    got: Vec<u8>,
    room: usize,
    is_interrupted: bool,
}

impl Write for Pieces {
    fn write(&mut self, buf: &[u8]) -> io::Result<usize> {
        self.is_interrupted = !self.is_interrupted;
        if self.is_interrupted {
            return Err(io::Error::from(ErrorKind::Interrupted));
        }
        let count = buf.len().min(self.room).min(2);
        self.got.extend_from_slice(&buf[..count])?;
        self.room = self.room.saturating_sub(count);
        Ok(count)
    }

    fn flush(&mut self) -> io::Result<()> {
        Ok(())
    }
}

/// Writes a text where there is so much room. Returns whether that went well, and what was written.
fn write_within(rt: &impl AllocGlobal, room: usize) -> (bool, Vec<u8>) {
    let mut out = Pieces {
        got: Vec::new(rt.alloc()),
        room,
        is_interrupted: false,
    };
    let is_written = write_bytes(b"a line\n", &mut out).is_ok();
    (is_written, out.got)
}

#[test]
fn an_interrupted_output_gets_all(rt: HostRuntime) {
    let (is_written, got) = write_within(&rt, 100);
    assert!(rt; is_written);
    assert_eq!(rt; got.as_slice(), b"a line\n".as_slice());
}

#[test]
fn an_output_that_takes_no_more_has_failed(rt: HostRuntime) {
    let (is_written, got) = write_within(&rt, 3);
    assert!(rt; !is_written);
    assert_eq!(rt; got.as_slice(), b"a l".as_slice());
}
