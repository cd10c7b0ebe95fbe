//! An output whose flush fails.
use program_frame::{Fault, write_now};
use std::io;
use std::io::{ErrorKind, Write};

/// Keeps what is written, and counts the flushes, which may fail.
#[derive(Drop)]
struct Held {
    got: Vec<u8>,
    flushes: u32,
    fails: bool,
}

impl Write for Held {
    fn write(&mut self, buf: &[u8]) -> io::Result<usize> {
        self.got.extend_from_slice(buf)?;
        Ok(buf.len())
    }

    fn flush(&mut self) -> io::Result<()> {
        self.flushes = self.flushes.saturating_add(1);
        if self.fails {
            return Err(io::Error::from(ErrorKind::StorageFull));
        }
        Ok(())
    }
}

/// Writes a line. Returns how that ends, and how often the output was flushed.
fn write_line(rt: &impl AllocGlobal, fails: bool) -> (Result<(), Fault>, u32) {
    let mut out = Held {
        got: Vec::new(rt.alloc()),
        flushes: 0,
        fails,
    };
    let ended = write_now(b"a line\n", &mut out);
    (ended, out.flushes)
}

#[test]
fn an_output_is_flushed(rt: HostRuntime) {
    let (ended, flushes) = write_line(&rt, false);
    assert!(rt; ended.is_ok());
    assert_eq!(rt; flushes, 1);
}

#[test]
fn an_output_that_fails_at_its_flush_has_failed(rt: HostRuntime) {
    let (ended, flushes) = write_line(&rt, true);
    assert!(rt; ended.is_err_and(|fault| fault == Fault::OutputFailed));
    assert_eq!(rt; flushes, 1);
}
