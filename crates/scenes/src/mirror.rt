//! The form of the program `mirror` that watches a folder, over the watcher of a scene.
use crate::scene::{Host, Scene, number, split};
use mirror_threads::watch_run_over;
use notify_debouncer_full::{Feed, NoCache, Watcher};
use std::io;
use std::io::Write;
use test_fakes::allocator::TestHeap;

/// A device that keeps what is written, or is full.
#[derive(Drop)]
struct Device {
    got: Vec<u8>,
    full: bool,
}

impl Write for Device {
    fn write(&mut self, buf: &[u8]) -> io::Result<usize> {
        if self.full {
            return Err(io::Error::from(io::ErrorKind::StorageFull));
        }
        self.got.extend_from_slice(buf)?;
        Ok(buf.len())
    }

    fn flush(&mut self) -> io::Result<()> {
        Ok(())
    }
}

/// Watches a folder for so many ticks, as the words say, and prints how this ended.
pub fn watch_as_mirror<T: Watcher<Feed<NoCache, R, A>, R, A>, R: Host, A: TestHeap>(
    scene: &mut Scene<R, A>,
    line: &str,
    words: &str,
    full: bool,
) -> io::Result<()>
    requires takes { (feed : _) → T.takes feed }
{
    let (folder, ticks) = split(words);
    let ticks = number(ticks);
    let (rt, heap) = (scene.rt, scene.heap);
    let mut out = Device {
        got: Vec::new(rt.alloc()),
        full,
    };
    let mut err = Device {
        got: Vec::new(rt.alloc()),
        full: false,
    };
    scene.begin();
    let status = watch_run_over::<T, R, A, _, _>(rt, heap, folder, ticks, &mut out, &mut err);
    scene.end();
    scene.count(line, status.into())?;
    tell_lines(scene, status, err.got.as_slice(), out.got.as_slice())
}

/// Prints what was written to standard error. Of standard output it prints how many events and errors it
/// has, and its last line, if all was printed; and after a watch that didn't begin, how many bytes it got.
fn tell_lines<R: Host, A: TestHeap>(
    scene: &mut Scene<R, A>,
    status: u8,
    err: &[u8],
    out: &[u8],
) -> io::Result<()> {
    let said = str::from_utf8(err).unwrap_or("no text");
    scene.text.push_str(said)?;
    match status {
        0 => tell_output(scene, str::from_utf8(out).unwrap_or("no text")),
        5 | 8 => scene.count("bytes", out.len() as u64),
        _ => Ok(()),
    }
}

/// Prints how many events and errors the lines are of, how many lines there are, and the last of them.
fn tell_output<R: Host, A: TestHeap>(scene: &mut Scene<R, A>, out: &str) -> io::Result<()> {
    let (mut items, mut lines) = (0u64, 0u64);
    for line in out.split('\n') {
        if line.starts_with("event ") || line.starts_with("error ") {
            items = items.saturating_add(1);
        }
        if !line.is_empty() {
            lines = lines.saturating_add(1);
        }
    }
    scene.count("events and errors", items)?;
    scene.count("lines", lines)?;
    scene.say("last", last_line(out))
}

/// The last line, if it says that none was missed, or one.
fn last_line(out: &str) -> &'static str {
    if out.ends_with("missed 0\n") {
        "missed 0"
    } else if out.ends_with("missed 1\n") {
        "missed 1"
    } else {
        "another"
    }
}
