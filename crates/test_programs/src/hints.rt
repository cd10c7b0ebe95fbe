//! Hints of an input that comes in pieces, is interrupted and fails.
use notify_paths::PathBuf;
use program_frame::hints::{Ends, HintLines, HintedFolder, TakesHints, read_hints};
use std::io;
use std::io::{ErrorKind, Read};
use std::process::Abort;

/// What was asked for: paths, and `*` for all, each with a bar after it.
#[derive(Drop)]
struct Asked {
    text: String,
    left: usize,
}

impl Asked {
    fn add(&mut self, word: &str) -> bool {
        if self.text.push_str(word).is_err() || self.text.push_str("|").is_err() {
            return false;
        }
        self.left = self.left.saturating_sub(1);
        self.left > 0
    }
}

impl TakesHints for Asked {
    ghost takes = { λ before hint on after. Unit };

    fn look_at(&mut self, path: &str) -> bool {
        self.add(path)
    }

    fn look_at_all(&mut self) -> bool {
        self.add("*")
    }
}

/// Gives three bytes at a time. Each other read is interrupted, and the end is an error.
#[derive(Drop)]
struct Pieces<'t> {
    text: &'t [u8],
    is_interrupted: bool,
}

impl Read for Pieces<'_> {
    fn read(&mut self, buf: &mut [u8]) -> io::Result<usize> {
        self.is_interrupted = !self.is_interrupted;
        if self.is_interrupted {
            return Err(io::Error::from(ErrorKind::Interrupted));
        }
        let count = self.text.len().min(buf.len()).min(3);
        if count == 0 {
            return Err(io::Error::from(ErrorKind::BrokenPipe));
        }
        let (first, rest) = self.text.split_at(count);
        buf[..count].copy_from_slice(first);
        self.text = rest;
        Ok(count)
    }
}

/// What is asked for by this input, of at most so many hints, and how the reading ends.
fn read_all<R: Abort + AllocGlobal>(
    rt: &R,
    source: &mut impl Read,
    ends: Ends,
    most: usize,
) -> (String, io::Result<bool>) {
    let lines = HintLines::new(rt.alloc(), ends).expect(rt, "memory");
    let mut sink = Asked {
        text: String::new(rt.alloc()),
        left: most,
    };
    let ended = read_hints(source, lines, &mut sink);
    (sink.text, ended)
}

#[test]
fn an_input_in_pieces_fails_at_its_end(rt: HostRuntime) {
    let mut source = Pieces {
        text: b"a\n\nb c/d\n\xff\nlast",
        is_interrupted: false,
    };
    let (text, ended) = read_all(&rt, &mut source, Ends::Lines, 9);
    assert_eq!(rt; text.as_str(), "a|*|b c/d|*|last|");
    assert!(rt; ended.is_err_and(|error| error.kind() == ErrorKind::BrokenPipe));
}

#[test]
fn a_sink_that_has_enough_ends_the_reading(rt: HostRuntime) {
    let mut source: &[u8] = b"a\nb\0c\0d\0e";
    let (text, ended) = read_all(&rt, &mut source, Ends::Zeros, 2);
    assert_eq!(rt; text.as_str(), "a\nb|c|");
    assert_eq!(rt; ended.ok(), Some(false));
}

/// The longest path, and one byte more.
#[test]
fn a_line_has_its_longest_length(rt: HostRuntime) {
    for (count, wanted) in [(4_096, 4_097), (4_097, 2)] {
        let mut source = io::repeat(b'x').take(count);
        let (text, ended) = read_all(&rt, &mut source, Ends::Lines, 9);
        assert_eq!(rt; text.as_str().len(), wanted);
        assert_eq!(rt; ended.ok(), Some(true));
    }
}

/// Where the folder `a/b`, whose real path is `/r/b`, is looked at for this hint.
fn place(rt: &(impl Abort + AllocGlobal), text: &str) -> Option<PathBuf> {
    let given = PathBuf::parse(rt.alloc(), "a/b").expect(rt, "memory");
    let real = PathBuf::parse(rt.alloc(), "/r/b").expect(rt, "memory");
    let folder = HintedFolder {
        given,
        real: Some(real),
    };
    folder.path_of(rt.alloc(), text).expect(rt, "memory")
}

#[test]
fn hints_are_placed_below_the_folder(rt: HostRuntime) {
    for (text, wanted) in [
        ("a/b/c", "a/b/c"),
        ("/r/b/c/d", "a/b/c/d"),
        ("/r/b", "a/b"),
        ("/r", "a/b"),
        ("a", "a/b"),
    ] {
        let path = place(&rt, text).expect(&rt, "a place");
        assert_eq!(rt; path.as_str(), wanted);
    }
    for text in ["a/c", "/r/c", "b", "/s"] {
        assert!(rt; place(&rt, text).is_none());
    }
}
