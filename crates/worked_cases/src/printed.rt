//! A script that is run and printed, while one request for memory, read, write or flush after the other
//! goes wrong.
use crate::devices::{Narrow, PIECE, Torn};
use crate::sweep::MOST;
use mirror_run::script::read_script;
use mirror_run::{check_run, script_run};
use std::alloc::{AllocError, Global};
use test_fakes::allocator::RefusingHeap;

/// How a script is run.
#[derive(Clone, Copy, Debug, PartialEq)]
enum Form {
    Run,
    Check,
}

/// What goes wrong.
#[derive(Clone, Copy, Debug, PartialEq)]
enum Trouble {
    Memory,
    Read,
    Write,
    Flush,
}

const TROUBLES: [Trouble; 4] = [
    Trouble::Memory,
    Trouble::Read,
    Trouble::Write,
    Trouble::Flush,
];

impl Trouble {
    /// Returns n if it is this kind of call that goes wrong, else 0.
    fn at(self, kind: Trouble, n: u64) -> u64 {
        if self == kind { n } else { 0 }
    }
}

/// Writes down which call of a run of the script, in each form, isn't told if it goes wrong: each call
/// is tried in turn.
pub fn note(
    heap: impl RefusingHeap,
    alloc: Global,
    script: &str,
    note: &mut String,
) -> Result<(), AllocError> {
    for form in [Form::Run, Form::Check] {
        let whole = Printed::of(form, heap, alloc, script, Trouble::Memory, 0);
        for trouble in TROUBLES {
            if let Some(n) = untold(form, heap, alloc, script, trouble, &whole) {
                write!(note, ", {form:?} hides {trouble:?} {n}")?;
            }
        }
    }
    Ok(())
}

/// Which such call isn't told, up to the first run that makes fewer; that one has to print the whole.
fn untold(
    form: Form,
    heap: impl RefusingHeap,
    alloc: Global,
    script: &str,
    trouble: Trouble,
    whole: &Printed,
) -> Option<u64> {
    for n in 1..MOST {
        let printed = Printed::of(form, heap, alloc, script, trouble, n);
        if !printed.came && 1 < n && printed.is_same(whole) {
            return None;
        }
        let spared = trouble == Trouble::Memory
            && printed.is_same(whole)
            && is_read_without(heap, script, n);
        if !spared && !printed.tells(trouble, n, whole) {
            return Some(n);
        }
    }
    Some(MOST)
}

/// Whether the script is read whole although the nth request for memory is refused. Std collects a line's
/// fields, and does with less room than it asks for at first. A run reads before it does anything else.
fn is_read_without(heap: impl RefusingHeap, script: &str, n: u64) -> bool {
    heap.refuse(n);
    let read = read_script(heap, &mut script.as_bytes());
    let came = heap.left() == 0;
    heap.refuse(0);
    came && read.is_ok()
}

/// What a run wrote, its exit status, and whether the call came that was to go wrong.
#[derive(Drop)]
struct Printed {
    status: u8,
    out: Narrow,
    err: Vec<u8>,
    came: bool,
}

impl Printed {
    /// Runs the script with this memory, while the nth call of a kind goes wrong, or none if n is 0.
    fn of(
        form: Form,
        heap: impl RefusingHeap,
        alloc: Global,
        script: &str,
        trouble: Trouble,
        n: u64,
    ) -> Printed {
        let mut reader = Torn {
            bytes: script.as_bytes(),
            left: trouble.at(Trouble::Read, n),
        };
        let mut out = Narrow {
            got: Vec::new(alloc),
            writes: trouble.at(Trouble::Write, n),
            flushes: trouble.at(Trouble::Flush, n),
        };
        let mut err = Vec::new(alloc);
        heap.refuse(trouble.at(Trouble::Memory, n));
        let status = match form {
            Form::Run => script_run(heap, "s", &mut reader, &mut out, &mut err),
            Form::Check => check_run(heap, "s", &mut reader, &mut out, &mut err),
        };
        let left = [heap.left(), reader.left, out.writes, out.flushes];
        heap.refuse(0);
        Printed {
            status,
            out,
            err,
            came: left == [0, 0, 0, 0],
        }
    }

    fn out(&self) -> &[u8] {
        self.out.got.as_slice()
    }

    /// Whether this wrote the same and ended with the same status.
    fn is_same(&self, other: &Printed) -> bool {
        self.status == other.status && self.out() == other.out() && self.err == other.err
    }

    /// Whether this ended with the status and the line on standard error.
    fn ends(&self, status: u8, line: &str) -> bool {
        self.status == status && self.err.as_slice() == line.as_bytes()
    }

    /// Whether the run ended as it should if its nth call of the kind goes wrong, and wrote what comes
    /// before.
    fn tells(&self, trouble: Trouble, n: u64, whole: &Printed) -> bool {
        match trouble {
            Trouble::Memory => {
                self.goes_on()
                    || self.ends(4, "mirror: out of memory\n")
                        && whole.out().starts_with(self.out())
            }
            Trouble::Read => self.ends(1, "mirror: cannot read s\n") && self.out().is_empty(),
            Trouble::Write => {
                let pieces = n.saturating_sub(1);
                self.ends(6, "")
                    && self.out().len() as u64 == pieces.saturating_mul(PIECE as u64)
                    && whole.out().starts_with(self.out())
            }
            Trouble::Flush => self.ends(6, "") && self.out() == whole.out(),
        }
    }

    /// Whether the run went on to its end after one command was refused, and says so.
    fn goes_on(&self) -> bool {
        let refused = match str::from_utf8(self.out()) {
            Ok(text) => text.split("refused Memory\n").count() == 2,
            Err(_) => false,
        };
        refused && self.ends(0, "")
    }
}
