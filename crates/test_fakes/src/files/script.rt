//! A script, and how many calls were made so far.
use crate::files::answers::error_of;
use std::alloc::AllocError;
use std::io;
use std::sync::atomic::{AtomicU64, Ordering};

/// What the files of a test answer. What moves is shared by all copies of the files.
#[derive(Debug, Drop)]
pub(crate) struct Script {
    text: &'static str,
    /// How many calls were made so far.
    calls: AtomicU64,
    /// The number of the call that fails.
    failing: AtomicU64,
    /// The moment of the clock, in nanoseconds.
    pub(crate) moment: AtomicU64,
}

/// The files of a runtime, but for what a script says.
#[derive(Clone, Copy, Debug)]
pub struct FakeFiles<R> {
    pub(crate) rt: R,
    pub(crate) script: &'static Script,
}

impl<R: AllocGlobal + Copy> FakeFiles<R> {
    /// Returns the files of the runtime, but for what the script says. No call fails by its number, and the clock
    /// stands at 0. The script's state is never freed.
    pub fn new(rt: R, text: &'static str) -> Result<FakeFiles<R>, AllocError> {
        let script = Script {
            text,
            calls: AtomicU64::new(0),
            failing: AtomicU64::new(u64::MAX),
            moment: AtomicU64::new(0),
        };
        let script = Box::leak(Box::new(rt.alloc(), script)?);
        Ok(FakeFiles { rt, script })
    }
}

impl<R> FakeFiles<R> {
    /// Has one call fail, counted from now on: the next one has number 0.
    pub fn fail_call(&self, number: u64) {
        let calls = self.calls();
        self.script
            .failing
            .store(calls.saturating_add(number), Ordering::SeqCst);
    }

    /// Returns how many calls were made so far. The clock's aren't counted.
    pub fn calls(&self) -> u64 {
        self.script.calls.load(Ordering::SeqCst)
    }
}

impl Script {
    /// Counts a call, and returns what the script answers to it, if it does.
    pub(crate) fn take(&self, call: &str, path: &str) -> io::Result<Option<&'static str>> {
        let number = self.calls.fetch_add(1, Ordering::SeqCst);
        if number == self.failing.load(Ordering::SeqCst) {
            return Err(error_of(self.told("failing call", "").unwrap_or("Other")));
        }
        Ok(self.told(call, path))
    }

    /// Counts a call. It fails if the script has an answer to it.
    pub(crate) fn pass(&self, call: &str, path: &str) -> io::Result<()> {
        match self.take(call, path)? {
            Some(word) => Err(error_of(word)),
            None => Ok(()),
        }
    }

    /// Counts a call that changes something.
    pub(crate) fn pass_change(&self, call: &str, path: &str) -> io::Result<()> {
        self.pass(call, path)?;
        match self.told("change", path) {
            Some(word) => Err(error_of(word)),
            None => Ok(()),
        }
    }

    /// What the script answers to a call with this path.
    pub(crate) fn told(&self, call: &str, path: &str) -> Option<&'static str> {
        for line in self.text.split('\n') {
            if let Some((rule, answer)) = line.split_once(": ")
                && is_about(rule, call, path)
            {
                return Some(answer);
            }
        }
        None
    }
}

/// Whether a rule is about this call with this path.
fn is_about(rule: &str, call: &str, path: &str) -> bool {
    match rule.strip_prefix(call) {
        Some("") => true,
        Some(end) => match end.strip_prefix(' ') {
            Some(end) => path.ends_with(end),
            None => false,
        },
        None => false,
    }
}
