//! A scene that is played: what it has come to, and the lines that need no debouncer.
use crate::clock::sleep_a_turn;
use crate::stage::{Stage, wait_for, wait_for_flag};
use crate::words::given;
use notify_debouncer_full::PathBuf;
use std::alloc::AllocError;
use std::fs::Files;
use std::io;
use std::sync::Wait;
use std::sync::atomic::{AtomicBool, Ordering};
use std::thread::Threads;
use std::time::{Clock, Duration, Instant};
use test_fakes::allocator::TestHeap;

/// The runtime of a scene.
pub trait Host: Threads
    + Wait
    + Clock
    + Files<File: Send + Sync + 'static, Dir: Send + Sync + 'static>
    + AllocGlobal
    + Copy
    + Send
    + Sync
    + 'static {}

impl<
    R: Threads
        + Wait
        + Clock
        + Files<File: Send + Sync + 'static, Dir: Send + Sync + 'static>
        + AllocGlobal
        + Copy
        + Send
        + Sync
        + 'static,
> Host for R {}

/// How many lines a scene has at most.
pub const LINES: u32 = 1000;

/// A scene that is played.
#[derive(Drop)]
pub struct Scene<R: Drop, A: Drop> {
    pub rt: R,
    pub stage: &'static Stage,
    /// The debouncer's memory.
    pub heap: A,
    /// Which run of the scene this is, from 1 on.
    run: u64,
    /// Which request for memory of each call of the debouncer is refused, or 0 if none is.
    refusal: u64,
    /// Whether the request came that was last to be refused.
    came: bool,
    /// When the clock was last looked at.
    begun: Instant,
    /// What was printed.
    pub text: String,
    /// The path of the scene's folder.
    top: String,
    /// What waited when the scene last asked.
    pub seen: String,
    /// What was emitted, as the journal says.
    pub emitted: String,
    /// How many entries and how many ticks the journal has.
    pub entries: u64,
    pub ticks: u64,
}

/// The first word of a line, and what comes after it.
pub fn split(line: &str) -> (&str, &str) {
    match line.split_once(' ') {
        Some(pair) => pair,
        None => (line, ""),
    }
}

/// Takes the next of these lines.
pub fn next_line(rest: &mut &'static str) -> Option<&'static str> {
    let (line, more) = rest.split_once('\n')?;
    *rest = more;
    Some(line)
}

/// The number that the word is, or else 0.
pub fn number(word: &str) -> u64 {
    word.parse::<u64>().unwrap_or(0)
}

impl<R: Clock + Wait + AllocGlobal + Drop, A: TestHeap> Scene<R, A> {
    /// The scene of this stage, in its nth run, with this folder.
    pub fn new(rt: R, stage: &'static Stage, run: u64, top: &str) -> io::Result<Scene<R, A>> {
        let alloc = rt.alloc();
        let begun = Instant::now(&rt)?;
        let heap = A::new(alloc)?;
        let top = String::from_str(alloc, top)?;
        Ok(Scene {
            stage,
            heap,
            rt,
            run,
            refusal: 0,
            came: false,
            begun,
            text: String::new(alloc),
            top,
            seen: String::new(alloc),
            emitted: String::new(alloc),
            entries: 0,
            ticks: 0,
        })
    }

    /// The path of an entry of the scene's folder, in which `#` at the end stands for the run's number.
    pub fn entry(&self, word: &str) -> Result<String, AllocError> {
        let (alloc, top) = (self.rt.alloc(), self.top.as_str());
        match word.strip_suffix('#') {
            Some(name) => format!(in alloc; "{top}{name}{}", self.run),
            None => format!(in alloc; "{top}{word}"),
        }
    }

    /// The same, as a path.
    pub fn place(&self, word: &str) -> io::Result<PathBuf> {
        given(PathBuf::parse(self.rt.alloc(), self.entry(word)?.as_str()))
    }

    /// Prints a line, and what came of it.
    pub fn say(&mut self, line: &str, answer: &str) -> io::Result<()> {
        writeln!(self.text, "{line}: {answer}")?;
        Ok(())
    }

    /// Prints a line, and a number.
    pub fn count(&mut self, line: &str, answer: u64) -> io::Result<()> {
        writeln!(self.text, "{line}: {answer}")?;
        Ok(())
    }

    /// Prints a line, and whether it is so.
    pub fn tell(&mut self, line: &str, answer: bool) -> io::Result<()> {
        self.say(line, if answer { "yes" } else { "no" })
    }

    /// Begins a call of which a request for memory may be refused.
    pub fn begin(&self) {
        self.heap.refuse(self.refusal);
    }

    /// Ends such a call.
    pub fn end(&mut self) {
        self.came = self.heap.left() == 0;
        self.heap.refuse(0);
    }

    /// What was printed.
    pub fn into_text(self) -> String {
        self.text
    }

    /// Plays a line that needs no debouncer.
    pub fn play_line(&mut self, line: &str) -> io::Result<()> {
        let (verb, word) = split(line);
        if self.is_set(verb, word)? {
            return Ok(());
        }
        match verb {
            "turn" => self.take_turn(line),
            "stand" => self.stand(),
            "advance" => self.advance(line, word),
            "pauses" => self.tell_pauses(line),
            "batches" => self.count(line, self.stage.batches.load(Ordering::SeqCst)),
            "called" => self.tell_calls(line, word),
            "entries" => self.count(line, self.entries),
            _ => match self.is_so(verb, word)? {
                Some(answer) => self.tell(line, answer),
                None => self.say(line, "what is this?"),
            },
        }
    }

    /// Whether what the line asks is so. It is empty if the line asks nothing.
    fn is_so(&self, verb: &str, word: &str) -> io::Result<Option<bool>> {
        let (stage, rt) = (self.stage, &self.rt);
        Ok(Some(match verb {
            "came" => self.came,
            "paused" => stage.is_paused(rt),
            "pausing" => stage.clock.is_paused(rt),
            "await_batches" => wait_for(rt, &stage.batches, number(word)),
            "await_errors" => wait_for(rt, &stage.errors, number(word)),
            "await_end" => wait_for_flag(rt, &stage.ended),
            "ended" => stage.ended.load(Ordering::SeqCst),
            "uncalled" => stage.is_uncalled(),
            "held_in_vain" => stage.alone.load(Ordering::SeqCst),
            "first" => stage.was_first_called_with(rt, word),
            "emitted" => stage.was_called_with(rt, self.emitted.as_str()),
            "few_ticks" => u128::from(self.ticks) <= self.millis()?,
            "within" => self.millis()? < u128::from(number(word)),
            _ => return Ok(None),
        }))
    }

    /// Sets what the line says, and answers whether it says something of the kind, or something that the
    /// watcher reads.
    fn is_set(&mut self, verb: &str, word: &str) -> io::Result<bool> {
        let stage = self.stage;
        match verb {
            "refuse" => self.refusal = self.request(word),
            "starve" => stage.starved.store(self.request(word), Ordering::SeqCst),
            "hold_pauses" => raise(&stage.is_held),
            "let_pauses" => stage.is_held.store(false, Ordering::SeqCst),
            "break_clock" => raise(&stage.is_broken),
            "mend_clock" => stage.is_broken.store(false, Ordering::SeqCst),
            "fast" => raise(&stage.is_fast),
            "hold_batch" => stage.answered.store(false, Ordering::SeqCst),
            "let_batch" => raise(&stage.answered),
            "flow_on" => raise(&stage.flows),
            "flow_off" => stage.flows.store(false, Ordering::SeqCst),
            "permit" => {
                stage.permits.fetch_add(1, Ordering::SeqCst);
            }
            "sleep" => self.sleep(number(word)),
            "leap" => stage.clock.leap(nanos_of(word)),
            "clock" => self.begun = Instant::now(&self.rt)?,
            "report" | "flow" | "lose" | "never_unwatch" | "unmade" | "moments" => {}
            _ => return Ok(false),
        }
        Ok(true)
    }

    /// The request for memory that the word says: each, the one whose number is the run's or this, or
    /// else none.
    fn request(&self, word: &str) -> u64 {
        match word {
            "each" => u64::MAX,
            "nth" => self.run,
            _ => number(word),
        }
    }

    /// Sleeps so many turns of a millisecond.
    pub fn sleep(&self, turns: u64) {
        for _ in 0..turns {
            sleep_a_turn(&self.rt);
        }
    }

    /// How many milliseconds have gone by since the clock was looked at, and one more.
    fn millis(&self) -> io::Result<u128> {
        let gone = self.begun.elapsed(&self.rt)?;
        Ok(gone.as_millis().saturating_add(1))
    }

    /// Has the clock stand. The wall clock says an hour more, so that no file was just written.
    fn stand(&mut self) -> io::Result<()> {
        let now = self.rt.since_1970()?;
        let hour = Duration::from_secs(3600);
        self.stage.clock.stand(now.saturating_add(hour));
        Ok(())
    }

    /// Moves the standing clock on, from pause to pause. Prints if no thread pauses.
    fn advance(&mut self, line: &str, word: &str) -> io::Result<()> {
        if self.stage.clock.advance(&self.rt, nanos_of(word)) {
            return Ok(());
        }
        self.tell(line, false)
    }

    /// Prints how long the pauses were that were asked for.
    fn tell_pauses(&mut self, line: &str) -> io::Result<()> {
        let lengths = self.stage.clock.lengths(&self.rt);
        writeln!(self.text, "{line}:{}", lengths.as_str())?;
        Ok(())
    }

    /// Lets the debouncer's thread take a turn.
    fn take_turn(&mut self, line: &str) -> io::Result<()> {
        self.begin();
        let taken = self.stage.take_turn(&self.rt);
        self.end();
        self.tell(line, taken)
    }

    /// Whether the handler was called with no more batches and lists of errors, since the watcher was
    /// dropped, than these numbers say.
    fn tell_calls(&mut self, line: &str, words: &str) -> io::Result<()> {
        let [batches, errors] = self.stage.calls_since_the_end();
        let (most, most_errors) = split(words);
        self.tell(
            line,
            batches <= number(most) && errors <= number(most_errors),
        )
    }
}

/// So many milliseconds as the word says, in nanoseconds.
fn nanos_of(word: &str) -> u64 {
    number(word).saturating_mul(1_000_000)
}

fn raise(flag: &AtomicBool) {
    flag.store(true, Ordering::SeqCst);
}
