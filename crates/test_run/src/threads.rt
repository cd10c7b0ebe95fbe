//! Scripts in threads.
use crate::build::{CREATED, Host, TURNS, commands, new_heap, sleep_a_turn, sleep_turns, wait_for};
use crate::words::{push_batch, word_of};
use mirror_run::script::read_script;
use mirror_threads::threads_run;
use notify_debouncer_full::{Entry, Error, ErrorKind, Meet, NoMeet, Reply, run_threads};
use std::alloc::AllocError;
use std::io;
use std::io::{Read, Write};
use std::process::Abort;
use std::sync::Wait;
use std::sync::atomic::{AtomicBool, AtomicU64, Ordering};
use std::time::Clock;
use test_fakes::allocator::{Heap, RefusingHeap, TestHeap};

/// Raises its script's flag before the script's first step, and waits for the other's.
#[derive(Drop)]
struct Flags {
    rt: HostRuntime,
    raised: [AtomicBool; 2],
    /// How often a step of the script was announced.
    steps: [AtomicU64; 2],
    /// How many scripts didn't see the other's flag.
    alone: AtomicU64,
}

impl Meet for Flags {
    fn before(&self, from: usize) {
        let (mine, other) = if from == 0 { (0, 1) } else { (1, 0) };
        self.steps[mine].fetch_add(1, Ordering::SeqCst);
        if self.raised[mine].swap(true, Ordering::SeqCst) {
            return;
        }
        for _ in 0..TURNS {
            if self.raised[other].load(Ordering::SeqCst) {
                return;
            }
            sleep_a_turn(&self.rt);
        }
        self.alone.fetch_add(1, Ordering::SeqCst);
    }
}

#[test]
fn two_scripts_meet(rt: HostRuntime) {
    let alloc = rt.alloc();
    let flags = Flags {
        rt,
        raised: [AtomicBool::new(false), AtomicBool::new(false)],
        steps: [AtomicU64::new(0), AtomicU64::new(0)],
        alone: AtomicU64::new(0),
    };
    let mut scripts = Vec::new(alloc);
    for _ in 0..2 {
        let script = commands(&rt, alloc, CREATED);
        scripts.push(script).expect(&rt, "memory");
    }
    let journal = run_threads(&rt, alloc, 50, scripts, &flags).expect(&rt, "an answer");
    assert_eq!(rt; journal.len(), 4);
    drop(journal);
    let [first, second] = &flags.steps;
    let steps = [first.load(Ordering::SeqCst), second.load(Ordering::SeqCst)];
    assert_eq!(rt; (steps, flags.alone.load(Ordering::SeqCst)), ([2, 2], 0));
}

#[test]
fn no_script_and_one_script_give_their_journals(rt: HostRuntime) {
    let alloc = rt.alloc();
    let none = run_threads(&rt, alloc, 50, Vec::new(alloc), &NoMeet);
    assert_eq!(rt; none.expect(&rt, "an answer").len(), 0);
    let script = "timeout 50\nevent 0 Create(Any) - /a\ntick 49\ntick 50\n";
    let mut scripts = Vec::new(alloc);
    scripts
        .push(commands(&rt, alloc, script))
        .expect(&rt, "memory");
    let journal = run_threads(&rt, alloc, 50, scripts, &NoMeet).expect(&rt, "an answer");
    let seen = text_of(&rt, journal.as_slice());
    drop(journal);
    assert_eq!(rt;
        seen.as_str(),
        "0 taken, 0 batch, 0 batch Create(Any) /a 0, "
    );
}

/// What the entries say: the number of the script, and what it was replied.
fn text_of(rt: &(impl Abort + AllocGlobal), journal: &[Entry]) -> String {
    let mut text = String::new(rt.alloc());
    for entry in journal {
        add_entry(&mut text, entry).expect(rt, "memory");
    }
    text
}

fn add_entry(text: &mut String, entry: &Entry) -> Result<(), AllocError> {
    write!(text, "{} ", entry.from)?;
    match &entry.reply {
        Reply::Taken(None) => text.push_str("taken")?,
        Reply::Batch(batch) => push_batch(text, batch.as_slice())?,
        _ => text.push_str("another reply")?,
    }
    text.push_str(", ")
}

#[test]
fn a_run_is_refused_at_each_request(rt: HostRuntime) {
    refuse_runs::<HostRuntime, Heap>(&rt);
}

fn refuse_runs<R: Host, A: TestHeap>(rt: &R) {
    let heap: A = new_heap(rt);
    let mut refused = 0u64;
    for n in 1..200u64 {
        heap.refuse(0);
        let mut scripts = Vec::new(heap);
        scripts
            .push(commands(rt, heap, CREATED))
            .expect(rt, "memory");
        heap.refuse(n);
        let answer = run_threads(rt, heap, 50, scripts, &NoMeet);
        let came = heap.left() == 0;
        let refusal = answer.err();
        if !came {
            assert!(rt; refusal.is_none());
            break;
        }
        assert!(rt; refusal == Some(Error::new(heap, ErrorKind::Memory)), "{n}");
        refused = n;
    }
    assert!(rt; 5 < refused && refused < 199, "{refused}");
}

/// Lets memory be refused to the first script's first step, and lets the second go on some time after that.
#[derive(Drop)]
struct Late<R: Drop, A: Drop> {
    rt: R,
    heap: A,
    /// The second script has begun.
    begun: AtomicBool,
    /// The next request for memory is refused.
    starved: AtomicBool,
    /// How many steps of the second script were let go on.
    steps: AtomicU64,
}

impl<R: Clock + Drop, A: RefusingHeap + Drop> Late<R, A> {
    /// Refuses memory to the step that follows, as soon as only steps ask for it.
    fn starve(&self) {
        wait_for(&self.rt, &self.begun);
        self.heap.refuse(1);
        self.starved.store(true, Ordering::SeqCst);
    }

    /// Waits until the other script was refused, and then some time more.
    fn linger(&self) {
        self.begun.store(true, Ordering::SeqCst);
        wait_for(&self.rt, &self.starved);
        for _ in 0..TURNS {
            if self.heap.left() == 0 {
                break;
            }
            sleep_a_turn(&self.rt);
        }
        sleep_turns(&self.rt, 20);
        self.steps.fetch_add(1, Ordering::SeqCst);
    }
}

impl<R: Clock + Drop + Sync, A: RefusingHeap + Drop + Sync> Meet for Late<R, A> {
    fn before(&self, from: usize) {
        if from == 0 {
            self.starve();
        } else {
            self.linger();
        }
    }
}

#[test]
fn the_other_script_ends_before_a_refusal_is_answered(rt: HostRuntime) {
    refuse_one::<HostRuntime, Heap>(rt);
}

fn refuse_one<R: Host, A: TestHeap>(rt: R) {
    let heap: A = new_heap(&rt);
    let meet = Late {
        rt,
        heap,
        begun: AtomicBool::new(false),
        starved: AtomicBool::new(false),
        steps: AtomicU64::new(0),
    };
    let mut scripts = Vec::new(heap);
    for _ in 0..2 {
        scripts
            .push(commands(&rt, heap, CREATED))
            .expect(&rt, "memory");
    }
    let answer = run_threads(&rt, heap, 50, scripts, &meet);
    let steps = meet.steps.load(Ordering::SeqCst);
    assert_eq!(rt; (word_of(answer), steps), ("Memory", 2));
}

const SAME: &str = "entries 2\ntaken 1\nreplay same\n";

const REFUSED: &str = "mirror: out of memory\n";

/// Runs the script as `mirror --threads` does, while the nth request for memory is refused. Answers
/// the status, and what was written to standard output and to standard error.
fn run_refused<R: Host, A: TestHeap>(
    rt: &R,
    heap: A,
    names: &[String<A>],
    n: u64,
) -> (u8, Vec<u8>, Vec<u8>) {
    let mut readers = [CREATED.as_bytes()];
    let (mut out, mut err) = (Vec::new(rt.alloc()), Vec::new(rt.alloc()));
    heap.refuse(n);
    let status = threads_run(rt, heap, names, &mut readers, &mut out, &mut err);
    (status, out, err)
}

/// Whether the script is read whole although the nth request for memory is refused: a line's fields are collected,
/// which does with less room than it asks for at first.
fn is_read_without<A: TestHeap>(heap: A, n: u64) -> bool {
    heap.refuse(n);
    let read = read_script(heap, &mut CREATED.as_bytes());
    let came = heap.left() == 0;
    heap.refuse(0);
    came && read.is_ok()
}

#[test]
fn threads_say_that_memory_is_out(rt: HostRuntime) {
    refuse_prints::<HostRuntime, Heap>(&rt);
}

fn refuse_prints<R: Host, A: TestHeap>(rt: &R) {
    let heap: A = new_heap(rt);
    let mut names = Vec::new(heap);
    names.push(String::new(heap)).expect(rt, "memory");
    let mut refused = 0u64;
    for n in 1..300u64 {
        let (status, out, err) = run_refused(rt, heap, names.as_slice(), n);
        let whole = (status, out.as_slice(), err.as_slice())
            == (0, SAME.as_bytes(), b"".as_slice());
        let said = (status, out.as_slice(), err.as_slice())
            == (4, b"".as_slice(), REFUSED.as_bytes());
        if heap.left() != 0 {
            assert!(rt; whole);
            break;
        }
        // The first two requests are those for the list of scripts and for the bytes of this one.
        assert!(rt;
            said || whole && 2 < n && is_read_without(heap, n - 2),
            "{n}"
        );
        refused = n;
    }
    assert!(rt; 5 < refused && refused < 299, "{refused}");
}

/// A device that gives nothing.
#[derive(Drop)]
struct Broken;

impl Read for Broken {
    fn read(&mut self, _buf: &mut [u8]) -> io::Result<usize> {
        Err(io::Error::from(io::ErrorKind::ConnectionReset))
    }
}

/// A device that takes nothing.
#[derive(Drop)]
struct Full;

impl Write for Full {
    fn write(&mut self, _buf: &[u8]) -> io::Result<usize> {
        Err(io::Error::from(io::ErrorKind::StorageFull))
    }

    fn flush(&mut self) -> io::Result<()> {
        Ok(())
    }
}

#[test]
fn threads_say_that_a_device_fails(rt: HostRuntime) {
    let alloc = rt.alloc();
    let names = vec![in alloc; String::new(alloc)].expect(&rt, "memory");
    let names = names.as_slice();
    let (mut out, mut err) = (Vec::new(alloc), Vec::new(alloc));
    let unread = threads_run(&rt, alloc, names, &mut [Broken], &mut out, &mut err);
    assert_eq!(rt;
        (unread, out.len(), err.as_slice()),
        (1, 0, "mirror: cannot read \n".as_bytes())
    );
    err.clear();
    let mut readers = [CREATED.as_bytes()];
    let unwritten = threads_run(&rt, alloc, names, &mut readers, &mut Full, &mut err);
    assert_eq!(rt; (unwritten, err.len()), (6, 0));
}
