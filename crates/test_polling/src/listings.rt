//! Each request for memory refused in turn.
use crate::build::{check_numbers, new_heap, path};
use crate::trees::{Notes, entries, listing, root, roots, tree};
use notify_debouncer_full::{
    Error, ErrorKind, Listing, PathBuf, Polled, RecursiveMode, compare, list, poll_round,
};
use poll_rounds::look_round;
use std::alloc::Allocator;
use std::fmt::Debug;
use std::process::Abort;
use test_fakes::allocator::{Heap, TestHeap};
use test_fakes::folders::TreeFolders;

const OLD: &str = "/ folder, /a folder, /a/x file 1, /b file 2, /c file 3";

const NEW: &str = "/ folder, /a file 1, /b file 3, /d folder, /d/y file 1";

/// What the folders hold in the round after the one that saw `OLD`, and what it reports.
const ROUNDS: [&str; 8] = [
    // A folder became a file, a file has another length, one went, and a folder with a file came.
    "/ folder, /a file 1, /b file 3, /d folder, /d/y file 1
Remove(Folder) /a, Remove(File) /c, Create(File) /a, Create(Folder) /d, Create(File) /d/y, \
Modify(Data(Any)) /b",
    // Nothing changed.
    "/ folder, /a folder, /a/x file 1, /b file 2, /c file 3
",
    // The last entry has another length; one more comes after it; it went.
    "/ folder, /a folder, /a/x file 1, /b file 2, /c file 4
Modify(Data(Any)) /c",
    "/ folder, /a folder, /a/x file 1, /b file 2, /c file 3, /d file 1
Create(File) /d",
    "/ folder, /a folder, /a/x file 1, /b file 2
Remove(File) /c",
    // What went stood in the first folder.
    "/ folder, /a folder, /b file 2, /c file 3
Remove(File) /a/x",
    // All went.
    "/ folder
Remove(Folder) /a, Remove(File) /b, Remove(File) /c",
    // More came than one node of a map holds.
    "/ folder, /a folder, /a/x file 2, /a0 file 1, /a1 file 1, /a2 file 1, /a3 file 1, /a4 file 1, \
/b other, /b0 file 1, /b1 file 1, /b2 file 1, /b3 file 1, /c file 3
Remove(File) /b, Create(File) /a0, Create(File) /a1, Create(File) /a2, Create(File) /a3, \
Create(File) /a4, Create(Other) /b, Create(File) /b0, Create(File) /b1, Create(File) /b2, \
Create(File) /b3, Modify(Data(Any)) /a/x",
];

/// Roots that show all, some of them in others.
const ROOTS: [&str; 4] = ["/", "/ /a", "/a /", "/d /a /"];

/// How many of the first requests are refused one by one, at most.
const MOST: u64 = 200;

/// Refuses request after request of the call, until it makes fewer, and checks that it says so just then.
fn check_refusals<A: TestHeap>(rt: &impl Abort, heap: A, name: &str, call: &mut impl Call<A>) {
    for n in 1..MOST {
        heap.refuse(n);
        let answer = call.answer(rt, heap, n);
        let came = heap.left() == 0;
        heap.refuse(0);
        check_answer(rt, answer, came, name, n);
        if !came {
            return;
        }
    }
    panic!(rt; "{name} is refused again and again");
}

/// Checks the answer to a call of which this request was to be refused, from whether the request came.
fn check_answer(rt: &impl Abort, answer: Answer, came: bool, name: &str, n: u64) {
    let wanted = if came { Answer::Memory } else { Answer::Done };
    assert_eq!(rt; answer, wanted, "{name}, request {n}");
    assert!(rt; came || 1 < n, "{name} asks for no memory");
}

/// What a call answers.
#[derive(Clone, Copy, Debug, PartialEq)]
enum Answer {
    Done,
    /// Memory is out.
    Memory,
    OtherError,
}

impl Answer {
    fn of<A: Allocator, T: Drop>(answer: Result<T, Error<A>>) -> Answer {
        match answer {
            Ok(_) => Answer::Done,
            Err(error) => Answer::of_error(&error),
        }
    }

    fn of_error<A: Allocator>(error: &Error<A>) -> Answer {
        if error.kind == ErrorKind::Memory {
            Answer::Memory
        } else {
            Answer::OtherError
        }
    }
}

/// A call that is made again after each refusal.
trait Call<A: TestHeap> {
    /// What the call answers; unless it is done, nothing has changed.
    fn answer(&mut self, rt: &impl Abort, heap: A, n: u64) -> Answer;
}

#[derive(Drop)]
struct Gathered;

impl<A: TestHeap> Call<A> for Gathered {
    fn answer(&mut self, rt: &impl Abort, heap: A, n: u64) -> Answer {
        heap.refuse(0);
        let given = entries(rt, heap, OLD);
        heap.refuse(n);
        Answer::of(Listing::from_entries(heap, given))
    }
}

#[derive(Drop)]
struct Compared<A: Allocator> {
    old: Listing<A>,
    new: Listing<A>,
}

impl<A: TestHeap> Call<A> for Compared<A> {
    fn answer(&mut self, _rt: &impl Abort, heap: A, _n: u64) -> Answer {
        Answer::of(compare(heap, &self.old, &self.new))
    }
}

#[derive(Drop)]
struct Listed<A: Allocator> {
    folders: TreeFolders<A>,
    roots: Vec<(PathBuf<A>, RecursiveMode), A>,
}

impl<A: TestHeap> Call<A> for Listed<A> {
    fn answer(&mut self, _rt: &impl Abort, heap: A, _n: u64) -> Answer {
        Answer::of(list(heap, &mut self.folders, self.roots.as_slice()))
    }
}

/// Paths that are looked at in place of a round, as a list each; they are looked at one after the other.
const LOOKS: [&str; 2] = ["/", "/d /c /a0 /b /a /"];

/// Folders, and what is asked for in them: a round at the roots, or a look at some paths if there are some.
#[derive(Drop)]
struct Asked<A: Allocator> {
    folders: TreeFolders<A>,
    roots: Vec<(PathBuf<A>, RecursiveMode), A>,
    looks: Vec<PathBuf<A>, A>,
}

impl<A: Allocator + Copy + Debug + 'static> Asked<A> {
    fn new(rt: &impl Abort, heap: A, text: &str, places: &str, looks: &str) -> Asked<A> {
        Asked {
            folders: tree(rt, heap, text),
            roots: roots(rt, heap, places),
            looks: paths(rt, heap, looks),
        }
    }

    fn poll(&mut self, heap: A, last: &mut Listing<A>, notes: &mut Notes) -> bool {
        let roots = self.roots.as_slice();
        let looks = self.looks.as_slice();
        if looks.is_empty() {
            poll_round(heap, &mut self.folders, roots, last, notes)
        } else {
            look_round(heap, &mut self.folders, roots, last, looks, notes)
        }
    }
}

/// The last listing, and what it is before a round and after it.
#[derive(Drop)]
struct Seen<A: Allocator> {
    last: Listing<A>,
    before: Listing<A>,
    after: Listing<A>,
}

impl<A: Allocator + Copy + Debug> Seen<A> {
    fn new(rt: &impl Abort, heap: A, text: &str) -> Seen<A> {
        Seen {
            last: listing(rt, heap, OLD),
            before: listing(rt, heap, OLD),
            after: listing(rt, heap, text),
        }
    }

    /// Whether the last listing is the one after a round that was taken, or the one before it.
    fn is_wanted(&self, taken: bool) -> bool {
        if taken {
            is_same(&self.last, &self.after)
        } else {
            is_same(&self.last, &self.before)
        }
    }
}

/// A round, or a look at some paths, and what it reports.
#[derive(Drop)]
struct Polls<'a, A: Allocator> {
    asked: Asked<A>,
    seen: Seen<A>,
    notes: Notes,
    reported: &'a str,
}

impl<'a, A: TestHeap> Call<A> for Polls<'a, A> {
    fn answer(&mut self, rt: &impl Abort, heap: A, n: u64) -> Answer {
        let taken = self.asked.poll(heap, &mut self.seen.last, &mut self.notes);
        let is_wanted = self.seen.is_wanted(taken) as u64;
        check_numbers(rt, &[is_wanted, n], &[1, n], self.reported);
        answer_of(taken, self.notes.take().as_str(), self.reported)
    }
}

/// What a round answers, from whether it was taken and what was noted.
fn answer_of(taken: bool, notes: &str, reported: &str) -> Answer {
    if taken && notes == reported {
        Answer::Done
    } else if !taken && notes == "error Memory" {
        Answer::Memory
    } else {
        Answer::OtherError
    }
}

/// Whether the two listings have the same entries.
fn is_same<A: Allocator>(one: &Listing<A>, other: &Listing<A>) -> bool {
    let mut rest = other.iter();
    for (path, found) in one.iter() {
        let Some((place, there)) = rest.next() else {
            return false;
        };
        if *path != *place || *found != *there {
            return false;
        }
    }
    rest.next().is_none()
}

#[derive(Drop)]
struct Watches<A: Allocator> {
    folders: TreeFolders<A>,
    polled: Polled<A>,
    place: PathBuf<A>,
}

impl<A: TestHeap> Call<A> for Watches<A> {
    fn answer(&mut self, rt: &impl Abort, _heap: A, _n: u64) -> Answer {
        let answer = Answer::of(
            self.polled
                .watch(&mut self.folders, &self.place, RecursiveMode::Recursive),
        );
        let kept = [
            self.polled.roots().len() as u64,
            self.polled.last().len() as u64,
        ];
        if answer != Answer::Done {
            check_numbers(rt, &kept, &[0, 0], "a refused watch");
        }
        answer
    }
}

#[test]
fn listings_are_made_or_refused(rt: HostRuntime) {
    refuse_listings::<Heap, _>(&rt);
}

fn refuse_listings<A: TestHeap, R: Abort + AllocGlobal>(rt: &R) {
    let heap: A = new_heap(rt);
    check_refusals(rt, heap, "from_entries", &mut Gathered);
    let old = listing(rt, heap, OLD);
    let new = listing(rt, heap, NEW);
    check_refusals(rt, heap, "compare", &mut Compared { old, new });
}

#[test]
fn folders_are_listed_or_refused(rt: HostRuntime) {
    refuse_lists::<Heap, _>(&rt);
}

fn refuse_lists<A: TestHeap, R: Abort + AllocGlobal>(rt: &R) {
    let heap: A = new_heap(rt);
    let folders = tree(rt, heap, OLD);
    let roots = root(rt, heap, "/");
    check_refusals(rt, heap, "list", &mut Listed { folders, roots });
}

#[test]
fn a_refused_round_keeps_the_last_listing(rt: HostRuntime) {
    for places in ROOTS {
        refuse_rounds::<Heap, _>(&rt, places, "");
    }
}

#[test]
fn a_refused_look_keeps_the_last_listing(rt: HostRuntime) {
    for looks in LOOKS {
        refuse_rounds::<Heap, _>(&rt, "/", looks);
        refuse_rounds::<Heap, _>(&rt, "/a /", looks);
    }
}

/// The paths of a text, as `/a /b`.
fn paths<A: Allocator + Copy + Debug>(rt: &impl Abort, heap: A, text: &str) -> Vec<PathBuf<A>, A> {
    let mut paths = Vec::new(heap);
    for place in text.split(' ') {
        if !place.is_empty() {
            paths.push(path(rt, heap, place)).expect(rt, "memory");
        }
    }
    paths
}

/// Refuses rounds at these roots, or looks at these paths if there are some.
fn refuse_rounds<A: TestHeap, R: Abort + AllocGlobal>(rt: &R, places: &str, looks: &str) {
    let heap: A = new_heap(rt);
    for round in ROUNDS {
        let (text, reported) = round.split_once('\n').expect(rt, round);
        let mut call = Polls {
            asked: Asked::new(rt, heap, text, places, looks),
            seen: Seen::new(rt, heap, text),
            notes: Notes::new(rt),
            reported,
        };
        check_refusals(rt, heap, text, &mut call);
    }
}

#[test]
fn a_refused_watch_changes_nothing(rt: HostRuntime) {
    refuse_watches::<Heap, _>(&rt);
}

fn refuse_watches<A: TestHeap, R: Abort + AllocGlobal>(rt: &R) {
    let heap: A = new_heap(rt);
    let mut call = Watches {
        folders: tree(rt, heap, OLD),
        polled: Polled::new(heap),
        place: path(rt, heap, "/a"),
    };
    check_refusals(rt, heap, "watch", &mut call);
}
