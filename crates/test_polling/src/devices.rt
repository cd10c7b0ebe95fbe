//! Folders that fail, and folders that go missing.
ghost use Rattle.std.specs.Prelude.{None};

use crate::build::{check_numbers, check_text};
use crate::trees::{Notes, listing, root, text_of, tree};
use notify_paths::{Error, ErrorKind, PathBuf};
use poll_listing::{Found, Listing, compare};
use poll_rounds::{Folders, list, poll_round};
use std::alloc::Global;
use std::io;
use std::process::Abort;
use test_fakes::folders::{FailingFolders, TreeFolders};

/// Six entries in three folders.
const SIX: &str = "/ folder, /a folder, /a/x file 1, /b folder, /b/y file 2, /c file 3";

/// What the last round before a failure saw.
const LAST: &str = "/ folder, /c file 3, /z file 1";

/// What has changed since then.
const CHANGES: &str =
    "Remove(File) /z, Create(Folder) /a, Create(File) /a/x, Create(Folder) /b, Create(File) /b/y";

/// A look at each entry, and the names of each folder.
const CALLS: u64 = 9;

type Failing = FailingFolders<Global, TreeFolders<Global>>;

fn failing(rt: &(impl Abort + AllocGlobal), call: u64) -> Failing {
    FailingFolders::new(rt.alloc(), tree(rt, rt.alloc(), SIX), call)
}

#[test]
fn a_failed_call_fails_the_listing(rt: HostRuntime) {
    for call in 0..CALLS {
        check_failed_listing(&rt, call);
    }
    check_listing(&rt);
}

/// The listing if no call fails.
fn check_listing(rt: &(impl Abort + AllocGlobal)) {
    let mut folders = failing(rt, CALLS);
    let count = list_all(rt, &mut folders).len() as u64;
    check_numbers(rt, &[count, folders.failures()], &[6, 0], "no call fails");
}

/// The listing fails at this call, with the error of the call.
fn check_failed_listing(rt: &(impl Abort + AllocGlobal), call: u64) {
    let mut folders = failing(rt, call);
    let told = is_failure(rt, &try_list(rt, &mut folders)) as u64;
    check_numbers(
        rt,
        &[told, folders.failures(), call],
        &[1, 1, call],
        "told, failures, call",
    );
}

/// What the folders hold, or why they can't be listed.
fn try_list(
    rt: &(impl Abort + AllocGlobal),
    folders: &mut impl Folders<Global>,
) -> Result<Listing, Error> {
    let roots = root(rt, rt.alloc(), "/");
    list(rt.alloc(), folders, roots.as_slice())
}

/// Whether the call failed as a device does.
fn is_failure(rt: &impl AllocGlobal, listed: &Result<Listing, Error>) -> bool {
    match listed {
        Ok(_) => false,
        Err(error) => *error == Error::new(rt.alloc(), ErrorKind::Io(io::ErrorKind::Other)),
    }
}

/// What the folders hold, of which no call fails.
fn list_all(rt: &(impl Abort + AllocGlobal), folders: &mut impl Folders<Global>) -> Listing {
    try_list(rt, folders).expect(rt, "no call fails")
}

#[test]
fn a_failed_round_reports_its_error_and_nothing_else(rt: HostRuntime) {
    for call in 0..CALLS {
        check_failed_round(&rt, call);
    }
}

#[test]
fn a_round_asks_for_each_entry_once(rt: HostRuntime) {
    check_whole_round(&rt, SIX, "");
    check_whole_round(&rt, LAST, CHANGES);
}

/// A round in which one more call would fail.
fn check_whole_round(rt: &(impl Abort + AllocGlobal), text: &str, changes: &str) {
    let mut folders = failing(rt, CALLS);
    let mut last = listing(rt, rt.alloc(), text);
    check_round(rt, &mut folders, &mut last, [1, 6, CALLS], changes);
}

/// The first round fails at this call, and the second one reports all changes since the last listing.
fn check_failed_round(rt: &(impl Abort + AllocGlobal), call: u64) {
    let mut folders = failing(rt, call);
    let mut last = listing(rt, rt.alloc(), LAST);
    check_round(rt, &mut folders, &mut last, [0, 3, call], "error Io");
    check_round(rt, &mut folders, &mut last, [1, 6, call], CHANGES);
}

/// Checks whether the round succeeds, which is 1, how many entries its listing has, beside the call at which
/// it fails, and what it reports.
fn check_round(
    rt: &(impl Abort + AllocGlobal),
    folders: &mut Failing,
    last: &mut Listing,
    wanted: [u64; 3],
    reported: &str,
) {
    let mut notes = Notes::new(rt);
    let polled = poll(rt, folders, last, &mut notes) as u64;
    let got = [polled, last.len() as u64, wanted[2]];
    check_numbers(rt, &got, &wanted, "polled, entries, call");
    check_text(rt, notes.take().as_str(), reported, "what is reported");
}

fn poll(
    rt: &(impl Abort + AllocGlobal),
    folders: &mut Failing,
    last: &mut Listing,
    notes: &mut Notes,
) -> bool {
    let roots = root(rt, rt.alloc(), "/");
    poll_round(rt.alloc(), folders, roots.as_slice(), last, notes)
}

/// Folders of which one goes missing after it was looked at.
#[derive(Drop)]
struct Vanishing {
    inner: TreeFolders<Global>,
}

impl Folders<Global> for Vanishing {
    ghost told = { λ _. None };

    ghost failed = { λ _. 0 };

    fn look(&mut self, path: &PathBuf) -> Result<Option<Found>, Error> {
        self.inner.look(path)
    }

    fn names(&mut self, path: &PathBuf) -> Result<Option<Vec<String>>, Error> {
        if path.as_str() == "/a" {
            return Ok(None);
        }
        self.inner.names(path)
    }

    fn failures(&self) -> u64 {
        0
    }
}

#[test]
fn a_folder_that_goes_missing_is_left_out(rt: HostRuntime) {
    let mut folders = Vanishing {
        inner: tree(&rt, rt.alloc(), SIX),
    };
    let listed = list_all(&rt, &mut folders);
    let wanted = "Create(Folder) /, Create(Folder) /b, Create(File) /b/y, Create(File) /c";
    check_text(
        &rt,
        text_of_all(&rt, &listed).as_str(),
        wanted,
        "what is there",
    );
}

/// What the events say that create all of the listing.
fn text_of_all(rt: &(impl Abort + AllocGlobal), listed: &Listing) -> String {
    let events = compare(rt.alloc(), &Listing::new(rt.alloc()), listed).expect(rt, "memory");
    text_of(rt, events.as_slice())
}
