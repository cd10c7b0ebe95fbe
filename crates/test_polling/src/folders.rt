//! The real file system, over folders of the tests' own: what a scan finds, and what a watcher sees that
//! polls.
use crate::build::{check_numbers, check_text, path};
use crate::trees::{Notes, root};
use notify_debouncer_full::{
    Error, ErrorKind, EventKind, FileId, FolderScan, Folders, Listing, Polled, RealFolders,
    RecursiveMode, Scan, compare, list,
};
use std::alloc::Global;
use std::env::Env;
use std::fs::Files;
use std::os::unix::fs::symlink;
use std::process::Abort;
use std::time::Clock;
use std::{env, fs, process};

/// A path for the folder of one test.
pub fn new_top(rt: &(impl Abort + AllocGlobal + Env), id: u32, name: &str) -> String {
    let base = env::temp_dir(rt).expect(rt, "a folder for tests");
    format!(in rt.alloc(); "{}/{name}_{id}", base.as_str()).expect(rt, "memory")
}

/// The path of an entry of the folder at `top`.
pub fn entry(rt: &(impl Abort + AllocGlobal), top: &str, name: &str) -> String {
    format!(in rt.alloc(); "{top}{name}").expect(rt, "memory")
}

/// Makes a folder with a file, a link to it from beside it, one from inside it to the top, and one
/// to nothing.
fn make_tree(rt: &(impl Abort + AllocGlobal + Files), top: &str) {
    fs::create_dir(rt, top).expect(rt, "the top");
    fs::create_dir(rt, entry(rt, top, "/d").as_str()).expect(rt, "a folder");
    fs::write(rt, entry(rt, top, "/d/f").as_str(), "x").expect(rt, "a file");
    make_link(rt, top, "/d", "/link");
    make_link(rt, top, "", "/d/up");
    make_link(rt, top, "/gone", "/lost");
}

fn make_link(rt: &(impl Abort + AllocGlobal + Files), top: &str, to: &str, name: &str) {
    let to = entry(rt, top, to);
    symlink(rt, to.as_str(), entry(rt, top, name).as_str()).expect(rt, name);
}

/// Scans the folder, and returns how many paths were found.
fn count(
    rt: &(impl Abort + AllocGlobal),
    scan: &mut impl Scan<Global>,
    top: &str,
    recursive: bool,
) -> u64 {
    scan.scan(&path(rt, rt.alloc(), top), recursive)
        .expect(rt, "memory");
    scan.found().len() as u64
}

/// The number that was found at an entry.
fn number(
    rt: &(impl Abort + AllocGlobal),
    scan: &impl Scan<Global>,
    top: &str,
    name: &str,
) -> Option<FileId> {
    let wanted = path(rt, rt.alloc(), entry(rt, top, name).as_str());
    for (found, number) in scan.found() {
        if *found == wanted {
            return Some(*number);
        }
    }
    None
}

/// The numbers of a file, of the same one after a link, and of the file once it has another name.
fn numbers(
    rt: &(impl Abort + AllocGlobal + Files),
    scan: &mut impl Scan<Global>,
    top: &str,
) -> [Option<FileId>; 3] {
    let file = number(rt, scan, top, "/d/f");
    let linked = number(rt, scan, top, "/link/f");
    let to = entry(rt, top, "/g");
    fs::rename(rt, entry(rt, top, "/d/f").as_str(), to.as_str()).expect(rt, "a rename");
    count(rt, scan, top, true);
    [file, linked, number(rt, scan, top, "/g")]
}

/// How many paths are found in the folder, and how many with what is below it; and whether a file has one
/// number by each of its names, which is 1.
fn scan_tree<R: Files + Alloc + Abort + AllocGlobal + Copy + Drop>(rt: R, top: &str) -> [u64; 3] {
    let mut scan = FolderScan::new(rt, rt.alloc());
    let near = count(&rt, &mut scan, top, false);
    let all = count(&rt, &mut scan, top, true);
    let [file, linked, renamed] = numbers(&rt, &mut scan, top);
    let is_same = file.is_some() && linked == file && renamed == file;
    [near, all, is_same as u64]
}

/// Scans a tree in a folder of this number's.
fn check_scans<R: Files + Alloc + Abort + AllocGlobal + Env + Copy + Drop>(rt: R, id: u32) {
    let top = new_top(&rt, id, "file_ids");
    make_tree(&rt, top.as_str());
    let got = scan_tree(rt, top.as_str());
    fs::remove_dir_all(&rt, top.as_str()).expect(&rt, "it is there");
    check_numbers(&rt, &got, &[3, 5, 1], "near, all, same file");
}

#[test]
fn folders_are_scanned_behind_links(rt: HostRuntime) {
    check_scans(rt, process::id(rt.process()));
}

/// How many files are enough that a folder grows by their names.
const MANY: u32 = 100;

/// Makes files with long names in the folder.
fn fill(rt: &(impl Abort + AllocGlobal + Files), top: &str) {
    for number in 0..MANY {
        let name = format!(in rt.alloc(); "/{number:0200}").expect(rt, "memory");
        fs::write(rt, entry(rt, top, name.as_str()).as_str(), "x").expect(rt, "a file");
    }
}

/// What a round lists that watches the folder.
fn list_top(rt: &(impl Abort + AllocGlobal + Files + Clock + Copy), top: &str) -> Listing {
    let mut folders = RealFolders::with_modified_times(*rt, rt.alloc());
    let roots = root(rt, rt.alloc(), top);
    list(rt.alloc(), &mut folders, roots.as_slice()).expect(rt, "no call fails")
}

/// Fills the folder. Returns how many events say that something was created, and how many there are.
fn grow<R: Files + Clock + Abort + AllocGlobal + Copy>(rt: &R, top: &str) -> [u64; 2] {
    let before = list_top(rt, top);
    fill(rt, top);
    let after = list_top(rt, top);
    created(rt, &before, &after)
}

/// Fills a folder of this number's.
fn check_growth<R: Files + Clock + Abort + AllocGlobal + Env + Copy>(rt: &R, id: u32) {
    let top = new_top(rt, id, "grows");
    fs::create_dir(rt, top.as_str()).expect(rt, "the top");
    let got = grow(rt, top.as_str());
    fs::remove_dir_all(rt, top.as_str()).expect(rt, "it is there");
    check_numbers(rt, &got, &[100, 100], "created, events");
}

#[test]
fn a_folder_that_grows_has_not_changed_itself(rt: HostRuntime) {
    check_growth(&rt, process::id(rt.process()));
}

/// How many events between the listings say that something was created, and how many there are.
fn created(rt: &(impl Abort + AllocGlobal), before: &Listing, after: &Listing) -> [u64; 2] {
    let events = compare(rt.alloc(), before, after).expect(rt, "memory");
    let mut created = 0u64;
    for event in &events {
        if let EventKind::Create(_) = event.kind {
            created = created.saturating_add(1);
        }
    }
    [created, events.len() as u64]
}

/// Watches an entry of the folder, and returns the word for what is answered.
fn watch_entry<D: Folders<Global>>(
    rt: &(impl Abort + AllocGlobal),
    polled: &mut Polled,
    folders: &mut D,
    top: &str,
    name: &str,
) -> &'static str {
    let place = path(rt, rt.alloc(), entry(rt, top, name).as_str());
    match polled.watch(folders, &place, RecursiveMode::Recursive) {
        Ok(()) => "watched",
        Err(error) => word_of(rt, &error),
    }
}

/// The word for why a watch is refused.
fn word_of(rt: &impl AllocGlobal, error: &Error) -> &'static str {
    if *error == Error::new(rt.alloc(), ErrorKind::PathNotFound) {
        "missing"
    } else {
        "another error"
    }
}

/// Has the link `/link` of the tree lead to the file `/d/f`.
fn lead_to_the_file(rt: &(impl Abort + AllocGlobal + Files), top: &str) {
    fs::remove_file(rt, entry(rt, top, "/link").as_str()).expect(rt, "the link");
    make_link(rt, top, "/d/f", "/link");
}

/// What is answered to a watch of a file behind the link, and, once the link leads to a file, to watches of
/// what lies below the link and below a file. Between them a round is made.
fn watch_entries<D: Folders<Global>>(
    rt: &(impl Abort + AllocGlobal + Files),
    folders: &mut D,
    top: &str,
    notes: &mut Notes,
) -> [&'static str; 3] {
    let mut polled = Polled::new(rt.alloc());
    let there = watch_entry(rt, &mut polled, folders, top, "/link/f");
    lead_to_the_file(rt, top);
    polled.round(folders, notes);
    let below_a_link = watch_entry(rt, &mut polled, folders, top, "/link/g");
    let below_a_file = watch_entry(rt, &mut polled, folders, top, "/d/f/g");
    drop(polled);
    [there, below_a_link, below_a_file]
}

/// The same in the real file system, and how many of its calls failed.
fn watch_real<R: Files + Clock + Abort + AllocGlobal + Copy + Drop>(
    rt: R,
    top: &str,
    notes: &mut Notes,
) -> ([&'static str; 3], u64) {
    let mut folders = RealFolders::new(rt, rt.alloc());
    let answers = watch_entries(&rt, &mut folders, top, notes);
    (answers, folders.failures())
}

/// Watches in a tree in a folder of this number's.
fn check_watches<R: Files + Clock + Abort + AllocGlobal + Env + Copy + Drop>(rt: R, id: u32) {
    let top = new_top(&rt, id, "below_a_file");
    make_tree(&rt, top.as_str());
    let mut notes = Notes::new(&rt);
    let (answers, failures) = watch_real(rt, top.as_str(), &mut notes);
    fs::remove_dir_all(&rt, top.as_str()).expect(&rt, "it is there");
    check_answers(&rt, answers, failures);
    check_removed(&rt, &mut notes, top.as_str());
}

fn check_answers(rt: &impl Abort, answers: [&'static str; 3], failures: u64) {
    check_text(rt, answers[0], "watched", "a file behind a link");
    check_text(rt, answers[1], "missing", "below a link to a file");
    check_text(rt, answers[2], "missing", "below a file");
    check_numbers(rt, &[failures], &[0], "failures");
}

#[test]
fn a_root_below_a_file_or_a_link_to_one_is_missing(rt: HostRuntime) {
    check_watches(rt, process::id(rt.process()));
}

/// Checks that nothing was reported but the removal of the file behind the link.
fn check_removed(rt: &(impl Abort + AllocGlobal), notes: &mut Notes, top: &str) {
    let gone = format!(in rt.alloc(); "Remove(File) {top}/link/f").expect(rt, "memory");
    check_text(rt, notes.take().as_str(), gone.as_str(), "what is reported");
}
