//! Rounds that tell moves.
use crate::build::{check_text, path};
use crate::folders::{entry, new_top};
use crate::trees::{Notes, number, tree};
use notify_debouncer_full::{FileNumber, PathBuf, Polled, RealFolders, RecursiveMode};
use std::alloc::Global;
use std::env::Env;
use std::fs::Files;
use std::process::Abort;
use std::time::Clock;
use std::{fs, process};
use test_fakes::folders::{ClosedFolders, NumberedFolders, TreeFolders};

type Numbered = ClosedFolders<Global, NumberedFolders<Global, TreeFolders<Global>>>;

/// What stands in the folders when their root is watched; then, line by line, what stands there at the next round,
/// with the files' numbers, and what that round tells, with trackers.
const MOVES: [&str; 12] = [
    // A file.
    "/ folder #1, /a file 3 #2
/ folder #1, /b file 3 #2 | Remove(File) /a #0, Create(File) /b #0",
    // A folder. What lay in it came along, but for what isn't the same any more.
    "/ folder #1, /d folder #2, /d/e folder #3, /d/e/f file 1 #4, /d/g file 2 #5, /d/h file 3 #6
/ folder #1, /n folder #2, /n/e folder #3, /n/e/f file 1 #4, /n/g file 9 #5, /n/h file 3 #7 | \
        Remove(Folder) /d #0, Create(Folder) /n #0, Create(Folder) /n/e #0, \
        Create(File) /n/e/f #0, Create(File) /n/g, Create(File) /n/h",
    // What is new in a folder that moved has no tracker, and what is elsewhere in it neither.
    "/ folder #1, /d folder #2, /d/f file 1 #3
/ folder #1, /n folder #2, /n/g file 1 #3, /n/h file 1 #4 | \
        Remove(Folder) /d #0, Create(Folder) /n #0, Create(File) /n/g, Create(File) /n/h",
    // Two paths have one number: which one of them moved isn't known.
    "/ folder #1, /a file 3 #2, /b file 3 #2
/ folder #1, /b file 3 #2, /c file 3 #2 | Remove(File) /a, Create(File) /c
/ folder #1, /b file 3 #2, /d file 3 #2 | Remove(File) /c, Create(File) /d",
    // A number that was used again is none, unless all else is the same.
    "/ folder #1, /a file 3 #2
/ folder #1, /b file 4 #2 | Remove(File) /a, Create(File) /b
/ folder #1, /c other #2 | Remove(File) /b, Create(Other) /c",
    // A file over a file, and a folder over a folder.
    "/ folder #1, /a file 3 #2, /b file 4 #3, /d folder #4, /d/f file 1 #5, /e folder #6
/ folder #1, /b file 3 #2, /e folder #4, /e/f file 1 #5 | \
        Remove(File) /a #0, Remove(Folder) /d #1, Create(File) /e/f, \
        Modify(Data(Any)) /b #0, Modify(Data(Any)) /e #1",
    // A file over a file of the same length.
    "/ folder #1, /a file 3 #2, /b file 3 #3
/ folder #1, /b file 3 #2 | Remove(File) /a #0, Modify(Data(Any)) /b #0",
    // A file that was replaced by one that is the same but for its number.
    "/ folder #1, /a file 3 #2
/ folder #1, /a file 3 #7 | Modify(Data(Any)) /a
/ folder #1, /a file 3 #7 | ",
    // Two moves of a round, and those of the next rounds: no tracker comes again.
    "/ folder #1, /a file 1 #2, /b file 1 #3, /c file 1 #4
/ folder #1, /c file 1 #4, /x file 1 #3, /y file 1 #2 | \
        Remove(File) /a #0, Remove(File) /b #1, Create(File) /x #1, Create(File) /y #0
/ folder #1, /x file 1 #3, /y file 1 #2, /z file 1 #4 | Remove(File) /c #4, Create(File) /z #4
/ folder #1, /a file 2 #9, /x file 1 #3, /y file 1 #2, /z file 1 #4 | Create(File) /a
/ folder #1, /a file 2 #9, /x file 1 #3, /y file 1 #2, /d file 1 #4 | \
        Remove(File) /z #7, Create(File) /d #7",
    // Files in each other's place are two changes.
    "/ folder #1, /a file 1 #2, /b file 1 #3
/ folder #1, /a file 1 #3, /b file 1 #2 | Modify(Data(Any)) /a, Modify(Data(Any)) /b",
    // What moved out of a folder that is removed has no removal of its own.
    "/ folder #1, /d folder #2, /d/f file 1 #3
/ folder #1, /f file 1 #3 | Remove(Folder) /d, Create(File) /f",
    // What has no number doesn't move.
    "/ folder, /a file 3
/ folder, /b file 3 | Remove(File) /a, Create(File) /b",
];

/// The numbers of a text, as that of `/f` in `/ folder, /f file 3 #7`.
fn numbers_of(rt: &(impl Abort + AllocGlobal), text: &str) -> Vec<(PathBuf, FileNumber)> {
    let mut numbers = Vec::new(rt.alloc());
    for entry in text.split(", ") {
        if let Some((entry, digits)) = entry.split_once(" #") {
            let (place, _) = entry.split_once(' ').expect(rt, entry);
            let known = FileNumber::Known(1, number(rt, digits));
            numbers
                .push((path(rt, rt.alloc(), place), known))
                .expect(rt, "memory");
        }
    }
    numbers
}

/// Folders that hold the entries of a text, with their numbers.
fn folders_of(rt: &(impl Abort + AllocGlobal), text: &str) -> Numbered {
    let inner = NumberedFolders::new(tree(rt, rt.alloc(), text), numbers_of(rt, text));
    ClosedFolders::new(rt.alloc(), inner, Vec::new(rt.alloc()))
}

/// Watches the root of these folders.
fn watch(rt: &(impl Abort + AllocGlobal), text: &str) -> Polled {
    let mut polled = Polled::new(rt.alloc());
    let root = path(rt, rt.alloc(), "/");
    let mut folders = folders_of(rt, text);
    polled
        .watch(&mut folders, &root, RecursiveMode::Recursive)
        .expect(rt, text);
    polled
}

/// Makes the round of a line, and checks what it tells.
fn check_round(
    rt: &(impl Abort + AllocGlobal),
    polled: &mut Polled,
    trackers: &mut Option<u64>,
    line: &str,
) {
    let (text, wanted) = line.split_once(" | ").expect(rt, line);
    let mut notes = Notes::new(rt);
    polled.kept_round(&mut folders_of(rt, text), trackers, &mut notes);
    check_text(rt, notes.take().as_str(), wanted, line);
}

/// Makes the rounds of a story.
fn check_story(rt: &(impl Abort + AllocGlobal), story: &str) {
    let (first, lines) = story.split_once('\n').expect(rt, story);
    let mut polled = watch(rt, first);
    let mut trackers = Some(0);
    for line in lines.split('\n') {
        check_round(rt, &mut polled, &mut trackers, line);
    }
    drop(polled);
}

#[test]
fn rounds_tell_moves(rt: HostRuntime) {
    for story in MOVES {
        check_story(&rt, story);
    }
}

/// Makes a folder with a file, and with a folder that has one.
fn make_files(rt: &(impl Abort + AllocGlobal + Files), top: &str) {
    fs::create_dir(rt, top).expect(rt, "the top");
    fs::write(rt, entry(rt, top, "/a").as_str(), "x").expect(rt, "a file");
    fs::create_dir(rt, entry(rt, top, "/d").as_str()).expect(rt, "a folder");
    fs::write(rt, entry(rt, top, "/d/f").as_str(), "x").expect(rt, "a file");
}

/// Renames an entry of the folder.
fn mv(rt: &(impl Abort + AllocGlobal + Files), top: &str, from: &str, to: &str) {
    let to = entry(rt, top, to);
    fs::rename(rt, entry(rt, top, from).as_str(), to.as_str()).expect(rt, from);
}

/// Watches the folder, renames its file and its folder, and makes a round.
fn move_files<R: Files + Clock + Abort + AllocGlobal + Copy + Drop>(
    rt: R,
    top: &str,
    notes: &mut Notes,
) {
    let mut folders = RealFolders::new(rt, rt.alloc());
    folders.tell_numbers();
    let mut polled = Polled::new(rt.alloc());
    let root = path(&rt, rt.alloc(), top);
    polled
        .watch(&mut folders, &root, RecursiveMode::Recursive)
        .expect(&rt, top);
    mv(&rt, top, "/a", "/b");
    mv(&rt, top, "/d", "/n");
    polled.kept_round(&mut folders, &mut Some(0), notes);
    drop(polled);
}

/// Checks what that round tells.
fn check_moved(rt: &(impl Abort + AllocGlobal), notes: &mut Notes, top: &str) {
    let wanted = format!(in rt.alloc();
        "Remove(File) {top}/a #0, Remove(Folder) {top}/d #1, \
        Create(File) {top}/b #0, Create(Folder) {top}/n #1, Create(File) {top}/n/f #1"
    );
    check_text(
        rt,
        notes.take().as_str(),
        wanted.expect(rt, "memory").as_str(),
        top,
    );
}

/// Renames in a folder of this number's.
fn check_renames<R: Files + Clock + Abort + AllocGlobal + Env + Copy + Drop>(rt: R, id: u32) {
    let top = new_top(&rt, id, "moves");
    make_files(&rt, top.as_str());
    let mut notes = Notes::new(&rt);
    move_files(rt, top.as_str(), &mut notes);
    fs::remove_dir_all(&rt, top.as_str()).expect(&rt, "it is there");
    check_moved(&rt, &mut notes, top.as_str());
}

#[test]
fn real_files_and_folders_move(rt: HostRuntime) {
    check_renames(rt, process::id(rt.process()));
}
