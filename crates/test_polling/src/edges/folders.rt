//! Real folders over files that a script rules.
use notify_paths::{Error, ErrorKind, PathBuf};
use notify_types::RecursiveMode;
use poll_listing::{EntryKind, Found, Listing};
use poll_rounds::{Folders, list};
use poll_watcher::RealFolders;
use std::alloc::{AllocError, Global};
use std::fs::Files;
use std::process::Abort;
use std::time::Clock;
use test_fakes::files::FakeFiles;

/// What stands at the paths of the first test, and how looks there fail.
const LOOKS: &str = "\
look /folder: folder
look /file: file 3
look /link: link
follow /link: file 4
look /lost: link
follow /lost: NotFound
look /loop: link
follow /loop: FilesystemLoop
look /gone: NotFound
look /closed: PermissionDenied
look /below a file: NotADirectory
look /broken: Other
look /tired: Interrupted";

/// What looks answer there: a link is no file, and is not followed.
const SEEN: &str = "\
/folder: Folder
/file: File 3
/link: Other
/lost: Other
/loop: Other
/gone: nothing
/closed: nothing
/below a file: nothing
/zero\0byte: nothing
/broken: error
/tired: error
";

/// What they answer if links are followed there.
const FOLLOWED: &str = "\
/folder: Folder
/file: File 3
/link: File 4
/lost: nothing
/loop: nothing
/gone: nothing
/closed: nothing
/below a file: nothing
/zero\0byte: nothing
/broken: error
/tired: error
";

#[test]
fn looks_tell_what_stands_there_what_does_not_and_what_fails(rt: HostRuntime) {
    check_looks(rt, SEEN, false);
    check_looks(rt, FOLLOWED, true);
}

/// Checks what looks answer at the paths of these lines, with links followed or not. Two of them fail.
fn check_looks<R: Files + Abort + AllocGlobal + Copy + Drop>(rt: R, wanted: &str, follows: bool) {
    let files = FakeFiles::new(rt, LOOKS).expect(&rt, "memory");
    let mut folders = RealFolders::new(files, rt.alloc());
    if follows {
        follow_all(&rt, &mut folders, wanted);
    }
    let got = looks(&rt, &mut folders, wanted);
    assert_eq!(rt; got.as_str(), wanted);
    assert_eq!(rt; folders.failures(), 2);
}

/// Has links be followed at the paths of the lines.
fn follow_all<R: Drop>(
    rt: &(impl Abort + AllocGlobal),
    folders: &mut RealFolders<R, Global>,
    lines: &str,
) {
    let mut followed = Vec::new(rt.alloc());
    for line in lines.lines() {
        followed.push(path_of(rt, line)).expect(rt, "memory");
    }
    folders.follow(&mut followed);
}

/// The path that a line begins with.
fn path_of(rt: &(impl Abort + AllocGlobal), line: &str) -> PathBuf {
    let (place, _) = line.split_once(": ").expect(rt, line);
    path(rt, place)
}

fn path(rt: &(impl Abort + AllocGlobal), text: &str) -> PathBuf {
    PathBuf::parse(rt.alloc(), text).expect(rt, "memory")
}

/// What looks answer at the paths of the lines.
fn looks<R: Files + Clock + Drop>(
    rt: &(impl Abort + AllocGlobal),
    folders: &mut RealFolders<R, Global>,
    lines: &str,
) -> String {
    let mut text = String::new(rt.alloc());
    for line in lines.lines() {
        let place = path_of(rt, line);
        let answer = folders.look(&place);
        push_look(&mut text, &place, &answer).expect(rt, "memory");
    }
    text
}

/// Adds a line that tells what a look answered.
fn push_look(
    text: &mut String,
    place: &PathBuf,
    answer: &Result<Option<Found>, Error>,
) -> Result<(), AllocError> {
    text.push_str(place.as_str())?;
    text.push(':')?;
    match answer {
        Ok(Some(found)) => push_found(text, *found)?,
        Ok(None) => text.push_str(" nothing")?,
        Err(error) => text.push_str(word_of(error))?,
    }
    text.push('\n')
}

/// Adds what was found.
fn push_found(text: &mut String, found: Found) -> Result<(), AllocError> {
    match found.kind {
        EntryKind::Folder => text.push_str(" Folder"),
        EntryKind::Other => text.push_str(" Other"),
        EntryKind::File => {
            let length = format!(in *text.allocator(); " File {}", found.length)?;
            text.push_str(length.as_str())
        }
    }
}

/// What the error is.
fn word_of(error: &Error) -> &'static str {
    match error.kind {
        ErrorKind::Io(_) => " error",
        _ => " another error",
    }
}

/// The names of folders, and how reading them fails.
const NAMES: &str = "\
names /hidden: a/.b/./../..c/.../
names /no text: a/?/b?/c/
names /many reads: a/b/|c/|d/
names /interrupted: a/|!Interrupted|!Interrupted|b/
names /broken: a/|!Other|b/
names /taken away: a/|!PermissionDenied|b/
names /empty: ./../
names /closed: PermissionDenied
names /gone: NotFound
names /below a file: NotADirectory
names /unreadable: Other";

/// What names answer there. The last number counts the names left out so far.
const LISTED: &str = "\
/hidden: a .b ..c ... 0
/no text: a c 2
/many reads: a b c d 2
/interrupted: a b 2
/broken: error 2
/taken away: error 2
/empty: 2
/closed: 2
/gone: nothing 2
/below a file: nothing 2
/zero\0byte: nothing 2
/unreadable: error 2
";

#[test]
fn names_are_read_to_the_end_or_not_at_all(rt: HostRuntime) {
    let files = FakeFiles::new(rt, NAMES).expect(&rt, "memory");
    let mut folders = RealFolders::new(files, rt.alloc());
    let got = names_of_all(&rt, &mut folders);
    assert_eq!(rt; got.as_str(), LISTED);
    assert_eq!(rt; folders.failures(), 3);
}

/// What names answer at the paths of the table.
fn names_of_all<R: Files + Clock + Drop>(
    rt: &(impl Abort + AllocGlobal),
    folders: &mut RealFolders<R, Global>,
) -> String {
    let mut text = String::new(rt.alloc());
    for line in LISTED.lines() {
        let place = path_of(rt, line);
        let answer = folders.names(&place);
        push_names(&mut text, &place, &answer).expect(rt, "memory");
        let left_out = format!(in rt.alloc(); " {}\n", folders.left_out()).expect(rt, "memory");
        text.push_str(left_out.as_str()).expect(rt, "memory");
    }
    text
}

/// Adds what names answered.
fn push_names(
    text: &mut String,
    place: &PathBuf,
    answer: &Result<Option<Vec<String>>, Error>,
) -> Result<(), AllocError> {
    text.push_str(place.as_str())?;
    text.push(':')?;
    match answer {
        Ok(Some(names)) => push_all(text, names.as_slice()),
        Ok(None) => text.push_str(" nothing"),
        Err(error) => text.push_str(word_of(error)),
    }
}

/// Adds the names.
fn push_all(text: &mut String, names: &[String]) -> Result<(), AllocError> {
    for name in names {
        text.push(' ')?;
        text.push_str(name.as_str())?;
    }
    Ok(())
}

/// How many names a large folder has, and how many of them a read gives.
const MANY: u32 = 10_000;

const EACH: u32 = 150;

#[test]
fn ten_thousand_names_are_read(rt: HostRuntime) {
    let script = large_folder(&rt);
    let files = FakeFiles::new(rt, script).expect(&rt, "memory");
    let mut folders = RealFolders::new(files, rt.alloc());
    let names = folders.names(&path(&rt, "/large"));
    assert_eq!(rt; count_of(&names), 10_000);
}

/// The script of a folder with as many names.
fn large_folder(rt: &(impl Abort + AllocGlobal)) -> &'static str {
    let mut script = String::from_str(rt.alloc(), "names /large: ").expect(rt, "memory");
    for number in 0..MANY {
        push_number(&mut script, number).expect(rt, "memory");
    }
    Box::leak(Box::new(rt.alloc(), script).expect(rt, "memory")).as_str()
}

/// Adds a name.
fn push_number(script: &mut String, number: u32) -> Result<(), AllocError> {
    let name = format!(in *script.allocator(); "the name {number}/")?;
    script.push_str(name.as_str())?;
    if number % EACH == 0 {
        script.push('|')?;
    }
    Ok(())
}

/// How many names were answered, in their order, from the first to the last one.
fn count_of(answer: &Result<Option<Vec<String>>, Error>) -> u32 {
    let mut count = 0u32;
    if let Ok(Some(names)) = answer {
        for name in names {
            if name
                .as_str()
                .strip_prefix("the name ")
                .is_some_and(|end| end.parse::<u32>() == Ok(count))
            {
                count = count.saturating_add(1);
            }
        }
    }
    count
}

/// A folder with one that permission closes, one whose names can be read, but not what stands there, one that goes
/// before its names are read, and a file that goes after they were.
const TREE: &str = "\
look /top: folder
names /top: file/gone/closed/readable/late/link/
look /top/file: file 1
look /gone: NotFound
look /closed: folder
names /closed: PermissionDenied
look /readable: folder
names /readable: x/y/
look /x: PermissionDenied
look /y: PermissionDenied
look /late: folder
names /late: NotFound
look /link: link";

/// What is listed of it, and above.
const SHOWN: &str = "\
/: Folder
/top: Folder
/top/closed: Folder
/top/file: File 1
/top/link: Other
/top/readable: Folder
";

#[test]
fn what_goes_and_what_is_closed_is_left_out(rt: HostRuntime) {
    let files = FakeFiles::new(rt, TREE).expect(&rt, "memory");
    let mut folders = RealFolders::new(files, rt.alloc());
    let listing = list_top(&rt, &mut folders).expect(&rt, "no call fails");
    let got = text_of(&rt, &listing);
    assert_eq!(rt; got.as_str(), SHOWN);
    assert_eq!(rt; folders.failures(), 0);
}

/// What is listed of the folder.
fn list_top<R: Files + Clock + Drop>(
    rt: &(impl Abort + AllocGlobal),
    folders: &mut RealFolders<R, Global>,
) -> Result<Listing, Error> {
    let root = (path(rt, "/top"), RecursiveMode::Recursive);
    list(rt.alloc(), folders, &[root])
}

/// A look at each of the ten places, and the names of four folders.
const CALLS: u64 = 14;

#[test]
fn each_call_that_fails_fails_the_listing(rt: HostRuntime) {
    for call in 0..CALLS {
        assert_eq!(rt; failures_of(rt, call), [1, 1], "call {call}");
    }
    assert_eq!(rt; failures_of(rt, CALLS), [0, 0]);
}

/// Whether the listing of the tree is an error if this call fails, and how many failures were counted.
fn failures_of<R: Files + Abort + AllocGlobal + Copy + Drop>(rt: R, call: u64) -> [u64; 2] {
    let files = FakeFiles::new(rt, TREE).expect(&rt, "memory");
    files.fail_call(call);
    let mut folders = RealFolders::new(files, rt.alloc());
    let failed = list_top(&rt, &mut folders).is_err();
    [failed as u64, folders.failures()]
}

/// The entries of a listing.
fn text_of(rt: &(impl Abort + AllocGlobal), listing: &Listing) -> String {
    let mut text = String::new(rt.alloc());
    let mut rest = listing.iter();
    while let Some((place, found)) = rest.next() {
        push_look(&mut text, place, &Ok(Some(*found))).expect(rt, "memory");
    }
    text
}
