//! Files on a disk that is full, of another kind, or can't be written.
use std::env::Env;
use std::fs::Files;
use std::os::unix::fs::MetadataExt;
use std::process::Abort;
use std::{env, fs, io, process};
use test_fakes::files::FakeFiles;

/// What fails: all that is written, a move, and a new folder. One folder lies on another device.
const SCRIPT: &str = "\
write: StorageFull
rename: CrossesDevices
create_dir /new: ReadOnlyFilesystem
look /elsewhere: elsewhere";

#[test]
fn each_call_fails_as_the_script_says(rt: HostRuntime) {
    let top = make_top(&rt, process::id(rt.process()));
    let files = FakeFiles::new(rt, SCRIPT).expect(&rt, "memory");
    let got = try_all(&rt, &files, top.as_str());
    let left = entries(&rt, top.as_str());
    fs::remove_dir_all(&rt, top.as_str()).expect(&rt, "it is there");
    assert_eq!(rt; got, [true; 5]);
    assert_eq!(rt; left, 2);
}

/// Makes the folder of this number with two entries, the file `old` and the folder `elsewhere`.
fn make_top(rt: &(impl Abort + AllocGlobal + Env + Files), id: u32) -> String {
    let base = env::temp_dir(rt).expect(rt, "a folder for tests");
    let top = format!(in rt.alloc(); "{}/disks_{id}", base.as_str()).expect(rt, "memory");
    fs::create_dir(rt, top.as_str()).expect(rt, "the top");
    fs::write(rt, entry(rt, top.as_str(), "old").as_str(), "text").expect(rt, "a file");
    fs::create_dir(rt, entry(rt, top.as_str(), "elsewhere").as_str()).expect(rt, "a folder");
    top
}

fn entry(rt: &(impl Abort + AllocGlobal), top: &str, name: &str) -> String {
    format!(in rt.alloc(); "{top}/{name}").expect(rt, "memory")
}

/// Whether each call fails as it is to, whether what isn't in the script is read, and whether the other device is
/// another one.
fn try_all<R: Files + AllocGlobal>(
    rt: &(impl Abort + AllocGlobal),
    files: &R,
    top: &str,
) -> [bool; 5] {
    let (old, new) = (entry(rt, top, "old"), entry(rt, top, "new"));
    let renamed = fs::rename(files, old.as_str(), new.as_str());
    let made = fs::create_dir(files, new.as_str());
    let text = fs::read_to_string(files, old.as_str()).expect(rt, "it is there");
    let written = fs::write(files, old.as_str(), "another");
    [
        failed_as(&renamed, io::ErrorKind::CrossesDevices),
        failed_as(&made, io::ErrorKind::ReadOnlyFilesystem),
        failed_as(&written, io::ErrorKind::StorageFull),
        text.as_str() == "text",
        lies_elsewhere(rt, files, top),
    ]
}

fn failed_as(answer: &io::Result<()>, kind: io::ErrorKind) -> bool {
    match answer {
        Ok(()) => false,
        Err(error) => error.kind() == kind,
    }
}

/// Whether the entry `elsewhere` lies on another device than its folder.
fn lies_elsewhere<R: Files>(rt: &(impl Abort + AllocGlobal), files: &R, top: &str) -> bool {
    let here = fs::symlink_metadata(files, top).expect(rt, "the top");
    let there = fs::symlink_metadata(files, entry(rt, top, "elsewhere").as_str());
    here.dev() != there.expect(rt, "the folder").dev()
}

/// How many entries the folder has.
fn entries<R: Files + AllocGlobal + Clone + Drop>(rt: &R, top: &str) -> u64 {
    let mut count = 0u64;
    if let Ok(entries) = fs::read_dir(rt, top) {
        for _ in entries {
            count = count.saturating_add(1);
        }
    }
    count
}
