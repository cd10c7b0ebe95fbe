//! The real folder of a scene.
use crate::scene::{Host, Scene, number, split};
use crate::words::given;
use notify_debouncer_full::{Listing, PathBuf, RealFolders, RecursiveMode, list};
use std::alloc::{AllocError, Global};
use std::fs::Files;
use std::os::unix::fs::symlink;
use std::time::{Duration, UNIX_EPOCH};
use std::{fs, io};
use test_fakes::allocator::TestHeap;

/// Plays a line that changes the folder, or one that is of no folder.
pub fn play_file_line<R: Host, A: TestHeap>(scene: &mut Scene<R, A>, line: &str) -> io::Result<()> {
    let (verb, word) = split(line);
    match verb {
        "mkdir" | "mkdir_once" | "write" | "write_more" | "unlink" | "swap" => {
            change(&scene.rt, verb, scene.entry(word)?.as_str())
        }
        "link" => turn_link(scene, word),
        "wall" => set_wall(scene, word),
        _ => scene.play_line(line),
    }
}

/// Changes what stands at this place.
fn change(rt: &impl Files, verb: &str, place: &str) -> io::Result<()> {
    match verb {
        "mkdir" => make_folder(rt, place),
        "mkdir_once" => {
            // Another run may have made it.
            let _ = make_folder(rt, place);
            Ok(())
        }
        "write" => write_file(rt, place, "x"),
        "write_more" => write_file(rt, place, "xx"),
        "unlink" => fs::remove_file(rt, place),
        _ => swap(rt, place),
    }
}

pub fn make_folder(rt: &impl Files, place: &str) -> io::Result<()> {
    fs::create_dir(rt, place)
}

pub fn remove_folder(rt: &(impl AllocGlobal + Files), place: &str) -> io::Result<()> {
    fs::remove_dir_all(rt, place)
}

pub fn write_file(rt: &impl Files, place: &str, text: &str) -> io::Result<()> {
    fs::write(rt, place, text)
}

/// Puts a folder in the file's place.
fn swap(rt: &impl Files, place: &str) -> io::Result<()> {
    fs::remove_file(rt, place)?;
    make_folder(rt, place)
}

/// Lets the link `l` of the folder lead to this entry.
fn turn_link<R: Host, A: TestHeap>(scene: &Scene<R, A>, to: &str) -> io::Result<()> {
    let next = scene.entry("/next")?;
    symlink(&scene.rt, scene.entry(to)?.as_str(), next.as_str())?;
    fs::rename(&scene.rt, next.as_str(), scene.entry("/l")?.as_str())
}

/// Has the wall clock stand so many milliseconds after the entry was modified.
fn set_wall<R: Host, A: TestHeap>(scene: &Scene<R, A>, words: &str) -> io::Result<()> {
    let (name, later) = split(words);
    let modified = modified_of(&scene.rt, scene.entry(name)?.as_str())?;
    let later = Duration::from_millis(number(later));
    scene.stage.clock.set_wall(modified.saturating_add(later));
    Ok(())
}

/// When it was modified, since 1970.
fn modified_of(rt: &impl Files, place: &str) -> io::Result<Duration> {
    let modified = fs::metadata(rt, place)?.modified()?;
    modified
        .duration_since(UNIX_EPOCH)
        .map_err(|_| io::Error::from(io::ErrorKind::InvalidData))
}

/// The paths that are there: the folder, what is above it, and what is below.
pub fn paths_there<R: Host>(rt: R, top: PathBuf) -> io::Result<Vec<PathBuf>> {
    let roots = [(top, RecursiveMode::Recursive)];
    let mut folders = RealFolders::new(rt, rt.alloc());
    let listing = list(rt.alloc(), &mut folders, &roots);
    drop((folders, roots));
    let listing = given(listing)?;
    let paths = paths_of(rt.alloc(), &listing);
    drop(listing);
    Ok(paths?)
}

/// The paths of the listing's entries.
fn paths_of(alloc: Global, listing: &Listing) -> Result<Vec<PathBuf>, AllocError> {
    let mut paths = Vec::new(alloc);
    for (path, _found) in listing.iter() {
        paths.push(path.clone()?)?;
    }
    Ok(paths)
}
