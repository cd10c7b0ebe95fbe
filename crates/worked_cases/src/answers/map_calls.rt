//! Calls of a map of file numbers.
use crate::answers::walk::{Map, Walk, mode_of, path_of, push_numbers};
use notify_debouncer_full::{FileIdCache, FileIdMap, PathBuf, RecursiveMode};
use std::alloc::{AllocError, Global};

/// What comes of the calls, a line each: the numbers after each of them, and at the end what was scanned.
pub fn carried_out(alloc: Global, calls: &str) -> Result<String, AllocError> {
    let mut text = String::new(alloc);
    let mut map = FileIdMap::new(alloc, Walk::new(alloc));
    for line in calls.lines() {
        call(alloc, &mut map, line)?;
        push_numbers(alloc, &mut text, &map)?;
    }
    text.push_str(map.scan().asked())?;
    Ok(text)
}

/// Makes the call that the line says: `add MODE PATH`, `remove PATH`, or `rescan` with a mode and a path for
/// each root.
fn call(alloc: Global, map: &mut Map, line: &str) -> Result<(), AllocError> {
    let (word, rest) = line.split_once(' ').unwrap_or((line, ""));
    let made = match word {
        "remove" => map.remove_path(&path_of(alloc, rest)?),
        "rescan" => map.rescan(roots_of(alloc, rest)?.as_slice()),
        _ => {
            let (path, mode) = root_of(alloc, rest)?;
            map.add_path(&path, mode)
        }
    };
    match made {
        Ok(()) => Ok(()),
        Err(_) => Err(AllocError),
    }
}

/// The roots that the words say.
fn roots_of(alloc: Global, words: &str) -> Result<Vec<(PathBuf, RecursiveMode)>, AllocError> {
    let mut roots = Vec::new(alloc);
    let mut mode = RecursiveMode::Recursive;
    for word in words.split(' ') {
        match word {
            "" => {}
            "Recursive" | "NonRecursive" => mode = mode_of(word),
            _ => roots.push((path_of(alloc, word)?, mode))?,
        }
    }
    Ok(roots)
}

/// The root that two words say.
fn root_of(alloc: Global, words: &str) -> Result<(PathBuf, RecursiveMode), AllocError> {
    let (mode, path) = words.split_once(' ').unwrap_or((words, ""));
    Ok((path_of(alloc, path)?, mode_of(mode)))
}
