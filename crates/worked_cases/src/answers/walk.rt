//! A scan that finds some of a few files, as scripts/answers/walkdir.rs does for the Rust crate.
ghost use Rattle.notify_debouncer_full.specs.Scans.{some_scans};

use notify_debouncer_full::{Error, FileId, FileIdCache, FileIdMap, PathBuf, RecursiveMode, Scan};
use std::alloc::{AllocError, Global};

/// The paths of the files.
const PATHS: [&str; 10] = [
    "/a", "/a/b", "/a/b/c", "/a/d", "/ab", "/ab/b", "/b", "/b/a", "/c", "/d",
];

/// A scan of which the nth, counted from 1, finds the files that lie in its path. The number of a file is n
/// plus the place of its path, modulo 4; one whose number would be 0 isn't found.
#[derive(Drop)]
pub struct Walk {
    alloc: Global,
    scans: u64,
    found: Vec<(PathBuf, FileId)>,
    /// A line for each scan, with its mode and path.
    asked: String,
}

/// A map that is filled by such scans.
pub type Map = FileIdMap<Walk>;

impl Walk {
    pub fn new(alloc: Global) -> Walk {
        Walk {
            alloc,
            scans: 0,
            found: Vec::new(alloc),
            asked: String::new(alloc),
        }
    }

    /// Returns a line for each scan.
    pub fn asked(&self) -> &str {
        self.asked.as_str()
    }

    fn walk(&mut self, root: &PathBuf, recursive: bool) -> Result<(), AllocError> {
        self.scans = self.scans.saturating_add(1);
        let mode = if recursive {
            "Recursive"
        } else {
            "NonRecursive"
        };
        write!(self.asked, "scan {mode} ")?;
        push_path(&mut self.asked, root)?;
        self.asked.push('\n')?;
        self.find(root, recursive)
    }

    fn find(&mut self, root: &PathBuf, recursive: bool) -> Result<(), AllocError> {
        self.found.clear();
        let mut number = self.scans % 4;
        for text in PATHS {
            if number != 0 {
                self.find_file(root, recursive, path_of(self.alloc, text)?, number)?;
            }
            number = number.wrapping_add(1) % 4;
        }
        Ok(())
    }

    fn find_file(
        &mut self,
        root: &PathBuf,
        recursive: bool,
        path: PathBuf,
        number: u64,
    ) -> Result<(), AllocError> {
        if is_found(root, recursive, &path)? {
            let id = FileId {
                device: 1,
                number: u128::from(number),
            };
            self.found.push((path, id))?;
        }
        Ok(())
    }
}

/// Whether a scan of the root comes to the path.
fn is_found(root: &PathBuf, recursive: bool, path: &PathBuf) -> Result<bool, AllocError> {
    if recursive || path == root {
        return Ok(path.starts_with(root));
    }
    match path.parent()? {
        Some(parent) => Ok(parent == *root),
        None => Ok(false),
    }
}

impl Scan<Global> for Walk {
    ghost rules = { some_scans (λ s. s.found.items) };

    fn scan(&mut self, path: &PathBuf, recursive: bool) -> Result<(), Error> {
        match self.walk(path, recursive) {
            Ok(()) => Ok(()),
            Err(_) => Err(Error::out_of_memory(self.alloc)),
        }
    }

    fn found(&self) -> &[(PathBuf, FileId)] {
        self.found.as_slice()
    }
}

/// The path that a word of a script says.
pub fn path_of(alloc: Global, word: &str) -> Result<PathBuf, AllocError> {
    let text = if word == "\"\"" { "" } else { word };
    match PathBuf::parse(alloc, text) {
        Ok(path) => Ok(path),
        Err(_) => Err(AllocError),
    }
}

/// Appends the path as a script has it.
pub fn push_path(text: &mut String, path: &PathBuf) -> Result<(), AllocError> {
    if path.is_empty() {
        return text.push_str("\"\"");
    }
    path.write_text(text)
}

/// Appends a line with the number that the map has for each file, and how many numbers and scans there are.
pub fn push_numbers(alloc: Global, text: &mut String, map: &Map) -> Result<(), AllocError> {
    text.push_str("numbers")?;
    for word in PATHS {
        let path = path_of(alloc, word)?;
        match map.cached_file_id(&path) {
            Some(id) => write!(text, " {}", id.number)?,
            None => text.push_str(" -")?,
        }
    }
    writeln!(text, " of {} scans {}", map.len(), map.scan().scans)
}

/// The mode that a word of a script says.
pub fn mode_of(word: &str) -> RecursiveMode {
    if word == "Recursive" {
        RecursiveMode::Recursive
    } else {
        RecursiveMode::NonRecursive
    }
}
