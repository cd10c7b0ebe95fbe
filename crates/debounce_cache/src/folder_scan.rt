//! A scan of the real file system, for a cache of file numbers.
//!
//! ```text
//! let cache = FileIdMap::new(rt.alloc(), FolderScan::new(rt, rt.alloc()));
//! let mut core = DebounceDataInner::new(rt.alloc(), cache, 50);
//! ```
ghost use Rattle.debounce_cache.specs.Scans.{some_scans};

use crate::scan::Scan;
use debounce_model::FileId;
use notify_paths::{Error, PathBuf};
use std::alloc::{AllocError, Allocator, Global};
use std::fs::{DirEntry, Files};
use std::os::unix::fs::MetadataExt;
use std::{fs, io};

/// How many levels below a path are scanned. The system takes no longer path than 4096 bytes, and
/// so none with more names than this.
const MAX_DEPTH: u32 = 2048;

/// A scan of the real file system. A file's number is that of its device with its inode's.
///
/// Links are followed, but a link to a folder that it lies in is left out, and so is what can't be
/// read and a name that isn't UTF-8.
#[derive(Drop)]
pub struct FolderScan<R: Drop, A: Allocator = Global> {
    rt: R,
    alloc: A,
    found: Vec<(PathBuf<A>, FileId), A>,
}

/// A folder that was found: its place among the pairs, and the folder that it lies in.
#[derive(Clone, Copy)]
struct Folder {
    place: usize,
    above: Option<usize>,
}

impl<R: Drop, A: Allocator + Copy> FolderScan<R, A> {
    /// Returns a scan that has found nothing so far.
    pub fn new(rt: R, alloc: A) -> FolderScan<R, A> {
        FolderScan {
            rt,
            alloc,
            found: Vec::new(alloc),
        }
    }
}

impl<A: Allocator + Copy, R: Files + Alloc + Clone + Drop> FolderScan<R, A> {
    /// Scans the path, and so many levels below it.
    fn scan_levels(&mut self, path: &PathBuf<A>, depth: u32) -> Result<(), AllocError> {
        self.found.clear();
        let mut folders = Vec::new(self.alloc);
        self.add(&mut folders, path.clone()?, None)?;
        self.add_levels(&mut folders, depth)
    }

    /// Adds what is in the folders, then what is in those that were found so, and so on.
    fn add_levels(&mut self, folders: &mut Vec<Folder, A>, depth: u32) -> Result<(), AllocError> {
        let mut done = 0;
        for _level in 0..depth {
            let count = folders.len();
            if done == count {
                return Ok(());
            }
            for index in done..count {
                self.add_folder(folders, index)?;
            }
            done = count;
        }
        Ok(())
    }

    /// Adds what is in the folder of this index.
    fn add_folder(&mut self, folders: &mut Vec<Folder, A>, index: usize) -> Result<(), AllocError> {
        match self.folder_path(folders.as_slice(), index)? {
            Some(path) => self.add_entries(folders, index, &path),
            None => Ok(()),
        }
    }

    /// A copy of the path of the folder of this index.
    fn folder_path(
        &self,
        folders: &[Folder],
        index: usize,
    ) -> Result<Option<PathBuf<A>>, AllocError> {
        let Some(folder) = folders.get(index) else {
            return Ok(None);
        };
        match self.found.get(folder.place) {
            Some((path, _id)) => Ok(Some(path.clone()?)),
            None => Ok(None),
        }
    }

    /// Adds the entries of the folder at this path.
    fn add_entries(
        &mut self,
        folders: &mut Vec<Folder, A>,
        index: usize,
        path: &PathBuf<A>,
    ) -> Result<(), AllocError> {
        let Some(entries) = readable(fs::read_dir(&self.rt, path.as_str()))? else {
            return Ok(());
        };
        for entry in entries {
            self.add_entry(folders, index, path, entry)?;
        }
        Ok(())
    }

    /// Adds an entry of the folder at this path, if it can be read.
    fn add_entry(
        &mut self,
        folders: &mut Vec<Folder, A>,
        index: usize,
        path: &PathBuf<A>,
        entry: io::Result<DirEntry<R, R::A>>,
    ) -> Result<(), AllocError> {
        match entry_path(path, entry)? {
            Some(child) => self.add(folders, child, Some(index)),
            None => Ok(()),
        }
    }

    /// Adds the path, if it can be read and isn't a link to a folder that it lies in.
    fn add(
        &mut self,
        folders: &mut Vec<Folder, A>,
        path: PathBuf<A>,
        above: Option<usize>,
    ) -> Result<(), AllocError> {
        match self.enter(folders, &path, above)? {
            Some(id) => self.add_pair(path, id),
            None => Ok(()),
        }
    }

    fn add_pair(&mut self, path: PathBuf<A>, id: FileId) -> Result<(), AllocError> {
        self.found.push((path, id))?;
        Ok(())
    }

    /// The number of the file at the path. A folder is noted, at the place that its pair will have.
    /// There is none if the path can't be read, or is a link to a folder that it lies in.
    fn enter(
        &self,
        folders: &mut Vec<Folder, A>,
        path: &PathBuf<A>,
        above: Option<usize>,
    ) -> Result<Option<FileId>, AllocError> {
        let Some((id, is_folder)) = self.look(path)? else {
            return Ok(None);
        };
        if is_folder {
            if self.lies_in(folders.as_slice(), above, id) {
                return Ok(None);
            }
            let place = self.found.len();
            folders.push(Folder { place, above })?;
        }
        Ok(Some(id))
    }

    /// The number of the file at the path, and whether it is a folder.
    fn look(&self, path: &PathBuf<A>) -> Result<Option<(FileId, bool)>, AllocError> {
        let Some(metadata) = readable(fs::metadata(&self.rt, path.as_str()))? else {
            return Ok(None);
        };
        let id = FileId {
            device: metadata.dev(),
            number: u128::from(metadata.ino()),
        };
        Ok(Some((id, metadata.is_dir())))
    }

    /// Whether the folder of this index, or one that it lies in, has this number.
    fn lies_in(&self, folders: &[Folder], index: Option<usize>, id: FileId) -> bool {
        let mut next = index;
        for _step in 0..folders.len() {
            let Some(index) = next else {
                return false;
            };
            let Some(folder) = folders.get(index) else {
                return false;
            };
            if self.has_number(folder.place, id) {
                return true;
            }
            next = folder.above;
        }
        false
    }

    fn has_number(&self, place: usize, id: FileId) -> bool {
        match self.found.get(place) {
            Some((_path, found)) => *found == id,
            None => false,
        }
    }
}

impl<A: Allocator + Copy, R: Files + Alloc + Clone + Drop> Scan<A> for FolderScan<R, A> {
    ghost rules = { some_scans (λ s. s.found.items) };

    fn scan(&mut self, path: &PathBuf<A>, recursive: bool) -> Result<(), Error<A>> {
        let depth = if recursive { MAX_DEPTH } else { 1 };
        match self.scan_levels(path, depth) {
            Ok(()) => Ok(()),
            Err(_) => Err(Error::out_of_memory(self.alloc)),
        }
    }

    fn found(&self) -> &[(PathBuf<A>, FileId)] {
        self.found.as_slice()
    }
}

/// The path of an entry of the folder at this path, if it can be read.
fn entry_path<R: Files + Drop, A: Allocator + Copy, B: Allocator>(
    path: &PathBuf<A>,
    entry: io::Result<DirEntry<R, B>>,
) -> Result<Option<PathBuf<A>>, AllocError> {
    match readable(entry)? {
        Some(entry) => path.child(entry.file_name()),
        None => Ok(None),
    }
}

/// What was read, or `None` if it can't be read. An error says that an allocation failed.
fn readable<T: Drop>(read: io::Result<T>) -> Result<Option<T>, AllocError> {
    match read {
        Ok(value) => Ok(Some(value)),
        Err(e) if e.kind() == io::ErrorKind::OutOfMemory => Err(AllocError),
        Err(_) => Ok(None),
    }
}
