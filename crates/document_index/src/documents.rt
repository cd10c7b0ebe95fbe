//! Documents, read from files.
ghost use Rattle.std.specs.Prelude.{◌≡◌, IfErr, IfOk, OnOk};
ghost use Rattle.std.specs.Map.{keys_of};
ghost use Rattle.poll_listing.specs.Listing.{ListingValue};
ghost use Rattle.program_frame.specs.declared.fault.Fault.TheVariants.{Memory};
ghost use Rattle.reader_paths.specs.Plan.Naming.{namings};
ghost use Rattle.document_index.specs.Read.{IsReadAmong, PutsAt};

use notify_debouncer_full::{
    DebouncedEvent, Folders, Found, PathBuf, RealFolders, RecursiveMode, list,
};
use program_frame::Fault;
use program_logic::words::{Before, ReadsDocuments, Words, words_of};
use reader_paths::plan::name_listed;
use std::collections::BTreeMap;
use std::fs::Files;
use std::time::Clock;
use std::{fs, io};

/// What stands below a folder, read anew at each call, but for a file that moved and is as it was. What is no text has
/// no words; what can't be read, as a file that permission closes, counts as missing until it can.
#[derive(Drop)]
pub(crate) struct Documents<R: Drop> {
    rt: R,
    pub(crate) folder: PathBuf,
}

impl<R: Files + Clock + AllocGlobal + Copy + Drop> Documents<R> {
    /// Returns the documents below the folder.
    pub(crate) fn new(rt: R, folder: PathBuf) -> Documents<R> {
        Documents { rt, folder }
    }

    /// Returns a batch that names all that stands at the folder and below it.
    pub(crate) fn all(&self) -> Result<Vec<DebouncedEvent>, Fault>
        ensures { IfOk result (λ batch. (listing : ListingValue)
            × (batch.items ≡ namings self.now.folder listing)) }
    {
        let alloc = self.rt.alloc();
        let mut folders = self.folders()?;
        let root = (self.folder.clone()?, RecursiveMode::Recursive);
        let listing = match list(alloc, &mut folders, &[root]) {
            Ok(listing) => listing,
            Err(error) => return Err(Fault::of(&error, Fault::CannotWatch)),
        };
        let mut batch = Vec::new(alloc);
        name_listed(&mut batch, &listing, &self.folder)?;
        Ok(batch)
    }

    /// Reads what stands at these paths.
    fn read_all(
        &self,
        paths: &BTreeMap<PathBuf, ()>,
        before: &Before<'_>,
    ) -> Result<BTreeMap<PathBuf, Words>, Fault>
        ensures among { IfOk result (λ read.
            IsReadAmong (keys_of paths.now.entries) read.entries) }
        ensures err { IfErr result (λ e. e ≡ Memory) }
    {
        let mut read = BTreeMap::new(self.rt.alloc());
        for path in paths.keys() {
            self.read_one(&mut read, path, before)?;
        }
        Ok(read)
    }

    /// Puts in the words of what stands at the path, if something does.
    fn read_one(
        &self,
        read: &mut BTreeMap<PathBuf, Words>,
        path: &PathBuf,
        before: &Before<'_>,
    ) -> Result<(), Fault>
        ensures put { OnOk result (PutsAt path.now read.old.entries read.new.entries) }
        ensures err { IfErr result (λ e. e ≡ Memory) }
    {
        let key = path.clone()?;
        if let Some(words) = self.words_at(path, before)? {
            read.insert(key, words)?;
        }
        Ok(())
    }

    /// What is looked at, with modified times and numbers. A link is followed at the folder itself, and nowhere else.
    fn folders(&self) -> Result<RealFolders<R>, Fault>
        ensures { IfErr result (λ e. e ≡ Memory) }
    {
        let alloc = self.rt.alloc();
        let mut folders = RealFolders::with_modified_times(self.rt, alloc);
        folders.tell_numbers();
        let mut followed = Vec::new(alloc);
        followed.push(self.folder.clone()?)?;
        folders.follow(&mut followed);
        Ok(folders)
    }

    /// The words of what stands at the path, if something does that can be read. Links aren't followed.
    fn words_at(&self, path: &PathBuf, before: &Before<'_>) -> Result<Option<Words>, Fault>
        ensures { IfErr result (λ e. e ≡ Memory) }
    {
        let mut folders = self.folders()?;
        match folders.look(path) {
            Ok(Some(found)) if found.kind.is_file() => {
                self.words_of_file(&mut folders, path, found, before)
            }
            Ok(Some(found)) if found.kind.is_folder() => Ok(Some(Words::new(self.rt.alloc()))),
            Ok(_) | Err(_) => Ok(None),
        }
    }

    /// The words of the file. If it moved, and is as it was when they were read, it isn't read again.
    fn words_of_file(
        &self,
        folders: &mut RealFolders<R>,
        path: &PathBuf,
        found: Found,
        before: &Before<'_>,
    ) -> Result<Option<Words>, Fault>
        ensures { IfErr result (λ e. e ≡ Memory) }
    {
        match before.words(path) {
            Some(words) if words.is_of(found) => Ok(Some(words.try_clone()?)),
            _ => self.words_read(folders, path, found),
        }
    }

    /// The words of the file, read anew, as those of what was found.
    fn words_read(
        &self,
        folders: &mut RealFolders<R>,
        path: &PathBuf,
        found: Found,
    ) -> Result<Option<Words>, Fault>
        ensures { IfErr result (λ e. e ≡ Memory) }
    {
        let Some(words) = self.words_in(path)? else {
            return Ok(None);
        };
        // Another file may have come there before it was opened: then nobody knows whose words these are.
        match folders.look(path) {
            Ok(Some(now)) if found.is_one_file(now) => Ok(Some(words.of(found))),
            Ok(_) | Err(_) => Ok(Some(words)),
        }
    }

    /// The words of the file, if it can be read. One that is no text has none.
    fn words_in(&self, path: &PathBuf) -> Result<Option<Words>, Fault>
        ensures { IfErr result (λ e. e ≡ Memory) }
    {
        let alloc = self.rt.alloc();
        match fs::read_to_string(&self.rt, path.as_str()) {
            Ok(text) => Ok(Some(words_of(alloc, text.as_str())?)),
            Err(error) => match error.kind() {
                io::ErrorKind::OutOfMemory => Err(Fault::Memory),
                io::ErrorKind::InvalidData => Ok(Some(Words::new(alloc))),
                _ => Ok(None),
            },
        }
    }
}

// In a method of a trait, a call of what asks for a `DebouncerRuntime` has no proof.
impl<R: Files + Clock + AllocGlobal + Copy + Drop> ReadsDocuments for Documents<R> {
    // What a file holds is in no contract; but nothing is read at another path.
    ghost reads = { λ documents paths read. IsReadAmong paths read };

    fn read(
        &self,
        paths: &BTreeMap<PathBuf, ()>,
        before: &Before<'_>,
    ) -> Result<BTreeMap<PathBuf, Words>, Fault> {
        self.read_all(paths, before)
    }

    /// Nothing stands there, or a file that couldn't be read: whoever asks has read nothing there.
    fn is_missing(&self, path: &PathBuf) -> bool {
        let Ok(mut folders) = self.folders() else {
            return true;
        };
        match folders.look(path) {
            Ok(Some(found)) => found.kind.is_file(),
            Ok(None) | Err(_) => true,
        }
    }
}
