//! A table of file numbers that its owner fills.
ghost use Rattle.std.specs.Prelude.{◌≡◌, [], true, false, length, OnOk, OnErr, IsTrue};
ghost use Rattle.std.specs.BTreeMap.{is_at};
ghost use Rattle.std.specs.Map.{lookup};
ghost use Rattle.notify_paths.specs.Path.{path_cmp};
ghost use Rattle.debounce_c.specs.Numbered.Marks.{IsNoneGone, gone_at, marked, numbers_of, restored, settled, table_rules, with_mark};
ghost use Rattle.debounce_c.specs.Numbered.MarkLaws.{table-rescan, table-stopped};
ghost use Rattle.debounce_c.specs.Numbered.Numbers.{number_at};

use debounce_cache::FileIdCache;
use debounce_model::FileId;
use notify_paths::{Error, PathBuf};
use notify_types::RecursiveMode;
use std::alloc::{AllocError, Global};
use std::collections::BTreeMap;
use std::marker::Model;

/// A number, and whether it was taken out.
#[derive(Clone, Copy)]
pub struct Marked {
    pub id: FileId,
    pub is_gone: bool,
}

/// The numbers that were said, of which some may be taken out, until they are dropped or brought back.
///
/// A path that is added is not looked up: whoever adds it says its number.
#[derive(Drop)]
pub struct NumberTable {
    entries: BTreeMap<PathBuf, Marked>,
    /// Whether a number may be taken out.
    has_marks: bool,
}

impl Model for NumberTable {
    ghost use Rattle.std.specs.Prelude.{◌≡◌, false};
    ghost use Rattle.debounce_c.specs.Numbered.Marks.{Marks, IsNoneGone};

    ghost Value = { Marks };

    ghost view = { λ a. a.entries.entries };

    ghost invariant = { λ a. a.has_marks ≡ false → IsNoneGone a.entries.entries };
}

impl NumberTable {
    /// A table without numbers.
    pub fn new(alloc: Global) -> NumberTable
        ensures { result ≡ [] }
    {
        NumberTable {
            entries: BTreeMap::new(alloc),
            has_marks: false,
        }
    }

    /// How many paths have a number.
    pub fn len(&self) -> usize
        ensures { result ≡ length self.now }
    {
        self.entries.len()
    }

    fn entry(&self, path: &PathBuf) -> Option<Marked>
        ensures { result ≡ lookup (is_at (path_cmp path.now)) self.now }
    {
        self.entries.get(path).copied()
    }

    /// The number of the path, also if it is taken out.
    pub fn number(&self, path: &PathBuf) -> Option<FileId>
        ensures { result ≡ number_at (numbers_of self.now) path.now }
    {
        match self.entry(path) {
            Some(marked) => Some(marked.id),
            None => None,
        }
    }

    /// The path has this number from now on. If there is no memory for it, nothing has changed.
    pub fn insert(&mut self, path: PathBuf, id: FileId) -> Result<(), AllocError>
        ensures ok { OnOk result (self.new ≡ with_mark self.old path id) }
        ensures err { OnErr result (self.new ≡ self.old) }
    {
        let marked = Marked { id, is_gone: false };
        match self.entries.insert(path, marked) {
            Ok(_) => Ok(()),
            Err(_) => Err(AllocError),
        }
    }

    /// The numbers at the path and below it are taken out, until they are dropped or brought back.
    pub fn take_out(&mut self, path: &PathBuf)
        ensures { self.new ≡ marked path.now self.old }
    {
        if self.entries.len() == 0 {
            return;
        }
        self.has_marks = true;
        self.entries
            .retain(|key, number| take_out(path, key, number));
    }

    /// Whether nothing is taken out, for sure.
    pub fn is_settled(&self) -> bool
        ensures { IsTrue result → IsNoneGone self.now }
    {
        !self.has_marks
    }

    /// What was taken out is dropped.
    pub fn settle(&mut self)
        ensures { self.new ≡ settled self.old }
    {
        if !self.has_marks {
            return;
        }
        self.entries.retain(|_, number| !number.is_gone);
        self.has_marks = false;
    }

    /// What was taken out is there again.
    pub fn restore(&mut self)
        ensures { self.new ≡ restored self.old }
    {
        if !self.has_marks {
            return;
        }
        self.entries.retain(|_, number| bring_back(number));
        self.has_marks = false;
    }
}

/// Takes a number out if its path lies at this one or below it; it stays in the table.
fn take_out(path: &PathBuf, key: &PathBuf, number: &mut Marked) -> bool
    ensures changed { number.new ≡ gone_at path.now key.now number.old }
    ensures stays { result ≡ true }
{
    if key.starts_with(path) {
        number.is_gone = true;
    }
    true
}

/// Brings a number back; it stays in the table.
fn bring_back(number: &mut Marked) -> bool
    ensures changed { number.new ≡ record number.old { is_gone = false } }
    ensures stays { result ≡ true }
{
    number.is_gone = false;
    true
}

impl FileIdCache<Global> for NumberTable {
    ghost rules = { table_rules };

    fn cached_file_id(&self, path: &PathBuf) -> Option<FileId> {
        self.number(path)
    }

    fn add_path(&mut self, _path: &PathBuf, _mode: RecursiveMode) -> Result<(), Error> {
        Ok(())
    }

    fn remove_path(&mut self, path: &PathBuf) -> Result<(), Error> {
        self.take_out(path);
        Ok(())
    }

    ghost rescan_leaves = { table-rescan };

    ghost rescan_refused = { table-stopped };
}
