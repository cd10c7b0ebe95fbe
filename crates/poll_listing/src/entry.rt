//! What stands at a path.
ghost use Rattle.std.specs.Prelude.{◌≡◌};
ghost use Rattle.poll_listing.specs.Changes.{removal_of, creation_of, is_same_number, is_same_state, is_same_time};
ghost use Rattle.poll_listing.specs.Listing.{is_same_kind};
ghost use Rattle.poll_listing.specs.Moves.{is_known, is_one_file};
ghost use Rattle.poll_listing.specs.declared.entry.EntryKind.TheVariants.{File, Folder};

use notify_types::{CreateKind, EventKind, RemoveKind};

/// What kind of thing stands at a path. A link is an `Other`.
#[derive(Clone, Copy, Debug, PartialEq, Eq)]
pub enum EntryKind {
    File,
    Folder,
    Other,
}

impl EntryKind {
    /// Whether the two kinds are one: `==`, as the definitions test it.
    pub fn is_same(self, other: EntryKind) -> bool
        ensures { result ≡ is_same_kind self other }
    {
        match (self, other) {
            (EntryKind::File, EntryKind::File)
            | (EntryKind::Folder, EntryKind::Folder)
            | (EntryKind::Other, EntryKind::Other) => true,
            _ => false,
        }
    }

    /// Whether it is a folder.
    pub fn is_folder(self) -> bool
        ensures { result ≡ is_same_kind Folder self }
    {
        self.is_same(EntryKind::Folder)
    }

    /// Whether it is a file.
    pub fn is_file(self) -> bool
        ensures { result ≡ is_same_kind File self }
    {
        self.is_same(EntryKind::File)
    }

    /// Returns the kind of event that tells of a removal.
    pub fn removal(self) -> EventKind
        ensures { result ≡ removal_of self }
    {
        match self {
            EntryKind::File => EventKind::Remove(RemoveKind::File),
            EntryKind::Folder => EventKind::Remove(RemoveKind::Folder),
            EntryKind::Other => EventKind::Remove(RemoveKind::Other),
        }
    }

    /// Returns the kind of event that tells of a creation.
    pub fn creation(self) -> EventKind
        ensures { result ≡ creation_of self }
    {
        match self {
            EntryKind::File => EventKind::Create(CreateKind::File),
            EntryKind::Folder => EventKind::Create(CreateKind::Folder),
            EntryKind::Other => EventKind::Create(CreateKind::Other),
        }
    }
}

/// The number that a file system has for what stands at a path.
#[derive(Clone, Copy, Debug, PartialEq, Eq)]
pub enum FileNumber {
    /// It has none, or nobody asked for it.
    Unknown,
    /// The device, and the number on it.
    Known(u32, u64),
}

impl FileNumber {
    /// Whether the two numbers are the same, or neither is known.
    pub fn is_same(self, other: FileNumber) -> bool
        ensures { result ≡ is_same_number self other }
    {
        match (self, other) {
            (FileNumber::Unknown, FileNumber::Unknown) => true,
            (FileNumber::Known(device, file), FileNumber::Known(other_device, other_file)) => {
                device == other_device && file == other_file
            }
            _ => false,
        }
    }

    /// Whether it is known.
    pub fn is_known(self) -> bool
        ensures { result ≡ is_known self }
    {
        matches!(self, FileNumber::Known(_, _))
    }
}

/// What stands at a path, and its length in bytes.
#[derive(Clone, Copy, Debug, PartialEq, Eq)]
pub struct Found {
    pub kind: EntryKind,
    /// 0 for all but a file, if a listing was read from folders.
    pub length: u64,
    /// When it was modified last, in nanoseconds since 1970. `None` for a folder, whose time follows its
    /// entries, and if nobody asked for it or it isn't known.
    pub modified: Option<u64>,
    /// What is at another path later has the same number there.
    pub number: FileNumber,
}

impl Found {
    /// Whether the two have the same length, the same modified time and the same number.
    pub fn is_same_state(self, after: Found) -> bool
        ensures { result ≡ is_same_state self after }
    {
        self.length == after.length
            && is_same_time(self.modified, after.modified)
            && self.number.is_same(after.number)
    }

    /// Whether this is the same file, before it moved: its number is known, and kind, length, modified time and
    /// number are the same.
    pub fn is_one_file(self, after: Found) -> bool
        ensures { result ≡ is_one_file self after }
    {
        self.number.is_known() && self.kind.is_same(after.kind) && self.is_same_state(after)
    }
}

/// Whether the two times are the same, or neither is known.
fn is_same_time(before: Option<u64>, after: Option<u64>) -> bool
    ensures { result ≡ is_same_time before after }
{
    match (before, after) {
        (None, None) => true,
        (Some(before), Some(after)) => before == after,
        _ => false,
    }
}
