//! The numbers of the kinds, as C names them.
ghost use Rattle.std.specs.Prelude.{◌≡◌};
ghost use Rattle.notify_types.specs.KindNumbers.{kind_number};
ghost use Rattle.debounce_c.specs.Desk.Said.{kind_of};
ghost use Rattle.debounce_c.specs.Desk.Tells.{error_number};
ghost use Rattle.notify_paths.specs.ErrorView.{kind_value};

use notify_paths::ErrorKind;
use notify_types::{
    AccessKind, AccessMode, CreateKind, DataChange, EventKind, MetadataKind, ModifyKind,
    RemoveKind, RenameMode,
};

/// The kinds in the order of their numbers.
const KINDS: [EventKind; 41] = [
    EventKind::Any,
    EventKind::Access(AccessKind::Any),
    EventKind::Access(AccessKind::Read),
    EventKind::Access(AccessKind::Open(AccessMode::Any)),
    EventKind::Access(AccessKind::Open(AccessMode::Execute)),
    EventKind::Access(AccessKind::Open(AccessMode::Read)),
    EventKind::Access(AccessKind::Open(AccessMode::Write)),
    EventKind::Access(AccessKind::Open(AccessMode::Other)),
    EventKind::Access(AccessKind::Close(AccessMode::Any)),
    EventKind::Access(AccessKind::Close(AccessMode::Execute)),
    EventKind::Access(AccessKind::Close(AccessMode::Read)),
    EventKind::Access(AccessKind::Close(AccessMode::Write)),
    EventKind::Access(AccessKind::Close(AccessMode::Other)),
    EventKind::Access(AccessKind::Other),
    EventKind::Create(CreateKind::Any),
    EventKind::Create(CreateKind::File),
    EventKind::Create(CreateKind::Folder),
    EventKind::Create(CreateKind::Other),
    EventKind::Modify(ModifyKind::Any),
    EventKind::Modify(ModifyKind::Data(DataChange::Any)),
    EventKind::Modify(ModifyKind::Data(DataChange::Size)),
    EventKind::Modify(ModifyKind::Data(DataChange::Content)),
    EventKind::Modify(ModifyKind::Data(DataChange::Other)),
    EventKind::Modify(ModifyKind::Metadata(MetadataKind::Any)),
    EventKind::Modify(ModifyKind::Metadata(MetadataKind::AccessTime)),
    EventKind::Modify(ModifyKind::Metadata(MetadataKind::WriteTime)),
    EventKind::Modify(ModifyKind::Metadata(MetadataKind::Permissions)),
    EventKind::Modify(ModifyKind::Metadata(MetadataKind::Ownership)),
    EventKind::Modify(ModifyKind::Metadata(MetadataKind::Extended)),
    EventKind::Modify(ModifyKind::Metadata(MetadataKind::Other)),
    EventKind::Modify(ModifyKind::Name(RenameMode::Any)),
    EventKind::Modify(ModifyKind::Name(RenameMode::To)),
    EventKind::Modify(ModifyKind::Name(RenameMode::From)),
    EventKind::Modify(ModifyKind::Name(RenameMode::Both)),
    EventKind::Modify(ModifyKind::Name(RenameMode::Other)),
    EventKind::Modify(ModifyKind::Other),
    EventKind::Remove(RemoveKind::Any),
    EventKind::Remove(RemoveKind::File),
    EventKind::Remove(RemoveKind::Folder),
    EventKind::Remove(RemoveKind::Other),
    EventKind::Other,
];

/// The number of the kind.
pub fn number_of(kind: EventKind) -> u32
    ensures { result ≡ kind_number kind }
{
    match kind {
        EventKind::Any => 0,
        EventKind::Access(AccessKind::Any) => 1,
        EventKind::Access(AccessKind::Read) => 2,
        EventKind::Access(AccessKind::Open(AccessMode::Any)) => 3,
        EventKind::Access(AccessKind::Open(AccessMode::Execute)) => 4,
        EventKind::Access(AccessKind::Open(AccessMode::Read)) => 5,
        EventKind::Access(AccessKind::Open(AccessMode::Write)) => 6,
        EventKind::Access(AccessKind::Open(AccessMode::Other)) => 7,
        EventKind::Access(AccessKind::Close(AccessMode::Any)) => 8,
        EventKind::Access(AccessKind::Close(AccessMode::Execute)) => 9,
        EventKind::Access(AccessKind::Close(AccessMode::Read)) => 10,
        EventKind::Access(AccessKind::Close(AccessMode::Write)) => 11,
        EventKind::Access(AccessKind::Close(AccessMode::Other)) => 12,
        EventKind::Access(AccessKind::Other) => 13,
        EventKind::Create(CreateKind::Any) => 14,
        EventKind::Create(CreateKind::File) => 15,
        EventKind::Create(CreateKind::Folder) => 16,
        EventKind::Create(CreateKind::Other) => 17,
        EventKind::Modify(ModifyKind::Any) => 18,
        EventKind::Modify(ModifyKind::Data(DataChange::Any)) => 19,
        EventKind::Modify(ModifyKind::Data(DataChange::Size)) => 20,
        EventKind::Modify(ModifyKind::Data(DataChange::Content)) => 21,
        EventKind::Modify(ModifyKind::Data(DataChange::Other)) => 22,
        EventKind::Modify(ModifyKind::Metadata(MetadataKind::Any)) => 23,
        EventKind::Modify(ModifyKind::Metadata(MetadataKind::AccessTime)) => 24,
        EventKind::Modify(ModifyKind::Metadata(MetadataKind::WriteTime)) => 25,
        EventKind::Modify(ModifyKind::Metadata(MetadataKind::Permissions)) => 26,
        EventKind::Modify(ModifyKind::Metadata(MetadataKind::Ownership)) => 27,
        EventKind::Modify(ModifyKind::Metadata(MetadataKind::Extended)) => 28,
        EventKind::Modify(ModifyKind::Metadata(MetadataKind::Other)) => 29,
        EventKind::Modify(ModifyKind::Name(RenameMode::Any)) => 30,
        EventKind::Modify(ModifyKind::Name(RenameMode::To)) => 31,
        EventKind::Modify(ModifyKind::Name(RenameMode::From)) => 32,
        EventKind::Modify(ModifyKind::Name(RenameMode::Both)) => 33,
        EventKind::Modify(ModifyKind::Name(RenameMode::Other)) => 34,
        EventKind::Modify(ModifyKind::Other) => 35,
        EventKind::Remove(RemoveKind::Any) => 36,
        EventKind::Remove(RemoveKind::File) => 37,
        EventKind::Remove(RemoveKind::Folder) => 38,
        EventKind::Remove(RemoveKind::Other) => 39,
        EventKind::Other => 40,
    }
}

/// The kind of this number; of no kind's number it is `Any`.
pub fn kind_of(number: u32) -> EventKind
    ensures { result ≡ kind_of number }
{
    let i = number as usize;
    if i < KINDS.len() {
        KINDS[i]
    } else {
        EventKind::Any
    }
}

/// The number of the kind of an error.
pub fn error_number(kind: &ErrorKind) -> u32
    ensures { result ≡ error_number (kind_value kind.now) }
{
    match kind {
        ErrorKind::Generic(_) => 0,
        ErrorKind::Io(_) => 1,
        ErrorKind::PathNotFound => 2,
        ErrorKind::WatchNotFound => 3,
        ErrorKind::Full => 4,
        ErrorKind::Memory => 5,
    }
}
