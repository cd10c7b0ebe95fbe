//! What a script answers, in words.
use std::fs::Metadata;
use std::io::{Error, ErrorKind};

/// The kinds of errors and their words.
const KINDS: [(&str, ErrorKind); 14] = [
    ("NotFound", ErrorKind::NotFound),
    ("PermissionDenied", ErrorKind::PermissionDenied),
    ("NotADirectory", ErrorKind::NotADirectory),
    ("IsADirectory", ErrorKind::IsADirectory),
    ("AlreadyExists", ErrorKind::AlreadyExists),
    ("DirectoryNotEmpty", ErrorKind::DirectoryNotEmpty),
    ("FilesystemLoop", ErrorKind::FilesystemLoop),
    ("ReadOnlyFilesystem", ErrorKind::ReadOnlyFilesystem),
    ("StorageFull", ErrorKind::StorageFull),
    ("CrossesDevices", ErrorKind::CrossesDevices),
    ("Interrupted", ErrorKind::Interrupted),
    ("OutOfMemory", ErrorKind::OutOfMemory),
    ("Unsupported", ErrorKind::Unsupported),
    ("Other", ErrorKind::Other),
];

/// The error of this word. Another word is an error of a kind of its own, which no code under test expects.
pub fn error_of(word: &str) -> Error {
    for (name, kind) in &KINDS {
        if *name == word {
            return Error::from(*kind);
        }
    }
    Error::from(ErrorKind::Deadlock)
}

/// What stands at a path, in words. It is `None` if the word says another thing.
pub fn metadata_of(word: &str) -> Option<Metadata> {
    match word {
        "folder" => Some(Metadata::of_dir()),
        "link" => Some(Metadata::of_symlink(0)),
        "file" => Some(Metadata::of_file(0)),
        _ => match word.strip_prefix("file ")?.parse::<u64>() {
            Ok(length) => Some(Metadata::of_file(length)),
            Err(_) => None,
        },
    }
}
