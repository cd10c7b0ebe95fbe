//! What stands at a path, by what the system says of it.
ghost use Rattle.std.specs.Prelude.{◌≡◌, ◌≤◌, ◌<◌, ◌^◌, None, false, true};
ghost use Rattle.poll_listing.specs.Listing.{is_same_kind};
ghost use Rattle.poll_listing.specs.declared.entry.EntryKind.TheVariants.{Folder};
ghost use Rattle.poll_listing.specs.declared.entry.FileNumber.TheVariants.{Known, Unknown};

use crate::entries::times::ModifiedTimes;
use poll_listing::{EntryKind, FileNumber, Found};
use std::fs::Metadata;
use std::os::unix::fs::MetadataExt;
use std::time::Clock;

/// What kind of thing stands there. A link is an `Other`.
fn kind_of(metadata: &Metadata) -> EntryKind {
    if metadata.is_file() {
        EntryKind::File
    } else if metadata.is_dir() {
        EntryKind::Folder
    } else {
        EntryKind::Other
    }
}

/// The number of the file with this number on the device. No file has number 0, nor a device a number of more than
/// 32 bits: they come of a file system that numbers nothing.
fn number_of(device: u64, file: u64) -> FileNumber
    ensures known { (device < 2 ^ 32) → (1 ≤ file) → result ≡ Known device file }
    ensures device { (2 ^ 32 ≤ device) → result ≡ Unknown }
    ensures file { file ≡ 0 → result ≡ Unknown }
{
    match u32::try_from(device) {
        Ok(device) if file != 0 => FileNumber::Known(device, file),
        _ => FileNumber::Unknown,
    }
}

/// What stands there, with its modified time and its number if they are asked for. A folder's time follows its
/// entries, and isn't told.
pub fn found_of(
    clock: &impl Clock,
    metadata: &Metadata,
    times: &mut Option<ModifiedTimes>,
    numbers: bool,
) -> Found
    ensures folder { is_same_kind Folder result.kind ≡ true → result.modified ≡ None }
    ensures unnumbered { numbers ≡ false → result.number ≡ Unknown }
{
    let kind = kind_of(metadata);
    let modified = match times {
        Some(times) if !kind.is_folder() => times.told(clock, metadata),
        _ => None,
    };
    Found {
        kind,
        length: if kind.is_file() { metadata.len() } else { 0 },
        modified,
        number: if numbers {
            number_of(metadata.dev(), metadata.ino())
        } else {
            FileNumber::Unknown
        },
    }
}
