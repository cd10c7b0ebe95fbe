//! How a file of the copy is written.
ghost use Rattle.std.specs.Prelude.{◌≡◌, Some, IfOk};
ghost use Rattle.std.specs.String.{string_bytes};
ghost use Rattle.notify_paths.specs.PathMoves.{child_of};
ghost use Rattle.program_copy.specs.Files.Writes.{IsPartialName};

use crate::files::disk::Disk;
use notify_paths::PathBuf;
use reader_paths::plan::Target;
use std::alloc::Global;
use std::fs::{FileTimes, Metadata, OpenFile};
use std::io;
use std::os::unix::fs::MetadataExt;

/// The name in the copy under which a file is written, before it gets its own. If it is taken, a number is
/// put after it.
const PARTIAL: &str = ".folder_mirror.partial";

/// A file of the folder, opened.
#[derive(Drop)]
pub(crate) struct Original<F: Drop> {
    file: F,
    found: Metadata,
}

impl<F: OpenFile + Drop> Original<F> {
    /// Opens the file that stands at the path. What has come in its place meanwhile, as a link, isn't read.
    pub(crate) fn open<D: Disk<File = F>>(disk: &D, path: &str) -> io::Result<Original<F>> {
        let found = disk.look(path)?;
        if !found.is_file() {
            return Err(io::Error::from(io::ErrorKind::InvalidInput));
        }
        let file = disk.open(path)?;
        let opened = file.metadata()?;
        if opened.dev() != found.dev() || opened.ino() != found.ino() {
            return Err(io::Error::from(io::ErrorKind::InvalidInput));
        }
        Ok(Original {
            file,
            found: opened,
        })
    }
}

/// The name of this number.
pub(crate) fn partial_name(alloc: Global, number: u64) -> io::Result<String>
    ensures { IfOk result (λ name. IsPartialName (string_bytes name)) }
{
    let mut name = String::from_str(alloc, PARTIAL)?;
    if number > 0 {
        name.push_str(format!(in alloc; ".{number}")?.as_str())?;
    }
    Ok(name)
}

/// The path of this name in the copy.
pub(crate) fn target_named<'c>(to: &'c PathBuf, name: &str) -> io::Result<Target<'c>>
    ensures { IfOk result (λ target. child_of to.now name.now ≡ Some target.path) }
{
    match Target::named(to, name) {
        Ok(Some(target)) => Ok(target),
        Ok(None) => Err(io::Error::from(io::ErrorKind::InvalidInput)),
        Err(_) => Err(io::Error::from(io::ErrorKind::OutOfMemory)),
    }
}

/// Whether the folder has something of this name.
pub(crate) fn has_name<D: Disk>(disk: &D, folder: &PathBuf, name: &str) -> io::Result<bool> {
    match folder.child(name) {
        Ok(Some(path)) => Ok(disk.look(path.as_str()).is_ok()),
        Ok(None) => Ok(false),
        Err(_) => Err(io::Error::from(io::ErrorKind::OutOfMemory)),
    }
}

/// Writes the file's bytes into the new one, and gives it the same permissions and modified time. A time that
/// can't be set is none that matters.
pub(crate) fn fill<F: io::Read + io::Write + OpenFile + Drop>(
    mut original: Original<F>,
    mut file: F,
) -> io::Result<()> {
    io::copy(&mut original.file, &mut file)?;
    file.set_permissions(original.found.permissions())?;
    if let Ok(time) = original.found.modified() {
        let _ = file.set_times(FileTimes::new().set_modified(time));
    }
    Ok(())
}
