//! Where the file lies.
ghost use Rattle.std.specs.Prelude.{◌≡◌, ◌⊎◌, IfErr, IfOk};
ghost use Rattle.program_logic.specs.Config.Places.{HasNoPlace, IsPlaceOf};
ghost use Rattle.notify_paths.specs.PathText.{parts_of};
ghost use Rattle.program_frame.specs.declared.fault.Fault.TheVariants.{CannotWatch, Memory};

use notify_paths::PathBuf;
use program_frame::Fault;
use std::alloc::{AllocError, Global};

/// A file, and the folder to watch for it.
#[derive(Drop)]
pub struct Place {
    /// The folder that the file is an entry of.
    pub folder: PathBuf,
    /// The file, as events of the folder's watcher name it.
    pub file: PathBuf,
}

impl Place {
    /// Returns the place of the file at this path. A path of one name is in the current folder: `a` is
    /// taken as `./a`. The root, `.` and `..` can't be watched so.
    pub fn parse(alloc: Global, text: &str) -> Result<Place, Fault>
        ensures ok { IfOk result (λ place. IsPlaceOf text.now place.folder place.file) }
        ensures err { IfErr result (λ e.
            ((e ≡ CannotWatch) × HasNoPlace text.now) ⊎ (e ≡ Memory)) }
    {
        let file = path_of(alloc, text)?;
        if let Some(folder) = file.parent()? {
            return Ok(Place { folder, file });
        }
        let folder = path_of(alloc, ".")?;
        match folder.child(text)? {
            Some(file) => Ok(Place { folder, file }),
            None => Err(Fault::CannotWatch),
        }
    }
}

fn path_of(alloc: Global, text: &str) -> Result<PathBuf, AllocError>
    ensures { IfOk result (λ path. path ≡ parts_of text.now) }
{
    match PathBuf::parse(alloc, text) {
        Ok(path) => Ok(path),
        Err(_) => Err(AllocError),
    }
}
