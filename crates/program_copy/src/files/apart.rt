//! Whether two folders lie apart.
use program_frame::Fault;
use std::fs::{self, Files};
use std::path::{Path, PathBuf};

/// It is a fault if one of the folders lies in the other, also if the copy isn't there yet.
pub fn check_apart<R: Files + AllocGlobal>(rt: &R, from: &str, to: &str) -> Result<(), Fault> {
    let Ok(from) = fs::canonicalize(rt, from) else {
        return Err(Fault::NotThere);
    };
    let mut is_there = true;
    for place in Path::new(to).ancestors() {
        if let Some(real) = real_path(rt, place) {
            // A folder that will be made lies in the first folder on its way up, and nothing lies in it.
            let is_apart = !real.starts_with(&from) && !(is_there && from.starts_with(&real));
            return if is_apart {
                Ok(())
            } else {
                Err(Fault::NotApart)
            };
        }
        is_there = false;
    }
    Ok(())
}

/// The path of what is there without links and dots. The empty path stands for the current folder.
fn real_path<R: Files + AllocGlobal>(rt: &R, place: Path<'_>) -> Option<PathBuf> {
    if place.as_os_str().is_empty() {
        fs::canonicalize(rt, ".").ok()
    } else {
        fs::canonicalize(rt, place).ok()
    }
}
