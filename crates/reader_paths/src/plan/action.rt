//! Actions on a copy of a folder.
use notify_paths::PathBuf;
use std::alloc::{Allocator, Global};
use std::marker::Model;

/// What is copied, if it stands at a path. Links and devices aren't.
#[derive(Clone, Copy, Debug, PartialEq, Eq)]
pub enum Standing {
    Folder,
    File,
}

/// What a copy is to have at a path, which is the original's and not the copy's. If nothing is wanted,
/// what stands there goes, with all below it.
#[derive(Drop)]
pub struct Action<A: Allocator = Global> {
    pub path: PathBuf<A>,
    pub wanted: Option<Standing>,
}

impl<A: Allocator> Model for Action<A> {
    ghost use Rattle.reader_paths.specs.Plan.Action.{ActionValue};

    ghost Value = { ActionValue };

    ghost view = { λ a. record { path = a.path; wanted = a.wanted } };
}
