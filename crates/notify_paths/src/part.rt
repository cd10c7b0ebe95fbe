//! The parts of a path, and the folders above it, one after the other.
ghost use Rattle.std.specs.Prelude.{◌≡◌, ◌==◌, not, length};
ghost use Rattle.std.specs.Iterator.{YieldsFirstBy, item_count};
ghost use Rattle.std.specs.Option.{option_copied};
ghost use Rattle.std.specs.Path.{path_bytes, IsWellFormedComponent};
ghost use Rattle.notify_paths.specs.PathMoves.{folder_value, name_of};
ghost use Rattle.notify_paths.specs.PathText.{parts_of};
ghost use Rattle.notify_paths.specs.PathView.{component_part, part_value, parts_left, folders_left};

use std::path::{Component, Components, Path};

/// One part of a path.
#[derive(Clone, Copy, PartialEq, Eq, Debug)]
pub enum Part<'a> {
    /// The root; it comes first.
    Root,
    /// A `.`, which comes first, in a path without a root.
    Cur,
    /// A `..`, which is kept as it is.
    Parent,
    /// A name: not empty, not `.` or `..`, and without a `/`.
    Name(&'a str),
}

impl<'a> Part<'a> {
    /// Returns the name, if the part is one.
    pub fn name(self) -> Option<&'a str>
        ensures { option_copied result ≡ name_of (part_value self.entry) }
    {
        match self {
            Part::Name(name) => Some(name),
            Part::Root | Part::Cur | Part::Parent => None,
        }
    }
}

/// The parts of a path, from the first one on. Made by `PathBuf::parts`.
#[derive(Clone, Drop)]
pub struct Parts<'a> {
    pub(crate) components: Components<'a>,
}

impl<'a> Iterator for Parts<'a> {
    type Item = Part<'a>;

    ghost next_gives = { YieldsFirstBy part_value parts_left };

    ghost remaining = { item_count parts_left };

    fn next(&mut self) -> Option<Part<'a>> {
        let component = self.components.next()?;
        Some(part_of_component(component))
    }
}

/// The folders above a path, the nearest first. Made by `PathBuf::folders`.
#[derive(Clone, Drop)]
pub struct FoldersAbove<'a> {
    pub(crate) components: Components<'a>,
}

impl<'a> Iterator for FoldersAbove<'a> {
    type Item = Path<'a>;

    ghost next_gives = { YieldsFirstBy folder_value folders_left };

    ghost remaining = { item_count folders_left };

    fn next(&mut self) -> Option<Path<'a>> {
        self.components.next_back()?;
        let folder = self.components.as_path();
        if has_part(folder) { Some(folder) } else { None }
    }
}

pub(crate) fn part_of_component(component: Component<'_>) -> Part<'_>
    requires { IsWellFormedComponent component }
    ensures { part_value result ≡ component_part component.entry }
{
    match component {
        Component::RootDir => Part::Root,
        Component::CurDir => Part::Cur,
        Component::ParentDir => Part::Parent,
        Component::Normal(name) => Part::Name(name),
    }
}

fn has_part(path: Path<'_>) -> bool
    ensures { result ≡ not (length (parts_of (path_bytes path.entry)) == 0) }
{
    path.components().next().is_some()
}
