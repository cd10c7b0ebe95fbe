//! A reader's set of paths.
ghost use Rattle.std.specs.Prelude.{◌≡◌, [], IfOk, IfErr, OnOk, OnErr};
ghost use Rattle.std.specs.Map.{keys_of};
ghost use Rattle.notify_paths.specs.Errors.{out_of_memory};
ghost use Rattle.debounce_model.specs.Play.{has_path, with_path, without_at, play_one, play, events_of};
ghost use Rattle.reader_paths.specs.Played.{with_paths};

use notify_paths::{Error, PathBuf, drop_at_or_below};
use notify_types::{DebouncedEvent, Event};
use std::alloc::{AllocError, Allocator, Global};
use std::collections::BTreeMap;
use std::marker::Model;

/// A set of paths: what a reader of events believes to be there.
#[derive(Drop)]
pub struct PathSet<A: Allocator = Global> {
    pub(crate) paths: BTreeMap<PathBuf<A>, (), A>,
    pub(crate) alloc: A,
}

impl<A: Allocator> Model for PathSet<A> {
    ghost use Rattle.debounce_model.specs.Play.{Paths};

    ghost Value = { Paths };

    ghost use Rattle.std.specs.Map.{keys_of};

    ghost view = { λ a. keys_of a.paths.entries };
}

impl<A: Allocator + Copy> PathSet<A> {
    /// Returns the set with no path.
    pub fn new(alloc: A) -> PathSet<A>
        ensures { result ≡ [] }
    {
        PathSet {
            paths: BTreeMap::new(alloc),
            alloc,
        }
    }

    /// Returns the set of these paths.
    pub fn from_paths(alloc: A, paths: Vec<PathBuf<A>, A>) -> Result<PathSet<A>, Error<A>>
        ensures ok { IfOk result (λ set. set ≡ with_paths [] paths.items) }
        ensures err { IfErr result (λ e. e ≡ out_of_memory) }
    {
        let mut set = PathSet::new(alloc);
        for path in paths {
            set.insert(path)?;
        }
        Ok(set)
    }

    /// Puts the path into the set, if it isn't there yet.
    pub fn insert(&mut self, path: PathBuf<A>) -> Result<(), Error<A>>
        ensures ok { OnOk result (self.new ≡ with_path self.old path) }
        ensures unchanged { OnErr result (self.new ≡ self.old) }
        ensures err { IfErr result (λ e. e ≡ out_of_memory) }
    {
        let Ok(_) = self.paths.insert(path, ()) else {
            return Err(Error::out_of_memory(self.alloc));
        };
        Ok(())
    }

    /// Whether the path is in the set.
    pub fn contains(&self, path: &PathBuf<A>) -> bool
        ensures { result ≡ has_path self.now path.now }
    {
        self.paths.contains_key(path)
    }

    /// Returns the paths, in their order.
    pub fn to_list(&self) -> Result<Vec<PathBuf<A>, A>, Error<A>>
        ensures ok { IfOk result (λ list. list.items ≡ self.now) }
        ensures err { IfErr result (λ e. e ≡ out_of_memory) }
    {
        key_list(&self.paths, self.alloc).map_err(|_| Error::out_of_memory(self.alloc))
    }

    /// Plays the events on the set, one after the other: a creation adds its first path, and a
    /// removal takes its first path and all below it away. A refusal leaves the set as it was.
    pub fn play(&mut self, events: &[DebouncedEvent<A>]) -> Result<(), Error<A>>
        ensures ok { OnOk result (self.new ≡ play self.old (events_of events.now)) }
        ensures unchanged { OnErr result (self.new ≡ self.old) }
        ensures err { IfErr result (λ e. e ≡ out_of_memory) }
    {
        let mut played = self.try_clone()?;
        played.play_in_place(events)?;
        *self = played;
        Ok(())
    }

    /// Plays the events on the set itself. If an allocation fails, some of them may be played.
    pub(crate) fn play_in_place(&mut self, events: &[DebouncedEvent<A>]) -> Result<(), Error<A>>
        ensures ok { OnOk result (self.new ≡ play self.old (events_of events.now)) }
        ensures err { IfErr result (λ e. e ≡ out_of_memory) }
    {
        for event in events {
            self.play_event(&event.event)?;
        }
        Ok(())
    }

    /// Plays one event on the set.
    pub(crate) fn play_event(&mut self, event: &Event<A>) -> Result<(), Error<A>>
        ensures ok { OnOk result (self.new ≡ play_one self.old event.now) }
        ensures err { IfErr result (λ e. e ≡ out_of_memory) }
    {
        let Some(path) = event.first_path() else {
            return Ok(());
        };
        if event.kind.is_creation() {
            return self.insert(path.try_clone()?);
        }
        if event.kind.is_removal() {
            let mut spare = PathBuf::empty(self.alloc);
            take_away(&mut self.paths, path, &mut spare);
        }
        Ok(())
    }

    /// Returns an equal set.
    pub fn try_clone(&self) -> Result<PathSet<A>, Error<A>>
        ensures ok { IfOk result (λ copy. copy ≡ self.now) }
        ensures err { IfErr result (λ e. e ≡ out_of_memory) }
    {
        match self.paths.clone() {
            Ok(paths) => Ok(PathSet {
                paths,
                alloc: self.alloc,
            }),
            Err(_) => Err(Error::out_of_memory(self.alloc)),
        }
    }
}

/// Copies of the map's keys, in their order.
fn key_list<A: Allocator + Copy>(
    map: &BTreeMap<PathBuf<A>, (), A>,
    alloc: A,
) -> Result<Vec<PathBuf<A>, A>, AllocError>
    ensures { IfOk result (λ list. list.items ≡ keys_of map.now.entries) }
{
    let mut list = Vec::with_capacity(alloc, map.len())?;
    for path in map.keys() {
        list.push(path.clone()?)?;
    }
    Ok(list)
}

/// Takes away what lies at or below the path.
fn take_away<A: Allocator>(
    map: &mut BTreeMap<PathBuf<A>, (), A>,
    path: &PathBuf<A>,
    spare: &mut PathBuf<A>,
)
    ensures { keys_of map.new.entries ≡ without_at (keys_of map.old.entries) path.now }
{
    drop_at_or_below(map, path, spare);
}
