//! A queue is taken out, or all that lie below a path, and their fronts out of the index. None of it can
//! fail.
ghost use Rattle.std.specs.Prelude.{◌≡◌};
ghost use Rattle.debounce_model.specs.Queues.{without_queue, without_below};
ghost use Rattle.debounce_queues.specs.Fronts.{IsIndexed};

use crate::front::Front;
use crate::index::IndexedMap;
use notify_paths::{PathBuf, copy_first_below, count_below, drop_below as drop_keys_below};
use std::alloc::Allocator;
use std::mem::replace;

impl<A: Allocator + Copy> IndexedMap<A> {
    /// Takes out what waits at the path. It takes no memory.
    pub(crate) fn take_out(&mut self, path: &PathBuf<A>)
        requires { IsIndexed self.old.fronts self.old.map.entries }
        ensures map { self.new.map.entries ≡ without_queue self.old.map.entries path.now }
        ensures indexed { IsIndexed self.new.fronts self.new.map.entries }
    {
        match self.map.remove_entry(path) {
            None => {}
            Some(entry) => {
                let (key, queue) = entry;
                match queue.front_time() {
                    None => {}
                    Some(time) => {
                        self.fronts.remove(&Front { time, path: key });
                    }
                }
            }
        }
    }

    /// Takes out what waits at the first path below, if there is memory for a copy of it in `spare`.
    fn remove_first_below(&mut self, path: &PathBuf<A>)
        requires { IsIndexed self.old.fronts self.old.map.entries }
        ensures left { without_below self.new.map.entries path.now
            ≡ without_below self.old.map.entries path.now }
        ensures indexed { IsIndexed self.new.fronts self.new.map.entries }
    {
        if copy_first_below(&self.map, path, &mut self.spare) {
            let first = replace(&mut self.spare, PathBuf::empty(self.alloc));
            self.take_out(&first);
            self.spare = first;
        }
    }

    /// Takes out what waits at the first `count` paths below, as far as there is memory for a copy of
    /// each.
    fn remove_below(&mut self, path: &PathBuf<A>, count: usize)
        requires { IsIndexed self.old.fronts self.old.map.entries }
        ensures left { without_below self.new.map.entries path.now
            ≡ without_below self.old.map.entries path.now }
        ensures indexed { IsIndexed self.new.fronts self.new.map.entries }
    {
        for _step in 0..count {
            self.remove_first_below(path);
        }
    }

    /// Takes out what lies below the path by a look at each pair of the index.
    fn remove_all_below(&mut self, path: &PathBuf<A>)
        requires { IsIndexed self.old.fronts self.old.map.entries }
        ensures left { self.new.map.entries ≡ without_below self.old.map.entries path.now }
        ensures indexed { IsIndexed self.new.fronts self.new.map.entries }
    {
        drop_keys_below(&mut self.map, path, &mut self.spare);
        self.fronts.retain(|front| !front.path.is_below(path));
    }

    /// Drops what waits strictly below the path.
    ///
    /// If nothing lies below, it looks at one key. Few paths below are taken out one by one, each after a
    /// copy of it to `spare`, whatever path that held; so if `spare` has room for each path, no memory is
    /// asked for. If more than a sixteenth of the queues lie below, or a copy is refused, it goes over all.
    pub(crate) fn drop_below(&mut self, path: &PathBuf<A>)
        requires { IsIndexed self.old.fronts self.old.map.entries }
        ensures left { self.new.map.entries ≡ without_below self.old.map.entries path.now }
        ensures indexed { IsIndexed self.new.fronts self.new.map.entries }
    {
        let count = count_below(&self.map, path);
        if count == 0 {
            return;
        }
        if count <= self.map.len() / 16 {
            self.remove_below(path, count);
            if count_below(&self.map, path) == 0 {
                return;
            }
        }
        self.remove_all_below(path);
    }
}
