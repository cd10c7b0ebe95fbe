//! A polling watcher over folders whose type tells what they hold.
ghost use Rattle.std.specs.Prelude.{◌≡◌, false, IfErr, Ok};
ghost use Rattle.notify_paths.specs.Errors.{out_of_memory};
ghost use Rattle.notify_watch.specs.declared.config.WatcherKind.TheVariants as watcher_kind;
ghost use Rattle.poll_watcher.specs.Roots.Polled.{IsUnwatchError, WatchesOrRefuses};

use notify_paths::{Error, PathBuf};
use notify_types::{Event, RecursiveMode};
use notify_watch::{Config, EventHandler, Watcher, WatcherKind};
use poll_watcher::{PollWatcher, RoundTask};
use std::alloc::Allocator;
use std::fs::Files;
use std::marker::PhantomData;
use std::sync::Wait;
use std::time::Clock;
use test_fakes::folders::{FixedFolders, FixedTree};

/// A polling watcher over folders that hold the tree of `K`. Its thread is that of a [`PollWatcher`].
#[derive(Drop)]
pub struct FixedWatcher<K: FixedTree<A> + Drop, R: Wait + Drop, A: Allocator> {
    alloc: A,
    inner: PollWatcher<R, A>,
    of: PhantomData<K>,
}

impl<
    F: EventHandler<Result<Event<A>, Error<A>>> + Send,
    K: FixedTree<A> + Drop + Send + 'static,
    R: Clock + Wait + Files + Alloc + Copy + Send + Sync + 'static,
    A: Allocator + Copy + Send + Sync + 'static,
> Watcher<F, R, A> for FixedWatcher<K, R, A> {
    type Task = RoundTask<F, R, A, FixedFolders<K, A>>;

    ghost takes = { λ handler. F.ready handler };

    ghost refuses = { λ e. e ≡ out_of_memory };

    ghost kind_of = { watcher_kind.PollWatcher };

    ghost watches = { λ before path mode result after. WatchesOrRefuses (path, mode) result };

    ghost unwatches = { λ before path result after. IfErr result IsUnwatchError };

    ghost configures = { λ before config result after. result ≡ Ok false };

    fn new(
        rt: R,
        alloc: A,
        handler: F,
        config: Config,
    ) -> Result<
        (
            FixedWatcher<K, R, A>,
            RoundTask<F, R, A, FixedFolders<K, A>>,
        ),
        Error<A>,
    > {
        let folders = FixedFolders::new(alloc)?;
        let (inner, task) = PollWatcher::over(rt, alloc, handler, config, folders)?;
        let watcher = FixedWatcher {
            alloc,
            inner,
            of: PhantomData,
        };
        Ok((watcher, task))
    }

    fn watch(&mut self, path: &PathBuf<A>, mode: RecursiveMode) -> Result<(), Error<A>> {
        let mut folders = FixedFolders::<K, A>::new(self.alloc)?;
        self.inner.watch_in(&mut folders, path, mode)
    }

    fn unwatch(&mut self, path: &PathBuf<A>) -> Result<(), Error<A>> {
        <PollWatcher<R, A> as Watcher<F, R, A>>::unwatch(&mut self.inner, path)
    }

    fn configure(&mut self, _config: Config) -> Result<bool, Error<A>> {
        Ok(false)
    }

    fn look_last(&mut self) {
        <PollWatcher<R, A> as Watcher<F, R, A>>::look_last(&mut self.inner);
    }

    fn kind() -> WatcherKind {
        WatcherKind::PollWatcher
    }
}
