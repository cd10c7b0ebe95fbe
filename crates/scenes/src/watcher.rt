//! The watcher of the scenes, which does what its scene's lines say, and the handler.
ghost use Rattle.notify_watch.specs.Handler.{IsCalledOn};
ghost use Rattle.notify_watch.specs.declared.config.WatcherKind.TheVariants.{Other};

use crate::clock::sleep_a_turn;
use crate::stage::{Outcome, Stage, Staged, TURNS, wait_for, wait_for_flag};
use notify_debouncer_full::{
    Config, DebounceEventHandler, Error, ErrorKind, Event, EventHandler, EventKind, ListingWatcher,
    PathBuf, RecursiveMode, Task, Watcher, WatcherKind,
};
use std::alloc::Allocator;
use std::fmt::Debug;
use std::sync::Wait;
use std::sync::atomic::Ordering;
use std::time::Clock;
use test_fakes::allocator::{RefusingHeap, TestHeap};

/// A handler that writes down what it is called with, and holds its first batch until it is let go.
pub struct Scribe<R: Drop> {
    pub rt: R,
    pub stage: &'static Stage,
}

impl<R: Drop> Drop for Scribe<R> {
    fn drop(self) {
        self.stage.ended.store(true, Ordering::SeqCst);
        let Self { rt: _, stage: _ } = self;
    }
}

impl<R: Clock + Wait + Drop + Send + 'static, A: Allocator + Debug> DebounceEventHandler<Outcome<A>>
    for Scribe<R> {
    ghost ready = { λ _. Unit {0} };

    ghost handles = { λ _ _ _. Unit {0} };

    fn handle_event(&mut self, event: Outcome<A>)
        ensures again { Unit {0} }
        ensures handled { Unit {0} }
    {
        self.stage.write_down(&self.rt, &event);
        if event.is_err() {
            self.stage.errors.fetch_add(1, Ordering::SeqCst);
            return;
        }
        if self.stage.batches.fetch_add(1, Ordering::SeqCst) > 0 {
            return;
        }
        if !wait_for_flag(&self.rt, &self.stage.answered) {
            self.stage.alone.store(true, Ordering::SeqCst);
        }
    }
}

/// What a line's words name: `error`, or the kind of an event and its path. `.` is the path that was
/// watched last.
fn item<R: Wait, A: RefusingHeap>(
    rt: &R,
    heap: A,
    stage: &Stage,
    words: &str,
) -> Result<Event<A>, Error<A>> {
    let Some((kind, place)) = words.split_once(' ') else {
        return Err(Error::new(heap, ErrorKind::PathNotFound));
    };
    let Some(kind) = EventKind::from_word(kind) else {
        return Err(Error::new(heap, ErrorKind::WatchNotFound));
    };
    let place = if place == "." {
        stage.watched(rt, heap)?
    } else {
        PathBuf::parse(heap, place)?
    };
    Event::new(heap, kind).add_path(place)
}

/// Reports what the scene's lines with this first word name.
fn report<F: EventHandler<Result<Event<A>, Error<A>>>, R: Wait, A: RefusingHeap>(
    handler: &mut F,
    rt: &R,
    heap: A,
    stage: &Stage,
    word: &str,
)
    requires ready { F.ready handler.old }
    ensures again { F.ready handler.new }
    ensures called { IsCalledOn F.handles handler.old handler.new }
{
    for line in stage.script.split('\n') {
        if let Some(words) = line.strip_prefix(word) {
            report_item(handler, stage, heap, item(rt, heap, stage, words));
        }
    }
}

/// Reports what the scene's lines with this first word name, if that is asked for.
fn report_if<F: EventHandler<Result<Event<A>, Error<A>>>, R: Staged + Wait, A: RefusingHeap>(
    asked: bool,
    handler: &mut F,
    rt: &R,
    heap: A,
    word: &str,
)
    requires ready { F.ready handler.old }
    ensures again { F.ready handler.new }
    ensures called { IsCalledOn F.handles handler.old handler.new }
{
    if !asked {
        return;
    }
    report(handler, rt, heap, rt.stage(), word);
}

/// Reports this, while a request for memory is refused, if the stage says so.
fn report_item<F: EventHandler<Result<Event<A>, Error<A>>>, A: RefusingHeap>(
    handler: &mut F,
    stage: &Stage,
    heap: A,
    item: Result<Event<A>, Error<A>>,
)
    requires ready { F.ready handler.old }
    ensures again { F.ready handler.new }
    ensures handled { F.handles handler.old item handler.new }
{
    let starved = stage.starved.load(Ordering::SeqCst);
    if starved == 0 {
        handler.handle_event(item);
        return;
    }
    heap.refuse(starved);
    handler.handle_event(item);
    heap.refuse(0);
}

/// A watcher whose thread reports the lines `report` of its scene for each call of `watch`, which waits for
/// that. It doesn't find the path of a line `lose`, with the line `never_unwatch` it ends no watch, and with
/// `unmade` it isn't made.
pub struct Puppet<R: Staged + Drop, A: Drop> {
    rt: R,
    heap: A,
    listed: u64,
}

impl<R: Staged + Drop, A: Drop> Drop for Puppet<R, A> {
    fn drop(self) {
        self.rt.stage().end();
        let Self {
            rt: _,
            heap: _,
            listed: _,
        } = self;
    }
}

/// The work of a puppet's thread.
#[derive(Drop)]
pub struct PuppetTask<F: Drop, R: Drop, A: Drop> {
    rt: R,
    heap: A,
    handler: F,
}

impl<
    F: EventHandler<Result<Event<A>, Error<A>>> + Send,
    R: Staged + Wait + Drop + Send + 'static,
    A: TestHeap,
> Task for PuppetTask<F, R, A> {
    ghost use Rattle.std.specs.Prelude.{◌≡◌};
    ghost use Rattle.notify_watch.specs.Handler.{IsCalledOn};

    type Handler = F;

    type Last = ();

    ghost is_made = { λ task begun _. (task.handler ≡ begun) × F.ready begun };

    ghost ends = { λ begun _ now _. IsCalledOn F.handles begun now };

    fn run(self) -> (F, ()) {
        let mut handler = self.handler;
        report_on(&mut handler, &self.rt, self.heap);
        (handler, ())
    }
}

/// Reports each time that the stage asks for it, and again and again while the stage says so, until the
/// watcher is dropped.
fn report_on<F: EventHandler<Result<Event<A>, Error<A>>>, R: Staged + Wait, A: RefusingHeap>(
    handler: &mut F,
    rt: &R,
    heap: A,
)
    requires ready { F.ready handler.old }
    ensures again { F.ready handler.new }
    ensures called { IsCalledOn F.handles handler.old handler.new }
{
    let stage = rt.stage();
    for _ in 0..10 * TURNS {
        let flows = stage.flows.load(Ordering::SeqCst);
        if stage.dropped.load(Ordering::SeqCst) && !flows {
            return;
        }
        let asked = stage.reported.load(Ordering::SeqCst) < stage.asked.load(Ordering::SeqCst);
        report_if(asked, handler, rt, heap, "report ");
        stage.reported.fetch_add(u64::from(asked), Ordering::SeqCst);
        report_if(flows, handler, rt, heap, "flow ");
        sleep_a_turn(rt);
    }
}

impl<
    F: EventHandler<Result<Event<A>, Error<A>>> + Send,
    R: Staged + Wait + Copy + Drop + Send + 'static,
    A: TestHeap,
> Watcher<F, R, A> for Puppet<R, A> {
    type Task = PuppetTask<F, R, A>;

    ghost takes = { F.ready };

    ghost refuses = { λ _. Unit {0} };

    ghost kind_of = { Other };

    ghost watches = { λ _ _ _ _ _. Unit {0} };

    ghost unwatches = { λ _ _ _ _. Unit {0} };

    ghost configures = { λ _ _ _ _. Unit {0} };

    fn new(
        rt: R,
        heap: A,
        handler: F,
        _config: Config,
    ) -> Result<(Puppet<R, A>, PuppetTask<F, R, A>), Error<A>> {
        if rt.stage().has("unmade") {
            return Err(Error::new(heap, ErrorKind::WatchNotFound));
        }
        let puppet = Puppet {
            rt,
            heap,
            listed: 0,
        };
        Ok((puppet, PuppetTask { rt, heap, handler }))
    }

    fn watch(&mut self, path: &PathBuf<A>, _mode: RecursiveMode) -> Result<(), Error<A>> {
        let stage = self.rt.stage();
        if stage.is_lost(path.as_str()) {
            return Err(Error::new(self.heap, ErrorKind::PathNotFound));
        }
        let Ok(wanted) = stage.ask(&self.rt, path.as_str()) else {
            return Err(Error::out_of_memory(self.heap));
        };
        wait_for(&self.rt, &stage.reported, wanted);
        Ok(())
    }

    fn unwatch(&mut self, _path: &PathBuf<A>) -> Result<(), Error<A>> {
        if self.rt.stage().has("never_unwatch") {
            return Err(Error::new(self.heap, ErrorKind::WatchNotFound));
        }
        Ok(())
    }

    fn configure(&mut self, _config: Config) -> Result<bool, Error<A>> {
        Ok(true)
    }

    fn kind() -> WatcherKind {
        WatcherKind::Other
    }
}

impl<
    F: EventHandler<Result<Event<A>, Error<A>>> + Send,
    R: Staged + Wait + Copy + Drop + Send + 'static,
    A: TestHeap,
> ListingWatcher<F, R, A> for Puppet<R, A> {
    type Listing = u64;

    ghost lists = { λ _ _ _ _ _. Unit {0} };

    fn watch_listed(&mut self, _path: &PathBuf<A>, _mode: RecursiveMode) -> Result<u64, Error<A>> {
        self.listed = self.listed.saturating_add(1);
        Ok(self.listed)
    }
}
