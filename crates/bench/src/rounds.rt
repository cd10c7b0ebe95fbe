//! Rounds of the watcher that polls, over a real folder.
use anyhow::{Result, ensure};
use notify_debouncer_full::{
    DebouncerRuntime, Error, Event, EventHandler, PathBuf, Polled, RealFolders, RecursiveMode,
};
use std::alloc::Global;
use std::time::Instant;

/// Counts what is reported.
#[derive(Drop)]
struct Counter {
    reported: u64,
}

impl EventHandler<Result<Event, Error>> for Counter {
    ghost ready = { λ _. Unit {0} };

    ghost handles = { λ _ _ _. Unit {0} };

    fn handle_event(&mut self, _event: Result<Event, Error>) {
        self.reported = self.reported.saturating_add(1);
    }
}

type Real<R> = RealFolders<R, Global>;

/// What a round compares.
#[derive(Clone, Copy)]
pub enum Compared {
    Lengths,
    LengthsAndTimes,
    /// Numbers too, by which it tells moves.
    Numbers,
}

impl Compared {
    /// What the word asks for. It is `None` if the word says another thing.
    pub fn from_word(word: &str) -> Option<Compared> {
        match word {
            "rounds" => Some(Compared::LengthsAndTimes),
            "rounds-with-numbers" => Some(Compared::Numbers),
            "rounds-without-times" => Some(Compared::Lengths),
            _ => None,
        }
    }

    /// The first tracker, if moves are told.
    fn trackers(self) -> Option<u64> {
        match self {
            Compared::Lengths | Compared::LengthsAndTimes => None,
            Compared::Numbers => Some(0),
        }
    }

    /// The real file system, which tells what is compared.
    fn folders<R: DebouncerRuntime + AllocGlobal>(self, rt: &R) -> Real<R> {
        match self {
            Compared::Lengths => RealFolders::new(*rt, rt.alloc()),
            Compared::LengthsAndTimes => RealFolders::with_modified_times(*rt, rt.alloc()),
            Compared::Numbers => {
                let mut folders = RealFolders::with_modified_times(*rt, rt.alloc());
                folders.tell_numbers();
                folders
            }
        }
    }
}

/// Makes so many rounds over the folder, while nothing changes there, and returns the nanoseconds of the
/// fastest.
pub fn fastest_round<R: DebouncerRuntime + AllocGlobal>(
    rt: &R,
    folder: &str,
    rounds: u64,
    compared: Compared,
) -> Result<u128> {
    let mut folders = compared.folders(rt);
    let mut trackers = compared.trackers();
    let mut polled = Polled::new(rt.alloc());
    let root = PathBuf::parse(rt.alloc(), folder)?;
    polled.watch(&mut folders, &root, RecursiveMode::Recursive)?;
    let mut counter = Counter { reported: 0 };
    let mut least = u128::MAX;
    for _ in 0..rounds {
        let start = Instant::now(rt)?;
        polled.kept_round(&mut folders, &mut trackers, &mut counter);
        least = least.min(start.elapsed(rt)?.as_nanos());
    }
    ensure!(counter.reported == 0, "{folder} changed meanwhile");
    Ok(least)
}
