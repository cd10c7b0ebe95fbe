//! What the program `mirror` does in threads: [`watch_run`] watches a folder for a while, and prints what a
//! debouncer makes of its changes; [`threads_run`] runs scripts side by side, each in a thread of its own,
//! and compares the journal of the run with a run of the same commands by one thread.
//!
//! ```text
//! threads_run(&rt, rt.alloc(), names, &mut files, &mut rt.stdout(), &mut rt.stderr())
//! ```
#![tactic(auto)]

mod replay;
mod run;
mod scripts;
mod stop;
mod watch;

pub use run::threads_run;
pub use watch::{watch_run, watch_run_over};
