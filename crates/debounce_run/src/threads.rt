//! Scripts of commands, each in a thread of its own, over one debouncer with a journal under one lock.
//!
//! ```text
//! let journal = run_threads(&rt, rt.alloc(), 50, scripts, &NoMeet)?;
//! ```

mod matches;
pub mod meet;
mod refusal;
pub mod run;
