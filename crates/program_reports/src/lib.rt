//! The loop of a program that watches: what is reported of a folder until the program's life is over,
//! and what still waits then.
//!
//! ```text
//! let missed = follow_folder(rt, &folder, RecursiveMode::Recursive, pace, &mut program)?;
//! ```
//!
//! A program that is driven by something else, as by its input, starts a [`FolderReports`] of [`folders`], asks for each
//! report by `next` or `next_within`, and for the rest by `finish`.
#![tactic(auto)]

mod apart;
pub mod folders;
mod follow;
mod path_steps;
mod whole_program;

pub use crate::folders::FolderReports;
pub use follow::{follow_file, follow_folder, follow_folders};
pub use path_steps::path_by_path;
pub use program_frame::reports::{BatchTaker, Places, Rest, Taken, TakesBatches, TakesReports};
pub use whole_program::{run_program, run_program_of_two};
