//! The real file system, as folders that can be looked at, and folders that note where a call failed.

mod closed;
pub mod noting;
pub mod real;
mod targets;
