//! Paths, the errors that name paths, and what lies below a path in a map.
//!
//! A path is a list of parts, as Rust cuts a text into components on Unix, and that list is all that
//! a contract sees of it. Each type that holds memory is generic in its allocator, and is made with
//! one.
//!
//! ```text
//! let folder = PathBuf::parse(rt.alloc(), "/home//notes/")?;   // prints /home/notes
//! let file = PathBuf::parse(rt.alloc(), "/home/notes/today")?;
//! if file.starts_with(&folder) { .. }
//! ```
#![tactic(auto)]

mod below;
mod error;
mod first_words;
mod order;
mod part;
mod path;
mod text;

pub use below::{copy_first_below, count_below, drop_at_or_below, drop_below};
pub use error::{Error, ErrorKind};
pub use part::{FoldersAbove, Part, Parts};
pub use path::PathBuf;
