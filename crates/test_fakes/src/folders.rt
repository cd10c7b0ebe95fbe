//! Folders for tests: a tree in memory, folders of which one call fails, folders of which some are closed, folders in
//! which files have numbers, and folders whose type tells what they hold.
//!
//! ```text
//! let Some(folders) = TreeFolders::new(rt.alloc(), tree) else { .. };
//! let mut folders = FailingFolders::new(rt.alloc(), folders, 3);
//! let listing = list(rt.alloc(), &mut folders, roots.as_slice());
//! ```

mod closed;
mod failing;
mod fixed;
mod numbered;
mod tree;

pub use closed::ClosedFolders;
pub use failing::FailingFolders;
pub use fixed::{FixedFolders, FixedTree};
pub use numbered::NumberedFolders;
pub use tree::TreeFolders;
