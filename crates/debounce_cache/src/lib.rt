//! Caches of file numbers, by which the two halves of a rename find each other. A caller gives a
//! debouncer a cache: [`NoCache`], which holds no numbers, [`FileIdMap`], which
//! holds those that its scan finds, or one of its own that implements [`FileIdCache`]. The scan of the real file
//! system is [`FolderScan`].
//!
//! ```text
//! let mut core = DebounceDataInner::new(rt.alloc(), NoCache::new(), 50);
//! ```
#![tactic(auto)]

mod cache;
mod file_id_map;
mod folder_scan;
mod scan;

pub use cache::{FileIdCache, NoCache};
pub use file_id_map::FileIdMap;
pub use folder_scan::FolderScan;
pub use scan::Scan;
