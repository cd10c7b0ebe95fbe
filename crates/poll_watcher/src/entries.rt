//! What the real file system says of an entry: what stands at a path, when it was modified, and the names in it.

pub mod found;
pub mod names;
pub mod times;
