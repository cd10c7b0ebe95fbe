//! Stand-ins for tests: an allocator that refuses, files of a system that fails when it is told to, and folders in
//! memory. A module each.
#![tactic(auto)]

pub mod allocator;
pub mod files;
pub mod folders;
