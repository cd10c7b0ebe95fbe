//! Tests of what no clause says: how often memory is asked for, file numbers that a scan finds, folders in
//! memory that fail, real folders through a system that fails, and a watcher that polls. The worked cases that a script can say stand in the crate
//! `worked_cases`, real folders that are watched in .ci/programs/watched.sh.
#![tactic(auto)]

#[cfg(test)]
mod build;
#[cfg(test)]
mod cache;
#[cfg(test)]
mod comparing;
#[cfg(test)]
mod copies;
#[cfg(test)]
mod devices;
#[cfg(test)]
mod edges;
#[cfg(test)]
mod folders;
#[cfg(test)]
mod listings;
#[cfg(test)]
mod memory;
#[cfg(test)]
mod moved;
#[cfg(test)]
mod readme;
#[cfg(test)]
mod rounds;
#[cfg(test)]
mod running;
#[cfg(test)]
mod trees;
#[cfg(test)]
mod whole;
