//! Tests of what no clause says of the crates that programs are made of: outputs that take a part, are
//! interrupted or fail, inputs of hints that come in pieces, reports that no watcher of ours makes by itself, and a copy
//! whose disk fails.
#![tactic(auto)]

#[cfg(test)]
mod flushes;
#[cfg(test)]
mod hints;
#[cfg(test)]
mod mirror;
#[cfg(test)]
mod moves;
#[cfg(test)]
mod pieces;
#[cfg(test)]
mod reports;
