//! What four of the programs do with what is reported, without a watcher: lines of a journal, bursts of a trigger, a
//! configuration that is in force, an index of words. A module each.
#![tactic(auto)]

pub mod config;
pub mod journal;
pub mod trigger;
pub mod words;
