//! A law of what programs take, that follows from the contracts of their calls. No program waits for it.
#![tactic(auto)]

mod reports;

pub use reports::law_of_all_reports;
