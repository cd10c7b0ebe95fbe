//! Tests of what no clause says of a mirror's files: what stands in a copy, and beside it, after each call of the
//! system failed in turn, over the files of the crate `test_fakes`.

#[cfg(test)]
mod failures;
#[cfg(test)]
mod moves;
#[cfg(test)]
mod reports;
#[cfg(test)]
mod room;
