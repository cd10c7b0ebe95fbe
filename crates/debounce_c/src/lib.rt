//! The core of the debouncer for programs in C, and in what can call C: a static library of functions over a
//! handle. The header c/ndf.h declares them, and docs/C.md says what a caller must keep.
//!
//! A caller makes a debouncer by `ndf_new`, gives it each event by `ndf_event`, asks for what is due by
//! `ndf_tick`, and reads the batch by `ndf_next`, event by event. Each call answers a code: 0 if it did what it
//! says; after any other code nothing has changed.
//!
//! [`numbered`] is the core with a table of file numbers that C says, [`desk`] what a handle holds, with its calls.
//!
//! ```text
//! ndf_handle h = NDF_NONE;
//! ndf_new(&h, 50 * NDF_MILLISECOND);
//! ndf_event(&h, &change, path, strlen(path), "", 0);
//! ndf_tick(&h, now, &count);
//! while (ndf_next(&h, &told, buf, sizeof buf) == NDF_DONE) { .. }
//! ```
#![tactic(auto)]

pub mod desk;
pub mod exports;
pub mod handle;
pub mod numbered;
pub mod programs;
mod sealed;
