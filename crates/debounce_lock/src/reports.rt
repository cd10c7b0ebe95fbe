//! A queue of reports between two threads, whose contract says what was put in, what came out, and how many
//! reports could not be put in.
//!
//! What lies in it, what came out and the count are one value under a lock of `debounce_lock`. The
//! [`sender::ReportSender`] shows all that it was to put in, the [`queue::ReportQueue`] what it has given,
//! and its `close` says how the two fit together.
//!
//! ```text
//! let (mut sender, mut queue) = report_queue(rt.alloc())?;
//! let is_put_in = sender.send(&rt, report);
//! while let Some(report) = queue.try_next(&rt) { .. }
//! let rest = queue.close(&rt, sender);
//! ```

pub mod queue;
mod queued;
pub mod sender;
