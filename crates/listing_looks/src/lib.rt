//! What a caller says stands at paths, and what changed by that: any watcher's notice is only a place to look at.
//!
//! ```text
//! let mut looker = Looker::new(rt.alloc());
//! if looker.has_place(&path)? {
//!     looker.find(rt.alloc(), &path, found)?;
//! }
//! looker.lose(rt.alloc(), &other)?;
//! looker.end(rt.alloc())?;
//! while let Some(event) = looker.next() {
//!     ..
//!     looker.advance();
//! }
//! ```
//!
//! A look is what was said since the last one ended, in any order; nothing is known of it before it ends. Then the
//! [`Looker`] knows just what was said, and where nothing was said, what it knew; and its events, which are to be
//! handed on in order, tell the difference.
#![tactic(auto)]

mod looker;
mod said;

pub use looker::Looker;
