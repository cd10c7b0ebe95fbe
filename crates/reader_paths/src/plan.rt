//! What a copy of a folder has to do after a batch of events.
//!
//! Look at the paths that the batch wants, put what stands there into a map, and call
//! [`plan`]: it returns the actions after which a copy has what stands. What is gone goes
//! first, and then folders and files are copied. A duplicate or late event does no harm, since what
//! stands there now decides; but a removal only removes, whatever stands there again.
//! [`target_of`] says where in the copy an action is carried out.
//!
//! ```text
//! for path in wanted(rt.alloc(), batch.as_slice())?.keys() { .. }
//! for action in &plan(rt.alloc(), &standing, batch.as_slice())? {
//!     let Some(target) = target_of(&from, &to, &action.path)? else { continue };
//!     match action.wanted { Some(Standing::File) => .. }
//! }
//! ```

mod action;
mod naming;
mod planning;
mod target;
mod wanting;

pub use action::{Action, Standing};
pub use naming::{name_again, name_beside, name_listed, name_path, name_removed};
pub use planning::{gone_at, plan};
pub use target::{Target, target_of};
pub use wanting::wanted;
