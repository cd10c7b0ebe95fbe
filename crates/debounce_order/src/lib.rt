//! The order of a batch of file events: [`sort_events`]. A caller that must not fail once it moves
//! its events finds their places first, by [`places_in_order`] and [`ranks_of`], and then
//! puts them in order by [`put_in_order`].
#![tactic(auto)]

mod order;
mod places;

pub use order::{places_in_order, sort_events};
pub use places::{copy_in_order, put_in_order, ranks_of};
