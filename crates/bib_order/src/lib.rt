//! Keeps distinct ids in an order that changes: one id for each member of a list that is kept elsewhere. It knows the order
//! of the ids; it does not know what they are the ids of. It promises that an id stays with its member while others come
//! and go.
#![tactic(auto)]

mod id_pages;
mod listed;
mod order;
mod sheet;
mod sheets;

pub use order::{Order, holders_follow, keeps_order};
