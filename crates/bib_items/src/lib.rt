//! Keeps a list of items. It knows how their bytes are stored, and marks the parts that they have; it does not know what
//! they mean. It promises that an edit takes time in the bytes of one page and a few steps for each page, however long the
//! list is, and that a search for parts passes over no item that has one.
#![tactic(auto)]

mod fault;
mod filling;
mod flat;
mod glancing;
mod later;
mod list;
mod marking;
mod page;
mod paged;
mod places;
mod seams;
mod searching;
mod seeking;
mod shared_text;
mod slots;
mod span;
mod starts;

pub use fault::StoreFault;
pub use flat::Flat;
pub use glancing::lacks_word;
pub use list::{Item, ItemList};
pub use paged::Paged;
pub use seeking::Sought;
