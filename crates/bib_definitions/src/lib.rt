//! Keeps which macros a file defines, and what they stand for before each item. It knows the numbers of the items that
//! define a macro, and labels that stand for the order of the definitions; it reads no items and no values. It promises that
//! items that come and go, definitions too, leave what it says of the others.
#![tactic(auto)]

mod by_name;
mod definitions;
mod held;
mod macros_at;

pub use definitions::Definitions;
pub use macros_at::MacrosAt;
