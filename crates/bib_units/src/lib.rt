//! The units of an open file: its items and the texts between them, each with its label and the white space after it. It knows
//! the definitions of units and what the store says of items; it merges nothing. It promises the units of the one reading of the
//! file, as slices of the open file; only comments are copied, since each needs to be in one run with the text after it.
#![tactic(auto)]

mod comments;
mod labels;
mod of_file;
mod of_item;
mod spaces;
mod unit_view;

pub use comments::comments_of;
pub use labels::{Label, is_same};
pub use of_file::{FileUnits, units_of};
pub use unit_view::UnitView;
