//! Entries that are merged field by field: whether rows of two sides are such a merge of three entries, the bytes of the merged
//! entry, and which parts of three entries are in conflict. It knows fields, values and macros of open files; it knows no units,
//! and looks for no merge. It promises that a merge that it lets pass is one of the definitions, its bytes, and exactly the parts
//! that the definitions call in conflict. It is refused only out of memory.
#![tactic(auto)]

mod agreeing;
mod checking;
mod mix;
mod of_three;
mod opening;
mod slices;
mod telling;
mod version;
mod writing;

pub use agreeing::fields_agree;
pub use checking::may_mix;
pub use mix::{Mix, MixedRow, RowOf, Side};
pub use telling::{ChangedPart, parts_in_conflict};
pub use writing::add_mixed;
