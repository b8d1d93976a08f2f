//! Whether two items say the same, each in its own file: entries by their types and field texts, definitions by their raw texts.
//! It knows fields, values and macros; it knows no units, and merges nothing. It promises exactly what the definitions say of two
//! items; it is refused only out of memory.
#![tactic(auto)]

mod definitions;
mod entries;
mod field_table;
mod items;
mod texts;

pub use field_table::{FieldTable, table_of};
pub use items::items_agree;
pub use texts::field_text_of;
