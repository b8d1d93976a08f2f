//! The texts of a value: its raw text, by the macros defined before it, and its field text. It knows macros and values; it
//! does not know items. It promises the texts of the definitions, and refuses a text that is longer than the limit.
#![tactic(auto)]

mod fault;
mod months;
mod raw;
mod spacing;
mod table;

pub use fault::ValueFault;
pub use months::month;
pub use raw::{RAW_LIMIT, part_text, raw_len, raw_text};
pub use spacing::{field_text, is_neat};
pub use table::{MacroTable, Macros};
