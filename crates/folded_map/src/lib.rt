//! Values by names, without regard to ASCII case, and texts that are kept in the place that a pointer would take. It knows
//! names as bytes, and nothing of what a value is. It promises that a change of one name's value leaves those of the others.
#![tactic(auto)]

mod folding;
mod kept_name;
mod map;
mod short_text;

pub use map::FoldedMap;
pub use short_text::{SHORT_LEN, ShortText};
