//! Which uses of macros have lost their meaning in a merge. It knows which macros the items of three open files define, and which
//! their entries use, and not how the files are merged. It promises exactly the uses of the definitions.
#![tactic(auto)]

mod defined;
mod losing;
mod sources;
mod uses;

pub use losing::{LostUse, lost_uses};
