//! Reads what the aux file of a document says: which keys the document cites, and which further aux files it names. It knows
//! lines and words; it knows neither files nor entries. It promises the words of the lines that count, in their order, and where
//! the keys among them stand; it is refused only out of memory.
#![tactic(auto)]

mod citations;
mod lines;
mod placing;

pub use citations::{Aux, with_cited};
pub use placing::{AuxKeys, CitedKey, cited_keys};
