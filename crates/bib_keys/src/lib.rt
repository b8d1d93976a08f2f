//! Makes label bases and keys for the entries of a file, and finds keys that are free in it. It knows what entries
//! inherit, the keys that a file has, and the keys that its dangling crossrefs name; it knows no edits, and changes
//! nothing. It promises the bases and the keys of the definitions, or the one refusal, which is want of memory.
#![tactic(auto)]

mod dangling;
mod label_bases;
mod making;
mod taken_keys;

pub use label_bases::{LabelRecords, Parents};
pub use making::{free_key, free_keys, made_keys};
