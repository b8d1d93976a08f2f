//! What it is for two files to agree entry by entry, in definitions. There is no code here, only a function that does nothing and
//! carries the law about the definitions.
#![tactic(auto)]

mod agreeing;

pub use agreeing::files_that_agree_have_the_same_records;
