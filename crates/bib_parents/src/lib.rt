//! Which entries of a merge have lost their parent. It knows what crossrefs name in three open files, and not how they are merged. It
//! promises exactly the entries of the definitions.
#![tactic(auto)]

mod losing;

pub use losing::lost_keys;
