//! Finds names of persons that cannot be taken apart, since they have too many commas. It knows the text of a list of names, and
//! not where the text comes from. It promises exactly the names of its definition, `refused_names`, and a quick test of most
//! lists that have none.
#![tactic(auto)]

mod persons;

pub use persons::{has_few_commas, has_names, refused_names};
