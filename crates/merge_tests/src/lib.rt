//! Examples of merges: a common file, ours, theirs, and the merged file.
#![tactic(auto)]

#[cfg(test)]
mod merges;
#[cfg(test)]
mod plain;
