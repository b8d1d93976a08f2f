//! What no contract says of the lists of items: that the calls succeed with ample memory, and how pages split and go,
//! and what a search passes over.
#![tactic(auto)]

#[cfg(test)]
mod paging;
#[cfg(test)]
mod searching;
