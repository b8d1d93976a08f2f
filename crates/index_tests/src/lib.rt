//! What no contract says of orders, of indexes by text and of numbers: that the calls succeed with ample memory.
#![tactic(auto)]

#[cfg(test)]
mod indexing;
#[cfg(test)]
mod numbering;
#[cfg(test)]
mod ordering;
