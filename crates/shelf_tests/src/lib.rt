//! Examples of several files that are opened as one database, and what no contract says: that calls succeed with ample memory.
#![tactic(auto)]

#[cfg(test)]
mod shelves;
