//! Examples of extracts and of aux files, and what no contract says: that calls succeed with ample memory.
#![tactic(auto)]

#[cfg(test)]
mod aux_files;
#[cfg(test)]
mod extracts;
