//! Examples of uses of macros that have lost their meaning in a merge.
#![tactic(auto)]

#[cfg(test)]
mod uses;
