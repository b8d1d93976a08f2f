//! Worked examples of the scripts that lead from one file to another.
#![tactic(auto)]

#[cfg(test)]
mod scripts;
