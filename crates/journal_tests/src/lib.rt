//! Worked examples of journals as text, and what no contract says: that the calls succeed with enough memory.
#![tactic(auto)]

#[cfg(test)]
mod journals;
