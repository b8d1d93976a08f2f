//! Worked examples that cross crates, and what no contract says: that calls succeed with ample memory.
#![tactic(auto)]

#[cfg(test)]
mod flushing;
#[cfg(test)]
mod names;
#[cfg(test)]
mod reading;
#[cfg(test)]
mod values;
#[cfg(test)]
mod views;
