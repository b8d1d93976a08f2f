//! Worked examples of edits, undo and redo, and what no contract says: that the calls succeed with ample memory.
#![tactic(auto)]

#[cfg(test)]
mod additions;
#[cfg(test)]
mod answers;
#[cfg(test)]
mod examples;
#[cfg(test)]
mod fields;
#[cfg(test)]
mod insertions;
#[cfg(test)]
mod lengths;
#[cfg(test)]
mod lists;
#[cfg(test)]
mod macros;
#[cfg(test)]
mod planning;
#[cfg(test)]
mod positions;
#[cfg(test)]
mod redefinitions;
#[cfg(test)]
mod renames;
#[cfg(test)]
mod rows;
#[cfg(test)]
mod runs;
#[cfg(test)]
mod sessions;
#[cfg(test)]
mod several;
#[cfg(test)]
mod splicing;
#[cfg(test)]
mod turns;
