//! Worked examples of RIS files and of records as RIS, and what no contract says: that calls succeed with ample memory.
#![tactic(auto)]

#[cfg(test)]
mod files;
#[cfg(test)]
mod plain_texts;
#[cfg(test)]
mod records;
