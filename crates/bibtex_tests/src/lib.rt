//! Worked examples of answers as BibTeX reads a file.
#![tactic(auto)]

#[cfg(test)]
mod answers;
#[cfg(test)]
mod lists;
