//! The engine of the program in one place, for programs that do what `bibkeep` does: the words of a command line become a
//! command, and a command runs over readers and a writer. It knows no files; it has no code of its own.

#![tactic(auto)]

pub use bib_command::{Command, Usage, parse};
pub use bib_run::{Outcome, Tap, run};
