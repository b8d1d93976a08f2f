//! Runs a command over several files that are read as one. It knows what each command that reads other files too answers to their
//! text; it reads no file, and stores nothing. It promises that output, message and status are a stated function of the bytes of the
//! files, and that each place that is told is one of the file that is named with it.
#![tactic(auto)]

mod answering;
mod engine;
mod linting;
mod messages;

pub use answering::answer_shelf;
pub use bib_shelf::Joined;
pub use engine::run_shelf;
