//! Runs a command: reads its file, makes its answer and writes it. It knows what each command answers to which bytes,
//! over any reader and writer, and neither paths nor options. It promises that output, message and status are a stated
//! function of the bytes read, if readers and writer tell them, and that a fault of a reader or a writer never ends as
//! an answer.
#![tactic(auto)]

mod answering;
mod commands;
mod engine;
mod laws;
mod messages;
mod reading;
mod sessions;
mod sink;
mod source;
mod writing;

pub use answering::answer;
pub use bib_answers::{Answer, Outcome};
pub use bib_taps::Tap;
pub use bib_words::Command;
pub use commands::ris::ris_in;
pub use engine::{run, run_read};
pub use laws::{
    a_command_has_one_answer, a_refused_script_leaves_the_disk, any_run_keeps_the_history,
    runs_of_the_program_are_one_session,
};
pub use messages::{READ_FAULT, WRITE_FAULT};
pub use reading::{Sources, read_sources};
pub use sink::write_whole;
pub use source::{SourceFault, read_up_to};
pub use writing::write_answer;
