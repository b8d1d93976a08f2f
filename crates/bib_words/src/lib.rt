//! A command with its arguments, as the command line gives them, and the exit statuses of the program. It knows which
//! commands there are and which arguments each takes, and not what a command does. It promises to recognize exactly the
//! commands of the program.
#![tactic(auto)]

mod commands;
pub mod status;
mod verbs;

pub use commands::Command;
pub use verbs::{Question, Verb};
