//! The command line. It knows the words and options of each command, and not what a command does. It promises the
//! command that clap's exact matching of the words names, or the text for the user.
#![tactic(auto)]

mod arguments;
mod command_line;
mod parsing;
mod usages;

pub use bib_words::Command;
pub use parsing::{Request, parse, parse_request};
pub use usages::Usage;
