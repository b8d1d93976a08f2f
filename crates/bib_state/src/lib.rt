//! What a caller in another language works with: a session that may be open, and the texts that the last call gave. It
//! knows sessions, the words of edits, and the program's commands over bytes; it does not know how calls cross from another
//! language, and opens no file. It promises that each call does to the session what the words say, or is refused and
//! changes nothing.
#![tactic(auto)]

mod fault;
mod making;
mod performing;
mod running;
mod state;
mod telling;

pub use fault::CallFault;
pub use making::make_step;
pub use performing::{Scripted, Turned};
pub use state::State;
