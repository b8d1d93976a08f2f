//! Readers and writers around files and standard streams: what a terminal is shown, what was read, and why a call failed. It
//! knows bytes and calls, and not what is read or written, or why. It promises that a terminal is shown control bytes as
//! visible ones, and that all other bytes pass as they are.
#![tactic(auto)]

mod heard;
mod kept;
mod shown;

pub use heard::Heard;
pub use kept::Kept;
pub use shown::Shown;
