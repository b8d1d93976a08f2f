//! What of a text is new to the file that it is put into: all of it but the definitions that say what the file says. It knows
//! what macros stand for at a position of a file; it knows no edits, and changes nothing.
#![tactic(auto)]

mod known;
mod news;

pub use news::news_of;
