//! What LaTeX prints of a text, as far as it is letters: text without braces, with accented letters as Unicode has them. It
//! knows the commands of letters, signs and accents, and no other; it does not know fields, nor RIS. It promises the text
//! that its definitions say, byte for byte.
#![tactic(auto)]

mod laws;
mod printing;
mod signs;

pub use laws::bare_texts_are_plain;
pub use printing::plain;
