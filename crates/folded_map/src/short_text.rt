//! Texts of a few bytes.

ghost use Rattle.std.specs.Prelude.{◌≡◌, ◌≤◌, length};
ghost use Rattle.bib_spec.specs.Text.{folded};

use std::marker::Model;

/// The greatest length of a short text, in bytes.
pub const SHORT_LEN: usize = 22;

/// A text of at most 22 bytes. It takes no memory except its own 23 bytes.
#[derive(Drop)]
pub struct ShortText {
    len: u8,
    bytes: [u8; SHORT_LEN],
}

impl Model for ShortText {
    ghost use Rattle.std.specs.Prelude.{◌≤◌, take};
    ghost use Rattle.bib_spec.specs.Text.{Text};

    ghost Value = { Text };

    ghost view = { λ t. take t.len t.bytes };

    ghost invariant = { λ t. t.len ≤ 22 };
}

impl ShortText {
    /// A short text with these bytes.
    pub fn of(text: &[u8]) -> Self
        requires { length text.now ≤ 22 }
        ensures { result ≡ text.now }
    {
        let mut bytes = [0; SHORT_LEN];
        let len = text.len();
        bytes[..len].copy_from_slice(text);
        ShortText {
            len: len as u8,
            bytes,
        }
    }

    /// The text in lower case.
    pub fn folded(text: &[u8]) -> Self
        requires { length text.now ≤ 22 }
        ensures { result ≡ folded text.now }
    {
        let mut bytes = [0; SHORT_LEN];
        let len = text.len();
        bytes[..len].copy_from_slice(text);
        bytes[..len].make_ascii_lowercase();
        ShortText {
            len: len as u8,
            bytes,
        }
    }

    /// The bytes of the text.
    pub fn as_slice(&self) -> &[u8]
        ensures { result.now ≡ self.now }
    {
        self.bytes.split_at(self.len as usize).0
    }
}
