//! The keys for which a line was written.

use std::alloc::{AllocError, Global};
use std::collections::HashSet;
use std::marker::Model;

/// Keys of any length, compared without regard to ASCII case. Contracts speak of the list of the keys, folded.
#[derive(Drop)]
pub struct ToldKeys {
    alloc: Global,
    keys: HashSet<Vec<u8>>,
}

impl Model for ToldKeys {
    ghost use Rattle.std.specs.Prelude.{List, map};
    ghost use Rattle.bib_spec.specs.Text.{Text};

    ghost Value = { List Text };

    ghost view = { λ t. map (λ key. key.items) t.keys.keys };
}

impl ToldKeys {
    ghost use Rattle.std.specs.Prelude.{◌≡◌, ◌||◌, [], not, bytes_eq, IfOk, OnOk};
    ghost use Rattle.std.specs.List.{list_any};
    ghost use Rattle.bib_spec.specs.Text.{Text, folded};

    /// No keys. It takes no memory.
    pub fn new(alloc: Global) -> Self
        ensures { result ≡ [] }
    {
        ToldKeys {
            alloc,
            keys: HashSet::new(alloc),
        }
    }

    /// Adds the key, and says whether it was not there. It takes time in the length of the key.
    pub fn add(&mut self, key: &[u8]) -> Result<bool, AllocError>
        ensures added { IfOk result (λ added. added ≡ not (list_any (bytes_eq (folded key.now)) self.old)) }
        ensures keys { OnOk result ((x : Text) → list_any (bytes_eq x) self.new ≡ (bytes_eq x (folded key.now) || list_any (bytes_eq x) self.old)) }
    {
        let folded = lower(self.alloc, key)?;
        Ok(self.keys.insert(folded)?)
    }
}

ghost use Rattle.std.specs.Prelude.{◌≡◌, IfOk};
ghost use Rattle.bib_spec.specs.Text.{folded};

/// The key with its letters in lower case.
fn lower(alloc: Global, key: &[u8]) -> Result<Vec<u8>, AllocError>
    ensures { IfOk result (λ lower. lower.items ≡ folded key.now) }
{
    let mut bytes = Vec::from_slice(alloc, key)?;
    bytes.make_ascii_lowercase();
    Ok(bytes)
}
