//! The keys that entries get.

ghost use Rattle.std.specs.Prelude.{◌≡◌, [], ◌∷◌, IfOk};
ghost use Rattle.std.specs.Option.{option_copied};
ghost use Rattle.bib_edit.specs.NewKeys.{key_of};

use bib_text::{Seq, Text, copied};
use std::alloc::{AllocError, Global};

/// The keys that entries get: the entries from number `first` on get these in turn, the other entries get none.
#[derive(Drop)]
pub(crate) struct NewKeys {
    pub(crate) first: usize,
    pub(crate) keys: Seq<Text>,
}

impl NewKeys {
    /// The key that entry `n` gets, if it gets one.
    pub(crate) fn of(&self, n: usize) -> Option<&[u8]>
        ensures { option_copied result ≡ key_of self.now n }
    {
        if n < self.first {
            return None;
        }
        match self.keys.as_slice().get(n - self.first) {
            Some(key) => Some(key.as_slice()),
            None => None,
        }
    }
}

/// Entry `n` alone gets this key.
pub(crate) fn key_for(alloc: Global, n: usize, key: &[u8]) -> Result<NewKeys, AllocError>
    ensures { IfOk result (λ new. (new.first ≡ n) × (new.keys ≡ key.now ∷ [])) }
{
    let mut keys = Vec::new(alloc);
    keys.push(copied(alloc, key)?)?;
    Ok(NewKeys {
        first: n,
        keys: Seq::from_vec(keys),
    })
}
