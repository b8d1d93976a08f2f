//! The names that a map keeps.

ghost use Rattle.std.specs.Prelude.{◌≡◌, [], ◌∷◌, IfOk};
ghost use Rattle.bib_spec.specs.Text.{folded};

use crate::folding::FoldedName;
use crate::short_text::{SHORT_LEN, ShortText};
use indexmap::Equivalent;
use std::alloc::{AllocError, Global};
use std::hash::{Hash, Hasher};
use std::marker::Model;

/// How the bytes of a name are kept.
#[derive(Drop)]
enum Held {
    Short(ShortText),
    // in a box, so that a short name takes little space
    Long(Box<Vec<u8>>),
}

/// A name in lower case, as a map keeps it: in 24 bytes, without memory of its own if the name has at most 22 bytes.
#[derive(Drop)]
pub(crate) struct KeptName {
    held: Held,
}

impl Model for KeptName {
    ghost use Rattle.bib_spec.specs.Text.{Text};
    ghost use Rattle.folded_map.specs.Held.{bytes_of};

    ghost Value = { Text };

    ghost view = { λ n. bytes_of n.held };
}

impl KeptName {
    /// The name, folded.
    pub fn of(alloc: Global, name: &[u8]) -> Result<Self, AllocError>
        ensures { IfOk result (λ kept. kept ≡ folded name.now) }
    {
        if name.len() <= SHORT_LEN {
            return Ok(KeptName {
                held: Held::Short(ShortText::folded(name)),
            });
        }
        let mut bytes = Vec::from_slice(alloc, name)?;
        bytes.as_mut_slice().make_ascii_lowercase();
        Ok(KeptName {
            held: Held::Long(Box::new(alloc, bytes)?),
        })
    }

    /// The bytes of the name.
    fn as_slice(&self) -> &[u8]
        ensures { result.now ≡ self.now }
    {
        match &self.held {
            Held::Short(text) => text.as_slice(),
            Held::Long(bytes) => bytes.as_slice(),
        }
    }
}

impl PartialEq for KeptName {
    ghost use Rattle.std.specs.Cmp.{partial_equiv_from_equiv};
    ghost use Rattle.std.specs.Cmp.Lexicographic.{nat_list_eq_equiv};
    ghost use Rattle.std.specs.Str.{bytes_eq};

    ghost eq = { bytes_eq };

    ghost laws = { partial_equiv_from_equiv nat_list_eq_equiv };

    fn eq(&self, other: &KeptName) -> bool {
        self.as_slice() == other.as_slice()
    }
}

impl Eq for KeptName {
    ghost use Rattle.std.specs.Cmp.Lexicographic.{nat_list_eq_equiv};

    ghost laws = { nat_list_eq_equiv };
}

impl Hash for KeptName {
    ghost use Rattle.std.proofs.Common.{ap, []};
    ghost use Rattle.std.specs.Cmp.Lexicographic.{bytes_decides};

    // all bytes by one write, which takes eight of them at once
    ghost hash_input = { λ n. n ∷ [] };

    ghost respects_eq = { λ x y h. ap (λ t. t ∷ []) ((bytes_decides x y).0 h) };

    fn hash<H: Hasher>(&self, state: &mut H) {
        state.write(self.as_slice());
    }
}

impl Equivalent<KeptName> for &FoldedName {
    ghost use Rattle.std.proofs.Common.{ap, []};
    ghost use Rattle.std.specs.Str.{bytes_eq};
    ghost use Rattle.std.specs.Cmp.Lexicographic.{bytes_decides, nat_list_eq_equiv};

    ghost equivalent = { λ q k. bytes_eq q.now k };

    ghost respects_hash = { λ q k h. ap (λ t. t ∷ []) ((bytes_decides q.now k).0 h) };

    ghost respects_eq = { λ q x y. nat_list_eq_equiv.congr q.now x y };

    fn equivalent(&self, key: &KeptName) -> bool {
        (*self).as_slice() == key.as_slice()
    }
}
