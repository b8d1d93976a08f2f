//! Names without regard to ASCII case.

ghost use Rattle.std.specs.Prelude.{◌≡◌, ◌≤◌, ◌∷◌, length};
ghost use Rattle.bib_spec.specs.Bytes.{name_limit};
ghost use Rattle.bib_spec.specs.Text.{folded};

use bib_text::NAME_LIMIT;
use std::hash::{Hash, Hasher};
use std::marker::Model;

/// A name of at most 255 bytes, in lower case. It takes no memory.
#[derive(Drop)]
pub(crate) struct FoldedName {
    bytes: [u8; NAME_LIMIT],
    len: usize,
}

impl Model for FoldedName {
    ghost use Rattle.std.specs.Prelude.{◌≤◌, take};
    ghost use Rattle.bib_spec.specs.Text.{Text};

    ghost Value = { Text };

    ghost view = { λ n. take n.len n.bytes };

    ghost invariant = { λ n. n.len ≤ 255 };
}

impl FoldedName {
    /// The name, folded.
    pub fn of(name: &[u8]) -> Self
        requires { length name.now ≤ name_limit }
        ensures { result ≡ folded name.now }
    {
        let mut bytes = [0; NAME_LIMIT];
        let len = name.len();
        bytes[..len].copy_from_slice(name);
        bytes[..len].make_ascii_lowercase();
        FoldedName { bytes, len }
    }

    /// The bytes of the folded name.
    pub fn as_slice(&self) -> &[u8]
        ensures { result.now ≡ self.now }
    {
        self.bytes.split_at(self.len).0
    }
}

impl PartialEq for FoldedName {
    ghost use Rattle.std.specs.Cmp.{partial_equiv_from_equiv};
    ghost use Rattle.std.specs.Cmp.Lexicographic.{nat_list_eq_equiv};
    ghost use Rattle.std.specs.Str.{bytes_eq};

    ghost eq = { bytes_eq };

    ghost laws = { partial_equiv_from_equiv nat_list_eq_equiv };

    fn eq(&self, other: &FoldedName) -> bool {
        self.as_slice() == other.as_slice()
    }
}

impl Eq for FoldedName {
    ghost use Rattle.std.specs.Cmp.Lexicographic.{nat_list_eq_equiv};

    ghost laws = { nat_list_eq_equiv };
}

impl Hash for FoldedName {
    ghost use Rattle.std.proofs.Common.{ap, []};
    ghost use Rattle.std.specs.Cmp.Lexicographic.{bytes_decides};

    // all bytes by one write, which takes eight of them at once
    ghost hash_input = { λ n. n ∷ [] };

    ghost respects_eq = { λ x y h. ap (λ t. t ∷ []) ((bytes_decides x y).0 h) };

    fn hash<H: Hasher>(&self, state: &mut H) {
        state.write(self.as_slice());
    }
}
