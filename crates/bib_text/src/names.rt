//! What holds of all names and keys.

ghost use Rattle.std.specs.Prelude.{◌≡◌};
ghost use Rattle.bib_spec.specs.Text.{same};

/// The longest name or key, in bytes. (dialect)
pub const NAME_LIMIT: usize = 255;

/// Whether two texts are equal if the case of ASCII letters does not count, as types, names and keys are compared.
/// (btxdoc 3)
pub fn same_folded(a: &[u8], b: &[u8]) -> bool
    ensures { result ≡ same a.now b.now }
{
    a.eq_ignore_ascii_case(b)
}
