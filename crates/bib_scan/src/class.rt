//! Classes of bytes.

ghost use Rattle.std.specs.Prelude.{◌≡◌};
ghost use Rattle.bib_spec.specs.Text.{is_space, is_name_byte, is_type_byte, is_new_key_byte};
ghost use Rattle.bib_spec.specs.Tree as tree;
ghost use Rattle.bib_spec.specs.Tree.{goes_on_key};

const NAME: u8 = 1;

const SPACE: u8 = 2;

const TYPE: u8 = 4;

// A digit for each byte; the low three bits of the digit are the flags above.
static CLASSES: [u8; 256] = *b"\
    00000000022002000000000000000000\
    25005050005505555555555555555055\
    15555555555555555555555555555555\
    55555555555555555555555555505050\
    55555555555555555555555555555555\
    55555555555555555555555555555555\
    55555555555555555555555555555555\
    55555555555555555555555555555555";

const IN_BRACES: u8 = 1;

const IN_PARENS: u8 = 2;

// A digit for each byte; the low two bits of the digit are the flags above: whether the byte belongs to a key in an item
// with these delimiters.
static KEYS: [u8; 256] = *b"\
    33333333300330333333333333333333\
    03333333333303333333333333333333\
    33333333333333333333333333333333\
    33333333333333333333333333333233\
    33333333333333333333333333333333\
    33333333333333333333333333333333\
    33333333333333333333333333333333\
    33333333333333333333333333333333";

/// Whether the byte is white space.
#[inline(always)]
pub(crate) fn is_space(byte: u8) -> bool
    ensures { result ≡ is_space byte }
{
    CLASSES[byte as usize] & SPACE != 0
}

/// Whether a name may have this byte.
#[inline(always)]
pub(crate) fn is_name_byte(byte: u8) -> bool
    ensures { result ≡ is_name_byte byte }
{
    CLASSES[byte as usize] & NAME != 0
}

/// Whether a type name may have this byte.
#[inline(always)]
pub(crate) fn is_type_byte(byte: u8) -> bool
    ensures { result ≡ is_type_byte byte }
{
    CLASSES[byte as usize] & TYPE != 0
}

/// Whether the byte belongs to a key, in an item in braces.
#[inline(always)]
pub(crate) fn is_key_byte_in_braces(byte: u8) -> bool
    ensures { result ≡ goes_on_key tree.Brace byte }
{
    KEYS[byte as usize] & IN_BRACES != 0
}

/// Whether the byte belongs to a key, in an item in parentheses.
#[inline(always)]
pub(crate) fn is_key_byte_in_parens(byte: u8) -> bool
    ensures { result ≡ goes_on_key tree.Paren byte }
{
    KEYS[byte as usize] & IN_PARENS != 0
}

/// Whether a key that an edit writes may have this byte.
#[tactic(auto, unfolding(bib_spec::specs::Text::is_new_key_byte))]
pub(crate) fn is_new_key_byte(byte: u8) -> bool
    ensures { result ≡ is_new_key_byte byte }
{
    byte > b' ' && !matches!(byte, 0x7f | b',' | b'{' | b'}')
}
