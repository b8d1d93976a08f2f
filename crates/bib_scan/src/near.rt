//! First places of bytes that are probably near.

ghost use Rattle.memchr.specs.Find.{IsFirstByte, is_byte3};

use memchr::memchr3_iter;

/// The first place of one of three bytes in the text, in bytes from 0, or `None` if the text has none of them. It is fast
/// if that place is near. It takes time linear in the bytes before the place, or in the text's length, and no memory.
#[inline]
pub(crate) fn first_of_three(a: u8, b: u8, c: u8, text: &[u8]) -> Option<usize>
    ensures { IsFirstByte (is_byte3 a b c) text.now result }
{
    memchr3_iter(a, b, c, text).next()
}
