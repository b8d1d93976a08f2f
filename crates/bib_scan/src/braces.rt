//! The braces of a text, one after the other. It knows bytes alone, and searches 32 bytes at a time for braces.
//! It promises the first brace from a place on, and each call continues where the call before it ended.

ghost use Rattle.std.specs.Prelude.{◌≡◌, ◌≢◌, ◌↔◌, ℕ, ◌+◌, ◌<◌, ◌≤◌, length, MatchOption};
ghost use Rattle.std.specs.Int.{bit_at};
ghost use Rattle.memchr.specs.Find.{Nowhere};
ghost use Rattle.bib_spec.specs.Text.{Text};
ghost use Rattle.bib_scan.specs.Braces.{IsBraceAt, IsMarked, IsNextBrace};

use std::simd::prelude::*;

/// The braces before `end` that were found but not yet returned: bit k of `bits` stands for the byte at `end - 32 + k`.
#[derive(Clone, Copy)]
pub(crate) struct Marked {
    end: usize,
    bits: u64,
}

/// A brace, and the braces after it that were already found.
#[derive(Clone, Copy)]
pub(crate) struct Brace {
    pub(crate) place: usize,
    pub(crate) later: Marked,
}

impl Marked {
    /// No brace was found yet, and no byte was read.
    #[inline(always)]
    pub(crate) fn none() -> Marked
        ensures { (t : Text) → IsMarked t 0 result }
    {
        Marked { end: 0, bits: 0 }
    }
}

/// Which of the 32 bytes from a place on are braces.
#[inline(always)]
fn braces_among(text: &[u8], at: usize) -> u64
    requires { at + 32 ≤ length text.now }
    ensures { (k : ℕ) → (bit_at result k ≡ 1) ↔ ((k < 32) × IsBraceAt text.now (at + k)) }
{
    let bytes = u8x32::from_slice(&text[at..]);
    (bytes.simd_eq(u8x32::splat(b'{')) | bytes.simd_eq(u8x32::splat(b'}'))).to_bitmask()
}

/// The place of the lowest bit.
#[inline(always)]
fn lowest(bits: u64) -> usize
    requires { bits ≢ 0 }
    ensures set { bit_at bits result ≡ 1 }
    ensures below { (k : ℕ) → bit_at bits k ≡ 1 → result ≤ k }
{
    bits.trailing_zeros() as usize
}

/// The bits without the lowest set bit.
#[inline(always)]
fn without_lowest(bits: u64, place: usize) -> u64
    requires set { bit_at bits place ≡ 1 }
    requires below { (k : ℕ) → bit_at bits k ≡ 1 → place ≤ k }
    ensures { (k : ℕ) → (bit_at result k ≡ 1) ↔ ((bit_at bits k ≡ 1) × (place < k)) }
{
    bits & (bits - 1)
}

/// The place of the first brace from a place on, or the length of the text. It reads byte by byte.
#[inline(never)]
fn brace_place(text: &[u8], at: usize) -> usize
    requires { at ≤ length text.now }
    ensures bounds { (at ≤ result) × (result ≤ length text.now) }
    ensures before { Nowhere (IsBraceAt text.now) at result }
    ensures brace { result < length text.now → IsBraceAt text.now result }
{
    let mut place = at;
    while place < text.len() && text[place] != b'{' && text[place] != b'}' {
        place += 1;
    }
    place
}

/// The first brace from a place on, if none was found before, for a text that ends soon.
#[inline(always)]
fn next_unmarked(text: &[u8], at: usize) -> Option<Brace>
    requires { at ≤ length text.now }
    ensures { MatchOption result (Nowhere (IsBraceAt text.now) at (length text.now)) (IsNextBrace text.now at) }
{
    let place = brace_place(text, at);
    if place == text.len() {
        return None;
    }
    Some(Brace {
        place,
        later: Marked {
            end: place + 1,
            bits: 0,
        },
    })
}

/// The first brace from a place on, if these braces were already found.
#[inline(always)]
pub(crate) fn next_brace(text: &[u8], at: usize, marked: Marked) -> Option<Brace>
    requires { IsMarked text.now at marked }
    ensures { MatchOption result (Nowhere (IsBraceAt text.now) at (length text.now)) (IsNextBrace text.now at) }
{
    let mut now = marked;
    while now.bits == 0 {
        if text.len() - now.end < 32 {
            return next_unmarked(text, now.end);
        }
        now = Marked {
            end: now.end + 32,
            bits: braces_among(text, now.end),
        };
    }
    let bit = lowest(now.bits);
    Some(Brace {
        place: now.end + bit - 32,
        later: Marked {
            end: now.end,
            bits: without_lowest(now.bits, bit),
        },
    })
}
