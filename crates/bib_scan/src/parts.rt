//! A value taken apart.

ghost use Rattle.std.specs.Prelude.{◌≡◌, ◌<◌, ℕ, List, [], ◌∷◌, ◌++◌, length, IfOk, IfErr, IfSome};
ghost use Rattle.bib_spec.specs.Bytes.{name_limit};
ghost use Rattle.bib_spec.specs.Tree as tree;
ghost use Rattle.bib_spec.specs.Tree.{Value, IsValue, part_bytes, value_bytes};
ghost use Rattle.bib_scan.specs.Code.{Gives, GivesUnlessMemory};
ghost use Rattle.bib_scan.specs.PartView.{part_view};
ghost use Rattle.bib_scan.specs.ValueParts.{part_kind, kind_begun, parts_of, IsPartsOf, IsValueFault};
ghost use Rattle.bib_scan.specs.PartsLeft.{read_link, read_all_parts};

use crate::fault::{Fault, ReadFault, Refusal, Stop};
use crate::spans::{past_space, text_from};
use crate::value::{Part, past_hash, split_part};
use memchr::memchr;
use std::alloc::Global;
use std::marker::Model;

/// The kinds of parts.
#[derive(Clone, Copy, Debug, PartialEq, Eq)]
pub(crate) enum PartKind {
    Braced,
    Quoted,
    Digits,
    Macro,
}

impl PartKind {
    /// The kind of this part.
    fn of(part: Part<'_>) -> Self
        ensures { result ≡ part_kind (part_view part.entry) }
    {
        match part {
            Part::Braced(_) => PartKind::Braced,
            Part::Quoted(_) => PartKind::Quoted,
            Part::Digits(_) => PartKind::Digits,
            Part::Macro(_) => PartKind::Macro,
        }
    }

    /// The kind of a part that begins with this byte.
    fn begun_by(first: u8) -> Self
        ensures { result ≡ kind_begun first }
    {
        match first {
            b'{' => PartKind::Braced,
            b'"' => PartKind::Quoted,
            b'0'..=b'9' => PartKind::Digits,
            _ => PartKind::Macro,
        }
    }

    /// The part of this kind with these bytes, which include its delimiters.
    fn part_in(self, bytes: &[u8]) -> Part<'_>
        ensures { (p : tree.Part) → part_kind p ≡ self → part_bytes p ≡ bytes.now → part_view result ≡ p }
    {
        match self {
            PartKind::Braced => Part::Braced(inside(bytes)),
            PartKind::Quoted => Part::Quoted(inside(bytes)),
            PartKind::Digits => Part::Digits(bytes),
            PartKind::Macro => Part::Macro(bytes),
        }
    }
}

/// Where a part lies in the value: its first byte, and the first byte after it.
#[derive(Clone, Copy, Debug, PartialEq, Eq)]
pub(crate) struct PartSpan {
    pub kind: PartKind,
    pub start: usize,
    pub end: usize,
}

/// Where the parts of a value lie in its bytes. It does not hold the bytes themselves.
#[derive(Drop)]
pub struct Parts {
    spans: Vec<PartSpan>,
}

impl Model for Parts {
    ghost use Rattle.std.specs.Prelude.{List};
    ghost use Rattle.bib_scan.specs.declared.parts.PartSpan.{PartSpan};

    ghost Value = { List PartSpan };

    ghost view = { λ p. p.spans.items };
}

impl Parts {
    ghost use Rattle.std.specs.Prelude.{◌≡◌, ◌<◌, length, map, slice_get, Some};
    ghost use Rattle.bib_spec.specs.Tree.{Value, IsValue, value_bytes};
    ghost use Rattle.bib_scan.specs.ValueParts.{parts_of, spans_of, span_start, IsPartsOf};

    /// The number of parts, at least 1.
    pub fn len(&self) -> usize
        ensures count { result ≡ length self.now }
        ensures parts { (v : Value) → self.now ≡ spans_of v → result ≡ length (parts_of v) }
    {
        self.spans.len()
    }

    /// The place of part n in the value, in bytes from 0: the place of its first byte, which may be a delimiter.
    pub fn place(&self, n: usize) -> usize
        requires { n < length self.now }
        ensures { slice_get (map span_start self.now) n ≡ Some result }
    {
        self.spans[n].start
    }

    /// Part n of the value with these bytes.
    pub fn part<'a>(&self, bytes: &'a [u8], n: usize) -> Part<'a>
        requires value { IsPartsOf bytes.now self.now }
        requires n_in_range { n < length self.now }
        ensures { (v : Value) → IsValue name_limit v → value_bytes v ≡ bytes.now → slice_get (parts_of v) n ≡ Some (part_view result) }
    {
        let span = self.spans[n];
        span.kind.part_in(
            text_from(bytes, span.start)
                .split_at(span.end - span.start)
                .0,
        )
    }
}

/// The text without its first and its last byte.
fn inside(text: &[u8]) -> &[u8]
    ensures { (b c : ℕ) (t : List ℕ) → text.now ≡ b ∷ t ++ c ∷ [] → result.now ≡ t }
{
    match text {
        [_, inside @ .., _] => inside,
        _ => text,
    }
}

/// The only part of a value whose bytes have no `#`. If they have one, there may be more parts, and the result is `None`.
/// It takes time linear in the length of the bytes, and no memory. `None` promises nothing: the caller then takes the value
/// apart with `read_value`, which costs only time.
pub fn only_part(bytes: &[u8]) -> Option<Part<'_>>
    ensures { IfSome result (λ part. (v : Value) → IsValue name_limit v → value_bytes v ≡ bytes.now → parts_of v ≡ part_view part ∷ []) }
{
    if memchr(b'#', bytes).is_some() {
        return None;
    }
    let kind = PartKind::begun_by(*bytes.first()?);
    Some(kind.part_in(bytes))
}

/// The parts of a text that is one value and nothing else. They take memory in proportion to their count.
/// A text that is no value is refused with a fault of reading (1 to 7), and out of memory with 10.
pub fn read_value(alloc: Global, bytes: &[u8]) -> Result<Parts, ReadFault>
    ensures found { IfOk result (λ parts. IsPartsOf bytes.now parts) }
    // only a text that is no value is refused with 1 to 7: at the place where it goes wrong, with what is wrong there
    ensures fault { IfErr result (λ fault. IsValueFault bytes.now fault.kind fault.place) }
{
    match spans(alloc, bytes) {
        Ok(spans) => Ok(Parts { spans }),
        Err(Refusal::Memory) => Err(ReadFault::MEMORY),
        Err(Refusal::Fault(stop)) => Err(ReadFault {
            kind: stop.fault.number(),
            place: bytes.len() - stop.rest.len(),
        }),
    }
}

/// Where each part of a value lies.
fn spans(alloc: Global, bytes: &[u8]) -> Result<Vec<PartSpan>, Refusal<'_>>
    ensures { GivesUnlessMemory (λ v. v.items) result (read_all_parts name_limit bytes.now) }
{
    let mut spans = Vec::new(alloc);
    let mut next = bytes;
    'parts: loop {
        let (part, rest) = split_part(next)?;
        spans.push(PartSpan {
            kind: PartKind::of(part),
            start: bytes.len() - next.len(),
            end: bytes.len() - rest.len(),
        })?;
        if rest.is_empty() {
            return Ok(spans);
        }
        next = past_link(rest)?;
    }
}

/// The text after `#` and white space; without a `#` the text is refused, since no value ends here.
fn past_link(text: &[u8]) -> Result<&[u8], Stop<'_>>
    ensures read { Gives (λ x. x.now) result (read_link text.now) }
    ensures shorter { IfOk result (λ x. length x.now < length text.now) }
{
    match past_hash(text) {
        Some(next) => Ok(next),
        None => Err(Stop::expected(Fault::ExpectedCommaOrClose, past_space(text))),
    }
}
