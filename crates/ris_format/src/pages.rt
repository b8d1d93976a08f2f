//! Pages, both ways: the first and the last.

ghost use Rattle.std.specs.Prelude.{◌≡◌, ◌++◌, ◌≤◌, OnOk, IfOk, length, map, drop, ◌+◌};
ghost use Rattle.std.specs.List.{prefix_len, list_all, flat_map};
ghost use Rattle.bib_text.specs.Trimming.{before_run};
ghost use Rattle.ris_format.specs.Lines.{line};
ghost use Rattle.ris_format.specs.Pages.{is_no_hyphen, begins_with_hyphen, before_dash, has_dash, before_cut, after_cut, is_margin, page, are_two, written_start, written_end, read_pages, is_plain_page, are_plain_pages};

use crate::keeping::Kept;
use crate::kinds::is;
use crate::lines::push_single;
use crate::text::has_bytes;
use bib_text::{Seq, Text, copied, is_space};
use std::alloc::{AllocError, Global};

/// Whether the text begins with a hyphen.
fn begins_with_hyphen(text: &[u8]) -> bool
    ensures { result ≡ begins_with_hyphen text.now }
{
    match text {
        [first, ..] => *first == b'-',
        [] => false,
    }
}

/// How many bytes are before the first `--`; all bytes if there is none.
fn before_dash(text: &[u8]) -> usize
    ensures len { result ≡ before_dash text.now }
    ensures within { result ≤ length text.now }
{
    for (place, &byte) in text.iter().enumerate() {
        if byte == b'-' && begins_with_hyphen(text.split_at(place + 1).1) {
            return place;
        }
    }
    text.len()
}

/// How many bytes are before the first `-`; all bytes if there is none.
fn before_hyphen(text: &[u8]) -> usize
    ensures len { result ≡ prefix_len is_no_hyphen text.now }
    ensures within { result ≤ length text.now }
{
    text.iter().take_while(|b| **b != b'-').count()
}

/// The text after its first `count` bytes, or nothing if it has fewer.
fn after(text: &[u8], count: usize) -> &[u8]
    ensures { result.now ≡ drop count text.now }
{
    text.split_at(count.min(text.len())).1
}

/// The text before the first `--`; if there is none, before the first `-`.
fn before_cut(text: &[u8]) -> &[u8]
    ensures { result.now ≡ before_cut text.now }
{
    let dash = before_dash(text);
    if dash < text.len() {
        text.split_at(dash).0
    } else {
        text.split_at(before_hyphen(text)).0
    }
}

/// The text after the first `--`; if there is none, after the first `-`.
fn after_cut(text: &[u8]) -> &[u8]
    ensures { result.now ≡ after_cut text.now }
{
    let dash = before_dash(text);
    if dash < text.len() {
        after(text, dash.saturating_add(2))
    } else {
        after(text, before_hyphen(text).saturating_add(1))
    }
}

/// Whether the byte is white space or a hyphen.
fn is_margin(byte: u8) -> bool
    ensures { result ≡ is_margin byte }
{
    is_space(byte) || byte == b'-'
}

/// How many bytes of white space and hyphens the text begins with.
fn margin_len(text: &[u8]) -> usize
    ensures len { result ≡ prefix_len is_margin text.now }
    ensures within { result ≤ length text.now }
{
    text.iter().take_while(|b| is_margin(**b)).count()
}

/// The text without the white space and hyphens at its end.
fn before_margin(text: &[u8]) -> &[u8]
    ensures { result.now ≡ before_run is_margin text.now }
{
    let mut end = text.len();
    while end > 0 && is_margin(text[end - 1]) {
        end -= 1;
    }
    &text[..end]
}

/// The text without white space and hyphens at its ends.
fn page(text: &[u8]) -> &[u8]
    ensures { result.now ≡ page text.now }
{
    before_margin(text.split_at(margin_len(text)).1)
}

// ---- writing

/// Whether the text has a first page and a last page.
fn are_two(text: &[u8]) -> bool
    ensures { result ≡ are_two text.now }
{
    has_bytes(page(before_cut(text))) && has_bytes(page(after_cut(text)))
}

/// Adds a line for the first page.
pub(crate) fn push_start<T: Kept>(
    alloc: Global,
    lines: &mut Vec<T>,
    tag: [u8; 2],
    text: &[u8],
) -> Result<(), AllocError>
    ensures { OnOk result (lines.new.items ≡ lines.old.items ++ flat_map T.kept (map (line tag) (written_start text.now))) }
{
    if are_two(text) {
        push_single(alloc, lines, tag, page(before_cut(text)))
    } else {
        push_single(alloc, lines, tag, text)
    }
}

/// Adds a line for the last page if there are two pages.
pub(crate) fn push_end<T: Kept>(
    alloc: Global,
    lines: &mut Vec<T>,
    tag: [u8; 2],
    text: &[u8],
) -> Result<(), AllocError>
    ensures { OnOk result (lines.new.items ≡ lines.old.items ++ flat_map T.kept (map (line tag) (written_end text.now))) }
{
    if are_two(text) {
        push_single(alloc, lines, tag, page(after_cut(text)))
    } else {
        Ok(())
    }
}

// ---- reading

/// The two pages with a dash between them, or the one that is not empty.
pub(crate) fn read_pages(alloc: Global, start: &[u8], end: &[u8]) -> Result<Text, AllocError>
    ensures { IfOk result (λ t. t ≡ read_pages start.now end.now) }
{
    if !has_bytes(start) {
        return copied(alloc, end);
    }
    if !has_bytes(end) {
        return copied(alloc, start);
    }
    let mut text = Vec::from_slice(alloc, start)?;
    text.extend_from_slice(b"--")?;
    text.extend_from_slice(end)?;
    Ok(Seq::from_vec(text))
}

// ---- the profile

/// Whether the text has a `--`.
fn has_dash(text: &[u8]) -> bool
    ensures { result ≡ has_dash text.now }
{
    before_dash(text) < text.len()
}

/// Whether the text is a page: not empty, without `--`, and without white space or hyphens at its ends.
fn is_plain_page(text: &[u8]) -> bool
    ensures { result ≡ is_plain_page text.now }
{
    has_bytes(text) && !has_dash(text) && is(page(text), text)
}

/// Whether the text has no hyphen.
fn has_no_hyphen(text: &[u8]) -> bool
    ensures { result ≡ list_all is_no_hyphen text.now }
{
    text.iter().all(|b| *b != b'-')
}

/// Whether the text has no hyphen, or is two pages with `--` between them.
pub(crate) fn are_plain_pages(text: &[u8]) -> bool
    ensures { result ≡ are_plain_pages text.now }
{
    if has_no_hyphen(text) {
        return true;
    }
    has_dash(text) && is_plain_page(before_cut(text)) && is_plain_page(after_cut(text))
}
