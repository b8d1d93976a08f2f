//! Dates, both ways: `year/MM//`.

ghost use Rattle.std.specs.Prelude.{◌≡◌, ◌++◌, ◌||◌, ◌≤◌, OnOk, IfOk, length, map, take};
ghost use Rattle.std.specs.List.{prefix_len, flat_map};
ghost use Rattle.std.specs.Option.{option_copied};
ghost use Rattle.bib_spec.specs.Text.{same};
ghost use Rattle.ris_format.specs.Lines.{line};
ghost use Rattle.ris_format.specs.Dates.{shown, digits_among, named_among, is_named_among, has_slash, month_digits, written_year, written_month, date_value, written_date, is_no_slash, before_slash, after_slash, read_year, is_zero_digit, plain_number, read_month, is_plain_month};

use crate::keeping::Kept;
use crate::kinds::is;
use crate::text::has_bytes;
use bib_text::{Seq, Text, same_folded, trimmed};
use std::alloc::{AllocError, Global};

/// The twelve months, each with its number in two digits.
const MONTHS: [(&[u8], &[u8]); 12] = [
    (b"January", b"01"),
    (b"February", b"02"),
    (b"March", b"03"),
    (b"April", b"04"),
    (b"May", b"05"),
    (b"June", b"06"),
    (b"July", b"07"),
    (b"August", b"08"),
    (b"September", b"09"),
    (b"October", b"10"),
    (b"November", b"11"),
    (b"December", b"12"),
];

// ---- writing

/// Whether the text has a slash.
pub(crate) fn has_slash(text: &[u8]) -> bool
    ensures { result ≡ has_slash text.now }
{
    text.iter().any(|b| *b == b'/')
}

/// The first three bytes of the text.
fn short(text: &[u8]) -> &[u8]
    ensures { result.now ≡ take 3 text.now }
{
    text.split_at(text.len().min(3)).0
}

/// Whether the text is the month's name or its first three letters.
fn is_month(month: &[u8], text: &[u8]) -> bool
    ensures { result ≡ (same month.now text.now || same (take 3 month.now) text.now) }
{
    same_folded(month, text) || same_folded(short(month), text)
}

/// The number of the first of these months that the text names.
fn digits_among(months: &[(&'static [u8], &'static [u8])], text: &[u8]) -> Option<&'static [u8]>
    ensures { option_copied result ≡ digits_among (map shown months.now) text.now }
{
    for month in months {
        if is_month(month.0, text) {
            return Some(month.1);
        }
    }
    None
}

/// The number of the month that the text names.
pub(crate) fn month_digits(text: &[u8]) -> Option<&'static [u8]>
    ensures { option_copied result ≡ month_digits text.now }
{
    digits_among(&MONTHS, text)
}

/// The year, empty if it has a slash, since a date cannot carry it.
fn written_year(year: &[u8]) -> &[u8]
    ensures { result.now ≡ written_year year.now }
{
    if has_slash(year) { b"" } else { year }
}

/// The month's number, empty if the text names no month.
fn written_month(text: &[u8]) -> &'static [u8]
    ensures { result.now ≡ written_month text.now }
{
    match month_digits(text) {
        Some(digits) => digits,
        None => b"",
    }
}

/// The value of a date.
fn date_value(alloc: Global, year: &[u8], digits: &[u8]) -> Result<Text, AllocError>
    ensures { IfOk result (λ t. t ≡ date_value year.now digits.now) }
{
    let len = year.len().saturating_add(digits.len()).saturating_add(3);
    let mut value = Vec::with_capacity(alloc, len)?;
    value.extend_from_slice(year)?;
    value.extend_from_slice(b"/")?;
    value.extend_from_slice(digits)?;
    value.extend_from_slice(b"//")?;
    Ok(Seq::from_vec(value))
}

/// Adds a line for the date if there is a year or a month.
pub(crate) fn push_date<T: Kept>(
    alloc: Global,
    lines: &mut Vec<T>,
    tag: [u8; 2],
    year: &[u8],
    month: &[u8],
) -> Result<(), AllocError>
    ensures { OnOk result (lines.new.items ≡ lines.old.items ++ flat_map T.kept (map (line tag) (written_date year.now month.now))) }
{
    let year = written_year(year);
    let digits = written_month(month);
    if has_bytes(year) || has_bytes(digits) {
        let value = date_value(alloc, year, digits)?;
        T::keep(alloc, lines, tag, value.as_slice())?;
    }
    Ok(())
}

// ---- reading

/// How many bytes are before the first slash; all bytes if there is none.
fn slash_place(text: &[u8]) -> usize
    ensures len { result ≡ prefix_len is_no_slash text.now }
    ensures within { result ≤ length text.now }
{
    text.iter().take_while(|b| **b != b'/').count()
}

/// The text before the first slash.
fn before_slash(text: &[u8]) -> &[u8]
    ensures { result.now ≡ before_slash text.now }
{
    text.split_at(slash_place(text)).0
}

/// The text after the first slash.
fn after_slash(text: &[u8]) -> &[u8]
    ensures { result.now ≡ after_slash text.now }
{
    match text.split_at(slash_place(text)).1 {
        [_, rest @ ..] => rest,
        [] => b"",
    }
}

/// The year of a date.
pub(crate) fn read_year(value: &[u8]) -> &[u8]
    ensures { result.now ≡ read_year value.now }
{
    trimmed(before_slash(value))
}

/// How many zeros the text begins with.
fn zero_len(text: &[u8]) -> usize
    ensures len { result ≡ prefix_len is_zero_digit text.now }
    ensures within { result ≤ length text.now }
{
    text.iter().take_while(|b| **b == b'0').count()
}

/// The digits without zeros at the front.
fn plain_number(digits: &[u8]) -> &[u8]
    ensures { result.now ≡ plain_number digits.now }
{
    digits.split_at(zero_len(digits)).1
}

/// The first of these months with this number.
fn named_among(months: &[(&'static [u8], &'static [u8])], digits: &[u8]) -> &'static [u8]
    ensures { result.now ≡ named_among (map shown months.now) digits.now }
{
    for month in months {
        if is(plain_number(digits), plain_number(month.1)) {
            return month.0;
        }
    }
    b""
}

/// The month of a date, empty if the second piece of the date is no number from 1 to 12.
pub(crate) fn read_month(value: &[u8]) -> &'static [u8]
    ensures { result.now ≡ read_month value.now }
{
    named_among(&MONTHS, trimmed(before_slash(after_slash(value))))
}

// ---- the profile

/// Whether the text is the name of one of these months.
fn is_named_among(months: &[(&'static [u8], &'static [u8])], text: &[u8]) -> bool
    ensures { result ≡ is_named_among (map shown months.now) text.now }
{
    for month in months {
        if is(month.0, text) {
            return true;
        }
    }
    false
}

/// Whether the text is the name of a month.
pub(crate) fn is_plain_month(text: &[u8]) -> bool
    ensures { result ≡ is_plain_month text.now }
{
    is_named_among(&MONTHS, text)
}
