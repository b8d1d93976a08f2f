//! Names, parts and values.

ghost use Rattle.std.specs.Prelude.{◌≡◌, ◌<◌, ◌≤◌, IfSome, IfOk, length};
ghost use Rattle.std.specs.Option.{option_copied};
ghost use Rattle.bib_spec.specs.Bytes.{name_limit};
ghost use Rattle.bib_spec.specs.Text.{is_name_byte, is_space, after_run};
ghost use Rattle.bib_scan.specs.LeftToRight.{read_braced, read_quoted, read_run, read_name, begins_name, read_equals, read_part, past_hash, read_value};
ghost use Rattle.bib_scan.specs.Code.{Gives};
ghost use Rattle.bib_scan.specs.PartView.{part_view};

use crate::braces::{Marked, next_brace};
use crate::class::is_name_byte;
use crate::fault::{Fault, Stop};
use crate::near::first_of_three;
use crate::spans::{digits_len, name_len, past_space, text_from};
use bib_text::NAME_LIMIT;

/// A part of a value, with its content.
#[derive(Clone, Copy, Debug, PartialEq, Eq)]
pub enum Part<'a> {
    Braced(&'a [u8]),
    Quoted(&'a [u8]),
    Digits(&'a [u8]),
    Macro(&'a [u8]),
}

/// The content of a braced part, given the text after its opening brace, and the text after the part.
fn split_braced(text: &[u8]) -> Result<(&[u8], &[u8]), Stop<'_>>
    ensures read { Gives (λ x. (x.0.now, x.1.now)) result (read_braced 0 text.now) }
    ensures shorter { IfOk result (λ x. length x.1.now < length text.now) }
{
    let mut depth = 0usize;
    let mut at = 0;
    let mut marked = Marked::none();
    while let Some(brace) = next_brace(text, at, marked) {
        let place = brace.place;
        if text[place] == b'{' {
            depth += 1;
        } else if depth == 0 {
            return Ok((text.split_at(place).0, text_from(text, place + 1)));
        } else {
            depth -= 1;
        }
        at = place + 1;
        marked = brace.later;
    }
    Err(Stop {
        fault: Fault::Unended,
        rest: text_from(text, text.len()),
    })
}

/// The content of a quoted part, given the text after its opening quotation mark, and the text after the part.
fn split_quoted(text: &[u8]) -> Result<(&[u8], &[u8]), Stop<'_>>
    ensures read { Gives (λ x. (x.0.now, x.1.now)) result (read_quoted 0 text.now) }
    ensures shorter { IfOk result (λ x. length x.1.now < length text.now) }
{
    let mut depth = 0usize;
    let mut at = 0;
    while let Some(found) = first_of_three(b'{', b'}', b'"', text_from(text, at)) {
        let place = at + found;
        match text[place] {
            b'{' => depth += 1,
            b'}' => {
                if depth == 0 {
                    return Err(Stop {
                        fault: Fault::UnbalancedBrace,
                        rest: text_from(text, place),
                    });
                }
                depth -= 1;
            }
            _ => {
                if depth == 0 {
                    return Ok((text.split_at(place).0, text_from(text, place + 1)));
                }
            }
        }
        at = place + 1;
    }
    Err(Stop {
        fault: Fault::Unended,
        rest: text_from(text, text.len()),
    })
}

/// A run of name bytes, which must not be longer than a name may be, and the text after it.
#[inline(always)]
fn split_name_run(text: &[u8]) -> Result<(&[u8], &[u8]), Stop<'_>>
    ensures read { Gives (λ x. (x.0.now, x.1.now)) result (read_run name_limit is_name_byte text.now) }
    ensures shorter { IfOk result (λ x. length x.1.now ≤ length text.now) }
{
    let len = name_len(text);
    if len > NAME_LIMIT {
        return Err(Stop {
            fault: Fault::KeyTooLong,
            rest: text_from(text, NAME_LIMIT),
        });
    }
    Ok(text.split_at(len))
}

/// Whether the text begins with a name.
#[inline(always)]
fn begins_name(text: &[u8]) -> bool
    ensures { result ≡ begins_name text.now }
{
    match text {
        [first, ..] => is_name_byte(*first) && !first.is_ascii_digit(),
        [] => false,
    }
}

/// A field or macro name, and the text after it.
#[inline(always)]
pub(crate) fn split_name(text: &[u8]) -> Result<(&[u8], &[u8]), Stop<'_>>
    ensures read { Gives (λ x. (x.0.now, x.1.now)) result (read_name name_limit text.now) }
    ensures shorter { IfOk result (λ x. length x.1.now ≤ length text.now) }
{
    if begins_name(text) {
        split_name_run(text)
    } else {
        Err(Stop::expected(Fault::ExpectedName, text))
    }
}

/// The text after an equals sign.
#[inline(always)]
pub(crate) fn past_equals(text: &[u8]) -> Result<&[u8], Stop<'_>>
    ensures read { Gives (λ x. x.now) result (read_equals text.now) }
    ensures shorter { IfOk result (λ x. length x.now < length text.now) }
{
    match text {
        [b'=', rest @ ..] => Ok(rest),
        _ => Err(Stop::expected(Fault::ExpectedEquals, text)),
    }
}

/// A part, and the text after it.
#[tactic(auto, unfolding(crate::specs::LeftToRight::read_part))]
pub(crate) fn split_part(text: &[u8]) -> Result<(Part<'_>, &[u8]), Stop<'_>>
    ensures read { Gives (λ x. (part_view x.0, x.1.now)) result (read_part name_limit text.now) }
    ensures shorter { IfOk result (λ x. length x.1.now < length text.now) }
{
    match text {
        [b'{', inside @ ..] => {
            let (content, rest) = split_braced(inside)?;
            Ok((Part::Braced(content), rest))
        }
        [b'"', inside @ ..] => {
            let (content, rest) = split_quoted(inside)?;
            Ok((Part::Quoted(content), rest))
        }
        [b'0'..=b'9', ..] => {
            let (digits, rest) = text.split_at(digits_len(text));
            Ok((Part::Digits(digits), rest))
        }
        [first, ..] if is_name_byte(*first) => {
            let (name, rest) = split_name_run(text)?;
            Ok((Part::Macro(name), rest))
        }
        _ => Err(Stop::expected(Fault::ExpectedValue, text)),
    }
}

/// The text after a `#` and white space, if a `#` comes next; white space may come before it.
#[inline(always)]
pub(crate) fn past_hash(text: &[u8]) -> Option<&[u8]>
    ensures read { option_copied result ≡ past_hash (after_run is_space text.now) }
    ensures shorter { IfSome result (λ u. length u.now < length text.now) }
{
    match past_space(text) {
        [b'#', after @ ..] => Some(past_space(after)),
        _ => None,
    }
}

/// The bytes of a value, and the text after it.
#[inline(always)]
pub(crate) fn split_value(text: &[u8]) -> Result<(&[u8], &[u8]), Stop<'_>>
    ensures read { Gives (λ x. (x.0.now, x.1.now)) result (read_value name_limit text.now) }
    ensures shorter { IfOk result (λ x. length x.1.now < length text.now) }
{
    let (_, mut rest) = split_part(text)?;
    while let Some(next) = past_hash(rest) {
        let (_, later) = split_part(next)?;
        rest = later;
    }
    Ok((text.split_at(text.len() - rest.len()).0, rest))
}
