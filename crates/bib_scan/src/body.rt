//! Commands: keys, rows and closing delimiters.

ghost use Rattle.std.specs.Prelude.{◌≡◌, ◌<◌, ◌≤◌, false, IfSome, IfOk, length, codes};
ghost use Rattle.std.specs.Option.{option_copied};
ghost use Rattle.std.specs.List.{prefix_len};
ghost use Rattle.bib_spec.specs.Bytes.{name_limit};
ghost use Rattle.bib_spec.specs.Text.{is_space, after_run, same};
ghost use Rattle.bib_spec.specs.Tree.{goes_on_key, close_byte};
ghost use Rattle.bib_scan.specs.LeftToRight.{read_run, past_byte, read_comma, read_close, read_all_rows, read_entry, read_definition, read_preamble, read_body, read_command};
ghost use Rattle.bib_scan.specs.FieldsLeft.{kind_named, read_opening};
ghost use Rattle.bib_scan.specs.NotesLeft.{crossref_left, entry_head, head_after, read_entry_head};
ghost use Rattle.bib_scan.specs.Code.{Gives};
ghost use Rattle.bib_scan.specs.DelimiterView.{delimiter_view};

use crate::class::{is_key_byte_in_braces, is_key_byte_in_parens};
use crate::fault::{Fault, Stop};
use crate::note::EntryHead;
use crate::opening::Delimiter;
use crate::row::{past_row, split_assignment};
use crate::spans::{past_space, split_type_name, text_from};
use crate::value::split_value;
use bib_text::{NAME_LIMIT, same_folded};

/// The text after this byte, if the text begins with it.
#[inline(always)]
fn past_byte(byte: u8, text: &[u8]) -> Option<&[u8]>
    ensures read { option_copied result ≡ past_byte byte text.now }
    ensures shorter { IfSome result (λ x. length x.now < length text.now) }
{
    match text {
        [first, rest @ ..] if *first == byte => Some(rest),
        _ => None,
    }
}

/// The text after a comma.
#[inline(always)]
pub(crate) fn past_comma(text: &[u8]) -> Result<&[u8], Stop<'_>>
    ensures read { Gives (λ x. x.now) result (read_comma text.now) }
    ensures shorter { IfOk result (λ x. length x.now < length text.now) }
{
    match text {
        [b',', rest @ ..] => Ok(rest),
        _ => Err(Stop::expected(Fault::ExpectedCommaOrClose, text)),
    }
}

/// The text after the closing delimiter.
fn past_close(close: u8, text: &[u8]) -> Result<&[u8], Stop<'_>>
    ensures read { Gives (λ x. x.now) result (read_close close text.now) }
    ensures shorter { IfOk result (λ x. length x.now < length text.now) }
{
    match past_byte(close, text) {
        Some(rest) => Ok(rest),
        None => Err(Stop::expected(Fault::ExpectedCommaOrClose, text)),
    }
}

/// The number of bytes of a key at the front of the text.
pub(crate) fn key_len(delimiter: Delimiter, text: &[u8]) -> usize
    ensures len { result ≡ prefix_len (goes_on_key (delimiter_view delimiter)) text.now }
    ensures within { result ≤ length text.now }
{
    match delimiter {
        Delimiter::Brace => text
            .iter()
            .take_while(|b| is_key_byte_in_braces(**b))
            .count(),
        Delimiter::Paren => text
            .iter()
            .take_while(|b| is_key_byte_in_parens(**b))
            .count(),
    }
}

/// A key, and the text after it.
fn split_key(delimiter: Delimiter, text: &[u8]) -> Result<(&[u8], &[u8]), Stop<'_>>
    ensures read { Gives (λ x. (x.0.now, x.1.now)) result (read_run name_limit (goes_on_key (delimiter_view delimiter)) text.now) }
    ensures shorter { IfOk result (λ x. length x.1.now ≤ length text.now) }
{
    let len = key_len(delimiter, text);
    if len > NAME_LIMIT {
        return Err(Stop {
            fault: Fault::KeyTooLong,
            rest: text_from(text, NAME_LIMIT),
        });
    }
    Ok(text.split_at(len))
}

/// The text after an entry's rows and its closing delimiter, and the number of bytes left from the comma of the first row
/// named `crossref` on, which is 0 if there is no such row.
fn past_rows(delimiter: Delimiter, text: &[u8]) -> Result<(&[u8], usize), Stop<'_>>
    ensures read { Gives (λ x. x.0.now) result (read_all_rows name_limit (close_byte (delimiter_view delimiter)) text.now) }
    ensures shorter { IfOk result (λ x. length x.0.now < length text.now) }
    ensures crossref { IfOk result (λ x. x.1 ≡ crossref_left text.now) }
    ensures within { IfOk result (λ x. x.1 ≤ length text.now) }
{
    let close = delimiter.close();
    let mut rest = text;
    let mut crossref_left = 0;
    'turns: loop {
        if let Some(end) = past_byte(close, rest) {
            return Ok((end, crossref_left));
        }
        let named = past_space(past_comma(rest)?);
        if let Some(end) = past_byte(close, named) {
            return Ok((end, crossref_left));
        }
        let (assigned, later) = split_assignment(named)?;
        if crossref_left == 0 && same_folded(assigned.name, b"crossref") {
            crossref_left = rest.len();
        }
        rest = later;
    }
}

/// The text after an entry, given the text after its opening delimiter, and what is noted of the entry.
#[tactic(auto, unfolding(crate::specs::LeftToRight::read_entry))]
fn past_entry(delimiter: Delimiter, text: &[u8]) -> Result<(&[u8], EntryHead), Stop<'_>>
    ensures read { Gives (λ x. x.0.now) result (read_entry name_limit (delimiter_view delimiter) text.now) }
    ensures shorter { IfOk result (λ x. length x.0.now < length text.now) }
    ensures head { IfOk result (λ x. x.1 ≡ entry_head (delimiter_view delimiter, after_run is_space text.now)) }
    ensures key { IfOk result (λ x. x.1.key_len ≤ name_limit) }
    ensures within { IfOk result (λ x. x.1.crossref_left ≤ length text.now) }
{
    let inside = past_space(text);
    let (key, after_key) = split_key(delimiter, inside)?;
    let (rest, crossref_left) = past_rows(delimiter, past_space(after_key))?;
    let head = EntryHead {
        key_left: inside.len(),
        key_len: key.len(),
        crossref_left,
    };
    Ok((rest, head))
}

/// The text after a preamble, given the text after its opening delimiter.
fn past_preamble(close: u8, text: &[u8]) -> Result<&[u8], Stop<'_>>
    ensures read { Gives (λ x. x.now) result (read_preamble name_limit close text.now) }
    ensures shorter { IfOk result (λ x. length x.now < length text.now) }
{
    let (_, rest) = split_value(past_space(text))?;
    past_close(close, past_space(rest))
}

/// The text after a macro definition, given the text after its opening delimiter.
fn past_definition(close: u8, text: &[u8]) -> Result<&[u8], Stop<'_>>
    ensures read { Gives (λ x. x.now) result (read_definition name_limit close text.now) }
    ensures shorter { IfOk result (λ x. length x.now < length text.now) }
{
    past_close(close, past_row(text)?)
}

/// The text after a command of this type, which is not `comment`, given the text from its opening delimiter on; and what is
/// noted of it if it is an entry.
#[tactic(auto, unfolding(crate::specs::LeftToRight::read_body))]
fn past_body<'a>(
    type_name: &[u8],
    text: &'a [u8],
) -> Result<(&'a [u8], Option<EntryHead>), Stop<'a>>
    ensures read { Gives (λ x. x.0.now) result (read_body name_limit type_name.now text.now) }
    ensures shorter { IfOk result (λ x. length x.0.now < length text.now) }
    ensures head { same type_name.now (codes "comment") ≡ false → IfOk result (λ x. x.1 ≡ head_after (kind_named type_name.now) (read_opening text.now)) }
    ensures key { IfOk result (λ x. IfSome x.1 (λ h. h.key_len ≤ name_limit)) }
    ensures within { IfOk result (λ x. IfSome x.1 (λ h. h.crossref_left ≤ length text.now)) }
{
    match text {
        [] => Err(Stop::expected(Fault::Unended, text)),
        [first, inside @ ..] => {
            let delimiter = Delimiter::of(*first);
            if same_folded(type_name, b"string") {
                Ok((past_definition(delimiter.close(), inside)?, None))
            } else if same_folded(type_name, b"preamble") {
                Ok((past_preamble(delimiter.close(), inside)?, None))
            } else {
                let (rest, head) = past_entry(delimiter, inside)?;
                Ok((rest, Some(head)))
            }
        }
    }
}

/// The text after the command that begins here, and what is noted of it if it is an entry.
#[tactic(auto, unfolding(crate::specs::LeftToRight::read_command))]
pub(crate) fn past_command(text: &[u8]) -> Result<(&[u8], Option<EntryHead>), Stop<'_>>
    ensures read { Gives (λ x. x.0.now) result (read_command name_limit text.now) }
    ensures shorter { IfOk result (λ x. length x.0.now < length text.now) }
    ensures head { IfOk result (λ x. x.1 ≡ read_entry_head text.now) }
    ensures key { IfOk result (λ x. IfSome x.1 (λ h. h.key_len ≤ name_limit)) }
    ensures within { IfOk result (λ x. IfSome x.1 (λ h. h.crossref_left ≤ length text.now)) }
{
    match text {
        [] => Err(Stop::expected(Fault::Unended, text)),
        [_, after @ ..] => {
            let (type_name, rest) = split_type_name(past_space(after));
            if same_folded(type_name, b"comment") {
                Ok((rest, None))
            } else {
                past_body(type_name, past_space(rest))
            }
        }
    }
}
