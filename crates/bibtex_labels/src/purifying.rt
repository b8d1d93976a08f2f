//! Texts without their commands, braces and signs.

ghost use Rattle.std.specs.Prelude.{◌≡◌, ◌≤◌, ◌<◌, ◌++◌, ◌∷◌, [], ◌==◌, length, filter, IfOk, IfSome, IfNone, OnOk, not};
ghost use Rattle.std.specs.List.{flat_map, list_any, prefix_len};
ghost use Rattle.std.specs.Str.{bytes_eq};
ghost use Rattle.bib_spec.specs.Text.{folded};
ghost use Rattle.bibtex_labels.specs.Pieces.{backslash, pieces};
ghost use Rattle.bibtex_labels.specs.Purified.{is_letter, is_alphanumeric, is_separator, purified_byte, stays, two_letters, one_letter, foreign_letters, purified_command, between_backslashes, purified_piece, purified, sortified};

use crate::kept::first_bytes;
use crate::pieces::Pieces;
use bib_text::{Seq, Text, is_space};
use std::alloc::{AllocError, Global};

/// Whether the byte is a letter.
fn is_letter(byte: u8) -> bool
    ensures { result ≡ is_letter byte }
{
    byte.is_ascii_alphabetic() || byte >= 0x80
}

/// Whether the byte is a letter or a digit.
fn is_alphanumeric(byte: u8) -> bool
    ensures { result ≡ is_alphanumeric byte }
{
    byte.is_ascii_alphanumeric() || byte >= 0x80
}

/// Whether the byte separates words.
fn is_separator(byte: u8) -> bool
    ensures { result ≡ is_separator byte }
{
    is_space(byte) || byte == b'~' || byte == b'-'
}

/// Adds what is left of a byte outside of special characters.
fn push_byte(out: &mut Vec<u8>, byte: u8) -> Result<(), AllocError>
    ensures { OnOk result (out.new.items ≡ out.old.items ++ purified_byte byte) }
{
    if is_separator(byte) {
        out.push(b' ')?;
    } else if is_alphanumeric(byte) {
        out.push(byte)?;
    }
    Ok(())
}

/// Whether the byte stays as it is: a letter, a digit or a space.
fn stays(byte: u8) -> bool
    ensures { result ≡ stays byte }
{
    is_alphanumeric(byte) || byte == b' '
}

/// How many bytes at the front stay as they are.
fn run_len(text: &[u8]) -> usize
    ensures len { result ≡ prefix_len stays text.now }
    ensures within { result ≤ length text.now }
{
    text.iter().take_while(|b| stays(**b)).count()
}

/// Adds the bytes at the front that stay as they are, and what is left of the byte after them. The bytes after that are left to do.
fn push_run<'a>(out: &mut Vec<u8>, bytes: &'a [u8]) -> Result<&'a [u8], AllocError>
    requires { 0 < length bytes.now }
    ensures rest { IfOk result (λ rest. out.new.items ++ flat_map purified_byte rest.now ≡ out.old.items ++ flat_map purified_byte bytes.now) }
    ensures fewer { IfOk result (λ rest. length rest.now < length bytes.now) }
{
    let (run, after) = bytes.split_at(run_len(bytes));
    out.extend_from_slice(run)?;
    let Some((byte, rest)) = after.split_first() else {
        return Ok(after);
    };
    push_byte(out, *byte)?;
    Ok(rest)
}

/// Adds what is left of bytes outside of special characters.
fn push_bytes(out: &mut Vec<u8>, bytes: &[u8]) -> Result<(), AllocError>
    ensures { OnOk result (out.new.items ≡ out.old.items ++ flat_map purified_byte bytes.now) }
{
    // most bytes are copied, run by run
    let mut rest = bytes;
    'bytes: while !rest.is_empty() {
        rest = push_run(out, rest)?;
    }
    Ok(())
}

/// Whether the command prints two foreign letters.
fn is_two_letters(command: &[u8]) -> bool
    ensures { result ≡ list_any (bytes_eq command.now) two_letters }
{
    matches!(command, b"oe" | b"OE" | b"ae" | b"AE" | b"ss")
}

/// Whether the command prints one foreign letter.
fn is_one_letter(command: &[u8]) -> bool
    ensures { result ≡ list_any (bytes_eq command.now) one_letter }
{
    matches!(
        command,
        b"i" | b"j" | b"aa" | b"AA" | b"o" | b"O" | b"l" | b"L"
    )
}

/// What is left of a command.
#[tactic(auto, unfolding(crate::specs::Purified::foreign_letters))]
fn foreign_letters(command: &[u8]) -> &[u8]
    ensures { result.now ≡ foreign_letters command.now }
{
    if is_two_letters(command) {
        first_bytes(command, 2)
    } else if is_one_letter(command) {
        first_bytes(command, 1)
    } else {
        b""
    }
}

/// How many letters the text begins with.
fn command_len(text: &[u8]) -> usize
    ensures len { result ≡ prefix_len is_letter text.now }
    ensures within { result ≤ length text.now }
{
    text.iter().take_while(|b| is_letter(**b)).count()
}

/// Adds the letters and digits of a text.
fn push_alphanumeric(out: &mut Vec<u8>, text: &[u8]) -> Result<(), AllocError>
    ensures { OnOk result (out.new.items ≡ out.old.items ++ filter is_alphanumeric text.now) }
{
    'letters: for byte in text {
        if is_alphanumeric(*byte) {
            out.push(*byte)?;
        }
    }
    Ok(())
}

/// Adds what is left of a text that begins behind a backslash.
fn push_command(out: &mut Vec<u8>, text: &[u8]) -> Result<(), AllocError>
    ensures { OnOk result (out.new.items ≡ out.old.items ++ purified_command text.now) }
{
    let (command, after) = text.split_at(command_len(text));
    out.extend_from_slice(foreign_letters(command))?;
    push_alphanumeric(out, after)
}

/// How many bytes there are before the first backslash.
fn before_backslash(text: &[u8]) -> usize
    ensures len { result ≡ prefix_len (λ b. not (b == backslash)) text.now }
    ensures within { result ≤ length text.now }
{
    text.iter().take_while(|b| **b != b'\\').count()
}

/// The text before the first backslash and the text after it, if there is one.
fn split_at_backslash(text: &[u8]) -> Option<(&[u8], &[u8])>
    ensures cut { IfSome result (λ r. between_backslashes text.now ≡ r.0.now ∷ between_backslashes r.1.now) }
    ensures less { IfSome result (λ r. length r.1.now < length text.now) }
    ensures none { IfNone result (between_backslashes text.now ≡ text.now ∷ []) }
{
    let end = before_backslash(text);
    if end == text.len() {
        return None;
    }
    let (command, rest) = text.split_at(end);
    Some((command, rest.split_at(1).1))
}

/// Adds what is left of the commands of a text that begins behind a backslash.
fn push_commands(out: &mut Vec<u8>, text: &[u8]) -> Result<(), AllocError>
    ensures { OnOk result (out.new.items ≡ out.old.items ++ flat_map purified_command (between_backslashes text.now)) }
{
    let mut rest = text;
    'commands: while let Some((command, after)) = split_at_backslash(rest) {
        push_command(out, command)?;
        rest = after;
    }
    push_command(out, rest)
}

/// Adds what is left of a piece.
fn push_piece(out: &mut Vec<u8>, piece: &[u8]) -> Result<(), AllocError>
    ensures { OnOk result (out.new.items ≡ out.old.items ++ purified_piece piece.now) }
{
    if piece.len() > 1 {
        push_commands(out, piece.split_at(2).1)
    } else {
        push_bytes(out, piece)
    }
}

/// Adds what is left of the bytes before the next brace, and gives the pieces after them.
fn push_plain<'a>(out: &mut Vec<u8>, pieces: Pieces<'a>) -> Result<Pieces<'a>, AllocError>
    ensures rest { IfOk result (λ rest. out.new.items ++ flat_map purified_piece rest ≡ out.old.items ++ flat_map purified_piece pieces.entry) }
    ensures fewer { IfOk result (λ rest. length rest ≤ length pieces.entry) }
{
    let (plain, rest) = pieces.split_plain();
    push_bytes(out, plain)?;
    Ok(rest)
}

/// Adds what is left of a text.
pub(crate) fn push_purified(out: &mut Vec<u8>, text: &[u8]) -> Result<(), AllocError>
    ensures { OnOk result (out.new.items ≡ out.old.items ++ purified text.now) }
{
    let mut pieces = push_plain(out, Pieces::of(text))?;
    'pieces: while let Some((piece, rest)) = pieces.next() {
        push_piece(out, piece)?;
        pieces = push_plain(out, rest)?;
    }
    Ok(())
}

/// A text without commands, braces and signs: `purify$`. Separators of words are spaces in it; of a special character the letters of
/// a foreign letter's command are left, and the letters and digits outside of commands. It takes time and memory in the length of
/// the text. (bibtex 431 to 433)
pub fn purified(alloc: Global, text: &[u8]) -> Result<Text, AllocError>
    ensures { IfOk result (λ t. t ≡ purified text.now) }
{
    let mut out = Vec::with_capacity(alloc, text.len())?;
    push_purified(&mut out, text)?;
    Ok(Seq::from_vec(out))
}

/// The text in lower case, in the memory that it has.
pub(crate) fn in_lower_case(text: Text) -> Text
    ensures { result ≡ folded text }
{
    let mut bytes = text.into_vec();
    bytes.make_ascii_lowercase();
    Seq::from_vec(bytes)
}

/// The same in lower case, by which styles sort.
pub fn sortified(alloc: Global, text: &[u8]) -> Result<Text, AllocError>
    ensures { IfOk result (λ t. t ≡ sortified text.now) }
{
    Ok(in_lower_case(purified(alloc, text)?))
}
