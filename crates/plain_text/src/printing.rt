//! What LaTeX prints of a text.

ghost use Rattle.std.specs.Prelude.{◌≡◌, ◌≤◌, ◌<◌, ◌+◌, ◌^◌, ◌++◌, length, IfOk, OnOk, encode_utf8};
ghost use Rattle.plain_text.specs.Plain.{is_command, own_len, word_step, open_step, close_step, step_at, printed, plain};
ghost use Rattle.plain_text.specs.Signs.{sign_at};

use crate::signs::{name_len, sign_at};
use bib_text::{Seq, Text, copied, trimmed};
use std::alloc::{AllocError, Global};

/// How many bytes were read; whether they were a command that stays, or ended an argument of one; and how many braces of such
/// arguments are open.
#[derive(Clone, Copy)]
pub(crate) struct Next {
    pub taken: usize,
    pub stays: bool,
    pub depth: usize,
}

/// Adds a character.
fn push_char(out: &mut Vec<u8>, char: char) -> Result<(), AllocError>
    ensures { OnOk result (out.new.items ≡ out.old.items ++ encode_utf8 char) }
{
    let mut buffer = [0u8; 4];
    out.extend_from_slice(char.encode_utf8(&mut buffer).as_bytes())
}

/// Whether the text begins with a backslash.
fn is_command(text: &[u8]) -> bool
    ensures { result ≡ is_command text.now }
{
    match text {
        [] => false,
        [first, ..] => *first == b'\\',
    }
}

/// How many bytes stay together: a command, or one byte.
fn own_len(text: &[u8]) -> usize
    ensures len { result ≡ own_len text.now }
    ensures within { result ≤ length text.now }
    ensures some { 1 ≤ length text.now → 1 ≤ result }
{
    match text {
        [] => 0,
        [b'\\', rest @ ..] => name_len(rest) + 1,
        _ => 1,
    }
}

/// Adds one letter or sign that is written otherwise, or what stays as it is written.
fn push_word(out: &mut Vec<u8>, depth: usize, text: &[u8]) -> Result<Next, AllocError>
    requires { 1 ≤ length text.now }
    ensures text { OnOk result (out.new.items ≡ out.old.items ++ (word_step depth text.now (sign_at text.now)).written) }
    ensures next { IfOk result (λ n. n ≡ (word_step depth text.now (sign_at text.now)).next) }
    ensures within { IfOk result (λ n. n.taken ≤ length text.now) }
    ensures some { IfOk result (λ n. 1 ≤ n.taken) }
    ensures depth { IfOk result (λ n. n.depth ≤ depth + 1) }
{
    match sign_at(text) {
        Some(sign) => {
            push_char(out, sign.char)?;
            Ok(Next {
                taken: sign.taken,
                stays: false,
                depth,
            })
        }
        None => {
            let taken = own_len(text);
            out.extend_from_slice(text.split_at(taken).0)?;
            Ok(Next {
                taken,
                stays: is_command(text),
                depth,
            })
        }
    }
}

/// Adds an opening brace, or drops it.
fn push_open(out: &mut Vec<u8>, stays: bool, depth: usize) -> Result<Next, AllocError>
    requires { depth + 1 < 2 ^ 64 }
    ensures text { OnOk result (out.new.items ≡ out.old.items ++ (open_step stays depth).written) }
    ensures next { IfOk result (λ n. n ≡ (open_step stays depth).next) }
    ensures one { IfOk result (λ n. n.taken ≡ 1) }
    ensures depth { IfOk result (λ n. n.depth ≤ depth + 1) }
{
    if stays || depth != 0 {
        out.push(b'{')?;
        return Ok(Next {
            taken: 1,
            stays: false,
            depth: depth + 1,
        });
    }
    Ok(Next {
        taken: 1,
        stays: false,
        depth: 0,
    })
}

/// Adds a closing brace, or drops it.
fn push_close(out: &mut Vec<u8>, depth: usize) -> Result<Next, AllocError>
    ensures text { OnOk result (out.new.items ≡ out.old.items ++ (close_step depth).written) }
    ensures next { IfOk result (λ n. n ≡ (close_step depth).next) }
    ensures one { IfOk result (λ n. n.taken ≡ 1) }
    ensures depth { IfOk result (λ n. n.depth ≤ depth + 1) }
{
    if depth == 0 {
        return Ok(Next {
            taken: 1,
            stays: false,
            depth: 0,
        });
    }
    out.push(b'}')?;
    Ok(Next {
        taken: 1,
        stays: depth == 1,
        depth: depth - 1,
    })
}

/// Adds what is read next.
fn push_step(out: &mut Vec<u8>, stays: bool, depth: usize, text: &[u8]) -> Result<Next, AllocError>
    requires some { 1 ≤ length text.now }
    requires depth { depth + 1 < 2 ^ 64 }
    ensures text { OnOk result (out.new.items ≡ out.old.items ++ (step_at stays depth text.now).written) }
    ensures next { IfOk result (λ n. n ≡ (step_at stays depth text.now).next) }
    ensures within { IfOk result (λ n. n.taken ≤ length text.now) }
    ensures some { IfOk result (λ n. 1 ≤ n.taken) }
    ensures depth { IfOk result (λ n. n.depth ≤ depth + 1) }
{
    match text {
        [b'{', ..] => push_open(out, stays, depth),
        [b'}', ..] => push_close(out, depth),
        _ => push_word(out, depth, text),
    }
}

/// What is printed of a text.
fn printed(alloc: Global, text: &[u8]) -> Result<Text, AllocError>
    ensures { IfOk result (λ t. t ≡ printed text.now) }
{
    let mut out = Vec::with_capacity(alloc, text.len())?;
    let mut rest = text;
    let mut stays = false;
    let mut depth = 0usize;
    'steps: while !rest.is_empty() {
        let next = push_step(&mut out, stays, depth, rest)?;
        rest = rest.split_at(next.taken).1;
        stays = next.stays;
        depth = next.depth;
    }
    Ok(Seq::from_vec(out))
}

/// The text without braces, with letters in place of LaTeX's commands for letters, signs and accents, and without white
/// space at its ends. A command that is not known stays as it is written, with its arguments in their braces. It takes time
/// and memory in the length of the text. The one refusal is want of memory.
pub fn plain(alloc: Global, text: &[u8]) -> Result<Text, AllocError>
    ensures { IfOk result (λ t. t ≡ plain text.now) }
{
    let printed = printed(alloc, text)?;
    copied(alloc, trimmed(printed.as_slice()))
}
