//! What stands in a line for the marks of its words.

use std::alloc::{AllocError, Global};

/// A name is printed up to so many bytes.
const NAME_LIMIT: usize = 60;

/// A word to be typed has at most so many bytes.
const TYPED_LIMIT: usize = 100;

/// What stands in a line for a mark.
#[derive(Clone, Copy)]
pub enum Part<'a> {
    /// A name from a file, an input or the command line. It is cut if it is long.
    Name(&'a [u8]),
    /// A word to be typed in a shell, and what stands for it if it cannot be typed safely.
    Typed(&'a [u8], &'a [u8]),
    /// A number.
    Count(usize),
}

/// Appends a part to a line.
pub fn append(alloc: Global, line: &mut Vec<u8>, part: &Part<'_>) -> Result<(), AllocError> {
    match *part {
        Part::Name(name) => append_name(line, name),
        Part::Typed(word, other) => append_typed(line, word, other),
        Part::Count(count) => {
            let digits = format!(in alloc; "{}", count)?;
            line.extend_from_slice(digits.as_bytes())
        }
    }
}

fn append_name(line: &mut Vec<u8>, name: &[u8]) -> Result<(), AllocError> {
    if name.len() <= NAME_LIMIT {
        return line.extend_from_slice(name);
    }
    line.extend_from_slice(name.split_at(NAME_LIMIT).0)?;
    line.extend_from_slice(b"..")
}

/// The word as a shell reads it: in single quotes, if it has more than letters, digits and a few marks.
fn append_typed(line: &mut Vec<u8>, word: &[u8], other: &[u8]) -> Result<(), AllocError> {
    if !is_typable(word) {
        return line.extend_from_slice(other);
    }
    if is_bare(word) {
        return line.extend_from_slice(word);
    }
    line.push(b'\'')?;
    line.extend_from_slice(word)?;
    line.push(b'\'')?;
    Ok(())
}

/// Whether the word can be typed between single quotes, and is no option.
fn is_typable(word: &[u8]) -> bool {
    let Some(first) = word.first() else {
        return false;
    };
    *first != b'-' && word.len() <= TYPED_LIMIT && !has_unsafe(word)
}

fn has_unsafe(word: &[u8]) -> bool {
    'bytes: for byte in word {
        if *byte < 32 || *byte == 127 || *byte == b'\'' || *byte >= 128 {
            return true;
        }
    }
    false
}

/// Whether a shell reads the word as it is, without quotes.
fn is_bare(word: &[u8]) -> bool {
    'bytes: for byte in word {
        if !byte.is_ascii_alphanumeric() && !b"._/:@%+,-".contains(byte) {
            return false;
        }
    }
    true
}
