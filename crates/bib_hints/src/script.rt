//! The lines of a script, and their words.

use std::alloc::{AllocError, Global};

/// The line with this number, counted from 1, without the end of the line.
pub fn line_in(text: &[u8], number: usize) -> &[u8] {
    let mut n = 0usize;
    'lines: for line in text.split(|byte| *byte == b'\n') {
        n = n.saturating_add(1);
        if n == number {
            return line.strip_suffix(b"\r").unwrap_or(line);
        }
    }
    b""
}

/// The words of a line, which tabs separate.
pub fn words_in(alloc: Global, line: &[u8]) -> Result<Vec<&[u8]>, AllocError> {
    let mut words = Vec::new(alloc);
    'words: for word in line.split(|byte| *byte == b'\t') {
        words.push(word)?;
    }
    Ok(words)
}
