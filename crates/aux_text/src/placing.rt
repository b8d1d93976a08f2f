//! Where the keys stand that an aux file cites.

ghost use Rattle.std.specs.Prelude.{◌≡◌, ◌+◌, ◌++◌, IfOk, IfSome, OnOk};
ghost use Rattle.aux_text.specs.Placing.{is_key, parts_in, first_column, key_at, keys_from, keys_in_line, cited_keys};

use crate::citations::CITATION;
use crate::lines::{argument, lines_of, parts_of};
use bib_text::{Seq, Text, copied};
use std::alloc::{AllocError, Global};

/// A key that an aux file cites, and where it stands there. Lines and columns count from 1; columns count bytes.
#[derive(Debug, Drop)]
pub struct CitedKey {
    pub key: Text,
    pub line: usize,
    pub column: usize,
}

/// An aux file: its name, and the keys that it cites, in order.
#[derive(Debug, Drop)]
pub struct AuxKeys {
    pub file: Text,
    pub keys: Seq<CitedKey>,
}

/// The keys that the text of an aux file cites, in order, and where each of them stands. `*` cites all entries and is no key. It
/// takes time in the length of the text, and memory for the keys. It is refused only out of memory.
pub fn cited_keys(alloc: Global, text: &[u8]) -> Result<Seq<CitedKey>, AllocError>
    ensures { IfOk result (λ keys. keys ≡ cited_keys text.now) }
{
    let lines = lines_of(alloc, text)?;
    let mut keys = Vec::new(alloc);
    'lines: for n in 0..lines.len() {
        add_keys_in(alloc, &mut keys, n + 1, lines[n])?;
    }
    Ok(Seq::from_vec(keys))
}

/// Adds the keys that a line with this number cites.
fn add_keys_in(
    alloc: Global,
    keys: &mut Vec<CitedKey>,
    number: usize,
    line: &[u8],
) -> Result<(), AllocError>
    ensures { OnOk result (keys.new.items ≡ keys.old.items ++ keys_in_line number line.now) }
{
    match argument(CITATION, line) {
        Some(argument) => add_keys_from(alloc, keys, number, argument),
        None => Ok(()),
    }
}

/// Adds the keys in the argument of a line with this number.
fn add_keys_from(
    alloc: Global,
    keys: &mut Vec<CitedKey>,
    line: usize,
    argument: &[u8],
) -> Result<(), AllocError>
    ensures { OnOk result (keys.new.items ≡ keys.old.items ++ keys_from line first_column (parts_in argument.now)) }
{
    let parts = parts_of(alloc, argument)?;
    let mut column = CITATION.len() + 1;
    'parts: for part in &parts {
        add_key(alloc, keys, part, line, column)?;
        // no text in memory has a column that is past every count
        let Some(next) = column_after(column, part.len()) else {
            return Err(AllocError);
        };
        column = next;
    }
    Ok(())
}

/// Adds the word in this column of this line, if it is a key.
fn add_key(
    alloc: Global,
    keys: &mut Vec<CitedKey>,
    word: &[u8],
    line: usize,
    column: usize,
) -> Result<(), AllocError>
    ensures { OnOk result (keys.new.items ≡ keys.old.items ++ key_at line column word.now) }
{
    if is_key(word) {
        keys.push(CitedKey {
            key: copied(alloc, word)?,
            line,
            column,
        })?;
    }
    Ok(())
}

/// Whether a word of a citation is a key.
fn is_key(word: &[u8]) -> bool
    ensures { result ≡ is_key word.now }
{
    !word.is_empty() && word != b"*".as_slice()
}

/// The column after so many bytes and a comma, if it can be counted.
fn column_after(column: usize, len: usize) -> Option<usize>
    ensures { IfSome result (λ next. next ≡ column + len + 1) }
{
    column.checked_add(len)?.checked_add(1)
}
