//! What an entry says without its key and its crossref, as one text.

use crate::looking::{entry, texts};
use crate::texts::Texts;
use bib_scan::Fields;
use bib_store::{Database, Paged};
use bib_text::same_folded;
use std::alloc::{AllocError, Global};

/// A line for the field of this name and text.
fn line(alloc: Global, name: &[u8], text: &[u8]) -> Result<Vec<u8>, AllocError> {
    let mut line = Vec::from_slice(alloc, name)?;
    line.make_ascii_lowercase();
    line.push(b'=')?;
    line.extend_from_slice(text)?;
    line.push(b'\n')?;
    Ok(line)
}

/// A line for each of these fields except `crossref`: of each name the first, which has its text here.
fn lines(alloc: Global, fields: Fields<'_>, texts: Texts) -> Result<Vec<Vec<u8>>, AllocError> {
    let mut texts = texts;
    let mut lines = Vec::new(alloc);
    let mut rest = fields;
    'fields: while let Some(field) = rest.next() {
        if let Some(text) = texts.remove(field.name) {
            if !same_folded(field.name, b"crossref") {
                lines.push(line(alloc, field.name, text.as_slice())?)?;
            }
        }
    }
    Ok(lines)
}

/// The type of entry `n`, and its fields except `crossref`, in the order of their names: two entries have the same such text exactly
/// if they have the same type and the same texts. Nothing for an entry without such fields.
pub(crate) fn signature(
    alloc: Global,
    db: &Database<Paged>,
    n: usize,
) -> Result<Option<Vec<u8>>, AllocError> {
    let (Some(entry), Some(texts)) = (entry(db, n), texts(alloc, db, n)?) else {
        return Ok(None);
    };
    let mut lines = lines(alloc, entry.fields(), texts)?;
    if lines.is_empty() {
        return Ok(None);
    }
    lines.sort()?;
    let mut signature = Vec::from_slice(alloc, entry.type_name())?;
    signature.make_ascii_lowercase();
    for line in &lines {
        signature.push(b'\n')?;
        signature.extend_from_slice(line.as_slice())?;
    }
    Ok(Some(signature))
}
