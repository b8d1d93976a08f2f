//! Which units of three files are the same unit: those with one label, the first of each file, the second of each, and so on.

use bib_units::{Label, UnitView, is_same};
use std::alloc::{AllocError, Global};
use std::hash::{FoldHasher, Hasher};

/// What stands for no number. No file has so many units, since each has a byte.
const NONE: u32 = u32::MAX;

/// The numbers of one unit in three files, in four bytes each.
#[derive(Clone, Copy)]
pub(crate) struct Row {
    base: u32,
    ours: u32,
    theirs: u32,
}

/// The file of a number.
#[derive(Clone, Copy)]
pub(crate) enum In {
    Base,
    Ours,
    Theirs,
}

/// The row without numbers.
const NOWHERE: Row = Row {
    base: NONE,
    ours: NONE,
    theirs: NONE,
};

/// The number, if it is one.
fn if_number(n: u32) -> Option<usize> {
    if n == NONE { None } else { Some(n as usize) }
}

/// The number, or none if it is too great.
fn small(n: usize) -> u32 {
    match u32::try_from(n) {
        Ok(n) => n,
        Err(_) => NONE,
    }
}

impl Row {
    /// The number in the common file.
    pub fn base(self) -> Option<usize> {
        if_number(self.base)
    }

    /// The number in our file.
    pub fn ours(self) -> Option<usize> {
        if_number(self.ours)
    }

    /// The number in their file.
    pub fn theirs(self) -> Option<usize> {
        if_number(self.theirs)
    }

    /// The row with the number of one more file.
    fn with(self, file: In, n: usize) -> Row {
        let n = small(n);
        match file {
            In::Base => Row { base: n, ..self },
            In::Ours => Row { ours: n, ..self },
            In::Theirs => Row { theirs: n, ..self },
        }
    }
}

/// Makes the text the label as bytes: its name in lower case or its bytes, and its kind.
fn write_code(code: &mut Vec<u8>, label: Label<'_>) -> Result<(), AllocError> {
    code.clear();
    match label {
        Label::Entry(key) => {
            code.extend_from_slice(key)?;
            code.make_ascii_lowercase();
            code.push(0)?;
        }
        Label::Macro(name) => {
            code.extend_from_slice(name)?;
            code.make_ascii_lowercase();
            code.push(1)?;
        }
        Label::Bytes(bytes) => {
            code.extend_from_slice(bytes)?;
            code.push(2)?;
        }
    }
    Ok(())
}

/// The hash of these bytes.
fn hash_of(bytes: &[u8]) -> u64 {
    let mut hasher = FoldHasher::default();
    hasher.write(bytes);
    hasher.finish()
}

/// The number at this place of a list that may be too short for it.
fn number_at(numbers: &[u32], n: usize) -> Option<usize> {
    match numbers.get(n) {
        Some(number) => if_number(*number),
        None => None,
    }
}

/// A label that units have, in a list of those with hashes that fall together.
#[derive(Clone, Copy)]
struct Name<'a> {
    label: Label<'a>,
    hash: u64,
    // the next name of the list
    next: u32,
    // the first row of the label
    row: u32,
}

/// The rows of all units.
#[derive(Drop)]
pub(crate) struct Rows<'a> {
    alloc: Global,
    pub rows: Vec<Row>,
    // of each row, the next one of the same label
    nexts: Vec<u32>,
    names: Vec<Name<'a>>,
    // the first name of each list
    heads: Vec<u32>,
    // the label that is looked for
    code: Vec<u8>,
}

impl<'a> Rows<'a> {
    /// No rows; there is room for this many.
    pub fn none(alloc: Global, count: usize) -> Result<Self, AllocError> {
        Ok(Rows {
            alloc,
            rows: Vec::with_capacity(alloc, count)?,
            nexts: Vec::with_capacity(alloc, count)?,
            names: Vec::with_capacity(alloc, count)?,
            heads: vec![in alloc; NONE; count.saturating_add(1)]?,
            code: Vec::new(alloc),
        })
    }

    /// The list that labels with this hash are in.
    fn list_of(&self, hash: u64) -> usize {
        let count = self.heads.len() as u64;
        if count == 0 {
            return 0;
        }
        ((hash >> 32) % count) as usize
    }

    /// The number of the name of this label, which has this hash, if there is one.
    fn found(&self, label: Label<'_>, hash: u64) -> Option<usize> {
        let mut next = number_at(self.heads.as_slice(), self.list_of(hash));
        'names: for _ in 0..self.names.len() {
            let n = next?;
            let name = self.names.get(n)?;
            if name.hash == hash && is_same(name.label, label) {
                return Some(n);
            }
            next = if_number(name.next);
        }
        None
    }

    /// A new row.
    fn new_row(&mut self) -> Result<usize, AllocError> {
        let row = self.rows.len();
        self.rows.push(NOWHERE)?;
        self.nexts.push(NONE)?;
        Ok(row)
    }

    /// The number of the name of a label, which is a new one with a row if there is none yet.
    fn name(&mut self, label: Label<'a>) -> Result<usize, AllocError> {
        write_code(&mut self.code, label)?;
        let hash = hash_of(self.code.as_slice());
        if let Some(n) = self.found(label, hash) {
            return Ok(n);
        }
        let row = self.new_row()?;
        let n = self.names.len();
        let list = self.list_of(hash);
        let next = match number_at(self.heads.as_slice(), list) {
            Some(next) => small(next),
            None => NONE,
        };
        self.names.push(Name {
            label,
            hash,
            next,
            row: small(row),
        })?;
        if list < self.heads.len() {
            self.heads[list] = small(n);
        }
        Ok(n)
    }

    /// The first row of a label, if there is one.
    pub fn with_label(&mut self, label: Label<'_>) -> Result<Option<usize>, AllocError> {
        write_code(&mut self.code, label)?;
        let hash = hash_of(self.code.as_slice());
        match self.found(label, hash) {
            Some(n) => Ok(self.first_row(n)),
            None => Ok(None),
        }
    }

    /// The first row of the label with this name.
    fn first_row(&self, n: usize) -> Option<usize> {
        let name = self.names.get(n)?;
        if_number(name.row)
    }

    /// The row after this one of the same label, which is a new one if there is none yet.
    fn next(&mut self, row: usize) -> Result<usize, AllocError> {
        if let Some(next) = number_at(self.nexts.as_slice(), row) {
            return Ok(next);
        }
        let next = self.new_row()?;
        if row < self.nexts.len() {
            self.nexts[row] = small(next);
        }
        Ok(next)
    }

    /// The row of one more unit with this name, if the last one of it that a unit of the file has is this.
    fn row_after(&mut self, n: usize, last: Option<usize>) -> Result<usize, AllocError> {
        match last {
            Some(row) => self.next(row),
            None => match self.first_row(n) {
                Some(row) => Ok(row),
                None => self.new_row(),
            },
        }
    }

    /// The rows alone.
    pub fn into_rows(self) -> Vec<Row> {
        self.rows
    }

    /// Adds the units of a file, and gives the row of each.
    pub fn add(&mut self, units: &[UnitView<'a>], file: In) -> Result<Vec<u32>, AllocError> {
        // of each name, the last row that a unit of the file has
        let mut last = vec![in self.alloc; NONE; self.names.len()]?;
        let mut places = Vec::with_capacity(self.alloc, units.len())?;
        'units: for n in 0..units.len() {
            let name = self.name(units[n].label)?;
            let row = self.row_after(name, number_at(last.as_slice(), name))?;
            if last.len() < self.names.len() {
                last.push(NONE)?;
            }
            if name < last.len() {
                last[name] = small(row);
            }
            if row < self.rows.len() {
                self.rows[row] = self.rows[row].with(file, n);
            }
            places.push(small(row))?;
        }
        Ok(places)
    }
}
