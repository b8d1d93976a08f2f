//! Looks for the merge of an entry that three files have in different forms, field by field.

use bib_fields::{MixedRow, RowOf, Side as Origin, fields_agree};
use bib_places::Side;
use bib_scan::{FieldView, ItemView, Kind};
use bib_store::{Database, ItemList, MacrosAt};
use bib_text::{NAME_LIMIT, Text, is_space, same_folded};
use bib_units::UnitView;
use folded_map::FoldedMap;
use std::alloc::{AllocError, Global};

/// A merged entry: the sides of its type and key, the white space after the key, and its rows.
#[derive(Drop)]
pub(crate) struct Found {
    pub kind: Origin,
    pub key: Origin,
    pub space: Text,
    pub rows: Vec<MixedRow>,
}

/// An entry of a file with its fields, by number and by name, and what macros stand for before it.
#[derive(Drop)]
struct Form<'a> {
    item: ItemView<'a>,
    fields: Vec<FieldView<'a>>,
    numbers: FoldedMap<usize>,
    macros: MacrosAt<'a>,
}

impl<'a> Form<'a> {
    /// The number of the field with this name.
    fn number(&self, name: &[u8]) -> Option<usize> {
        self.numbers.get(name).copied()
    }

    /// The field with this number.
    fn field(&self, n: usize) -> Option<FieldView<'a>> {
        self.fields.get(n).copied()
    }

    /// The value of the field with this name.
    fn value(&self, name: &[u8]) -> Option<&'a [u8]> {
        match self.number(name) {
            Some(n) => match self.field(n) {
                Some(field) => Some(field.value),
                None => None,
            },
            None => None,
        }
    }

    /// The bytes of the entry from this place on.
    fn after(&self, place: usize) -> &'a [u8] {
        let body = self.item.body();
        match body.get(place..) {
            Some(rest) => rest,
            None => b"",
        }
    }

    /// The white space after the key.
    fn space_after_key(&self) -> &'a [u8] {
        let place = self.item.key_at().saturating_add(self.item.key().len());
        space_at(self.after(place))
    }

    /// The white space after the value of a field.
    fn space_after(&self, field: FieldView<'_>) -> &'a [u8] {
        space_at(self.after(field.value_at.saturating_add(field.value.len())))
    }
}

/// The white space with which a text begins.
fn space_at(text: &[u8]) -> &[u8] {
    let len = text.iter().take_while(|byte| is_space(**byte)).count();
    match text.get(..len) {
        Some(space) => space,
        None => b"",
    }
}

/// The fields of an entry in order, and their numbers by their names; nothing if a name is there twice.
fn numbered<'a>(
    alloc: Global,
    item: &ItemView<'a>,
) -> Result<Option<(Vec<FieldView<'a>>, FoldedMap<usize>)>, AllocError> {
    let mut fields = Vec::new(alloc);
    let mut numbers = FoldedMap::new(alloc);
    let mut rest = item.fields();
    'fields: while let Some(field) = rest.next() {
        if field.name.len() > NAME_LIMIT {
            return Ok(None);
        }
        if numbers.insert(field.name, fields.len())?.is_some() {
            return Ok(None);
        }
        fields.push(field)?;
    }
    Ok(Some((fields, numbers)))
}

/// The form of a unit, if it is an entry with each of its fields once.
fn form_of<'a, L: ItemList>(
    alloc: Global,
    db: &'a Database<L>,
    unit: UnitView<'_>,
) -> Result<Option<Form<'a>>, AllocError> {
    let Some(n) = unit.item else {
        return Ok(None);
    };
    if n >= db.item_count() {
        return Ok(None);
    }
    let item = db.item(n);
    match item.kind() {
        Kind::Entry => {}
        Kind::Macro | Kind::Preamble | Kind::Comment => return Ok(None),
    }
    let macros = db.macros_at(n);
    match numbered(alloc, &item)? {
        Some((fields, numbers)) => Ok(Some(Form {
            item,
            fields,
            numbers,
            macros,
        })),
        None => Ok(None),
    }
}

/// Whether two forms have the same value of a field, byte for byte, or both lack it.
fn are_same(name: &[u8], a: &Form<'_>, b: &Form<'_>) -> bool {
    match (a.value(name), b.value(name)) {
        (Some(a), Some(b)) => a == b,
        (None, None) => true,
        _ => false,
    }
}

/// Whether the values of a field say the same in two forms, or both lack it.
fn agree(alloc: Global, name: &[u8], a: &Form<'_>, b: &Form<'_>) -> Result<bool, AllocError> {
    fields_agree(alloc, a.value(name), &a.macros, b.value(name), &b.macros)
}

/// The side whose value a field of the merged entry has; nothing if each side has changed it, and the two do not agree. Values are
/// the same first by their bytes, and then by what they say.
fn side_of(
    alloc: Global,
    name: &[u8],
    b: &Form<'_>,
    o: &Form<'_>,
    t: &Form<'_>,
) -> Result<Option<Origin>, AllocError> {
    if are_same(name, b, t) || are_same(name, o, t) {
        return Ok(Some(Origin::Ours));
    }
    if are_same(name, b, o) {
        return Ok(Some(Origin::Theirs));
    }
    if agree(alloc, name, b, t)? || agree(alloc, name, o, t)? {
        return Ok(Some(Origin::Ours));
    }
    if agree(alloc, name, b, o)? {
        return Ok(Some(Origin::Theirs));
    }
    Ok(None)
}

/// The side whose type the merged entry has; nothing if each side has changed it, and the two do not agree.
fn side_of_type(b: &Form<'_>, o: &Form<'_>, t: &Form<'_>) -> Option<Origin> {
    let (base, ours, theirs) = (b.item.type_name(), o.item.type_name(), t.item.type_name());
    if same_folded(base, theirs) || same_folded(ours, theirs) {
        return Some(Origin::Ours);
    }
    if same_folded(base, ours) {
        return Some(Origin::Theirs);
    }
    None
}

/// The side whose spelling of the key the merged entry has: theirs, if we left it.
fn side_of_key(b: &Form<'_>, o: &Form<'_>) -> Origin {
    if o.item.key() == b.item.key() {
        Origin::Theirs
    } else {
        Origin::Ours
    }
}

/// Where rows of theirs go that we lack: after our key, or after the value of one of our rows.
#[derive(Drop)]
struct Added {
    after_key: Vec<usize>,
    // of each of our rows
    after_rows: Vec<Vec<usize>>,
}

impl Added {
    /// No rows, if we have this many.
    fn none(alloc: Global, count: usize) -> Result<Self, AllocError> {
        let mut after_rows = Vec::new(alloc);
        'rows: for _ in 0..count {
            after_rows.push(Vec::new(alloc))?;
        }
        Ok(Added {
            after_key: Vec::new(alloc),
            after_rows,
        })
    }

    /// Puts row `n` of theirs after our row with this number, or after our key.
    fn put(&mut self, n: usize, anchor: Option<usize>) -> Result<(), AllocError> {
        match anchor {
            None => self.after_key.push(n)?,
            Some(k) => {
                if k < self.after_rows.len() {
                    self.after_rows[k].push(n)?;
                }
            }
        }
        Ok(())
    }
}

/// Where their rows go that are added: each after the row before it in theirs that we have, or after the key. Nothing if one of them
/// is in conflict.
fn added_rows(
    alloc: Global,
    b: &Form<'_>,
    o: &Form<'_>,
    t: &Form<'_>,
) -> Result<Option<Added>, AllocError> {
    let mut added = Added::none(alloc, o.fields.len())?;
    let mut anchor = None;
    'theirs: for n in 0..t.fields.len() {
        let name = t.fields[n].name;
        match o.number(name) {
            Some(k) => anchor = Some(k),
            None => match side_of(alloc, name, b, o, t)? {
                Some(Origin::Theirs) => added.put(n, anchor)?,
                Some(Origin::Ours) => {}
                None => return Ok(None),
            },
        }
    }
    Ok(Some(added))
}

/// A row of the merged entry, while white space may still be added to it.
#[derive(Drop)]
struct Row {
    start: RowOf,
    value: RowOf,
    space: Vec<u8>,
}

/// The merged entry from its key on, as far as it is made.
#[derive(Drop)]
struct Rows {
    space: Vec<u8>,
    rows: Vec<Row>,
}

impl Rows {
    /// Adds a row.
    fn add(&mut self, alloc: Global, start: RowOf, value: RowOf) -> Result<(), AllocError> {
        self.rows.push(Row {
            start,
            value,
            space: Vec::new(alloc),
        })?;
        Ok(())
    }

    /// Adds rows of theirs.
    fn add_theirs(&mut self, alloc: Global, numbers: &[usize]) -> Result<(), AllocError> {
        'numbers: for k in 0..numbers.len() {
            let row = RowOf {
                side: Origin::Theirs,
                n: numbers[k],
            };
            self.add(alloc, row, row)?;
        }
        Ok(())
    }

    /// Adds white space after the last row, or after the key.
    fn add_space(&mut self, space: &[u8]) -> Result<(), AllocError> {
        let count = self.rows.len();
        if count == 0 {
            self.space.extend_from_slice(space)?;
            return Ok(());
        }
        self.rows[count - 1].space.extend_from_slice(space)?;
        Ok(())
    }

    /// Adds our row with this number and the value of a side; nothing if that side lacks the field.
    fn add_ours(
        &mut self,
        alloc: Global,
        n: usize,
        side: Origin,
        theirs: Option<usize>,
    ) -> Result<(), AllocError> {
        let row = RowOf {
            side: Origin::Ours,
            n,
        };
        match (side, theirs) {
            (Origin::Ours, _) => self.add(alloc, row, row)?,
            (Origin::Theirs, Some(m)) => self.add(
                alloc,
                row,
                RowOf {
                    side: Origin::Theirs,
                    n: m,
                },
            )?,
            (Origin::Theirs, None) => {}
        }
        Ok(())
    }
}

/// The rows of a merged entry, in the order of ours; nothing if a field is in conflict. White space after a row that goes stays.
fn merged_rows(
    alloc: Global,
    b: &Form<'_>,
    o: &Form<'_>,
    t: &Form<'_>,
    added: &Added,
) -> Result<Option<Rows>, AllocError> {
    let mut rows = Rows {
        space: Vec::new(alloc),
        rows: Vec::new(alloc),
    };
    rows.add_theirs(alloc, added.after_key.as_slice())?;
    rows.add_space(o.space_after_key())?;
    'ours: for n in 0..o.fields.len() {
        let field = o.fields[n];
        match side_of(alloc, field.name, b, o, t)? {
            Some(side) => rows.add_ours(alloc, n, side, t.number(field.name))?,
            None => return Ok(None),
        }
        if n < added.after_rows.len() {
            rows.add_theirs(alloc, added.after_rows[n].as_slice())?;
        }
        rows.add_space(o.space_after(field))?;
    }
    Ok(Some(rows))
}

/// The rows with their white space.
fn finished(alloc: Global, rows: Vec<Row>) -> Result<Vec<MixedRow>, AllocError> {
    let mut out = Vec::new(alloc);
    'rows: for row in rows {
        out.push(MixedRow {
            start: row.start,
            value: row.value,
            space: Text::from_vec(row.space),
        })?;
    }
    Ok(out)
}

/// The merge of three forms; nothing if the type or a field is in conflict.
fn mixed(
    alloc: Global,
    b: &Form<'_>,
    o: &Form<'_>,
    t: &Form<'_>,
) -> Result<Option<Found>, AllocError> {
    let Some(kind) = side_of_type(b, o, t) else {
        return Ok(None);
    };
    let Some(added) = added_rows(alloc, b, o, t)? else {
        return Ok(None);
    };
    let Some(rows) = merged_rows(alloc, b, o, t, &added)? else {
        return Ok(None);
    };
    Ok(Some(Found {
        kind,
        key: side_of_key(b, o),
        space: Text::from_vec(rows.space),
        rows: finished(alloc, rows.rows)?,
    }))
}

/// The merge of an entry that three files have in these forms, if they are entries and nothing is in conflict: our entry with the
/// changes of theirs.
pub(crate) fn mix<L: ItemList>(
    alloc: Global,
    base: &Side<'_, L>,
    b: UnitView<'_>,
    ours: &Side<'_, L>,
    o: UnitView<'_>,
    theirs: &Side<'_, L>,
    t: UnitView<'_>,
) -> Result<Option<Found>, AllocError> {
    let Some(b) = form_of(alloc, base.db, b)? else {
        return Ok(None);
    };
    let Some(o) = form_of(alloc, ours.db, o)? else {
        return Ok(None);
    };
    let Some(t) = form_of(alloc, theirs.db, t)? else {
        return Ok(None);
    };
    mixed(alloc, &b, &o, &t)
}
