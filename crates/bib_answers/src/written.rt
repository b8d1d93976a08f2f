//! The fields of entries as they are written, with those that they inherit.

ghost use Rattle.std.specs.Prelude.{◌≡◌, ◌≤◌, ◌∷◌, ◌++◌, List, [], length, map, IfOk, OnOk};
ghost use Rattle.std.specs.Option.{option_copied};
ghost use Rattle.bib_spec.specs.Bytes.{name_limit};
ghost use Rattle.bib_store.specs.Readings.{OfReading, IsEntryNumber};
ghost use Rattle.entry_json.specs.RawJson.{Written, written_seen};
ghost use Rattle.bib_answers.specs.Fields.{AreSound};
ghost use Rattle.bib_answers.specs.Raw.{AreGathered, all_written, counted, entry_written, written_from};

use bib_scan::ItemView;
use bib_store::{Database, Paged};
use entry_json::WrittenField;
use folded_map::FoldedMap;
use std::alloc::{AllocError, Global};

/// The fields gathered so far, and the names that are taken: those of the fields that were seen, and `crossref`.
#[derive(Drop)]
struct Gathered<'a> {
    fields: Vec<WrittenField<'a>>,
    names: FoldedMap<()>,
}

impl<'a> Gathered<'a> {
    /// No fields.
    fn none(alloc: Global) -> Result<Self, AllocError>
        ensures { IfOk result (λ g. AreGathered [] g.names g.fields.items) }
    {
        let mut names = FoldedMap::new(alloc);
        names.insert(b"crossref", ())?;
        Ok(Gathered {
            fields: Vec::new(alloc),
            names,
        })
    }

    /// Adds a field, unless its name is taken.
    fn add(&mut self, field: WrittenField<'a>) -> Result<(), AllocError>
        requires { length field.name.now ≤ name_limit }
        ensures { OnOk result ((seen : List Written) → AreGathered seen self.old.names self.old.fields.items
            → AreGathered (seen ++ written_seen field.entry ∷ []) self.new.names self.new.fields.items) }
    {
        if self.names.insert(field.name, ())?.is_some() {
            return Ok(());
        }
        self.fields.push(field)?;
        Ok(())
    }

    /// Adds the fields of an item in their order, each unless its name is taken by then. They are inherited from the entry with
    /// this key, if one is given.
    fn add_all(&mut self, item: &ItemView<'a>, from: Option<&'a [u8]>) -> Result<(), AllocError>
        requires { AreSound item.now.fields }
        ensures { OnOk result ((seen : List Written) → AreGathered seen self.old.names self.old.fields.items
            → AreGathered (seen ++ map (written_from (option_copied from.entry)) item.now.fields) self.new.names self.new.fields.items) }
    {
        let mut fields = item.fields();
        'fields: while let Some(field) = fields.next() {
            self.add(WrittenField {
                name: field.name,
                value: field.value,
                from,
            })?;
        }
        Ok(())
    }
}

/// Adds the fields of entry `n`, each unless its name is taken by then.
fn add_entry<'a>(
    gathered: &mut Gathered<'a>,
    db: &'a Database<Paged>,
    n: usize,
    from: Option<&'a [u8]>,
) -> Result<(), AllocError>
    requires { IsEntryNumber db.now n }
    ensures { OnOk result (OfReading db.now (λ r. (seen : List Written) → AreGathered seen gathered.old.names gathered.old.fields.items
        → AreGathered (seen ++ entry_written (option_copied from.entry) r n) gathered.new.names gathered.new.fields.items)) }
{
    db.opens();
    gathered.add_all(&db.entry(n), from)
}

/// The fields of entry `n` that count, as they are written, with those that it inherits at this depth. It takes memory for them and
/// for the names of all fields of these entries. A parent that comes again gives nothing more.
pub(crate) fn written_fields(
    alloc: Global,
    db: &Database<Paged>,
    n: usize,
    depth: u8,
) -> Result<Vec<WrittenField<'_>>, AllocError>
    requires { IsEntryNumber db.now n }
    ensures { IfOk result (λ fields. OfReading db.now (λ r. map written_seen fields.items ≡ counted (all_written depth r n))) }
{
    let mut gathered = Gathered::none(alloc)?;
    add_entry(&mut gathered, db, n, None)?;
    let mut heir = n;
    'inherit: for _ in 0..depth {
        let Some(parent) = db.parent(heir) else {
            return Ok(gathered.fields);
        };
        add_entry(&mut gathered, db, parent, Some(db.entry(parent).key()))?;
        heir = parent;
    }
    Ok(gathered.fields)
}
