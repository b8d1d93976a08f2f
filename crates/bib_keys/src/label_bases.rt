//! The label bases of entries, and what parents give to them.

ghost use Rattle.std.specs.Prelude.{◌≡◌, ◌<◌, length, map, IfOk, OnOk};
ghost use Rattle.bib_spec.specs.Records.{entries_of};
ghost use Rattle.bib_store.specs.Readings.{OfReading, IsEntryNumber};
ghost use Rattle.bib_names.specs.Label.{label_names};
ghost use Rattle.bib_names.specs.LabelParts.{parts_of, parts_with, base_from};
ghost use Rattle.bib_keys.specs.Parents.{label_fields, KeepTheSame};

use bib_names::{Inherited, LabelParts, label_base_with, label_parts};
use bib_store::{Database, ItemList};
use bib_text::Text;
use std::alloc::{AllocError, Global};

/// The records of a file's entries at a depth, as labels need them: of each entry, only the fields with these names are
/// read. They are the names of the fields that labels are made of.
#[derive(Drop)]
pub struct LabelRecords<'d, L: ItemList> {
    pub db: &'d Database<L>,
    pub depth: u8,
    pub names: &'d [&'d [u8]],
}

/// What the own fields of parents give to the labels of their descendants, by the parents' numbers, for all parents
/// that were needed so far. So the fields of a parent are read once, however many descendants it has, at whatever
/// depth, and in whatever order.
#[derive(Drop)]
pub struct Parents {
    known: Vec<Option<Box<LabelParts>>>,
    // the parent of the last entry whose label base was made, the parent's parent and so on
    line: Vec<usize>,
}

/// Makes room for what entry `n` gives.
fn make_room(known: &mut Vec<Option<Box<LabelParts>>>, n: usize) -> Result<(), AllocError>
    ensures room { OnOk result (n < length known.new.items) }
    ensures same { KeepTheSame known.old.items known.new.items }
{
    'grow: while known.len() <= n {
        known.push(None)?;
    }
    Ok(())
}

/// What the own fields of entry `n` give to a label.
fn parts_of<L: ItemList>(
    alloc: Global,
    records: &LabelRecords<'_, L>,
    n: usize,
) -> Result<LabelParts, AllocError>
    requires number { IsEntryNumber records.now.db.now n }
    requires names { map (λ name. name.now) records.now.names.now ≡ label_names }
    ensures { IfOk result (λ parts. OfReading records.now.db.now (λ r. parts ≡ parts_of (label_fields (entries_of r) n))) }
{
    let Ok(fields) = records.db.own_fields_with(n, records.names) else {
        return Err(AllocError);
    };
    match label_parts(alloc, fields.as_slice()) {
        Ok(parts) => Ok(parts),
        Err(_) => Err(AllocError),
    }
}

/// The label base from these fields and the inherited parts.
fn base_with(
    alloc: Global,
    fields: &[(Text, Text)],
    inherited: &Inherited<'_>,
) -> Result<Text, AllocError>
    ensures { IfOk result (λ base. base ≡ base_from (parts_with (parts_of fields.now) inherited.now)) }
{
    match label_base_with(alloc, fields, inherited) {
        Ok(base) => Ok(base),
        Err(_) => Err(AllocError),
    }
}

impl Parents {
    ghost use Rattle.std.specs.Prelude.{◌≡◌, ℕ, map, slice_get, Some, IsSome, IfOk, OnOk};
    ghost use Rattle.std.specs.Option.{option_copied, option_map};
    ghost use Rattle.bib_spec.specs.Text.{Text as Bytes};
    ghost use Rattle.bib_spec.specs.Records.{EntryTexts, entries_of, parent, record_of, IsDepth};
    ghost use Rattle.bib_spec.specs.Lineages.{lineage};
    ghost use Rattle.bib_store.specs.Readings.{OfReading, IsEntryNumber};
    ghost use Rattle.bib_names.specs.Label.{label_names, label_base};
    ghost use Rattle.bib_keys.specs.Parents.{AreParents, AreKnown, kept_of, parts_along};

    /// None is known. It takes no memory.
    pub fn none(alloc: Global) -> Self
        ensures { (file : Bytes) → AreParents file result }
    {
        Parents {
            known: Vec::new(alloc),
            line: Vec::new(alloc),
        }
    }

    /// What entry `n` gives, if it is known.
    fn parts(&self, n: usize) -> Option<&LabelParts>
        ensures { option_copied result ≡ option_map (λ kept. kept.value) (kept_of self.now.known.items n) }
    {
        match self.known.get(n) {
            Some(Some(parts)) => Some(parts),
            _ => None,
        }
    }

    /// Finds what entry `n` gives. If it is known already, no field is read. A refusal keeps what is known.
    fn learn<L: ItemList>(
        &mut self,
        alloc: Global,
        records: &LabelRecords<'_, L>,
        n: usize,
    ) -> Result<(), AllocError>
        requires number { IsEntryNumber records.now.db.now n }
        requires names { map (λ name. name.now) records.now.names.now ≡ label_names }
        requires parents { AreParents records.now.db.now self.old }
        ensures parents { AreParents records.now.db.now self.new }
        ensures known { OnOk result (IsSome (kept_of self.new.known.items n)) }
        ensures kept { (m : ℕ) → IsSome (kept_of self.old.known.items m) → IsSome (kept_of self.new.known.items m) }
        ensures line { self.new.line ≡ self.old.line }
    {
        make_room(&mut self.known, n)?;
        if self.known[n].is_some() {
            return Ok(());
        }
        let parts = parts_of(alloc, records, n)?;
        self.known[n] = Some(Box::new(alloc, parts)?);
        Ok(())
    }

    /// Finds from which entries entry `n` inherits, and what they give. A refusal keeps what is known.
    fn find_line<L: ItemList>(
        &mut self,
        alloc: Global,
        records: &LabelRecords<'_, L>,
        n: usize,
    ) -> Result<(), AllocError>
        requires number { IsEntryNumber records.now.db.now n }
        requires names { map (λ name. name.now) records.now.names.now ≡ label_names }
        requires parents { AreParents records.now.db.now self.old }
        ensures parents { AreParents records.now.db.now self.new }
        ensures line { OnOk result (OfReading records.now.db.now (λ r. self.new.line.items ≡ lineage (parent (entries_of r)) records.now.depth n)) }
        ensures known { OnOk result (AreKnown self.new.known.items self.new.line.items) }
    {
        self.line.clear();
        let mut heir = n;
        'find: for _ in 0..records.depth {
            let Some(parent) = records.db.parent(heir) else {
                return Ok(());
            };
            self.learn(alloc, records, parent)?;
            self.line.push(parent)?;
            heir = parent;
        }
        Ok(())
    }

    /// What the entries of the line give.
    fn inherited(&self) -> Inherited<'_>
        requires { AreKnown self.now.known.items self.now.line.items }
        ensures { (file : Bytes) → AreParents file self.now → OfReading file (λ r. result ≡ parts_along (entries_of r) self.now.line.items) }
    {
        let mut inherited = Inherited::none();
        'join: for n in &self.line {
            match self.parts(*n) {
                Some(parts) => inherited = inherited.with(parts),
                None => unreachable!(),
            }
        }
        inherited
    }

    /// The label base of entry `n`, which is the label base of its record. It takes time in the bytes of the fields that
    /// are read, and in the bytes of each ancestor that is read for the first time; memory for the letters and digits
    /// that parents give, and a word for each entry up to the last parent. The one refusal is want of memory.
    pub fn label_base<L: ItemList>(
        &mut self,
        alloc: Global,
        records: &LabelRecords<'_, L>,
        n: usize,
    ) -> Result<Text, AllocError>
        requires number { IsEntryNumber records.now.db.now n }
        requires depth { IsDepth records.now.depth }
        requires names { map (λ name. name.now) records.now.names.now ≡ label_names }
        requires parents { AreParents records.now.db.now self.old }
        ensures parents { AreParents records.now.db.now self.new }
        ensures base { IfOk result (λ base. OfReading records.now.db.now (λ r. (entry : EntryTexts) → slice_get (entries_of r) n ≡ Some entry → base ≡ label_base (record_of records.now.depth (entries_of r) n entry).fields)) }
    {
        let Ok(fields) = records.db.own_fields_with(n, records.names) else {
            return Err(AllocError);
        };
        self.find_line(alloc, records, n)?;
        base_with(alloc, fields.as_slice(), &self.inherited())
    }
}
