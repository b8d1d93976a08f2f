//! Records of entries, with what they inherit.

use crate::choosing::choose_all;
use crate::database::Database;
use crate::gathering::{Gathered, lower};
use crate::record::Expanded;
use bib_data::Record;
use bib_items::{ItemList, StoreFault};
use bib_scan::ItemView;
use bib_text::{Seq, Text, copied};
use std::alloc::Global;

/// Most entries have fewer fields than this. Only time depends on it.
const FEW: usize = 8;

impl<L: ItemList> Database<L> {
    ghost use Rattle.std.specs.Prelude.{◌≡◌, ◌++◌, List, Some, map, option_map, slice_get, IfOk, IfErr, IfSome, OnOk};
    ghost use Rattle.bib_spec.specs.Reading.{Item};
    ghost use Rattle.bib_scan.specs.View.{view_of};
    ghost use Rattle.bib_spec.specs.Records.{RecordField, entries_of, parent, IsDepth, expanded, missing, fields_at, with_inherited};
    ghost use Rattle.bib_spec.specs.Lineages.{lineage};
    ghost use Rattle.bib_store.specs.Readings.{OfReading, IsEntryNumber, entry_items};
    ghost use Rattle.bib_store.specs.Gathering.{AreTaken};
    ghost use Rattle.bib_store.specs.Choosing.{chosen, with_chosen};
    ghost use Rattle.bib_items.specs.declared.fault.StoreFault.TheVariants.{Memory};

    /// The record of entry `n` at this depth, and its parent. The record has the type in lower case, the key, and the
    /// entry's own fields except `crossref`, the first of each name. Then come the fields that are missing, first from the
    /// parent, then from that entry's parent, and so on through at most `depth` parents, in the order of each. Texts are
    /// field texts. It takes memory for the record and its names, and time n log n in the bytes of all these entries. It is
    /// refused only out of memory. (btxdoc 2.1)
    pub fn expanded(&self, n: usize, depth: u8) -> Result<Expanded, StoreFault>
        requires number { IsEntryNumber self.now n }
        requires depth { IsDepth depth }
        ensures rec { IfOk result (λ e. OfReading self.now (λ db. expanded depth (entries_of db) n ≡ Some e.rec)) }
        ensures parent { IfOk result (λ e. OfReading self.now (λ db. e.parent ≡ parent (entries_of db) n)) }
        ensures only { IfErr result (λ fault. fault ≡ Memory) }
    {
        let alloc = self.allocator();
        let entry = self.entry(n);
        let kind_name = lower(alloc, entry.type_name())?;
        let key = copied(alloc, entry.key())?;
        let mut fields = Gathered::none(alloc)?;
        self.gather(n, &mut fields)?;
        self.gather_inherited(n, depth, &mut fields)?;
        Ok(Expanded {
            rec: Record {
                kind_name,
                key,
                fields: fields.into_fields(),
            },
            parent: self.parent(n),
        })
    }

    /// The record that `expanded` gives, with only those fields that have one of these names, without regard to ASCII case.
    /// It takes memory for those fields alone, and time in the bytes of all entries that it reads, times the number of
    /// names. It is refused only out of memory.
    pub fn expanded_with(&self, n: usize, depth: u8, names: &[&[u8]]) -> Result<Record, StoreFault>
        requires number { IsEntryNumber self.now n }
        requires depth { IsDepth depth }
        ensures rec { IfOk result (λ rec. OfReading self.now (λ db. option_map (with_chosen (map (λ name. name.now) names.now)) (expanded depth (entries_of db) n) ≡ Some rec)) }
        ensures only { IfErr result (λ fault. fault ≡ Memory) }
    {
        let alloc = self.allocator();
        let entry = self.entry(n);
        let kind_name = lower(alloc, entry.type_name())?;
        let key = copied(alloc, entry.key())?;
        let mut fields = Vec::with_capacity(alloc, names.len().min(FEW))?;
        self.choose(n, &entry, names, &mut fields)?;
        self.choose_inherited(n, depth, names, &mut fields)?;
        Ok(Record {
            kind_name,
            key,
            fields: Seq::from_vec(fields),
        })
    }

    /// The own fields of entry `n` that have one of these names, without regard to ASCII case, as its record has them and
    /// its children inherit them: the first of each name, and no `crossref`. It takes memory for those fields alone, and
    /// time in the bytes of the entry, times the number of names. It is refused only out of memory.
    pub fn own_fields_with(
        &self,
        n: usize,
        names: &[&[u8]],
    ) -> Result<Seq<(Text, Text)>, StoreFault>
        requires { IsEntryNumber self.now n }
        ensures fields { IfOk result (λ fields. OfReading self.now (λ db. fields ≡ chosen (map (λ name. name.now) names.now) (fields_at (entries_of db) n))) }
        ensures only { IfErr result (λ fault. fault ≡ Memory) }
    {
        let mut fields = Vec::with_capacity(self.allocator(), names.len().min(FEW))?;
        self.choose(n, &self.entry(n), names, &mut fields)?;
        Ok(Seq::from_vec(fields))
    }

    /// The allocator that the database was opened with.
    pub(crate) fn allocator(&self) -> Global {
        self.alloc
    }

    /// The parent of entry `n`: its target, if that is another entry.
    pub fn parent(&self, n: usize) -> Option<usize>
        requires { IsEntryNumber self.now n }
        ensures parent { OfReading self.now (λ db. result ≡ parent (entries_of db) n) }
        ensures number { IfSome result (λ p. IsEntryNumber self.now p) }
    {
        let target = self.target(n)?;
        if target == n { None } else { Some(target) }
    }

    /// Adds the own fields of entry `n` that are missing.
    fn gather(&self, n: usize, fields: &mut Gathered) -> Result<(), StoreFault>
        requires number { IsEntryNumber self.now n }
        requires names { AreTaken fields.old.names fields.old.fields.items }
        ensures names { OnOk result (AreTaken fields.new.names fields.new.fields.items) }
        ensures added { OnOk result (OfReading self.now (λ db. fields.new.fields.items ≡ fields.old.fields.items ++ missing fields.old.fields.items (fields_at (entries_of db) n))) }
        ensures only { IfErr result (λ fault. fault ≡ Memory) }
    {
        self.opens();
        fields.add_all(self.entry(n).fields(), &self.macros_at(self.entry_item(n)))?;
        Ok(())
    }

    /// Adds what entry `n` inherits at this depth. A parent that comes again gives nothing more.
    fn gather_inherited(&self, n: usize, depth: u8, fields: &mut Gathered) -> Result<(), StoreFault>
        requires number { IsEntryNumber self.now n }
        requires names { AreTaken fields.old.names fields.old.fields.items }
        ensures added { OnOk result (OfReading self.now (λ db. fields.new.fields.items ≡ with_inherited (entries_of db) fields.old.fields.items (lineage (parent (entries_of db)) depth n))) }
        ensures only { IfErr result (λ fault. fault ≡ Memory) }
    {
        let mut heir = n;
        'inherit: for _ in 0..depth {
            let Some(parent) = self.parent(heir) else {
                return Ok(());
            };
            self.gather(parent, fields)?;
            heir = parent;
        }
        Ok(())
    }

    /// Adds the own fields of entry `n` that are missing and have one of these names. `entry` is the entry's item.
    fn choose(
        &self,
        n: usize,
        entry: &ItemView<'_>,
        names: &[&[u8]],
        fields: &mut Vec<(Text, Text)>,
    ) -> Result<(), StoreFault>
        requires number { IsEntryNumber self.now n }
        requires entry { OfReading self.now (λ db. (i : Item) → slice_get (entry_items db.items) n ≡ Some i → entry.now ≡ view_of i) }
        ensures chosen { OnOk result (OfReading self.now (λ db. (all : List RecordField) → fields.old.items ≡ chosen (map (λ name. name.now) names.now) all
            → fields.new.items ≡ chosen (map (λ name. name.now) names.now) (all ++ missing all (fields_at (entries_of db) n)))) }
        ensures only { IfErr result (λ fault. fault ≡ Memory) }
    {
        self.opens();
        choose_all(
            self.allocator(),
            names,
            fields,
            entry.fields(),
            &self.macros_at(self.entry_item(n)),
        )?;
        Ok(())
    }

    /// Adds what entry `n` inherits at this depth and has one of these names. A parent that comes again gives nothing more.
    fn choose_inherited(
        &self,
        n: usize,
        depth: u8,
        names: &[&[u8]],
        fields: &mut Vec<(Text, Text)>,
    ) -> Result<(), StoreFault>
        requires number { IsEntryNumber self.now n }
        ensures chosen { OnOk result (OfReading self.now (λ db. (all : List RecordField) → fields.old.items ≡ chosen (map (λ name. name.now) names.now) all
            → fields.new.items ≡ chosen (map (λ name. name.now) names.now) (with_inherited (entries_of db) all (lineage (parent (entries_of db)) depth n)))) }
        ensures only { IfErr result (λ fault. fault ≡ Memory) }
    {
        let mut heir = n;
        'along: for _ in 0..depth {
            let Some(parent) = self.parent(heir) else {
                return Ok(());
            };
            self.choose(parent, &self.entry(parent), names, fields)?;
            heir = parent;
        }
        Ok(())
    }
}
