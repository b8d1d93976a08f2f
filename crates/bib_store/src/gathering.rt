//! The fields of a record, gathered from one entry after another.

ghost use Rattle.std.specs.Prelude.{◌≡◌, ◌≤◌, List, [], length, map, IfOk, IfErr, OnOk};
ghost use Rattle.std.specs.List.{AllZip, AllByRecursion};
ghost use Rattle.bib_spec.specs.Bytes.{name_limit};
ghost use Rattle.bib_spec.specs.Text.{folded};
ghost use Rattle.bib_spec.specs.Tree.{Row};
ghost use Rattle.bib_spec.specs.Texts.{raw_text};
ghost use Rattle.bib_spec.specs.Records.{field_of};
ghost use Rattle.bib_value.specs.Raw.{OfValue};
ghost use Rattle.bib_definitions.specs.MacrosSeen.{macros_seen};
ghost use Rattle.bib_store.specs.Gathering.{AreTaken, with_field, with_fields, IsShortValue, IsReadable, IsFieldOf};
ghost use Rattle.bib_items.specs.declared.fault.StoreFault.TheVariants.{Memory};

use crate::measuring::short_field_text;
use bib_definitions::MacrosAt;
use bib_items::StoreFault;
use bib_scan::Fields;
use bib_text::{Seq, Text};
use folded_map::FoldedMap;
use std::alloc::{AllocError, Global};

/// The text with its letters in lower case.
pub(crate) fn lower(alloc: Global, text: &[u8]) -> Result<Text, AllocError>
    ensures { IfOk result (λ lower. lower ≡ folded text.now) }
{
    let mut bytes = Vec::from_slice(alloc, text)?;
    bytes.make_ascii_lowercase();
    Ok(Seq::from_vec(bytes))
}

/// The fields gathered so far, and the names that are taken: the fields' own, and `crossref`.
#[derive(Drop)]
pub(crate) struct Gathered {
    alloc: Global,
    fields: Vec<(Text, Text)>,
    names: FoldedMap<()>,
}

impl Gathered {
    /// No fields.
    pub fn none(alloc: Global) -> Result<Self, AllocError>
        ensures fields { IfOk result (λ g. g.fields.items ≡ []) }
        ensures names { IfOk result (λ g. AreTaken g.names g.fields.items) }
    {
        let mut names = FoldedMap::new(alloc);
        names.insert(b"crossref", ())?;
        Ok(Gathered {
            alloc,
            fields: Vec::new(alloc),
            names,
        })
    }

    /// The fields.
    pub fn into_fields(self) -> Seq<(Text, Text)>
        ensures { result ≡ self.fields.items }
    {
        Seq::from_vec(self.fields)
    }

    /// Adds a field, unless its name is taken.
    fn add(&mut self, name: &[u8], value: &[u8], macros: &MacrosAt<'_>) -> Result<(), StoreFault>
        requires names { AreTaken self.old.names self.old.fields.items }
        requires name { length name.now ≤ name_limit }
        requires value { IsShortValue (macros_seen macros.now) value.now }
        ensures names { OnOk result (AreTaken self.new.names self.new.fields.items) }
        ensures added { OnOk result (OfValue value.now (λ v. self.new.fields.items ≡ with_field self.old.fields.items (record { name = name.now; raw = raw_text (macros_seen macros.now) v }))) }
        ensures only { IfErr result (λ fault. fault ≡ Memory) }
    {
        if self.names.insert(name, ())?.is_some() {
            return Ok(());
        }
        let text = short_field_text(self.alloc, value, macros)?;
        let field = (lower(self.alloc, name)?, text);
        self.fields.push(field)?;
        Ok(())
    }

    /// Adds the fields of an entry in their order, each unless its name is taken by then.
    pub fn add_all(&mut self, fields: Fields<'_>, macros: &MacrosAt<'_>) -> Result<(), StoreFault>
        requires names { AreTaken self.old.names self.old.fields.items }
        requires readable { AllByRecursion (IsReadable (macros_seen macros.now)) fields }
        ensures names { OnOk result (AreTaken self.new.names self.new.fields.items) }
        ensures added { OnOk result ((rows : List Row) → AllZip IsFieldOf fields.entry rows → self.new.fields.items ≡ with_fields self.old.fields.items (map (field_of (macros_seen macros.now)) rows)) }
        ensures only { IfErr result (λ fault. fault ≡ Memory) }
    {
        'add: for field in fields {
            self.add(field.name, field.value, macros)?;
        }
        Ok(())
    }
}
