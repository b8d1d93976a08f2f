//! Names that were seen.

ghost use Rattle.std.specs.Prelude.{◌≡◌, ◌≤◌, ◌∷◌, List, [], length, OnOk};
ghost use Rattle.std.specs.List.{list_any};
ghost use Rattle.bib_spec.specs.Bytes.{name_limit};
ghost use Rattle.bib_spec.specs.Text.{Text, same};
ghost use Rattle.bib_answers.specs.Recurring.{may_recur, AreTold, names_of};

use crate::name_filter::NameFilter;
use bib_scan::ItemView;
use bib_text::same_folded;
use folded_map::FoldedMap;
use std::alloc::{AllocError, Global};

/// How many names are compared one by one: more than most items have.
const FEW: usize = 64;

/// How many bytes of an item there are for each bucket of its filter.
const BYTES_A_BUCKET: usize = 2;

/// Whether two names are the same, folded. Most names differ in their length or in their first byte, and of these no other byte is
/// looked at.
#[inline(always)]
fn is_same(name: &[u8], other: &[u8]) -> bool
    ensures { result ≡ same name.now other.now }
{
    if name.len() != other.len() {
        return false;
    }
    match (name, other) {
        ([a, ..], [b, ..]) if !a.eq_ignore_ascii_case(b) => false,
        _ => same_folded(name, other),
    }
}

/// The names of an item's fields that were seen, without regard to ASCII case. The first 64 are compared one by one, and take
/// memory for their places alone. If there are more, a filter of all names of the item is made, and a map takes only those
/// later names that the item may have twice by the filter.
#[derive(Drop)]
pub struct SeenNames<'a> {
    alloc: Global,
    few: Vec<&'a [u8]>,
    filter: Option<NameFilter>,
    others: FoldedMap<()>,
}

impl<'a> SeenNames<'a> {
    ghost use Rattle.bib_answers.specs.Seen.{is_other, HaveSeen, IsAt};

    /// No names. It takes no memory.
    pub fn new(alloc: Global) -> Self
        ensures { (all : List Text) → IsAt result all [] all }
    {
        SeenNames {
            alloc,
            few: Vec::new(alloc),
            filter: None,
            others: FoldedMap::new(alloc),
        }
    }

    /// Forgets all names. It keeps the memory for the first ones.
    pub fn clear(&mut self)
        ensures { (all : List Text) → IsAt self.new all [] all }
    {
        self.few.clear();
        self.filter = None;
        if self.others.len() > 0 {
            self.others = FoldedMap::new(self.alloc);
        }
    }

    /// Makes the filter of all names of the item, once 64 names were seen.
    pub fn fill_filter(&mut self, item: &ItemView<'_>) -> Result<(), AllocError>
        ensures { OnOk result ((earlier rest : List Text) → IsAt self.old (names_of item.now.fields) earlier rest → IsAt self.new (names_of item.now.fields) earlier rest) }
    {
        if self.few.len() < FEW || self.filter.is_some() {
            return Ok(());
        }
        let count = item.body().len() / BYTES_A_BUCKET;
        self.filter = Some(NameFilter::of(self.alloc, item.fields(), count)?);
        Ok(())
    }

    /// Whether the name was seen. It is a name of the item, and so counted by the filter, if there is one.
    pub fn has(&self, name: &[u8]) -> bool
        ensures { (earlier rest : List Text) → HaveSeen self.now earlier → AreTold self.now.filter earlier (name.now ∷ rest) → result ≡ list_any (same name.now) earlier }
    {
        self.may_recur(name) && (self.is_few(name) || self.is_other(name))
    }

    /// Whether the item may have the name twice, as far as the filter tells.
    fn may_recur(&self, name: &[u8]) -> bool
        ensures { result ≡ may_recur self.now.filter name.now }
    {
        match &self.filter {
            Some(filter) => filter.is_shared(name),
            None => true,
        }
    }

    /// Whether the name is one of the first 64 that were seen.
    fn is_few(&self, name: &[u8]) -> bool
        ensures { result ≡ list_any (λ few. same name.now few.now) self.now.few.items }
    {
        'few: for few in self.few.as_slice() {
            if is_same(name, few) {
                return true;
            }
        }
        false
    }

    /// Whether the name is in the map. Most items have few names and an empty map, for which the name is not folded.
    fn is_other(&self, name: &[u8]) -> bool
        ensures { result ≡ is_other self.now.others name.now }
    {
        self.others.len() > 0 && self.others.get(name).is_some()
    }

    /// Adds the name to those that were seen.
    pub fn add(&mut self, name: &'a [u8]) -> Result<(), AllocError>
        requires { length name.now ≤ name_limit }
        ensures seen { OnOk result ((names : List Text) → HaveSeen self.old names → HaveSeen self.new (name.now ∷ names)) }
        ensures filter { self.new.filter ≡ self.old.filter }
    {
        if self.few.len() < FEW {
            self.few.push(name)?;
            return Ok(());
        }
        if self.may_recur(name) {
            self.others.insert(name, ())?;
        }
        Ok(())
    }
}
