//! Records as entries, before keys are made for those that need one.

ghost use Rattle.std.specs.Prelude.{◌≡◌, ◌≤◌, ◌<◌, ◌++◌, ◌∷◌, ◌⊎◌, [], List, Ok, Err, true, false, not, Some, IfOk, IfErr, OnOk, length, take, drop, set, reverse, slice_get, ◌+◌};
ghost use Rattle.std.specs.List.{AllByRecursion};
ghost use Rattle.bib_spec.specs.Text.{is_new_key};
ghost use Rattle.bib_spec.specs.Records.{Record as EntryRecord};
ghost use Rattle.bib_data.specs.declared.edit.NewEntry.{NewEntry as EntryAdded};
ghost use Rattle.bib_spec.specs.MadeKeys.{base_limit};
ghost use Rattle.bib_keys.specs.MadeBase.{made_base};
ghost use Rattle.ris_text.specs.declared.records.RisFile.{RisFile};
ghost use Rattle.ris_text.specs.declared.fault.RisFault.TheVariants.{Memory as TextMemory};
ghost use Rattle.ris_format.specs.Escapes.{back_as};
ghost use Rattle.ris_format.specs.Entry.{are_balanced};
ghost use Rattle.bib_ris.specs.Import.{RefusesImport};
ghost use Rattle.bib_ris.specs.Drafts.{bases_of, AreDraftsOf, AreSaidBy, usable_keys, with_keys};
ghost use Rattle.bib_ris.specs.declared.fault.ImportFault.TheVariants.{Memory};

use crate::fault::ImportFault;
use bib_data::{NewEntry, Record};
use bib_names::key_base;
use bib_scan::is_key;
use bib_text::{Seq, Text, copied};
use ris_format::{MappingFault, from_ris_as, into_entry};
use ris_text::{RisFault, RisRecord, Unread};
use std::alloc::{AllocError, Global};

/// Records as entries, each with the ID of its record as its key; and the bases of the keys that are still to be made,
/// for records whose ID cannot be a key.
#[derive(Drop)]
pub(crate) struct Drafts {
    pub entries: Vec<NewEntry>,
    pub bases: Vec<Text>,
}

/// The base of the key that is made for a record.
fn base_of(alloc: Global, entry: &Record) -> Result<Text, AllocError>
    ensures base { IfOk result (λ base. base ≡ made_base entry.now) }
    ensures short { IfOk result (λ base. length base ≤ base_limit) }
{
    match key_base(alloc, entry) {
        Ok(base) => Ok(base),
        Err(_) => Err(AllocError),
    }
}

/// Reads a text to its end, and keeps nothing.
fn read_on(alloc: Global, rest: Unread<'_>) -> Result<(), RisFault>
    ensures said { OnOk result ((said : RisFile) × (rest.entry.says ≡ Ok said)) }
    ensures refused { IfErr result (λ fault. (fault ≡ TextMemory) ⊎ (rest.entry.says ≡ Err fault)) }
{
    let mut left = rest;
    'records: loop {
        let (first, after) = left.next(alloc)?;
        left = after;
        let Some(_passed) = first else {
            return Ok(());
        };
    }
}

impl Drafts {
    /// The drafts of no records.
    fn none(alloc: Global) -> Drafts
        ensures { AreDraftsOf [] result }
    {
        Drafts {
            entries: Vec::new(alloc),
            bases: Vec::new(alloc),
        }
    }

    /// Adds the base of the key that is to be made for a record, if the record's ID cannot be a key.
    fn add_base(&mut self, alloc: Global, entry: &Record) -> Result<(), AllocError>
        ensures bases { OnOk result (self.new.bases.items ≡ self.old.bases.items ++ bases_of (entry.now ∷ [])) }
        ensures short { OnOk result (AllByRecursion (λ base. length base ≤ base_limit) (bases_of (entry.now ∷ []))) }
        ensures entries { self.new.entries ≡ self.old.entries }
    {
        if !is_key(entry.key.as_slice()) {
            self.bases.push(base_of(alloc, entry)?)?;
        }
        Ok(())
    }

    /// Adds the draft of a RIS record, as it is or as LaTeX prints it, and answers whether its texts are balanced. If one
    /// is not, the drafts are useless.
    fn add(&mut self, alloc: Global, ris: &RisRecord, latex: bool) -> Result<bool, ImportFault>
        ensures added { IfOk result (λ balanced. balanced ≡ true → (records : List EntryRecord) → AreDraftsOf records self.old → AreDraftsOf (records ++ back_as latex ris.now ∷ []) self.new) }
        ensures unbalanced { IfOk result (λ balanced. balanced ≡ false → are_balanced (back_as latex ris.now) ≡ false) }
        ensures memory { IfErr result (λ fault. fault ≡ Memory) }
    {
        let entry = from_ris_as(alloc, ris, latex)?;
        self.add_base(alloc, &entry)?;
        match into_entry(alloc, entry) {
            Ok(draft) => {
                self.entries.push(draft)?;
                Ok(true)
            }
            Err(MappingFault::UnbalancedText) => Ok(false),
            Err(MappingFault::Memory) => Err(ImportFault::Memory),
        }
    }

    /// The drafts of the records that a RIS text says, as they are or as LaTeX prints them, and how many lines of the text
    /// are skipped. Each record is dropped once its draft is made, before the next record is read. A fault of reading is
    /// reported even if a record before it has a text that is not balanced.
    pub fn of(alloc: Global, text: &[u8], latex: bool) -> Result<(Drafts, u64), ImportFault>
        ensures drafts { IfOk result (λ r. AreSaidBy latex text.now r.0 r.1) }
        ensures refused { IfErr result (λ fault. RefusesImport latex false fault text.now) }
    {
        let mut drafts = Drafts::none(alloc);
        let mut rest = Unread::of(text);
        'records: loop {
            let (first, after) = rest.next(alloc)?;
            rest = after;
            let Some(ris) = first else {
                return Ok((drafts, rest.skipped()));
            };
            if !drafts.add(alloc, &ris, latex)? {
                read_on(alloc, rest)?;
                return Err(ImportFault::UnbalancedText);
            }
        }
    }
}

/// The keys of the entries that an edit may write.
pub(crate) fn usable_keys(alloc: Global, entries: &[NewEntry]) -> Result<Vec<Text>, AllocError>
    ensures { IfOk result (λ keys. keys.items ≡ usable_keys entries.now) }
{
    let mut keys = Vec::new(alloc);
    'entries: for entry in entries {
        let key = entry.key.as_slice();
        if is_key(key) {
            keys.push(copied(alloc, key)?)?;
        }
    }
    Ok(keys)
}

/// Whether the entry has no key that an edit may write.
fn needs_key(entry: &NewEntry) -> bool
    ensures { result ≡ not (is_new_key entry.now.key) }
{
    !is_key(entry.key.as_slice())
}

/// Gives entry `n` this key.
fn set_key(entries: &mut Vec<NewEntry>, n: usize, key: Text)
    requires { n < length entries.old.items }
    ensures { (entry : EntryAdded) → slice_get entries.old.items n ≡ Some entry → entries.new.items ≡ set entries.old.items n (record entry { key = key }) }
{
    let entry = &mut entries[n];
    entry.key = key;
}

/// Gives entry `n` the last of these keys, if it needs one.
fn give_key(entries: &mut Vec<NewEntry>, n: usize, left: &mut Vec<Text>)
    requires { n < length entries.old.items }
    ensures given { take (n + 1) entries.new.items ++ with_keys (reverse left.new.items) (drop (n + 1) entries.new.items)
        ≡ take n entries.old.items ++ with_keys (reverse left.old.items) (drop n entries.old.items) }
    ensures all { length entries.new.items ≡ length entries.old.items }
{
    if !needs_key(&entries[n]) {
        return;
    }
    if let Some(key) = left.pop() {
        set_key(entries, n, key);
    }
}

/// The entries, where those that need a key get these keys in turn.
pub(crate) fn with_keys(entries: Vec<NewEntry>, keys: Seq<Text>) -> Seq<NewEntry>
    ensures { result ≡ with_keys keys entries.items }
{
    let mut entries = entries;
    let mut left = keys.into_vec();
    left.reverse();
    'entries: for n in 0..entries.len() {
        give_key(&mut entries, n, &mut left);
    }
    Seq::from_vec(entries)
}
