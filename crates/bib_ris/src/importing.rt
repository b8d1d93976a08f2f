//! Entries that a RIS text adds to a file.

ghost use Rattle.std.specs.Prelude.{◌≡◌, ◌≤◌, List, ◌∷◌, length, IfOk, IfErr};
ghost use Rattle.std.specs.List.{AllByRecursion};
ghost use Rattle.bib_spec.specs.Records.{Record as EntryRecord};
ghost use Rattle.bib_spec.specs.MadeKeys.{base_limit, made_keys};
ghost use Rattle.bib_keys.specs.TakenKeys.{taken_in};
ghost use Rattle.bib_store.specs.Readings.{OfReading};
ghost use Rattle.bib_ris.specs.Drafts.{AreDraftsOf, usable_keys};
ghost use Rattle.bib_ris.specs.Import.{imported, AreAdditions, RefusesImport};
ghost use Rattle.ris_text.specs.Lines.{Line};
ghost use Rattle.ris_text.specs.Skipped.{AreSkipped};
ghost use Rattle.bib_ris.specs.declared.fault.ImportFault.TheVariants.{SkippedLine, Memory};

use crate::drafts::{Drafts, usable_keys, with_keys};
use crate::fault::ImportFault;
use crate::free_key::look_up_keys;
use bib_data::NewEntry;
use bib_edit::free_keys;
use bib_store::{Database, ItemList};
use bib_text::{Seq, Text};
use ris_text::SkippedLines;
use std::alloc::Global;

/// What a RIS text adds to a file: its records as entries, and how many of its lines were skipped.
#[derive(Debug, Drop)]
pub struct Additions {
    pub entries: Seq<NewEntry>,
    pub skipped: u64,
}

/// The keys that are made for drafts: for each base in turn a free key that is no key of another draft. If no key is to
/// be made, the keys of the drafts and of the file are not read; if one is, the file is asked for its candidates, and its keys are
/// not listed unless many are taken.
fn keys_of<L: ItemList>(
    alloc: Global,
    db: &Database<L>,
    bases: &[Text],
    entries: &[NewEntry],
) -> Result<Seq<Text>, ImportFault>
    requires { AllByRecursion (λ base. length base ≤ base_limit) bases.now }
    ensures keys { IfOk result (λ keys. OfReading db.now (λ r. keys ≡ made_keys (taken_in r (usable_keys entries.now)) bases.now)) }
    ensures memory { IfErr result (λ fault. fault ≡ Memory) }
{
    if bases.is_empty() {
        return Ok(Seq::empty(alloc));
    }
    let ids = usable_keys(alloc, entries)?;
    if let Some(keys) = look_up_keys(alloc, db, bases, ids.as_slice())? {
        return Ok(keys);
    }
    match free_keys(alloc, db, bases, ids.as_slice()) {
        Ok(keys) => Ok(keys),
        Err(_) => Err(ImportFault::Memory),
    }
}

/// The entries that a file gets from these drafts of records.
fn imported<L: ItemList>(
    alloc: Global,
    db: &Database<L>,
    drafts: Drafts,
) -> Result<Seq<NewEntry>, ImportFault>
    requires { (records : List EntryRecord) × AreDraftsOf records drafts }
    ensures entries { (records : List EntryRecord) → AreDraftsOf records drafts → IfOk result (λ entries. OfReading db.now (λ r. entries ≡ imported r records)) }
    ensures memory { IfErr result (λ fault. fault ≡ Memory) }
{
    let keys = keys_of(
        alloc,
        db,
        drafts.bases.as_slice(),
        drafts.entries.as_slice(),
    )?;
    Ok(with_keys(drafts.entries, keys))
}

/// The fault of a text of which a line is skipped: the first such line.
fn first_skipped(text: &[u8]) -> ImportFault
    requires { (first : Line) × (others : List Line) × AreSkipped text.now (first ∷ others) }
    ensures { (first : Line) → (others : List Line) → AreSkipped text.now (first ∷ others) → result ≡ SkippedLine first.place }
{
    match SkippedLines::of(text).next() {
        Some((line, _others)) => ImportFault::SkippedLine(line.place),
        None => unreachable!(),
    }
}

/// What a RIS text adds to an open file: its records as they are, or with `latex` with texts that LaTeX prints as they are
/// in RIS (`from_ris_as`). A record whose ID can be a key keeps it. Each other record gets a free key
/// from its made base, which is no ID of the text and no key that was made before. It takes time in the lengths of the
/// text and of the file's keys, and memory for the entries; RIS records are read one at a time.
///
/// A text that is not read is refused as 61 to 63, with the place. Another text is refused as 64 if a record has a
/// field whose braces do not balance; or else, if `strict`, as 65 if a line of it is skipped, with the place of the
/// first. All other texts are refused only for want of memory.
pub fn import<L: ItemList>(
    alloc: Global,
    db: &Database<L>,
    text: &[u8],
    latex: bool,
    strict: bool,
) -> Result<Additions, ImportFault>
    ensures additions { IfOk result (AreAdditions latex strict db.now text.now) }
    ensures refused { IfErr result (λ fault. RefusesImport latex strict fault text.now) }
{
    let (drafts, skipped) = Drafts::of(alloc, text, latex)?;
    if strict && skipped > 0 {
        return Err(first_skipped(text));
    }
    let entries = imported(alloc, db, drafts)?;
    Ok(Additions { entries, skipped })
}
