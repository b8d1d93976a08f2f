//! The keys that aux files cite and no entry has.

ghost use Rattle.std.specs.Prelude.{◌≡◌, ◌++◌, ◌∷◌, [], List, map, is_none, OnOk};
ghost use Rattle.bib_spec.specs.Text.{Text as Bytes};
ghost use Rattle.bib_spec.specs.Records.{entries_of, entry_named};
ghost use Rattle.bib_store.specs.Readings.{OfReading};
ghost use Rattle.bib_answers.specs.Lint.{Citation, missing_lines};
ghost use Rattle.bib_answers.specs.Told.{HaveTold};

use crate::finding_lines::{add_warning, is_ignored};
use crate::positions::Position;
use crate::told_keys::ToldKeys;
use crate::warnings::Warning;
use aux_text::{AuxKeys, CitedKey};
use bib_store::{Database, Paged};
use bib_text::Text;
use std::alloc::{AllocError, Global};

/// Adds a line for each key that the aux files cite and no entry has, where they cite it first. If the code of these findings is
/// ignored, nothing is added. Each key is looked up in the index of the entries: it takes time in the length of the keys, and
/// memory for those that no entry has.
pub fn add_missing_keys(
    alloc: Global,
    out: &mut Vec<u8>,
    db: &Database<Paged>,
    ignored: &[Text],
    files: &[AuxKeys],
) -> Result<(), AllocError>
    ensures { OnOk result (OfReading db.now (λ r. out.new.items ≡ out.old.items ++ missing_lines ignored.now (entries_of r) files.now)) }
{
    if is_ignored(ignored, Warning::MissingKey) {
        return Ok(());
    }
    let mut told = ToldKeys::new(alloc);
    'files: for file in files {
        let name = file.file.as_slice();
        let keys = file.keys.as_slice();
        add_missing_in(out, &mut told, db, name, keys)?;
    }
    Ok(())
}

/// Adds the lines of the keys that an aux file with this name cites, if those of the files before it were added.
fn add_missing_in(
    out: &mut Vec<u8>,
    told: &mut ToldKeys,
    db: &Database<Paged>,
    file: &[u8],
    keys: &[CitedKey],
) -> Result<(), AllocError>
    ensures { OnOk result (OfReading db.now (λ r. (start : Bytes) (before : List Citation) → HaveTold (entries_of r) start before out.old.items told.old
        → HaveTold (entries_of r) start (before ++ map (λ cited. (file.now, cited)) keys.now) out.new.items told.new)) }
{
    'keys: for cited in keys {
        add_missing(out, told, db, file, cited)?;
    }
    Ok(())
}

/// Adds the line of a key that an aux file with this name cites, if no entry has it, and if no line was added for it.
fn add_missing(
    out: &mut Vec<u8>,
    told: &mut ToldKeys,
    db: &Database<Paged>,
    file: &[u8],
    cited: &CitedKey,
) -> Result<(), AllocError>
    ensures { OnOk result (OfReading db.now (λ r. (start : Bytes) (before : List Citation) → HaveTold (entries_of r) start before out.old.items told.old
        → HaveTold (entries_of r) start (before ++ (file.now, cited.now) ∷ []) out.new.items told.new)) }
{
    let key = cited.key.as_slice();
    if !is_missing(db, key) {
        return Ok(());
    }
    let added = told.add(key)?;
    if !added {
        return Ok(());
    }
    let at = Position {
        line: cited.line,
        column: cited.column,
    };
    add_warning(out, file, at, Warning::MissingKey, key)
}

/// Whether no entry has the key.
fn is_missing(db: &Database<Paged>, key: &[u8]) -> bool
    ensures { OfReading db.now (λ r. result ≡ is_none (entry_named (entries_of r) key.now)) }
{
    match db.find(key) {
        Ok(_) => false,
        Err(_) => true,
    }
}
