//! What a session gives: its file, its journal, and what is told of its entries.

ghost use Rattle.std.specs.Prelude.{◌≡◌, ◌≢◌, ◌++◌, IfOk, IfErr, IfSome, OnOk, option_map};
ghost use Rattle.std.specs.Option.{option_copied};
ghost use Rattle.bib_spec.specs.Records.{entries_of, keys_of, IsDepth};
ghost use Rattle.bib_store.specs.Readings.{OfReading, IsEntryNumber};
ghost use Rattle.entry_json.specs.declared.fault.JsonFault.TheVariants.{Memory};
ghost use Rattle.bib_answers.specs.Entries.{key_at};
ghost use Rattle.bib_state.specs.Calls.{stored, BySession, OnlyMemory, GivesFile, GivesSaved};
ghost use Rattle.bib_state.specs.Telling.{key_line, key_lines, IsLineOf, IsNoLineOf, TellsEntry, TellsNone, GivesEntry, GivesKeys, RefusesEntry};

use crate::fault::CallFault;
use bib_answers::{Answer, Outcome, done};
use bib_journal::{Session, SessionFault};
use bib_store::{Database, Paged};
use bib_text::Text;
use bib_words::status;
use entry_json::{JsonFault, add_line};
use std::alloc::{AllocError, Global};

/// The present file.
pub(crate) fn answer_file(alloc: Global, session: &Session<Paged>) -> Result<Answer, CallFault>
    ensures given { IfOk result (λ answer. GivesFile answer session.now) }
    ensures refused { IfErr result (λ fault. BySession OnlyMemory fault session.now) }
{
    match session.bytes() {
        Ok(file) => Ok(stored(alloc, file, None)),
        Err(fault) => Err(CallFault::Session(fault)),
    }
}

/// The present file and its journal.
pub(crate) fn answer_saved(alloc: Global, session: &Session<Paged>) -> Result<Answer, CallFault>
    ensures given { IfOk result (λ answer. GivesSaved answer session.now) }
    ensures refused { IfErr result (λ fault. BySession OnlyMemory fault session.now) }
{
    match session.saved() {
        Ok(saved) => Ok(stored(alloc, saved.file, Some(saved.journal))),
        Err(fault) => Err(CallFault::Session(fault)),
    }
}

/// A file that is to be stored, and its journal, if it is asked for.
fn stored(alloc: Global, file: Text, journal: Option<Text>) -> Answer
    ensures { result ≡ stored file journal }
{
    Answer {
        output: Text::empty(alloc),
        outcome: Outcome {
            file: Some(file),
            journal,
            message: Text::empty(alloc),
            status: status::DONE,
        },
    }
}

/// The line of JSON of the first entry with this key.
pub(crate) fn answer_entry(
    alloc: Global,
    session: &Session<Paged>,
    key: &[u8],
    depth: u8,
) -> Result<Answer, CallFault>
    requires { IsDepth depth }
    ensures given { IfOk result (λ answer. GivesEntry key.now depth answer session.now) }
    ensures refused { IfErr result (λ fault. RefusesEntry key.now depth fault session.now) }
{
    entry_of(alloc, session.database(), key, depth)
}

/// The line of JSON of the first entry with this key of an open file.
fn entry_of(alloc: Global, db: &Database<Paged>, key: &[u8], depth: u8) -> Result<Answer, CallFault>
    requires { IsDepth depth }
    ensures given { IfOk result (TellsEntry key.now depth db.now) }
    ensures refused { IfErr result (λ fault. TellsNone key.now depth fault db.now) }
{
    let Ok(n) = db.find(key) else {
        return Err(CallFault::NoSuchEntry);
    };
    match line_of(alloc, db, n, depth) {
        Ok(line) => Ok(done(alloc, line)),
        Err(JsonFault::NotUtf8) => Err(CallFault::NotUtf8),
        Err(JsonFault::Memory) => Err(CallFault::Session(SessionFault::Memory)),
    }
}

/// The keys of all entries in order, a line feed after each.
pub(crate) fn answer_keys(alloc: Global, session: &Session<Paged>) -> Result<Answer, CallFault>
    ensures given { IfOk result (λ answer. GivesKeys answer session.now) }
    ensures refused { IfErr result (λ fault. BySession OnlyMemory fault session.now) }
{
    match keys_of(alloc, session.database()) {
        Ok(keys) => Ok(done(alloc, keys)),
        Err(AllocError) => Err(CallFault::Session(SessionFault::Memory)),
    }
}

/// The line of JSON of entry `n`, at this depth.
fn line_of(alloc: Global, db: &Database<Paged>, n: usize, depth: u8) -> Result<Text, JsonFault>
    requires number { IsEntryNumber db.now n }
    requires depth { IsDepth depth }
    ensures line { IfOk result (λ line. OfReading db.now (IsLineOf depth n line)) }
    ensures fault { IfErr result (λ fault. fault ≢ Memory → OfReading db.now (IsNoLineOf depth n)) }
{
    let Ok(expanded) = db.expanded(n, depth) else {
        return Err(JsonFault::Memory);
    };
    let parent = key_of(db, expanded.parent);
    Ok(Text::from_vec(add_line(Vec::new(alloc), &expanded.rec, parent)?))
}

/// The key of an entry, if there is one.
fn key_of(db: &Database<Paged>, n: Option<usize>) -> Option<&[u8]>
    requires { IfSome n (IsEntryNumber db.now) }
    ensures { OfReading db.now (λ r. option_copied result ≡ option_map (key_at (entries_of r)) n) }
{
    match n {
        Some(n) => Some(db.entry(n).key()),
        None => None,
    }
}

/// The keys of all entries in order, a line feed after each.
fn keys_of(alloc: Global, db: &Database<Paged>) -> Result<Text, AllocError>
    ensures { IfOk result (λ text. OfReading db.now (λ r. text ≡ key_lines (keys_of (entries_of r)))) }
{
    let mut keys = Vec::new(alloc);
    'line: for n in 0..db.entry_count() {
        add_key(&mut keys, db.entry(n).key())?;
    }
    Ok(Text::from_vec(keys))
}

/// Adds a key with a line feed after it.
fn add_key(keys: &mut Vec<u8>, key: &[u8]) -> Result<(), AllocError>
    ensures { OnOk result (keys.new.items ≡ keys.old.items ++ key_line key.now) }
{
    keys.extend_from_slice(key)?;
    keys.extend_from_slice(b"\n")
}
