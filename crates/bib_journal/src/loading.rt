//! A journal, held against its file.

ghost use Rattle.std.specs.Prelude.{◌≡◌, ◌≤◌, [], length, IfOk, IfErr, OnOk};
ghost use Rattle.bib_spec.specs.Bytes.{file_limit};
ghost use Rattle.bib_spec.specs.Text.{Text as FileText};
ghost use Rattle.bib_spec.specs.Texts.{IsOpenable};
ghost use Rattle.journal_format.specs.Contents.{digest_of};
ghost use Rattle.journal_format.specs.Faults.{IsJournalOf};
ghost use Rattle.bib_journal.specs.Loading.{FitFile, AreTurnable};
ghost use Rattle.bib_journal.specs.Session.{RefusesStart, RefusesLoad};

use crate::closing::close;
use crate::fault::{SessionFault, unopened, unread};
use crate::replay::belong;
use bib_scan::{FILE_LIMIT, ReadFault};
use bib_store::{Database, ItemList};
use journal_format::{Journal, PackedJournal, digest, pack_journal, read_journal};
use std::alloc::Global;

/// Refuses a file that is too long to be opened, with 9 as `Database::open_file` refuses it.
fn check_len(file: &[u8]) -> Result<(), SessionFault>
    ensures short { OnOk result (length file.now ≤ file_limit) }
    ensures start { IfErr result (λ fault. RefusesStart fault file.now) }
    ensures load { IfErr result (λ fault. (text : FileText) → RefusesLoad fault file.now text) }
{
    if file.len() > FILE_LIMIT {
        return Err(SessionFault::Unopened(ReadFault::TOO_LONG));
    }
    Ok(())
}

/// A copy of a file's bytes, if they are not too many.
pub(crate) fn copied(alloc: Global, bytes: &[u8]) -> Result<Vec<u8>, SessionFault>
    ensures copy { IfOk result (λ file. file.items ≡ bytes.now) }
    ensures start { IfErr result (λ fault. RefusesStart fault bytes.now) }
    ensures load { IfErr result (λ fault. (text : FileText) → RefusesLoad fault bytes.now text) }
{
    check_len(bytes)?;
    Ok(Vec::from_slice(alloc, bytes)?)
}

/// What the journal says, whatever the file.
fn said_in(alloc: Global, journal: &[u8]) -> Result<Journal, SessionFault>
    ensures said { IfOk result (λ said. IsJournalOf said journal.now) }
    ensures refused { IfErr result (λ fault. (file : FileText) → IsOpenable file → RefusesLoad fault file journal.now) }
{
    match read_journal(alloc, journal) {
        Ok(said) => Ok(said),
        Err(fault) => Err(unread(fault)),
    }
}

/// What the journal says, if it is of a file with this digest.
fn said_with(alloc: Global, digest: &[u8], journal: &[u8]) -> Result<Journal, SessionFault>
    ensures said { IfOk result (λ said. IsJournalOf said journal.now) }
    ensures digest { IfOk result (λ said. said.digest ≡ digest.now) }
    ensures refused { IfErr result (λ fault. (file : FileText) → IsOpenable file → digest.now ≡ digest_of file → RefusesLoad fault file journal.now) }
{
    let said = said_in(alloc, journal)?;
    if said.digest.as_slice() != digest {
        return Err(SessionFault::JournalMismatch);
    }
    Ok(said)
}

/// The open file, and what its journal says, if the journal has the file's digest. Whether its steps belong to the file is left
/// to be seen.
pub(crate) fn opened_with<L: ItemList>(
    alloc: Global,
    file: Vec<u8>,
    journal: &[u8],
    empty: L,
) -> Result<(Database<L>, Journal), SessionFault>
    requires { L.items empty ≡ [] }
    ensures file { IfOk result (λ opened. opened.0 ≡ file.items) }
    ensures opens { OnOk result (IsOpenable file.items) }
    ensures said { IfOk result (λ opened. IsJournalOf opened.1 journal.now) }
    ensures digest { IfOk result (λ opened. opened.1.digest ≡ digest_of file.items) }
    ensures past { IfOk result (λ opened. AreTurnable opened.1.past) }
    ensures future { IfOk result (λ opened. AreTurnable opened.1.future) }
    ensures refused { IfErr result (λ fault. RefusesLoad fault file.items journal.now) }
{
    check_len(file.as_slice())?;
    let digest = digest(alloc, file.as_slice())?;
    match Database::open_file(alloc, file, empty) {
        Ok(db) => {
            db.opens();
            match said_with(alloc, digest.as_slice(), journal) {
                Ok(said) => Ok((db, said)),
                Err(fault) => {
                    close(db);
                    Err(fault)
                }
            }
        }
        Err(fault) => Err(unopened(fault)),
    }
}

/// What the journal says, whatever the file. The steps stay in its text.
fn packed_in(alloc: Global, journal: &[u8]) -> Result<PackedJournal<'_>, SessionFault>
    ensures said { IfOk result (λ said. IsJournalOf said journal.now) }
    ensures refused { IfErr result (λ fault. (file : FileText) → IsOpenable file → RefusesLoad fault file journal.now) }
{
    match pack_journal(alloc, journal) {
        Ok(said) => Ok(said),
        Err(fault) => Err(unread(fault)),
    }
}

/// What the journal says, if it is of a file with this digest. The steps stay in its text.
fn packed_with<'a>(
    alloc: Global,
    digest: &[u8],
    journal: &'a [u8],
) -> Result<PackedJournal<'a>, SessionFault>
    ensures said { IfOk result (λ said. IsJournalOf said journal.now) }
    ensures digest { IfOk result (λ said. said.digest ≡ digest.now) }
    ensures refused { IfErr result (λ fault. (file : FileText) → IsOpenable file → digest.now ≡ digest_of file → RefusesLoad fault file journal.now) }
{
    let said = packed_in(alloc, journal)?;
    if said.digest != digest {
        return Err(SessionFault::JournalMismatch);
    }
    Ok(said)
}

/// The open file, and what its journal says, as `opened_with` gives them. The steps stay in the journal's text.
pub(crate) fn opened_packed<'a, L: ItemList>(
    alloc: Global,
    file: Vec<u8>,
    journal: &'a [u8],
    empty: L,
) -> Result<(Database<L>, PackedJournal<'a>), SessionFault>
    requires { L.items empty ≡ [] }
    ensures file { IfOk result (λ opened. opened.0 ≡ file.items) }
    ensures opens { OnOk result (IsOpenable file.items) }
    ensures said { IfOk result (λ opened. IsJournalOf opened.1 journal.now) }
    ensures digest { IfOk result (λ opened. opened.1.digest ≡ digest_of file.items) }
    ensures past { IfOk result (λ opened. AreTurnable opened.1.past) }
    ensures future { IfOk result (λ opened. AreTurnable opened.1.future) }
    ensures refused { IfErr result (λ fault. RefusesLoad fault file.items journal.now) }
{
    check_len(file.as_slice())?;
    let digest = digest(alloc, file.as_slice())?;
    match Database::open_file(alloc, file, empty) {
        Ok(db) => {
            db.opens();
            match packed_with(alloc, digest.as_slice(), journal) {
                Ok(said) => Ok((db, said)),
                Err(fault) => {
                    close(db);
                    Err(fault)
                }
            }
        }
        Err(fault) => Err(unopened(fault)),
    }
}

/// Refuses a journal whose steps do not belong to the open file, which has its digest. Otherwise the file ends where it began.
pub(crate) fn fit<L: ItemList>(
    alloc: Global,
    db: &mut Database<L>,
    said: &Journal,
) -> Result<(), SessionFault>
    requires digest { said.now.digest ≡ digest_of db.old }
    requires past { AreTurnable said.now.past }
    requires future { AreTurnable said.now.future }
    ensures fit { OnOk result (FitFile said.now db.old) }
    ensures same { OnOk result (db.new ≡ db.old) }
    ensures refused { IfErr result (λ fault. (text : FileText) → IsJournalOf said.now text → RefusesLoad fault db.old text) }
{
    db.opens();
    if !belong(alloc, db, said.past.as_slice(), said.future.as_slice())? {
        return Err(SessionFault::JournalMismatch);
    }
    Ok(())
}
