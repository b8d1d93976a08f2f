//! A file in which names of a side are followed.

ghost use Rattle.std.specs.Prelude.{◌≡◌, true, IfOk, OnOk};
ghost use Rattle.bib_spec.specs.Text.{Text as Bytes};
ghost use Rattle.bib_store.specs.Readings.{OfReading};
ghost use Rattle.bib_data.specs.declared.request.Request.TheVariants as request;
ghost use Rattle.bib_renames.specs.Changes.{edit_seen};
ghost use Rattle.bib_renames.specs.Renamed.{IsNameOf, HasRenamed, IsRenamed};

use crate::lone::count;
use crate::rename::{Change, Named};
use bib_data::Edit;
use bib_journal::{Session, SessionFault};
use bib_store::{Database, ItemList, Paged};
use bib_text::{Text, copied};
use std::alloc::{AllocError, Global};

/// A file in which changes of names were made, and which of them were made.
#[derive(Drop)]
pub(crate) struct Made {
    pub text: Text,
    pub accepted: Vec<bool>,
}

/// A side that gave names, and the common file.
#[derive(Drop)]
pub(crate) struct Giver<'a, L: ItemList> {
    pub side: &'a Database<L>,
    pub base: &'a Database<L>,
}

/// Whether the side has the new name, once, and the common file does not have it.
fn is_given<L: ItemList>(giver: &Giver<'_, L>, change: &Change) -> bool
    ensures { result ≡ true → OfReading giver.now.side.now (λ rs. OfReading giver.now.base.now (λ rb. IsNameOf rs rb (request.Edit (edit_seen change.now)))) }
{
    let new = change.new.as_slice();
    count(giver.side, change.what, new) == 1 && count(giver.base, change.what, new) == 0
}

/// The edit that makes this change.
fn edit_of(alloc: Global, change: &Change) -> Result<Edit, AllocError>
    ensures { IfOk result (λ edit. edit ≡ edit_seen change.now) }
{
    let from = copied(alloc, change.old.as_slice())?;
    let to = copied(alloc, change.new.as_slice())?;
    match change.what {
        Named::Entry => Ok(Edit::RenameKey { from, to }),
        Named::Macro => Ok(Edit::RenameMacro { from, to }),
    }
}

/// Makes the change in the session's file, if its name is one of the side and it is accepted. Whether it was made.
fn try_change<L: ItemList>(
    alloc: Global,
    giver: &Giver<'_, L>,
    session: &mut Session<Paged>,
    change: &Change,
) -> Result<bool, AllocError>
    ensures { OnOk result ((file : Bytes) → HasRenamed giver.now.side.now giver.now.base.now file session.old → HasRenamed giver.now.side.now giver.now.base.now file session.new) }
{
    if !is_given(giver, change) {
        return Ok(false);
    }
    let edit = edit_of(alloc, change)?;
    match session.edit(&edit) {
        Ok(()) => Ok(true),
        Err(SessionFault::Memory) => Err(AllocError),
        Err(_) => Ok(false),
    }
}

/// Makes each of the changes that is accepted in the session's file, in order. Which of them were made.
fn try_all<L: ItemList>(
    alloc: Global,
    giver: &Giver<'_, L>,
    session: &mut Session<Paged>,
    changes: &[Change],
) -> Result<Vec<bool>, AllocError>
    ensures { OnOk result ((file : Bytes) → HasRenamed giver.now.side.now giver.now.base.now file session.old → HasRenamed giver.now.side.now giver.now.base.now file session.new) }
{
    let mut accepted = Vec::new(alloc);
    'changes: for k in 0..changes.len() {
        let is_made = try_change(alloc, giver, session, &changes[k])?;
        accepted.push(is_made)?;
    }
    Ok(accepted)
}

/// The session's file with each of the changes that is accepted there.
fn made_in<L: ItemList>(
    alloc: Global,
    giver: &Giver<'_, L>,
    session: &mut Session<Paged>,
    changes: &[Change],
) -> Result<Made, AllocError>
    ensures { IfOk result (λ made. (file : Bytes) → HasRenamed giver.now.side.now giver.now.base.now file session.old → IsRenamed giver.now.side.now giver.now.base.now file made.text) }
{
    let accepted = try_all(alloc, giver, session, changes)?;
    match session.bytes() {
        Ok(text) => Ok(Made { text, accepted }),
        Err(_) => Err(AllocError),
    }
}

/// The file as it is.
fn unchanged(alloc: Global, file: &[u8]) -> Result<Made, AllocError>
    ensures { IfOk result (λ made. (side base : Bytes) → IsRenamed side base file.now made.text) }
{
    Ok(Made {
        text: copied(alloc, file)?,
        accepted: Vec::new(alloc),
    })
}

/// The file with each of the changes that is accepted, one after another. It takes time as opening the file and making the edits;
/// without changes it does not open the file. It is refused only out of memory.
pub(crate) fn changed<L: ItemList>(
    alloc: Global,
    giver: &Giver<'_, L>,
    file: &[u8],
    changes: &[Change],
) -> Result<Made, AllocError>
    ensures { IfOk result (λ made. IsRenamed giver.now.side.now giver.now.base.now file.now made.text) }
{
    if changes.is_empty() {
        return unchanged(alloc, file);
    }
    match Session::start(alloc, file, Paged::new(alloc)) {
        Ok(session) => {
            let mut session = session;
            let made = made_in(alloc, giver, &mut session, changes);
            session.close();
            made
        }
        Err(SessionFault::Memory) => Err(AllocError),
        Err(_) => unchanged(alloc, file),
    }
}
