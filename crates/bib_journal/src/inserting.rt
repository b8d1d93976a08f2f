//! Plans the insertion of a text into the file of a session.

ghost use Rattle.std.specs.Prelude.{IfOk, IfErr};
ghost use Rattle.bib_journal.specs.Session.{PlansInsertion, RefusesPlan};

use crate::closing::close;
use crate::fault::{SessionFault, refused, unopened};
use bib_data::Position;
use bib_edit::{place_of, plan_insertion};
use bib_store::{Database, ItemList, Paged, Piece};
use bib_text::Seq;
use std::alloc::Global;

/// The pieces that put the text in at the position, or why it can't be put in. Whether a raw text would be too long then is not
/// looked at.
pub(crate) fn insertion_of<L: ItemList>(
    alloc: Global,
    db: &Database<L>,
    position: &Position,
    text: &[u8],
) -> Result<Seq<Piece>, SessionFault>
    ensures planned { IfOk result (PlansInsertion position.now db.now text.now) }
    ensures refused { IfErr result (λ fault. RefusesPlan fault position.now db.now text.now) }
{
    match Database::open_bytes(alloc, text, Paged::new(alloc)) {
        Ok(added) => {
            let planned = insertion_at(alloc, db, position, &added);
            close(added);
            planned
        }
        Err(fault) => Err(unopened(fault)),
    }
}

/// The pieces that put an open text in at the position.
fn insertion_at<L: ItemList>(
    alloc: Global,
    db: &Database<L>,
    position: &Position,
    added: &Database<Paged>,
) -> Result<Seq<Piece>, SessionFault>
    ensures planned { IfOk result (PlansInsertion position.now db.now added.now) }
    ensures refused { IfErr result (λ fault. RefusesPlan fault position.now db.now added.now) }
{
    db.opens();
    added.opens();
    let planned = match place_of(db, position) {
        Ok(place) => plan_insertion(alloc, db, place, added),
        Err(fault) => Err(fault),
    };
    match planned {
        Ok(pieces) => Ok(pieces),
        Err(fault) => Err(refused(fault)),
    }
}
