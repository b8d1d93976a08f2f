//! Another edit of a step.

ghost use Rattle.std.specs.Prelude.{◌≡◌, ◌+◌, ◌-◌, ◌<◌, ◌≤◌, ◌⊎◌, [], length, Err, IfOk, IfErr, OnOk, OnErr};
ghost use Rattle.bib_spec.specs.Bytes.{file_limit};
ghost use Rattle.bib_spec.specs.Pieces.{EndBy, applied, reversed};
ghost use Rattle.history_spec.specs.Composing.{IsComposable, AreEnds, composed, ends_of};
ghost use Rattle.history_spec.specs.Steps.{IsAllowed, Leads, before, with_edit, step_text_len};
ghost use Rattle.bib_steps.specs.Amending.{AreWithin, amended, LiesInside};
ghost use Rattle.bib_journal.specs.declared.fault.SessionFault.TheVariants.{JournalFull, Memory};

use crate::fault::SessionFault;
use crate::inside::make_inside;
use crate::stepping::go_on;
use crate::text_len::{amended_len, edited_len};
use bib_steps::{Amendment, Spot, amend, put, renew_ends, spot_of};
use bib_store::{Database, ItemList, Piece, compose};
use bib_text::Seq;
use journal_format::{STEP_TEXTS_LIMIT, Step, step_text_len};
use std::alloc::{AllocError, Global};
use std::mem::replace;

/// The length, if it is allowed for the texts of all steps.
fn allowed_len(len: u64) -> Result<u64, SessionFault>
    ensures len { IfOk result (λ allowed. allowed ≡ len) }
    ensures short { OnOk result (len ≤ 67174399) }
    ensures full { OnErr result (67174399 < len) }
    ensures only { IfErr result (λ fault. fault ≡ JournalFull) }
{
    if len > STEP_TEXTS_LIMIT {
        return Err(SessionFault::JournalFull);
    }
    Ok(len)
}

/// The pieces of two edits in turn, as those of one.
fn composed(alloc: Global, first: &[Piece], second: &[Piece]) -> Result<Seq<Piece>, AllocError>
    requires { IsComposable first.now second.now }
    ensures { IfOk result (λ pieces. pieces ≡ composed first.now second.now) }
{
    match compose(alloc, first, second) {
        Ok(pieces) => Ok(pieces),
        Err(_) => Err(AllocError),
    }
}

/// Makes pieces that lead to a file, and changes the pieces of a step and their ends accordingly.
fn make<L: ItemList>(
    db: &mut Database<L>,
    list: &mut Vec<Piece>,
    ends: &mut Vec<u64>,
    change: Amendment,
    pieces: &[Piece],
) -> Result<(), AllocError>
    requires allowed { IsAllowed pieces.now db.old }
    requires within { AreWithin (length list.old.items) change }
    requires ends { ends.old.items ≡ ends_of list.old.items }
    requires short { EndBy file_limit (amended change list.old.items) }
    requires short_ends { EndBy file_limit (reversed (amended change list.old.items)) }
    ensures made { OnOk result (db.new ≡ applied pieces.now db.old) }
    ensures list { OnOk result (list.new.items ≡ amended change list.old.items) }
    ensures ends { OnOk result (ends.new.items ≡ ends_of list.new.items) }
    ensures same { OnErr result (list.new.items ≡ list.old.items) }
    ensures same_ends { OnErr result (ends.new.items ≡ ends.old.items) }
    ensures err { OnErr result (db.new ≡ db.old) }
{
    list.reserve(change.added_count())?;
    ends.reserve(list.capacity().saturating_sub(ends.len()))?;
    go_on(db, pieces)?;
    put(list, ends, change);
    Ok(())
}

/// Makes the pieces, which begin at this spot of a step: the piece there changes in place.
fn grow_inside<L: ItemList>(
    alloc: Global,
    db: &mut Database<L>,
    step: &mut Step,
    ends: &mut Vec<u64>,
    spot: Spot,
    pieces: &[Piece],
    len: u64,
) -> Result<u64, SessionFault>
    requires inside { LiesInside step.old.pieces pieces.now spot.position spot.byte }
    requires leads { Leads step.old.pieces (before step.old.pieces db.old) db.old }
    requires allowed { IsAllowed pieces.now db.old }
    requires ends { AreEnds step.old.pieces ends.old.items }
    requires len { step_text_len step.old ≤ len }
    requires limit { len ≤ 67174399 }
    ensures grown { OnOk result (step.new ≡ with_edit step.old pieces.now) }
    ensures made { OnOk result (db.new ≡ applied pieces.now db.old) }
    ensures ends { OnOk result (AreEnds step.new.pieces ends.new.items) }
    ensures len { IfOk result (λ new. new ≡ len - step_text_len step.old + step_text_len (with_edit step.old pieces.now)) }
    ensures short { IfOk result (λ new. new ≤ 67174399) }
    ensures full { result ≡ Err JournalFull → 67174399 < len - step_text_len step.old + step_text_len (with_edit step.old pieces.now) }
    ensures only { IfErr result (λ fault. (fault ≡ JournalFull) ⊎ (fault ≡ Memory)) }
    ensures same { OnErr result (step.new ≡ step.old) }
    ensures same_ends { OnErr result (ends.new.items ≡ ends.old.items) }
    ensures err { OnErr result (db.new ≡ db.old) }
{
    let more = &pieces[0];
    let new = allowed_len(edited_len(len, step.pieces.as_slice(), spot, more))?;
    let mut list = replace(&mut step.pieces, Seq::empty(alloc)).into_vec();
    let made = make_inside(alloc, db, &mut list, ends, spot, pieces, more);
    step.pieces = Seq::from_vec(list);
    made?;
    Ok(new)
}

/// Makes the pieces and adds them to a step whose ends are known. Only the pieces of the step that they are near change.
fn grow_near<L: ItemList>(
    alloc: Global,
    db: &mut Database<L>,
    step: &mut Step,
    ends: &mut Vec<u64>,
    pieces: &[Piece],
    len: u64,
) -> Result<u64, SessionFault>
    requires leads { Leads step.old.pieces (before step.old.pieces db.old) db.old }
    requires allowed { IsAllowed pieces.now db.old }
    requires ends { AreEnds step.old.pieces ends.old.items }
    requires len { step_text_len step.old ≤ len }
    requires limit { len ≤ 67174399 }
    ensures grown { OnOk result (step.new ≡ with_edit step.old pieces.now) }
    ensures made { OnOk result (db.new ≡ applied pieces.now db.old) }
    ensures ends { OnOk result (AreEnds step.new.pieces ends.new.items) }
    ensures len { IfOk result (λ new. new ≡ len - step_text_len step.old + step_text_len (with_edit step.old pieces.now)) }
    ensures short { IfOk result (λ new. new ≤ 67174399) }
    ensures full { result ≡ Err JournalFull → 67174399 < len - step_text_len step.old + step_text_len (with_edit step.old pieces.now) }
    ensures only { IfErr result (λ fault. (fault ≡ JournalFull) ⊎ (fault ≡ Memory)) }
    ensures same { OnErr result (step.new ≡ step.old) }
    ensures same_ends { OnErr result (ends.new.items ≡ ends.old.items) }
    ensures err { OnErr result (db.new ≡ db.old) }
{
    if let Some(spot) = spot_of(step.pieces.as_slice(), ends.as_slice(), pieces) {
        return grow_inside(alloc, db, step, ends, spot, pieces, len);
    }
    let change = amend(alloc, step.pieces.as_slice(), ends.as_slice(), pieces)?;
    let new = allowed_len(amended_len(len, step.pieces.as_slice(), &change))?;
    let mut list = replace(&mut step.pieces, Seq::empty(alloc)).into_vec();
    let made = make(db, &mut list, ends, change, pieces);
    step.pieces = Seq::from_vec(list);
    made?;
    Ok(new)
}

/// The same for a step whose ends are not known yet: all its pieces are composed.
fn grow_whole<L: ItemList>(
    alloc: Global,
    db: &mut Database<L>,
    step: &mut Step,
    ends: &mut Vec<u64>,
    pieces: &[Piece],
    len: u64,
) -> Result<u64, SessionFault>
    requires leads { Leads step.old.pieces (before step.old.pieces db.old) db.old }
    requires allowed { IsAllowed pieces.now db.old }
    requires ends { ends.old.items ≡ [] }
    requires len { step_text_len step.old ≤ len }
    requires limit { len ≤ 67174399 }
    ensures grown { OnOk result (step.new ≡ with_edit step.old pieces.now) }
    ensures made { OnOk result (db.new ≡ applied pieces.now db.old) }
    ensures ends { OnOk result (AreEnds step.new.pieces ends.new.items) }
    ensures len { IfOk result (λ new. new ≡ len - step_text_len step.old + step_text_len (with_edit step.old pieces.now)) }
    ensures short { IfOk result (λ new. new ≤ 67174399) }
    ensures full { result ≡ Err JournalFull → 67174399 < len - step_text_len step.old + step_text_len (with_edit step.old pieces.now) }
    ensures only { IfErr result (λ fault. (fault ≡ JournalFull) ⊎ (fault ≡ Memory)) }
    ensures same { OnErr result (step.new ≡ step.old) }
    ensures same_ends { OnErr result (ends.new.items ≡ ends.old.items) }
    ensures err { OnErr result (db.new ≡ db.old) }
{
    let joined = composed(alloc, step.pieces.as_slice(), pieces)?;
    let others = len - step_text_len(step.label.as_slice(), step.pieces.as_slice());
    let text_len = step_text_len(step.label.as_slice(), joined.as_slice());
    let new = allowed_len(others.saturating_add(text_len))?;
    ends.reserve(joined.as_slice().len())?;
    go_on(db, pieces)?;
    renew_ends(ends, joined.as_slice());
    step.pieces = joined;
    Ok(new)
}

/// Makes pieces that lead to a file, and adds them to a step that led to the present one, if the texts of all steps are no
/// longer than `STEP_TEXTS_LIMIT` then. It returns their length, which was `len` before. `ends` are the places where the
/// step's pieces end in the present file, or none. It takes time and memory as the splice does and, if there are ends, in the
/// number and the bytes of the step's pieces that the new ones are near. It moves the others as memory, and their ends by one
/// number. One piece that begins inside a piece of the step changes that piece in place: only the bytes after it move, as memory.
pub(crate) fn grow<L: ItemList>(
    alloc: Global,
    db: &mut Database<L>,
    step: &mut Step,
    ends: &mut Vec<u64>,
    pieces: &[Piece],
    len: u64,
) -> Result<u64, SessionFault>
    requires leads { Leads step.old.pieces (before step.old.pieces db.old) db.old }
    requires allowed { IsAllowed pieces.now db.old }
    requires ends { (ends.old.items ≡ []) ⊎ AreEnds step.old.pieces ends.old.items }
    requires len { step_text_len step.old ≤ len }
    requires limit { len ≤ 67174399 }
    ensures grown { OnOk result (step.new ≡ with_edit step.old pieces.now) }
    ensures made { OnOk result (db.new ≡ applied pieces.now db.old) }
    ensures ends { OnOk result (AreEnds step.new.pieces ends.new.items) }
    ensures len { IfOk result (λ new. new ≡ len - step_text_len step.old + step_text_len (with_edit step.old pieces.now)) }
    ensures short { IfOk result (λ new. new ≤ 67174399) }
    ensures full { result ≡ Err JournalFull → 67174399 < len - step_text_len step.old + step_text_len (with_edit step.old pieces.now) }
    ensures only { IfErr result (λ fault. (fault ≡ JournalFull) ⊎ (fault ≡ Memory)) }
    ensures same { OnErr result (step.new ≡ step.old) }
    ensures same_ends { OnErr result (ends.new.items ≡ ends.old.items) }
    ensures err { OnErr result (db.new ≡ db.old) }
{
    if ends.is_empty() {
        return grow_whole(alloc, db, step, ends, pieces, len);
    }
    grow_near(alloc, db, step, ends, pieces, len)
}
