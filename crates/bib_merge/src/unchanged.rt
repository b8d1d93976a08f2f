//! Merges of files of which a side changed nothing, or both sides have the same file.

ghost use Rattle.std.specs.Prelude.{◌≡◌, ◌≢◌, true, false, [], IfOk, IfNone, map};
ghost use Rattle.std.specs.Option.{IfSome};
ghost use Rattle.bib_spec.specs.Records.{entries_of};
ghost use Rattle.bib_store.specs.Readings.{OfReading};
ghost use Rattle.merge_spec.specs.Parents.{lost_keys};
ghost use Rattle.bib_uses.specs.Lost.{lost_uses};
ghost use Rattle.bib_places.specs.ConflictsSeen.{conflict_seen};
ghost use Rattle.bib_merge.specs.Merges.{IsMergeOfThree, LeavesTheOther, AllDiffer, IsAlike};

use crate::told::Told;
use bib_parents::lost_keys;
use bib_store::{Database, ItemList};
use bib_text::Text;
use bib_uses::lost_uses;
use std::alloc::{AllocError, Global};

/// Whether the two files have the same bytes.
fn are_same(a: &[u8], b: &[u8]) -> bool
    ensures same { result ≡ true → a.now ≡ b.now }
    ensures differ { result ≡ false → a.now ≢ b.now }
{
    a == b
}

/// How three files are alike: we left the common file, they left it, both sides have the same file, or each differs from the others.
#[derive(Clone, Copy)]
pub(crate) enum Alike {
    OursLeft,
    TheirsLeft,
    SidesSame,
    NoneSame,
}

/// How files with these bytes are alike. It takes time in their lengths.
pub(crate) fn compared(base: &[u8], ours: &[u8], theirs: &[u8]) -> Alike
    ensures { IsAlike result base.now ours.now theirs.now }
{
    if are_same(ours, base) {
        return Alike::OursLeft;
    }
    if are_same(theirs, base) {
        return Alike::TheirsLeft;
    }
    if are_same(ours, theirs) {
        return Alike::SidesSame;
    }
    Alike::NoneSame
}

/// The bytes of an open file.
pub(crate) fn bytes_of<L: ItemList>(db: &Database<L>) -> Result<Text, AllocError>
    ensures { IfOk result (λ text. text ≡ db.now) }
{
    match db.bytes() {
        Ok(text) => Ok(text),
        Err(_) => Err(AllocError),
    }
}

/// An open file, which is that of a side, as a merge without conflicts.
fn taken<L: ItemList>(
    alloc: Global,
    ours: &Database<L>,
    theirs: &Database<L>,
    file: &Database<L>,
) -> Result<Told, AllocError>
    ensures text { IfOk result (λ told. told.text ≡ file.now) }
    ensures conflicts { IfOk result (λ told. map conflict_seen told.conflicts.items ≡ []) }
    ensures lost { IfOk result (λ told. OfReading ours.now (λ ro. OfReading theirs.now (λ rt. OfReading file.now (λ rm. told.lost.items ≡ lost_keys (entries_of ro) (entries_of rt) (entries_of rm))))) }
    ensures uses { IfOk result (λ told. OfReading ours.now (λ ro. OfReading theirs.now (λ rt. OfReading file.now (λ rm. told.uses.items ≡ lost_uses ro rt rm)))) }
{
    let lost = lost_keys(alloc, ours, theirs, file)?;
    let uses = lost_uses(alloc, ours, theirs, file)?;
    let text = bytes_of(file)?;
    Ok(Told {
        text,
        conflicts: Vec::new(alloc),
        lost,
        uses,
    })
}

/// The merge of three open files that are alike in this way, if a side changed nothing, or both sides have the same file: the file of
/// the other side, or that file, byte for byte. Nothing, if each file differs from the others. It takes time in the lengths of the
/// files, and is refused only out of memory.
pub(crate) fn unchanged<L: ItemList>(
    alloc: Global,
    alike: Alike,
    b: &Database<L>,
    o: &Database<L>,
    t: &Database<L>,
) -> Result<Option<Told>, AllocError>
    requires { IsAlike alike b.now o.now t.now }
    ensures told { IfOk result (λ found. IfSome found (λ told. IsMergeOfThree [] b.now o.now t.now told.text (map conflict_seen told.conflicts.items) told.lost.items told.uses.items)) }
    ensures left { IfOk result (λ found. IfSome found (λ told. LeavesTheOther b.now o.now t.now told.text (map conflict_seen told.conflicts.items))) }
    ensures differ { IfOk result (λ found. IfNone found (AllDiffer b.now o.now t.now)) }
{
    b.opens();
    o.opens();
    t.opens();
    match alike {
        Alike::OursLeft => {
            let told = taken(alloc, o, t, t)?;
            Ok(Some(told))
        }
        Alike::TheirsLeft => {
            let told = taken(alloc, o, t, o)?;
            Ok(Some(told))
        }
        Alike::SidesSame => {
            let told = taken(alloc, o, t, t)?;
            Ok(Some(told))
        }
        Alike::NoneSame => Ok(None),
    }
}
