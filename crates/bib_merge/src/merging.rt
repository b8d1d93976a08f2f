//! The merge of three files.

ghost use Rattle.std.specs.Prelude.{◌≡◌, true, ℕ, List, [], IfOk, IfErr, OnOk, map};
ghost use Rattle.bib_spec.specs.Texts.{IsOpenable};
ghost use Rattle.bib_store.specs.Readings.{OfReading, IsOpenFault};
ghost use Rattle.bib_spec.specs.Reading.{Reading};
ghost use Rattle.bib_places.specs.PlacesSeen.{IsSide, place_seen};
ghost use Rattle.bib_spec.specs.Records.{entries_of};
ghost use Rattle.merge_spec.specs.Units.{units_of, spaced_of};
ghost use Rattle.bib_units.specs.Comments.{comments_of};
ghost use Rattle.bib_units.specs.UnitsSeen.{AreUnits};
ghost use Rattle.merge_spec.specs.Merged.{is_merge};
ghost use Rattle.merge_spec.specs.Conflicts.{conflicts_of};
ghost use Rattle.merge_spec.specs.Parents.{lost_keys};
ghost use Rattle.bib_uses.specs.Lost.{lost_uses};
ghost use Rattle.bib_places.specs.OwnedLabels.{owned_seen};
ghost use Rattle.bib_places.specs.ConflictsSeen.{conflict_seen};
ghost use Rattle.bib_merge.specs.Bodies.{bodies_of, merged_bodies};
ghost use Rattle.bib_merge.specs.Merges.{label_given, IsMergeOf, IsMergeOfThree, IsMergeOfFiles, LeavesTheOther, IsAlike, fault_in, IsOpeningFault, IsUnopened, RefusesText, RefusesMerge, RefusesMergeOfThree, RefusesMergeOfFiles, IsOrMemory, IsThreeFault, IsMergeFault};

use crate::fault::MergeFault;
use crate::meeting::has_items;
use crate::mixing::Found as MixFound;
use crate::ordering::{is_marked, order};
use crate::outcomes::{Becomes, outcome_of};
use crate::pairing::{In, Row, Rows};
use crate::spacing::{Units, chosen, space_after, unit};
use crate::told::{OpenMerge, Told};
use crate::unchanged::{Alike, bytes_of, compared, unchanged};
use bib_parents::lost_keys;
use bib_places::{
    Conflict, File, Mix, Outcome, OwnedLabel, Place, Side, conflicts_of, is_merge, merged_text,
    plain_places,
};
use bib_renames::{Followed, GivenName, KeyConflict, Named, follow};
use bib_scan::ReadFault;
use bib_store::{Database, Paged};
use bib_text::{Text, copied};
use bib_units::{FileUnits, comments_of, units_of};
use bib_uses::{LostUse, lost_uses};
use std::alloc::{AllocError, Global};

/// The merged file, and its conflicts in order.
#[derive(Drop)]
pub struct Merged {
    pub text: Text,
    /// The entries to which each side gave another key.
    pub keys: Vec<KeyConflict>,
    pub conflicts: Vec<Conflict>,
    /// The keys of the entries that have lost the parent that they have on the side that they come from.
    pub lost: Vec<Text>,
    /// The uses of macros that find another definition than on the side that they come from.
    pub uses: Vec<LostUse>,
}

/// Opens one of the files.
fn opened(alloc: Global, file: File, bytes: Vec<u8>) -> Result<Database<Paged>, MergeFault>
    ensures opened { IfOk result (λ db. db ≡ bytes.items) }
    ensures file { OnOk result (IsOpenable bytes.items) }
    ensures fault { IfErr result (IsOpeningFault file bytes.items) }
{
    match Database::open_file(alloc, bytes, Paged::new(alloc)) {
        Ok(db) => Ok(db),
        Err(fault) => {
            if fault.is_memory() {
                return Err(MergeFault::Memory);
            }
            Err(fault_in(file, fault))
        }
    }
}

/// The fault of this file, if it cannot be opened for this reason.
fn fault_in(file: File, fault: ReadFault) -> MergeFault
    ensures { result ≡ fault_in file fault }
{
    match file {
        File::Base => MergeFault::Base(fault),
        File::Ours => MergeFault::Ours(fault),
        File::Theirs => MergeFault::Theirs(fault),
    }
}

/// The rows of three files, what becomes of each, and the order of those that stay.
#[derive(Drop)]
struct Found {
    rows: Vec<Row>,
    outcomes: Vec<Becomes>,
    order: Vec<usize>,
}

/// Whether one side alone took away a unit of the common file.
fn is_removed_by_one(row: Row) -> bool {
    row.base().is_some() && row.ours().is_some() != row.theirs().is_some()
}

/// Which rows are those of labels that the sides gave.
fn named_rows(
    alloc: Global,
    rows: &mut Rows<'_>,
    given: &[OwnedLabel],
) -> Result<Vec<bool>, AllocError> {
    let mut named = vec![in alloc; false; rows.rows.len()]?;
    'given: for k in 0..given.len() {
        if let Some(row) = rows.with_label(given[k].as_label())? {
            if row < named.len() {
                named[row] = true;
            }
        }
    }
    Ok(named)
}

/// What becomes of each row, where some have labels that the sides gave. The entries that are merged field by field are added to these.
fn outcomes_of(
    alloc: Global,
    mixes: &mut Vec<MixFound>,
    base: &Side<'_, Paged>,
    ours: &Side<'_, Paged>,
    theirs: &Side<'_, Paged>,
    rows: &[Row],
    named: &[bool],
) -> Result<Vec<Becomes>, AllocError> {
    let mut outcomes = Vec::with_capacity(alloc, rows.len())?;
    'rows: for k in 0..rows.len() {
        let row = rows[k];
        let b = unit(base.units, row.base());
        let o = unit(ours.units, row.ours());
        let t = unit(theirs.units, row.theirs());
        let becomes = if is_marked(named, k) && is_removed_by_one(row) {
            Becomes::Both
        } else {
            outcome_of(alloc, mixes, base, b, ours, o, theirs, t)?
        };
        outcomes.push(becomes)?;
    }
    Ok(outcomes)
}

/// Whether a unit goes.
fn is_gone(becomes: Becomes) -> bool {
    match becomes {
        Becomes::Gone => true,
        Becomes::Ours | Becomes::Theirs | Becomes::Mixed(_) | Becomes::Both => false,
    }
}

/// Which rows are kept.
fn kept_rows(alloc: Global, outcomes: &[Becomes]) -> Result<Vec<bool>, AllocError> {
    let mut kept = Vec::new(alloc);
    'outcomes: for k in 0..outcomes.len() {
        kept.push(!is_gone(outcomes[k]))?;
    }
    Ok(kept)
}

/// Looks for a merge, where the sides gave units these labels. The entries that are merged field by field are added to these.
fn find(
    alloc: Global,
    given: &[OwnedLabel],
    mixes: &mut Vec<MixFound>,
    base: &Side<'_, Paged>,
    ours: &Side<'_, Paged>,
    theirs: &Side<'_, Paged>,
) -> Result<Found, AllocError> {
    let count = ours.units.len().max(theirs.units.len());
    let mut rows = Rows::none(alloc, base.units.len().max(count))?;
    drop(rows.add(base.units, In::Base)?);
    let of_ours = rows.add(ours.units, In::Ours)?;
    let of_theirs = rows.add(theirs.units, In::Theirs)?;
    let named = named_rows(alloc, &mut rows, given)?;
    // no label is looked for any more
    let rows = rows.into_rows();
    let outcomes = outcomes_of(
        alloc,
        mixes,
        base,
        ours,
        theirs,
        rows.as_slice(),
        named.as_slice(),
    )?;
    let kept = kept_rows(alloc, outcomes.as_slice())?;
    let order = order(
        alloc,
        rows.as_slice(),
        kept.as_slice(),
        of_ours.as_slice(),
        of_theirs.as_slice(),
    )?;
    Ok(Found {
        rows,
        outcomes,
        order,
    })
}

/// The place of a row.
fn place<'a>(row: Row, outcome: Outcome<'a>, space: &'a [u8]) -> Place<'a> {
    Place {
        base: row.base(),
        ours: row.ours(),
        theirs: row.theirs(),
        outcome,
        space,
    }
}

/// A merged entry, as a place has it.
fn mixed(found: &MixFound) -> Outcome<'_> {
    Outcome::Mixed(Mix {
        kind: found.kind,
        key: found.key,
        space: found.space.as_slice(),
        rows: found.rows.as_slice(),
    })
}

/// What becomes of a unit, as a place has it; of these entries some are merged.
fn outcome(mixes: &[MixFound], becomes: Becomes) -> Outcome<'_> {
    match becomes {
        Becomes::Ours => Outcome::Ours,
        Becomes::Theirs => Outcome::Theirs,
        Becomes::Mixed(n) => match mixes.get(n) {
            Some(found) => mixed(found),
            None => Outcome::Both,
        },
        Becomes::Gone => Outcome::Gone,
        Becomes::Both => Outcome::Both,
    }
}

/// The row with this number, and what becomes of it.
fn row_at<'a>(found: &Found, mixes: &'a [MixFound], n: usize) -> Option<(Row, Outcome<'a>)> {
    match (found.rows.get(n), found.outcomes.get(n)) {
        (Some(row), Some(becomes)) => Some((*row, outcome(mixes, *becomes))),
        _ => None,
    }
}

/// The row that comes next in the order.
fn next_row(found: &Found, k: usize) -> Option<Row> {
    let next = found.order.get(k.saturating_add(1))?;
    found.rows.get(*next).copied()
}

/// The places of what was found: those that are kept, in their order, and then those that go.
fn places_of<'a>(
    alloc: Global,
    units: Units<'_, 'a>,
    found: &Found,
    mixes: &'a [MixFound],
) -> Result<Vec<Place<'a>>, AllocError> {
    let mut places = Vec::with_capacity(alloc, found.rows.len())?;
    'order: for k in 0..found.order.len() {
        if let Some((row, outcome)) = row_at(found, mixes, found.order[k]) {
            let space = space_after(units, row, next_row(found, k));
            places.push(place(row, outcome, space))?;
        }
    }
    'rows: for k in 0..found.rows.len() {
        if let Some((row, outcome)) = row_at(found, mixes, k) {
            match outcome {
                Outcome::Gone => places.push(place(row, outcome, b""))?,
                Outcome::Ours | Outcome::Theirs | Outcome::Mixed(_) | Outcome::Both => {}
            }
        }
    }
    Ok(places)
}

/// The places of a merge of three files, as far as one is found, where the sides gave units these labels, and in this list the entries
/// that are merged field by field.
fn found_places<'a>(
    alloc: Global,
    given: &[OwnedLabel],
    mixes: &'a mut Vec<MixFound>,
    base: &Side<'_, Paged>,
    ours: &Side<'a, Paged>,
    theirs: &Side<'a, Paged>,
) -> Result<Vec<Place<'a>>, AllocError> {
    let found = find(alloc, given, mixes, base, ours, theirs)?;
    let units = Units {
        base: base.units,
        ours: ours.units,
        theirs: theirs.units,
    };
    places_of(alloc, units, &found, mixes.as_slice())
}

/// The number of the fault of a file in which a raw text is too long.
const RAW_TOO_LONG: u8 = 8;

/// Why the merged text is not opened.
fn merged_fault(fault: ReadFault) -> MergeFault
    ensures { (text : List ℕ) → IsOpenFault text fault.kind fault.place → IsOrMemory (IsUnopened text) result }
{
    if fault.kind == RAW_TOO_LONG {
        return MergeFault::TextTooLong;
    }
    if fault.kind == ReadFault::TOO_LONG.kind {
        return MergeFault::FileTooLong;
    }
    if fault.is_memory() {
        return MergeFault::Memory;
    }
    MergeFault::WouldMerge
}

/// Opens the merged text.
fn opened_text(alloc: Global, text: Text) -> Result<Database<Paged>, MergeFault>
    ensures opened { IfOk result (λ db. db ≡ text) }
    ensures opens { OnOk result (IsOpenable text) }
    ensures fault { IfErr result (IsOrMemory (IsUnopened text)) }
{
    match Database::open_file(alloc, text.into_vec(), Paged::new(alloc)) {
        Ok(db) => Ok(db),
        Err(fault) => Err(merged_fault(fault)),
    }
}

/// The merge of our file and theirs, which come from a common one: their units, each as one of the sides has it, or both versions
/// between markers where each side has changed it; the conflicts, which are the units with markers; the entries that have lost
/// their parent; and the uses of macros that have lost their meaning. The units keep our order, with theirs after the unit that
/// comes before it in their file. If one side changed no byte, the file of the other side is the merge, and so is the file of both
/// if they are the same; only memory can run out then. Else each file first gets the names that the sides gave to entries and
/// macros, as `bib_renames` says. It opens copies of the three files and the merged one, and takes time and memory in their lengths;
/// with such names it also makes the edits, and opens the three files that they make. It is refused at the first file that cannot be
/// opened; with 8 or 9 if the merged text would have too long a raw text or be too long itself; with 40 if it is no file or has
/// other items, since texts of both sides would be joined; and with 10. (dialect)
pub fn merge(alloc: Global, base: &[u8], ours: &[u8], theirs: &[u8]) -> Result<Merged, MergeFault>
    ensures merged { IfOk result (λ merged. IsMergeOfFiles base.now ours.now theirs.now merged.text merged.keys.items (map conflict_seen merged.conflicts.items) merged.lost.items merged.uses.items) }
    ensures left { IfOk result (λ merged. LeavesTheOther base.now ours.now theirs.now merged.text (map conflict_seen merged.conflicts.items)) }
    ensures opens { IfOk result (λ merged. IsOpenable merged.text) }
    ensures files { OnOk result (IsOpenable base.now × IsOpenable ours.now × IsOpenable theirs.now) }
    ensures fault { IfErr result (IsMergeFault base.now ours.now theirs.now) }
{
    let base_copy = Vec::from_slice(alloc, base)?;
    let our_copy = Vec::from_slice(alloc, ours)?;
    let their_copy = Vec::from_slice(alloc, theirs)?;
    let merged = merge_files(alloc, base_copy, our_copy, their_copy)?;
    Ok(merged)
}

/// The merge of these files, as `merge` makes it, without copies of them: the memory of their bytes is used, and given back.
pub fn merge_files(
    alloc: Global,
    base: Vec<u8>,
    ours: Vec<u8>,
    theirs: Vec<u8>,
) -> Result<Merged, MergeFault>
    ensures merged { IfOk result (λ merged. IsMergeOfFiles base.items ours.items theirs.items merged.text merged.keys.items (map conflict_seen merged.conflicts.items) merged.lost.items merged.uses.items) }
    ensures left { IfOk result (λ merged. LeavesTheOther base.items ours.items theirs.items merged.text (map conflict_seen merged.conflicts.items)) }
    ensures opens { IfOk result (λ merged. IsOpenable merged.text) }
    ensures files { OnOk result (IsOpenable base.items × IsOpenable ours.items × IsOpenable theirs.items) }
    ensures fault { IfErr result (IsMergeFault base.items ours.items theirs.items) }
{
    let alike = compared(base.as_slice(), ours.as_slice(), theirs.as_slice());
    let b = opened(alloc, File::Base, base)?;
    merge_base(alloc, alike, b, ours, theirs)
}

/// The same, of which the common file is open, if the three are alike in this way.
fn merge_base(
    alloc: Global,
    alike: Alike,
    b: Database<Paged>,
    ours: Vec<u8>,
    theirs: Vec<u8>,
) -> Result<Merged, MergeFault>
    requires alike { IsAlike alike b ours.items theirs.items }
    requires base_opens { IsOpenable b }
    ensures merged { IfOk result (λ merged. IsMergeOfFiles b ours.items theirs.items merged.text merged.keys.items (map conflict_seen merged.conflicts.items) merged.lost.items merged.uses.items) }
    ensures left { IfOk result (λ merged. LeavesTheOther b ours.items theirs.items merged.text (map conflict_seen merged.conflicts.items)) }
    ensures opens { IfOk result (λ merged. IsOpenable merged.text) }
    ensures files { OnOk result (IsOpenable ours.items × IsOpenable theirs.items) }
    ensures fault { IfErr result (IsMergeFault b ours.items theirs.items) }
{
    match opened(alloc, File::Ours, ours) {
        Ok(o) => merge_ours(alloc, alike, b, o, theirs),
        Err(fault) => {
            close_base(b, theirs);
            Err(fault)
        }
    }
}

/// Closes the common file, and gives back the bytes of theirs.
fn close_base(_b: Database<Paged>, _theirs: Vec<u8>) {}

/// The same, of which the common file and ours are open.
fn merge_ours(
    alloc: Global,
    alike: Alike,
    b: Database<Paged>,
    o: Database<Paged>,
    theirs: Vec<u8>,
) -> Result<Merged, MergeFault>
    requires alike { IsAlike alike b o theirs.items }
    requires base_opens { IsOpenable b }
    requires ours_opens { IsOpenable o }
    ensures merged { IfOk result (λ merged. IsMergeOfFiles b o theirs.items merged.text merged.keys.items (map conflict_seen merged.conflicts.items) merged.lost.items merged.uses.items) }
    ensures left { IfOk result (λ merged. LeavesTheOther b o theirs.items merged.text (map conflict_seen merged.conflicts.items)) }
    ensures opens { IfOk result (λ merged. IsOpenable merged.text) }
    ensures theirs_open { OnOk result (IsOpenable theirs.items) }
    ensures fault { IfErr result (IsMergeFault b o theirs.items) }
{
    match opened(alloc, File::Theirs, theirs) {
        Ok(t) => merge_three(alloc, alike, b, o, t),
        Err(fault) => {
            close_two(b, o);
            Err(fault)
        }
    }
}

/// Closes two files.
fn close_two(_b: Database<Paged>, _o: Database<Paged>) {}

/// The merge of three open files that are alike in this way.
fn merge_three(
    alloc: Global,
    alike: Alike,
    b: Database<Paged>,
    o: Database<Paged>,
    t: Database<Paged>,
) -> Result<Merged, MergeFault>
    requires { IsAlike alike b o t }
    ensures merged { IfOk result (λ merged. IsMergeOfFiles b o t merged.text merged.keys.items (map conflict_seen merged.conflicts.items) merged.lost.items merged.uses.items) }
    ensures left { IfOk result (λ merged. LeavesTheOther b o t merged.text (map conflict_seen merged.conflicts.items)) }
    ensures opens { IfOk result (λ merged. IsOpenable merged.text) }
    ensures fault { IfErr result (IsThreeFault b o t) }
{
    match unchanged(alloc, alike, &b, &o, &t) {
        Ok(Some(told)) => {
            close(b, o, t);
            Ok(without_keys(alloc, told))
        }
        Ok(None) => merge_changed(alloc, b, o, t),
        Err(_) => {
            close(b, o, t);
            Err(MergeFault::Memory)
        }
    }
}

/// Closes three files.
fn close(_b: Database<Paged>, _o: Database<Paged>, _t: Database<Paged>) {}

/// A merge of files in which no entry has a key from each side.
fn without_keys(alloc: Global, told: Told) -> Merged
    ensures keys { result.keys.items ≡ [] }
    ensures text { result.text ≡ told.text }
    ensures conflicts { result.conflicts.items ≡ told.conflicts.items }
    ensures lost { result.lost.items ≡ told.lost.items }
    ensures uses { result.uses.items ≡ told.uses.items }
{
    Merged {
        text: told.text,
        keys: Vec::new(alloc),
        conflicts: told.conflicts,
        lost: told.lost,
        uses: told.uses,
    }
}

/// The merge of three open files, after each follows the names that the sides gave.
fn merge_changed(
    alloc: Global,
    b: Database<Paged>,
    o: Database<Paged>,
    t: Database<Paged>,
) -> Result<Merged, MergeFault>
    ensures merged { IfOk result (λ merged. IsMergeOfFiles b o t merged.text merged.keys.items (map conflict_seen merged.conflicts.items) merged.lost.items merged.uses.items) }
    ensures opens { IfOk result (λ merged. IsOpenable merged.text) }
    ensures fault { IfErr result (IsOrMemory (RefusesMergeOfFiles b o t)) }
{
    b.opens();
    o.opens();
    t.opens();
    match follow(alloc, &b, &o, &t) {
        Ok(Some(files)) => {
            // the files that names are followed in take their place
            close(b, o, t);
            merge_followed(alloc, files)
        }
        Ok(None) => merge_unfollowed(alloc, b, o, t),
        Err(_) => {
            close(b, o, t);
            Err(MergeFault::Memory)
        }
    }
}

/// The merge of three open files in which there are no names to follow.
fn merge_unfollowed(
    alloc: Global,
    b: Database<Paged>,
    o: Database<Paged>,
    t: Database<Paged>,
) -> Result<Merged, MergeFault>
    ensures merged { IfOk result (λ merged. IsMergeOfFiles b o t merged.text merged.keys.items (map conflict_seen merged.conflicts.items) merged.lost.items merged.uses.items) }
    ensures opens { IfOk result (λ merged. IsOpenable merged.text) }
    ensures fault { IfErr result (IsOrMemory (RefusesMergeOfFiles b o t)) }
{
    let none = Vec::new(alloc);
    let told = merge_open(alloc, none.as_slice(), b, o, t)?;
    Ok(without_keys(alloc, told))
}

/// The label of what got this name.
fn label_given(alloc: Global, given: &GivenName) -> Result<OwnedLabel, AllocError>
    ensures { IfOk result (λ label. owned_seen label ≡ label_given given.now) }
{
    let name = copied(alloc, given.name.as_slice())?;
    match given.what {
        Named::Entry => Ok(OwnedLabel::Entry(name)),
        Named::Macro => Ok(OwnedLabel::Macro(name)),
    }
}

/// The labels of what got these names, in order.
fn labels_given(alloc: Global, given: &[GivenName]) -> Result<Vec<OwnedLabel>, AllocError>
    ensures { IfOk result (λ labels. map owned_seen labels.items ≡ map label_given given.now) }
{
    let mut labels = Vec::new(alloc);
    'given: for k in 0..given.len() {
        labels.push(label_given(alloc, &given[k])?)?;
    }
    Ok(labels)
}

/// The merge of three files in which names are followed.
fn merge_followed(alloc: Global, files: Followed) -> Result<Merged, MergeFault>
    requires base { IsOpenable files.base }
    requires ours { IsOpenable files.ours }
    requires theirs { IsOpenable files.theirs }
    ensures keys { IfOk result (λ merged. merged.keys.items ≡ files.keys.items) }
    ensures merged { IfOk result (λ merged. IsMergeOfThree (map label_given files.given.items) files.base files.ours files.theirs merged.text (map conflict_seen merged.conflicts.items) merged.lost.items merged.uses.items) }
    ensures opens { IfOk result (λ merged. IsOpenable merged.text) }
    ensures fault { IfErr result (IsOrMemory (RefusesMergeOfThree (map label_given files.given.items) files.base files.ours files.theirs)) }
{
    let given = labels_given(alloc, files.given.as_slice())?;
    let keys = files.keys;
    let base = files.base.into_vec();
    let ours = files.ours.into_vec();
    let theirs = files.theirs.into_vec();
    let told = remerged(alloc, given.as_slice(), base, ours, theirs)?;
    Ok(Merged {
        text: told.text,
        keys,
        conflicts: told.conflicts,
        lost: told.lost,
        uses: told.uses,
    })
}

/// The merge of three files with these bytes, in which names are followed, and the sides gave units these labels.
fn remerged(
    alloc: Global,
    given: &[OwnedLabel],
    base: Vec<u8>,
    ours: Vec<u8>,
    theirs: Vec<u8>,
) -> Result<Told, MergeFault>
    requires base { IsOpenable base.items }
    requires ours { IsOpenable ours.items }
    requires theirs { IsOpenable theirs.items }
    ensures told { IfOk result (λ told. IsMergeOfThree (map owned_seen given.now) base.items ours.items theirs.items told.text (map conflict_seen told.conflicts.items) told.lost.items told.uses.items) }
    ensures opens { IfOk result (λ told. IsOpenable told.text) }
    ensures fault { IfErr result (IsOrMemory (RefusesMergeOfThree (map owned_seen given.now) base.items ours.items theirs.items)) }
{
    let b = reopened(alloc, base)?;
    remerged_base(alloc, given, b, ours, theirs)
}

/// The same, of which the common file is open.
fn remerged_base(
    alloc: Global,
    given: &[OwnedLabel],
    b: Database<Paged>,
    ours: Vec<u8>,
    theirs: Vec<u8>,
) -> Result<Told, MergeFault>
    requires ours { IsOpenable ours.items }
    requires theirs { IsOpenable theirs.items }
    ensures told { IfOk result (λ told. IsMergeOfThree (map owned_seen given.now) b ours.items theirs.items told.text (map conflict_seen told.conflicts.items) told.lost.items told.uses.items) }
    ensures opens { IfOk result (λ told. IsOpenable told.text) }
    ensures fault { IfErr result (IsOrMemory (RefusesMergeOfThree (map owned_seen given.now) b ours.items theirs.items)) }
{
    let o = reopened(alloc, ours)?;
    remerged_ours(alloc, given, b, o, theirs)
}

/// The same, of which the common file and ours are open.
fn remerged_ours(
    alloc: Global,
    given: &[OwnedLabel],
    b: Database<Paged>,
    o: Database<Paged>,
    theirs: Vec<u8>,
) -> Result<Told, MergeFault>
    requires { IsOpenable theirs.items }
    ensures told { IfOk result (λ told. IsMergeOfThree (map owned_seen given.now) b o theirs.items told.text (map conflict_seen told.conflicts.items) told.lost.items told.uses.items) }
    ensures opens { IfOk result (λ told. IsOpenable told.text) }
    ensures fault { IfErr result (IsOrMemory (RefusesMergeOfThree (map owned_seen given.now) b o theirs.items)) }
{
    let t = reopened(alloc, theirs)?;
    merge_open(alloc, given, b, o, t)
}

/// Opens a file that was made by edits, and so can be opened.
fn reopened(alloc: Global, bytes: Vec<u8>) -> Result<Database<Paged>, AllocError>
    requires { IsOpenable bytes.items }
    ensures { IfOk result (λ db. db ≡ bytes.items) }
{
    match Database::open_file(alloc, bytes, Paged::new(alloc)) {
        Ok(db) => Ok(db),
        Err(_) => Err(AllocError),
    }
}

/// The merge of three open files, in which the sides gave units these labels. They are closed before the merged file is copied.
fn merge_open(
    alloc: Global,
    given: &[OwnedLabel],
    b: Database<Paged>,
    o: Database<Paged>,
    t: Database<Paged>,
) -> Result<Told, MergeFault>
    ensures told { IfOk result (λ told. IsMergeOfThree (map owned_seen given.now) b o t told.text (map conflict_seen told.conflicts.items) told.lost.items told.uses.items) }
    ensures opens { IfOk result (λ told. IsOpenable told.text) }
    ensures fault { IfErr result (IsOrMemory (RefusesMergeOfThree (map owned_seen given.now) b o t)) }
{
    let found = merge_units(alloc, given, b, o, t)?;
    let text = closed(found.file)?;
    Ok(Told {
        text,
        conflicts: found.conflicts,
        lost: found.lost,
        uses: found.uses,
    })
}

/// Closes a file, and gives its bytes.
fn closed(file: Database<Paged>) -> Result<Text, AllocError>
    ensures text { IfOk result (λ text. text ≡ file) }
    ensures opens { OnOk result (IsOpenable file) }
{
    file.opens();
    bytes_of(&file)
}

/// The same, with the merged file open.
fn merge_units(
    alloc: Global,
    given: &[OwnedLabel],
    b: Database<Paged>,
    o: Database<Paged>,
    t: Database<Paged>,
) -> Result<OpenMerge, MergeFault>
    ensures told { IfOk result (λ found. IsMergeOfThree (map owned_seen given.now) b o t found.file (map conflict_seen found.conflicts.items) found.lost.items found.uses.items) }
    ensures fault { IfErr result (IsOrMemory (RefusesMergeOfThree (map owned_seen given.now) b o t)) }
{
    merge_over(alloc, given, b, &o, &t)
}

/// The same of two open files, over a common one, which is closed before the merged text is made.
fn merge_over(
    alloc: Global,
    given: &[OwnedLabel],
    b: Database<Paged>,
    o: &Database<Paged>,
    t: &Database<Paged>,
) -> Result<OpenMerge, MergeFault>
    ensures told { IfOk result (λ found. IsMergeOfThree (map owned_seen given.now) b o.now t.now found.file (map conflict_seen found.conflicts.items) found.lost.items found.uses.items) }
    ensures fault { IfErr result (IsOrMemory (RefusesMergeOfThree (map owned_seen given.now) b o.now t.now)) }
{
    let comments = both_comments(alloc, o, t)?;
    merge_commented(alloc, given, b, o, t, &comments)
}

/// The comments of our file and of theirs, each with the text after it.
#[derive(Drop)]
struct BothComments {
    ours: Text,
    theirs: Text,
}

/// The comments of two open files.
fn both_comments(
    alloc: Global,
    o: &Database<Paged>,
    t: &Database<Paged>,
) -> Result<BothComments, AllocError>
    ensures ours { IfOk result (λ found. OfReading o.now (λ r. found.ours ≡ comments_of r)) }
    ensures theirs { IfOk result (λ found. OfReading t.now (λ r. found.theirs ≡ comments_of r)) }
{
    let ours = comments_of(alloc, o)?;
    let theirs = comments_of(alloc, t)?;
    Ok(BothComments { ours, theirs })
}

/// The units of our file and of theirs.
#[derive(Drop)]
struct BothUnits<'a> {
    ours: FileUnits<'a>,
    theirs: FileUnits<'a>,
}

/// The units of two open files with these comments.
fn both_units<'a>(
    alloc: Global,
    o: &'a Database<Paged>,
    t: &'a Database<Paged>,
    comments: &'a BothComments,
) -> Result<BothUnits<'a>, AllocError>
    requires ours { OfReading o.now (λ r. comments.now.ours ≡ comments_of r) }
    requires theirs { OfReading t.now (λ r. comments.now.theirs ≡ comments_of r) }
    ensures ours { IfOk result (λ found. OfReading o.now (λ r. AreUnits r found.ours.units.items (spaced_of r))) }
    ensures theirs { IfOk result (λ found. OfReading t.now (λ r. AreUnits r found.theirs.units.items (spaced_of r))) }
{
    let ours = units_of(alloc, o, &comments.ours)?;
    let theirs = units_of(alloc, t, &comments.theirs)?;
    Ok(BothUnits { ours, theirs })
}

/// The same of two open files with these comments.
fn merge_commented(
    alloc: Global,
    given: &[OwnedLabel],
    b: Database<Paged>,
    o: &Database<Paged>,
    t: &Database<Paged>,
    comments: &BothComments,
) -> Result<OpenMerge, MergeFault>
    requires ours { OfReading o.now (λ r. comments.now.ours ≡ comments_of r) }
    requires theirs { OfReading t.now (λ r. comments.now.theirs ≡ comments_of r) }
    ensures told { IfOk result (λ found. IsMergeOfThree (map owned_seen given.now) b o.now t.now found.file (map conflict_seen found.conflicts.items) found.lost.items found.uses.items) }
    ensures fault { IfErr result (IsOrMemory (RefusesMergeOfThree (map owned_seen given.now) b o.now t.now)) }
{
    let units = both_units(alloc, o, t, comments)?;
    merge_apart(alloc, given, b, o, &units.ours, t, &units.theirs)
}

/// The same of two open files with these units.
fn merge_apart(
    alloc: Global,
    given: &[OwnedLabel],
    b: Database<Paged>,
    o: &Database<Paged>,
    of_ours: &FileUnits<'_>,
    t: &Database<Paged>,
    of_theirs: &FileUnits<'_>,
) -> Result<OpenMerge, MergeFault>
    requires ours { OfReading o.now (λ r. AreUnits r of_ours.now.units.items (spaced_of r)) }
    requires theirs { OfReading t.now (λ r. AreUnits r of_theirs.now.units.items (spaced_of r)) }
    ensures told { IfOk result (λ found. IsMergeOfThree (map owned_seen given.now) b o.now t.now found.file (map conflict_seen found.conflicts.items) found.lost.items found.uses.items) }
    ensures fault { IfErr result (IsOrMemory (RefusesMergeOfThree (map owned_seen given.now) b o.now t.now)) }
{
    b.opens();
    o.opens();
    t.opens();
    let found = merge_sides(alloc, given, b, o, of_ours, t, of_theirs)?;
    Ok(found)
}

/// The merge of a common file and of two open files with these units, in which the sides gave units these labels. The common file is
/// closed before the merged text is made.
fn merge_sides(
    alloc: Global,
    given: &[OwnedLabel],
    b: Database<Paged>,
    o: &Database<Paged>,
    of_ours: &FileUnits<'_>,
    t: &Database<Paged>,
    of_theirs: &FileUnits<'_>,
) -> Result<OpenMerge, MergeFault>
    ensures merged { IfOk result (λ found. OfReading found.file (λ rm. OfReading b (λ rb. (ro rt : Reading) → IsSide ro o.now of_ours.now.units.items → IsSide rt t.now of_theirs.now.units.items
        → IsMergeOf (map owned_seen given.now) rb ro rt rm (map conflict_seen found.conflicts.items)))) }
    ensures lost { IfOk result (λ found. OfReading o.now (λ ro. OfReading t.now (λ rt. OfReading found.file (λ rm. found.lost.items ≡ lost_keys (entries_of ro) (entries_of rt) (entries_of rm))))) }
    ensures uses { IfOk result (λ found. OfReading o.now (λ ro. OfReading t.now (λ rt. OfReading found.file (λ rm. found.uses.items ≡ lost_uses ro rt rm)))) }
    ensures opens { IfOk result (λ found. IsOpenable found.file) }
    ensures fault { IfErr result (IsOrMemory (λ fault. OfReading b (λ rb. (ro rt : Reading) → IsSide ro o.now of_ours.now.units.items → IsSide rt t.now of_theirs.now.units.items → RefusesMerge (map owned_seen given.now) rb ro rt fault))) }
{
    let our_units = of_ours.units.as_slice();
    let their_units = of_theirs.units.as_slice();
    let ours = Side {
        db: o,
        units: our_units,
    };
    let theirs = Side {
        db: t,
        units: their_units,
    };
    let spaces = (of_ours.space, of_theirs.space);
    let mut mixes = Vec::new(alloc);
    let settled = settle(alloc, given, &mut mixes, b, &ours, &theirs, spaces)?;
    let places = settled.places.as_slice();
    let text = merged_text(alloc, &ours, &theirs, settled.space, places)?;
    let file = opened_text(alloc, text)?;
    let lost = losses_in(alloc, &ours, &theirs, places, &file)?;
    Ok(OpenMerge {
        file,
        conflicts: settled.conflicts,
        lost: lost.keys,
        uses: lost.uses,
    })
}

/// The places of a merge, the white space before the first, and its conflicts.
#[derive(Drop)]
struct Settled<'a> {
    places: Vec<Place<'a>>,
    space: &'a [u8],
    conflicts: Vec<Conflict>,
}

/// What is settled between two sides over a common file, which is closed then, in which the sides gave units these labels, and with
/// these white spaces before their first units; in this list the entries that are merged field by field.
fn settle<'a>(
    alloc: Global,
    given: &[OwnedLabel],
    mixes: &'a mut Vec<MixFound>,
    b: Database<Paged>,
    ours: &Side<'a, Paged>,
    theirs: &Side<'a, Paged>,
    spaces: (&'a [u8], &'a [u8]),
) -> Result<Settled<'a>, AllocError>
    ensures merge { IfOk result (λ settled. OfReading b (λ rb. (ro rt : Reading) → IsSide ro ours.now.db.now ours.now.units.now → IsSide rt theirs.now.db.now theirs.now.units.now
        → is_merge (map owned_seen given.now) (units_of rb) (units_of ro) (units_of rt) (map (place_seen (units_of ro) (units_of rt)) settled.places.items) ≡ true)) }
    ensures conflicts { IfOk result (λ settled. OfReading b (λ rb. (ro rt : Reading) → IsSide ro ours.now.db.now ours.now.units.now → IsSide rt theirs.now.db.now theirs.now.units.now
        → map conflict_seen settled.conflicts.items ≡ conflicts_of (units_of rb) (units_of ro) (units_of rt) (map (place_seen (units_of ro) (units_of rt)) settled.places.items))) }
{
    let settled = settle_over(alloc, given, mixes, &b, ours, theirs, spaces)?;
    Ok(settled)
}

/// The same over an open common file.
fn settle_over<'a>(
    alloc: Global,
    given: &[OwnedLabel],
    mixes: &'a mut Vec<MixFound>,
    b: &Database<Paged>,
    ours: &Side<'a, Paged>,
    theirs: &Side<'a, Paged>,
    spaces: (&'a [u8], &'a [u8]),
) -> Result<Settled<'a>, AllocError>
    ensures merge { IfOk result (λ settled. OfReading b.now (λ rb. (ro rt : Reading) → IsSide ro ours.now.db.now ours.now.units.now → IsSide rt theirs.now.db.now theirs.now.units.now
        → is_merge (map owned_seen given.now) (units_of rb) (units_of ro) (units_of rt) (map (place_seen (units_of ro) (units_of rt)) settled.places.items) ≡ true)) }
    ensures conflicts { IfOk result (λ settled. OfReading b.now (λ rb. (ro rt : Reading) → IsSide ro ours.now.db.now ours.now.units.now → IsSide rt theirs.now.db.now theirs.now.units.now
        → map conflict_seen settled.conflicts.items ≡ conflicts_of (units_of rb) (units_of ro) (units_of rt) (map (place_seen (units_of ro) (units_of rt)) settled.places.items))) }
{
    let comments = comments_of(alloc, b)?;
    let of_base = units_of(alloc, b, &comments)?;
    let base_units = of_base.units.as_slice();
    let base = Side {
        db: b,
        units: base_units,
    };
    let places = merging_places(alloc, given, mixes, &base, ours, theirs)?;
    let conflicts = conflicts_of(
        alloc,
        base.db,
        base.units,
        ours.db,
        ours.units,
        theirs.db,
        theirs.units,
        places.as_slice(),
    )?;
    let space = chosen(of_base.space, spaces.0, spaces.1);
    Ok(Settled {
        places,
        space,
        conflicts,
    })
}

/// The places of a merge of three files, in which the sides gave units these labels, and in this list the entries that are merged field
/// by field: those that were found, if they are a merge, or else those of a merge that needs no search.
fn merging_places<'a>(
    alloc: Global,
    given: &[OwnedLabel],
    mixes: &'a mut Vec<MixFound>,
    base: &Side<'_, Paged>,
    ours: &Side<'a, Paged>,
    theirs: &Side<'a, Paged>,
) -> Result<Vec<Place<'a>>, AllocError>
    ensures { IfOk result (λ places. (rb ro rt : Reading) → IsSide rb base.now.db.now base.now.units.now → IsSide ro ours.now.db.now ours.now.units.now → IsSide rt theirs.now.db.now theirs.now.units.now
        → is_merge (map owned_seen given.now) (units_of rb) (units_of ro) (units_of rt) (map (place_seen (units_of ro) (units_of rt)) places.items) ≡ true) }
{
    let places = found_places(alloc, given, mixes, base, ours, theirs)?;
    if is_merge(alloc, given, base, ours, theirs, places.as_slice())? {
        return Ok(places);
    }
    let plain = plain_places(alloc, given, base, ours, theirs)?;
    Ok(plain)
}

/// The keys of the entries that have lost their parents, and the uses of macros that have lost their meaning.
#[derive(Drop)]
struct Lost {
    keys: Vec<Text>,
    uses: Vec<LostUse>,
}

/// What is lost in the open merged file, if its items are those that are left in a merge of these places.
fn losses_in(
    alloc: Global,
    ours: &Side<'_, Paged>,
    theirs: &Side<'_, Paged>,
    places: &[Place<'_>],
    merged: &Database<Paged>,
) -> Result<Lost, MergeFault>
    ensures keys { IfOk result (λ lost. OfReading ours.now.db.now (λ ro. OfReading theirs.now.db.now (λ rt. OfReading merged.now (λ rm. lost.keys.items ≡ lost_keys (entries_of ro) (entries_of rt) (entries_of rm))))) }
    ensures uses { IfOk result (λ lost. OfReading ours.now.db.now (λ ro. OfReading theirs.now.db.now (λ rt. OfReading merged.now (λ rm. lost.uses.items ≡ lost_uses ro rt rm)))) }
    ensures items { OnOk result (OfReading merged.now (λ rm. (ro rt : Reading) → IsSide ro ours.now.db.now ours.now.units.now → IsSide rt theirs.now.db.now theirs.now.units.now
        → merged_bodies (units_of ro) (units_of rt) (map (place_seen (units_of ro) (units_of rt)) places.now) ≡ bodies_of rm)) }
    ensures fault { IfErr result (IsOrMemory (λ fault. (ro rt : Reading) → IsSide ro ours.now.db.now ours.now.units.now → IsSide rt theirs.now.db.now theirs.now.units.now → RefusesText ro rt (map (place_seen (units_of ro) (units_of rt)) places.now) merged.now fault)) }
{
    merged.opens();
    if !has_items(alloc, merged, ours, theirs, places)? {
        return Err(MergeFault::WouldMerge);
    }
    let keys = lost_keys(alloc, ours.db, theirs.db, merged)?;
    let uses = lost_uses(alloc, ours.db, theirs.db, merged)?;
    Ok(Lost { keys, uses })
}
