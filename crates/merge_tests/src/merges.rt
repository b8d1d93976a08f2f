//! Merges of small files.

use bib_merge::{Change, ChangedPart, Conflict, MergeFault, OwnedLabel, merge};
use std::alloc::Global;
use std::test::Fail;

/// The entry of the common file.
const B: &[u8] = b"@misc{a,\n  t = 1,\n  u = 2\n}\n";

/// Whether the merge of these files is this one.
fn gives(alloc: Global, base: &[u8], ours: &[u8], theirs: &[u8], merged: &[u8]) -> bool {
    match merge(alloc, base, ours, theirs) {
        Ok(found) => found.text.as_slice() == merged,
        Err(_) => false,
    }
}

/// What a conflict over an entry is to tell.
#[derive(Clone, Copy)]
enum Told {
    Entry,
    Type,
    Field(&'static [u8]),
    BothAdded,
    RemovedByOurs,
    RemovedByTheirs,
}

/// Whether the part is the one that is to be told.
fn is_part(part: &ChangedPart, told: Told) -> bool {
    match (part, told) {
        (ChangedPart::Whole, Told::Entry) => true,
        (ChangedPart::TypeName, Told::Type) => true,
        (ChangedPart::Field(name), Told::Field(wanted)) => name.as_slice() == wanted,
        _ => false,
    }
}

/// Whether the parts are those that are to be told, in this order.
fn are_parts(parts: &[ChangedPart], told: &[Told]) -> bool {
    if parts.len() != told.len() {
        return false;
    }
    'parts: for k in 0..parts.len() {
        if k >= told.len() || !is_part(&parts[k], told[k]) {
            return false;
        }
    }
    true
}

/// Whether the change is the one that is to be told: these parts, or else the first of these.
fn is_change(change: &Change, told: &[Told]) -> bool {
    match (change, told.first()) {
        (Change::Changed(parts), _) => are_parts(parts.as_slice(), told),
        (Change::BothAdded, Some(Told::BothAdded)) => true,
        (Change::RemovedByOurs, Some(Told::RemovedByOurs)) => true,
        (Change::RemovedByTheirs, Some(Told::RemovedByTheirs)) => true,
        _ => false,
    }
}

/// Whether the conflict is over the entry with this key.
fn is_over(conflict: &Conflict, key: &[u8]) -> bool {
    match &conflict.label {
        OwnedLabel::Entry(other) => other.as_slice() == key,
        _ => false,
    }
}

/// Whether the merge of these files has one conflict, which is over the entry with this key and tells this, in this order.
fn tells(
    alloc: Global,
    base: &[u8],
    ours: &[u8],
    theirs: &[u8],
    key: &[u8],
    told: &[Told],
) -> bool {
    match merge(alloc, base, ours, theirs) {
        Ok(found) => {
            let conflicts = found.conflicts.as_slice();
            conflicts.len() == 1
                && is_over(&conflicts[0], key)
                && is_change(&conflicts[0].change, told)
        }
        Err(_) => false,
    }
}

/// Whether the merge of these files has one conflict, which is this one over the entry with this key.
fn has_conflict(
    alloc: Global,
    base: &[u8],
    ours: &[u8],
    theirs: &[u8],
    told: Told,
    key: &[u8],
) -> bool {
    tells(alloc, base, ours, theirs, key, &[told])
}

/// Whether the merge of these files is this one, and has no conflict.
fn merges(alloc: Global, base: &[u8], ours: &[u8], theirs: &[u8], merged: &[u8]) -> bool {
    gives(alloc, base, ours, theirs, merged) && agrees(alloc, base, ours, theirs)
}

/// Whether in the merge of these files, which has no conflict, the entry with this key has lost its parent, and no other has.
fn has_lost(alloc: Global, base: &[u8], ours: &[u8], theirs: &[u8], key: &[u8]) -> bool {
    match merge(alloc, base, ours, theirs) {
        Ok(found) => {
            let lost = found.lost.as_slice();
            found.conflicts.is_empty() && lost.len() == 1 && lost[0].as_slice() == key
        }
        Err(_) => false,
    }
}

/// Whether in the merge of these files, which has no conflict, this macro has lost its meaning in the entry with this key, and no
/// other has.
fn has_lost_use(
    alloc: Global,
    base: &[u8],
    ours: &[u8],
    theirs: &[u8],
    name: &[u8],
    key: &[u8],
) -> bool {
    match merge(alloc, base, ours, theirs) {
        Ok(found) => {
            let uses = found.uses.as_slice();
            found.conflicts.is_empty()
                && found.lost.is_empty()
                && uses.len() == 1
                && uses[0].name.as_slice() == name
                && uses[0].key.as_slice() == key
        }
        Err(_) => false,
    }
}

/// Whether each side of the merge of these files, which has no other conflict, gave the entry with this key another key: these.
fn has_keys(
    alloc: Global,
    base: &[u8],
    ours: &[u8],
    theirs: &[u8],
    key: &[u8],
    our_key: &[u8],
    their_key: &[u8],
) -> bool {
    match merge(alloc, base, ours, theirs) {
        Ok(found) => {
            let keys = found.keys.as_slice();
            found.conflicts.is_empty()
                && found.lost.is_empty()
                && keys.len() == 1
                && keys[0].key.as_slice() == key
                && keys[0].ours.as_slice() == our_key
                && keys[0].theirs.as_slice() == their_key
        }
        Err(_) => false,
    }
}

/// Whether there is no merge of these files since one of them has a fault of this kind.
fn has_fault(alloc: Global, base: &[u8], ours: &[u8], theirs: &[u8], wanted: Wanted) -> bool {
    match (merge(alloc, base, ours, theirs), wanted) {
        (Err(MergeFault::Base(fault)), Wanted::Base(kind)) => fault.kind == kind,
        (Err(MergeFault::Ours(fault)), Wanted::Ours(kind)) => fault.kind == kind,
        (Err(MergeFault::Theirs(fault)), Wanted::Theirs(kind)) => fault.kind == kind,
        _ => false,
    }
}

/// The file that is at fault, and the kind of the fault.
#[derive(Clone, Copy)]
enum Wanted {
    Base(u8),
    Ours(u8),
    Theirs(u8),
}

/// Whether the merge of these files has no conflict.
fn agrees(alloc: Global, base: &[u8], ours: &[u8], theirs: &[u8]) -> bool {
    match merge(alloc, base, ours, theirs) {
        Ok(found) => {
            found.keys.is_empty()
                && found.conflicts.is_empty()
                && found.lost.is_empty()
                && found.uses.is_empty()
        }
        Err(_) => false,
    }
}

/// Whether there is no merge of these files since text would merge.
fn would_merge(alloc: Global, base: &[u8], ours: &[u8], theirs: &[u8]) -> bool {
    match merge(alloc, base, ours, theirs) {
        Ok(_) => false,
        Err(fault) => fault == MergeFault::WouldMerge,
    }
}

#[test]
fn entries_that_both_add_are_there_once_each(rt: HostRuntime) -> Result<(), Fail> {
    let alloc = rt.alloc();
    assert!(rt;
        gives(
            alloc,
            B,
            b"@misc{a,\n  t = 1,\n  u = 2\n}\n\n@misc{o}\n",
            b"@misc{a,\n  t = 1,\n  u = 2\n}\n\n@misc{p}\n",
            b"@misc{a,\n  t = 1,\n  u = 2\n}\n\n@misc{o}\n\n@misc{p}\n"
        )
    );
    assert!(rt;
        gives(
            alloc,
            b"",
            b"@misc{a}\n",
            b"@misc{b}\n",
            b"@misc{a}\n@misc{b}\n"
        )
    );
    assert!(rt;
        gives(
            alloc,
            b"@misc{a}\n\n% books\n\n@misc{z}\n",
            b"@misc{a}\n\n@misc{o}\n\n% books\n\n@misc{z}\n",
            b"@misc{a}\n\n@misc{p}\n\n% books\n\n@misc{z}\n",
            b"@misc{a}\n\n@misc{o}\n\n@misc{p}\n\n% books\n\n@misc{z}\n"
        )
    );
    Ok(())
}

#[test]
fn a_moved_entry_has_the_field_that_the_other_side_set(rt: HostRuntime) -> Result<(), Fail> {
    let alloc = rt.alloc();
    let base = b"@misc{a,\n  t = 1,\n  u = 2\n}\n@misc{z}\n";
    let moved = b"@misc{z}\n@misc{a,\n  t = 1,\n  u = 2\n}\n";
    let set = b"@misc{a,\n  t = 1,\n  u = {y}\n}\n@misc{z}\n";
    let both = b"@misc{z}\n@misc{a,\n  t = 1,\n  u = {y}\n}\n";
    assert!(rt; gives(alloc, base, moved, set, both));
    assert!(rt; gives(alloc, base, set, moved, both));
    Ok(())
}

#[test]
fn two_values_of_one_field_are_in_conflict(rt: HostRuntime) -> Result<(), Fail> {
    let alloc = rt.alloc();
    let ours = b"@misc{a,\n  t = {x},\n  u = 2\n}\n";
    assert!(rt;
        gives(
            alloc,
            B,
            ours,
            b"@misc{a,\n  t = {y},\n  u = 2\n}\n",
            b"<<<<<<< ours\n@misc{a,\n  t = {x},\n  u = 2\n}\n=======\n@misc{a,\n  t = {y},\n  u = 2\n}\n>>>>>>> theirs\n"
        )
    );
    // the same value in other bytes is no change
    assert!(rt;
        gives(
            alloc,
            B,
            ours,
            b"@misc{a,\n    t = {1},\n  u = 2\n}\n",
            ours
        )
    );
    Ok(())
}

#[test]
fn an_entry_that_one_side_removes_goes_if_the_other_left_it(rt: HostRuntime) -> Result<(), Fail> {
    let alloc = rt.alloc();
    assert!(rt;
        gives(
            alloc,
            B,
            b"",
            b"@misc{a,\n  t = {y},\n  u = 2\n}\n",
            b"<<<<<<< ours\n=======\n@misc{a,\n  t = {y},\n  u = 2\n}\n>>>>>>> theirs\n"
        )
    );
    assert!(rt; gives(alloc, B, b"", b"@misc{a,\n    T={1},\n  u = 2\n}\n", b""));
    Ok(())
}

#[test]
fn entries_of_one_key_that_differ_are_in_conflict(rt: HostRuntime) -> Result<(), Fail> {
    let alloc = rt.alloc();
    let ours = b"@misc{a,\n  t = 1,\n  u = 2\n}\n@misc{n, t = 1}\n";
    let theirs = b"@misc{N, t = 2}\n@misc{a,\n  t = 1,\n  u = 2\n}\n";
    assert!(rt;
        gives(
            alloc,
            B,
            ours,
            theirs,
            b"@misc{a,\n  t = 1,\n  u = 2\n}\n<<<<<<< ours\n@misc{n, t = 1}\n=======\n@misc{N, t = 2}\n>>>>>>> theirs\n"
        )
    );
    assert!(rt;
        gives(
            alloc,
            B,
            ours,
            b"@misc{N, t = 1}\n@misc{a,\n  t = 1,\n  u = 2\n}\n",
            ours
        )
    );
    let spaced = b"@misc{a,\n  t = 1,\n  u = 2\n}\n@misc{n, t = {x  y}}\n";
    assert!(rt;
        gives(
            alloc,
            B,
            spaced,
            b"@Misc{N,\n  T = \"x y\"\n}\n@misc{a,\n  t = 1,\n  u = 2\n}\n",
            spaced
        )
    );
    Ok(())
}

#[test]
fn two_texts_make_no_entry(rt: HostRuntime) -> Result<(), Fail> {
    let alloc = rt.alloc();
    assert!(rt;
        would_merge(
            alloc,
            b"@misc{a}\n@misc{z}\n",
            b"@misc{a}\nx@foo\n@misc{z}\n",
            b"@misc{a}\n{y}\n@misc{z}\n"
        )
    );
    Ok(())
}

#[test]
fn a_side_that_changed_nothing_leaves_the_other(rt: HostRuntime) -> Result<(), Fail> {
    let alloc = rt.alloc();
    let other = b"% new\n@string{m = 1}\n@misc{b, t = m}\n\n@comment x\n\n@misc{}  ";
    assert!(rt; gives(alloc, B, B, other, other));
    assert!(rt; gives(alloc, B, other, B, other));
    assert!(rt; gives(alloc, B, other, other, other));
    assert!(rt; gives(alloc, other, other, b"", b""));
    Ok(())
}

#[test]
fn each_conflict_says_what_both_sides_did(rt: HostRuntime) -> Result<(), Fail> {
    let alloc = rt.alloc();
    let one = b"@misc{a, t = 1}\n";
    let two = b"@misc{a, t = 2}\n";
    let three = b"@misc{A, t = 3}\n";
    assert!(rt; has_conflict(alloc, one, two, three, Told::Field(b"t"), b"a"));
    assert!(rt; has_conflict(alloc, b"", two, three, Told::BothAdded, b"a"));
    assert!(rt; has_conflict(alloc, one, b"", three, Told::RemovedByOurs, b"A"));
    assert!(rt; has_conflict(alloc, one, two, b"", Told::RemovedByTheirs, b"a"));
    assert!(rt; agrees(alloc, one, two, one));
    assert!(rt; agrees(alloc, one, b"", b""));
    assert!(rt; agrees(alloc, b"", one, b"@misc{b}\n"));
    Ok(())
}

#[test]
fn a_fault_names_its_file_or_the_merged_one(rt: HostRuntime) -> Result<(), Fail> {
    let alloc = rt.alloc();
    let good = b"@misc{a}\n";
    assert!(rt; has_fault(alloc, b"@misc{", b"@misc{", good, Wanted::Base(1)));
    assert!(rt; has_fault(alloc, good, b"@misc{", b"}@a", Wanted::Ours(1)));
    assert!(rt; has_fault(alloc, good, good, b"@misc{a,t=}", Wanted::Theirs(5)));
    Ok(())
}

#[test]
fn a_use_that_finds_another_definition_is_told(rt: HostRuntime) -> Result<(), Fail> {
    let alloc = rt.alloc();
    let base = b"@string{x = 1}\n@misc{k, t = 1}\n";
    // we define the macro again before the entry, and they use it there
    let again = b"@string{x = 1}\n@string{x = 2}\n@misc{k, t = 1}\n";
    let used = b"@string{x = 1}\n@misc{k, t = X}\n";
    assert!(rt;
        gives(
            alloc,
            base,
            again,
            used,
            b"@string{x = 1}\n@string{x = 2}\n@misc{k, t = X}\n"
        )
    );
    assert!(rt; has_lost_use(alloc, base, again, used, b"x", b"k"));
    assert!(rt; has_lost_use(alloc, base, used, again, b"x", b"k"));
    // we remove the definition
    assert!(rt; has_lost_use(alloc, base, b"@misc{k, t = 1}\n", used, b"x", b"k"));
    // we give the macro another name, and their use follows
    assert!(rt;
        merges(
            alloc,
            base,
            b"@string{y = 1}\n@misc{k, t = 1}\n",
            used,
            b"@string{y = 1}\n@misc{k, t = y}\n"
        )
    );
    // we move the entry behind a second definition, and they use the macro there
    let before = b"@string{x = 1}\n@misc{k, t = 1}\n@string{x = 2}\n";
    let behind = b"@string{x = 1}\n@string{x = 2}\n@misc{k, t = 1}\n";
    let theirs = b"@string{x = 1}\n@misc{k, t = x}\n@string{x = 2}\n";
    assert!(rt; has_lost_use(alloc, before, behind, theirs, b"x", b"k"));
    // the use moves with its entry, if they left it
    assert!(rt;
        merges(
            alloc,
            theirs,
            b"@string{x = 1}\n@string{x = 2}\n@misc{k, t = x}\n",
            theirs,
            b"@string{x = 1}\n@string{x = 2}\n@misc{k, t = x}\n"
        )
    );
    Ok(())
}

#[test]
fn a_use_that_finds_an_added_definition_is_not_told(rt: HostRuntime) -> Result<(), Fail> {
    let alloc = rt.alloc();
    let base = b"@misc{k, t = 1}\n";
    let used = b"@misc{k, t = x, month = jan}\n";
    let defined = b"@string{x = 1}\n@string{JAN = 2}\n@misc{k, t = 1}\n";
    let merged = b"@string{x = 1}\n@string{JAN = 2}\n@misc{k, t = x, month = jan}\n";
    assert!(rt; merges(alloc, base, defined, used, merged));
    assert!(rt; merges(alloc, base, used, defined, merged));
    assert!(rt; agrees(alloc, used, used, used));
    Ok(())
}

#[test]
fn a_child_of_a_removed_parent_is_told(rt: HostRuntime) -> Result<(), Fail> {
    let alloc = rt.alloc();
    let parent = b"@misc{a}\n";
    let both = b"@misc{a}\n@misc{c, crossref = {a}}\n";
    let child = b"@misc{c, crossref = {a}}\n";
    // one side removes the parent, or gives it another key, and the other adds a child
    assert!(rt; gives(alloc, parent, b"", both, child));
    assert!(rt; has_lost(alloc, parent, b"", both, b"c"));
    assert!(rt; has_lost(alloc, parent, both, b"", b"c"));
    assert!(rt; has_lost(alloc, parent, b"@misc{k}\n", both, b"c"));
    // a child without a parent on the side that it comes from has lost nothing
    assert!(rt; agrees(alloc, parent, b"", b"@misc{a}\n@misc{c, crossref = {z}}\n"));
    assert!(rt; agrees(alloc, both, child, both));
    // a parent that the other side adds is found
    assert!(rt; agrees(alloc, b"", child, parent));
    Ok(())
}

/// The entry of the common file with another value of `t`.
const X: &[u8] = b"@misc{a,\n  t = {x},\n  u = 2\n}\n";

#[test]
fn fields_that_each_side_changed_are_merged(rt: HostRuntime) -> Result<(), Fail> {
    let alloc = rt.alloc();
    // one sets a field, and the other sets another, adds one, or drops one, which does not come back
    assert!(rt;
        merges(
            alloc,
            B,
            X,
            b"@misc{a,\n  t = 1,\n  u = {y}\n}\n",
            b"@misc{a,\n  t = {x},\n  u = {y}\n}\n"
        )
    );
    assert!(rt;
        merges(
            alloc,
            B,
            X,
            b"@misc{a,\n  t = 1,\n  u = 2,\n  v = 3\n}\n",
            b"@misc{a,\n  t = {x},\n  u = 2,\n  v = 3\n}\n"
        )
    );
    assert!(rt;
        merges(
            alloc,
            B,
            X,
            b"@misc{a,\n  t = 1\n}\n",
            b"@misc{a,\n  t = {x}\n}\n"
        )
    );
    assert!(rt;
        merges(
            alloc,
            B,
            b"@misc{a,\n  t = 1\n}\n",
            X,
            b"@misc{a,\n  t = {x}\n}\n"
        )
    );
    Ok(())
}

#[test]
fn what_says_the_same_is_no_change(rt: HostRuntime) -> Result<(), Fail> {
    let alloc = rt.alloc();
    let other = b"@misc{a,\n    t = {1},\n  u = 2\n}\n";
    assert!(rt; merges(alloc, B, X, other, X));
    assert!(rt; merges(alloc, B, other, X, b"@misc{a,\n    t = {x},\n  u = 2\n}\n"));
    Ok(())
}

#[test]
fn type_and_key_are_merged_too(rt: HostRuntime) -> Result<(), Fail> {
    let alloc = rt.alloc();
    let base = b"@misc{a, t = 1}\n";
    let ours = b"@misc{a, t = 2}\n";
    assert!(rt;
        merges(
            alloc,
            base,
            ours,
            b"@book{a, t = 1}\n",
            b"@book{a, t = 2}\n"
        )
    );
    assert!(rt;
        merges(
            alloc,
            base,
            b"@book{a, t = 1}\n",
            ours,
            b"@book{a, t = 2}\n"
        )
    );
    assert!(rt;
        merges(
            alloc,
            base,
            ours,
            b"@MISC{A, t = 1}\n",
            b"@misc{A, t = 2}\n"
        )
    );
    assert!(rt;
        merges(
            alloc,
            base,
            b"@misc{A, t = 1}\n",
            ours,
            b"@misc{A, t = 2}\n"
        )
    );
    Ok(())
}

#[test]
fn rows_go_where_they_stand_on_their_side(rt: HostRuntime) -> Result<(), Fail> {
    let alloc = rt.alloc();
    let base = b"@misc{a\n, t = 1\n, u = 2 ,\n}\n";
    let ours = b"@misc{a\n, u = 3\n, t = 1 ,\n}\n";
    // behind the key, and behind the value of the row before it
    assert!(rt;
        merges(
            alloc,
            base,
            ours,
            b"@misc{a, p = 0, q = 0\n, t = 1, r = 0, s = 0\n, u = 2 ,\n}\n",
            b"@misc{a, p = 0, q = 0\n, u = 3\n, t = 1, r = 0, s = 0 ,\n}\n"
        )
    );
    // the white space after rows that go stays
    assert!(rt;
        merges(
            alloc,
            base,
            ours,
            b"@misc{a\n, u = 2 ,\n}\n",
            b"@misc{a\n, u = 3\n ,\n}\n"
        )
    );
    assert!(rt;
        merges(
            alloc,
            b"@misc{a, t = 1 , u = 2\t}",
            b"@book{a, t = 1 , u = 2\t}",
            b"@misc{a}",
            b"@book{a \t}"
        )
    );
    Ok(())
}

#[test]
fn each_field_in_conflict_is_told(rt: HostRuntime) -> Result<(), Fail> {
    let alloc = rt.alloc();
    let y = b"@misc{a,\n  t = {y},\n  u = 2\n}\n";
    assert!(rt; tells(alloc, B, X, y, b"a", &[Told::Field(b"t")]));
    // ours in our order, then those that we dropped in theirs; the type comes first
    assert!(rt;
        tells(
            alloc,
            b"@misc{a, t = 1, u = 1, v = 1, w = 1}\n",
            b"@book{a, W = 2, u = 2}\n",
            b"@online{a, v = 3, t = 3, u = 3, w = 3}\n",
            b"a",
            &[
                Told::Type,
                Told::Field(b"w"),
                Told::Field(b"u"),
                Told::Field(b"v"),
                Told::Field(b"t")
            ]
        )
    );
    // a field that is there twice
    assert!(rt;
        tells(
            alloc,
            B,
            X,
            b"@misc{a, t = 1, T = 1}\n",
            b"a",
            &[Told::Entry]
        )
    );
    Ok(())
}

#[test]
fn a_key_in_another_case_is_no_conflict_beside_a_field_that_is_there_twice(
    rt: HostRuntime,
) -> Result<(), Fail> {
    let alloc = rt.alloc();
    assert!(rt;
        merges(
            alloc,
            b"@misc{a, t = 1}\n",
            b"@misc{a, t = 1, t = 2}\n",
            b"@misc{A, t = 1}\n",
            b"@misc{a, t = 1, t = 2}\n"
        )
    );
    assert!(rt;
        merges(
            alloc,
            b"@misc{a, t = 1, t = 1}\n",
            b"@misc{a, t = 2}\n",
            b"@misc{A, t = 2}\n",
            b"@misc{a, t = 2}\n"
        )
    );
    Ok(())
}

#[test]
fn values_of_macros_say_what_they_stand_for(rt: HostRuntime) -> Result<(), Fail> {
    let alloc = rt.alloc();
    assert!(rt;
        merges(
            alloc,
            b"@string{m = {x}}\n@misc{a, t = m, u = 1}\n",
            b"@string{m = {x}}\n@misc{a, t = m, u = 2}\n",
            b"@string{m = {x}}\n@misc{a, t = {x}, u = 1}\n",
            b"@string{m = {x}}\n@misc{a, t = m, u = 2}\n"
        )
    );
    Ok(())
}

#[test]
fn a_child_follows_its_renamed_parent(rt: HostRuntime) -> Result<(), Fail> {
    let alloc = rt.alloc();
    let renamed = b"@misc{k,\n  t = 1,\n  u = 2\n}\n";
    let child = b"@misc{a,\n  t = 1,\n  u = 2\n}\n@misc{c, crossref = {A}}\n";
    let both = b"@misc{k,\n  t = 1,\n  u = 2\n}\n@misc{c, crossref = {k}}\n";
    assert!(rt; merges(alloc, B, renamed, child, both));
    assert!(rt; merges(alloc, B, child, renamed, both));
    Ok(())
}

#[test]
fn a_use_follows_its_renamed_macro(rt: HostRuntime) -> Result<(), Fail> {
    let alloc = rt.alloc();
    let base = b"@string{m={A}}\n@misc{a,t=m}\n";
    let renamed = b"@string{n={A}}\n@misc{a,t=n}\n";
    let used = b"@string{m={A}}\n@misc{a,t=m}\n@misc{b,t=m}\n";
    let both = b"@string{n={A}}\n@misc{a,t=n}\n@misc{b,t=n}\n";
    assert!(rt; merges(alloc, base, renamed, used, both));
    assert!(rt; merges(alloc, base, used, renamed, both));
    Ok(())
}

#[test]
fn a_field_is_set_in_a_renamed_entry(rt: HostRuntime) -> Result<(), Fail> {
    let alloc = rt.alloc();
    let base = b"@misc{a, t = 1}\n@misc{b, t = 2}\n@misc{c, crossref = {a}, t = 3}\n";
    let keys = b"@misc{k1, t = 1}\n@misc{k2, t = 2}\n@misc{k3, crossref = {k1}, t = 3}\n";
    let set = b"@misc{a, t = 1}\n@misc{b, t = {x}}\n@misc{c, crossref = {a}, t = 3}\n";
    let both = b"@misc{k1, t = 1}\n@misc{k2, t = {x}}\n@misc{k3, crossref = {k1}, t = 3}\n";
    assert!(rt; merges(alloc, base, keys, set, both));
    assert!(rt; merges(alloc, base, set, keys, both));
    Ok(())
}

#[test]
fn two_new_keys_of_one_entry_are_told(rt: HostRuntime) -> Result<(), Fail> {
    let alloc = rt.alloc();
    let ours = b"@misc{o, t = 1}\n";
    let theirs = b"@misc{p, t = 1}\n@misc{c, crossref = {p}}\n";
    let both = b"@misc{o, t = 1}\n@misc{c, crossref = {o}}\n";
    assert!(rt; gives(alloc, b"@misc{a, t = 1}\n", ours, theirs, both));
    assert!(rt; has_keys(alloc, b"@misc{a, t = 1}\n", ours, theirs, b"a", b"o", b"p"));
    // the same key is no conflict, in whatever case
    assert!(rt;
        merges(
            alloc,
            b"@misc{a, t = 1}\n",
            b"@misc{o, t = 1}\n",
            b"@misc{O, t = 1}\n",
            b"@misc{o, t = 1}\n"
        )
    );
    Ok(())
}

#[test]
fn a_renamed_entry_that_the_other_side_removed_is_in_conflict(rt: HostRuntime) -> Result<(), Fail> {
    let alloc = rt.alloc();
    let base = b"@misc{a, t = 1}\n";
    let renamed = b"@misc{k, t = 1}\n";
    let by_theirs = b"<<<<<<< ours\n@misc{k, t = 1}\n=======\n>>>>>>> theirs\n";
    let by_ours = b"<<<<<<< ours\n=======\n@misc{k, t = 1}\n>>>>>>> theirs\n";
    assert!(rt; gives(alloc, base, renamed, b"", by_theirs));
    assert!(rt; gives(alloc, base, b"", renamed, by_ours));
    assert!(rt; has_conflict(alloc, base, renamed, b"", Told::RemovedByTheirs, b"k"));
    assert!(rt; has_conflict(alloc, base, b"", renamed, Told::RemovedByOurs, b"k"));
    Ok(())
}

#[test]
fn a_renamed_macro_that_the_other_side_removed_is_in_conflict(rt: HostRuntime) -> Result<(), Fail> {
    let alloc = rt.alloc();
    let base = b"@string{m={A}}\n@misc{a,t=m}\n";
    let renamed = b"@string{n={A}}\n@misc{a,t=n}\n";
    let removed = b"@misc{a,t={A}}\n";
    let both = b"<<<<<<< ours\n@string{n={A}}\n=======\n>>>>>>> theirs\n@misc{a,t={A}}\n";
    assert!(rt; gives(alloc, base, renamed, removed, both));
    Ok(())
}

#[test]
fn a_name_is_not_followed_if_it_is_taken_or_its_owner_is_unknown(
    rt: HostRuntime,
) -> Result<(), Fail> {
    let alloc = rt.alloc();
    let ours = b"@misc{k, t = 1}\n";
    // they gave the key to another entry
    assert!(rt;
        has_conflict(
            alloc,
            b"@misc{a, t = 1}\n",
            ours,
            b"@misc{a, t = 1}\n@misc{k, t = 2}\n",
            Told::BothAdded,
            b"k"
        )
    );
    // they took the entry away, and gave the key to another one
    assert!(rt;
        has_conflict(
            alloc,
            b"@misc{a, t = 1}\n",
            ours,
            b"@misc{k, t = 2}\n",
            Told::BothAdded,
            b"k"
        )
    );
    // two entries say the same: which of them got the key is not known
    assert!(rt;
        has_lost(
            alloc,
            b"@misc{a, t = 1}\n@misc{b, t = 1}\n",
            b"@misc{k, t = 1}\n@misc{l, t = 1}\n",
            b"@misc{a, t = 1}\n@misc{b, t = 1}\n@misc{c, crossref = {a}}\n",
            b"c"
        )
    );
    Ok(())
}
