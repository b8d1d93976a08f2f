//! Journals as text.

use bib_data::{Piece, is_label};
use bib_text::{Seq, Text, copied};
use journal_format::{Step, digest, pack_journal, read_journal, write_journal, write_packed};
use std::alloc::{AllocError, Global};
use std::test::Fail;

/// The journal of the file `abc` after an entry was removed from its end, in version 1.
const REMOVED: &[u8] =
    b"bibkeep 1\nba7816bf8f01cfea414140de5dae2223b00361a396177a9cb410ff61f20015ad\n1 0\n1\n3 8 0\n@misc{k}\n";

/// The journal `REMOVED` in version 2, where the step has an empty label.
const REMOVED_NOW: &[u8] =
    b"bibkeep 2\nba7816bf8f01cfea414140de5dae2223b00361a396177a9cb410ff61f20015ad\n1 0\n\n1\n3 8 0\n@misc{k}\n";

/// The journal `REMOVED_NOW` once its step is taken back.
const TAKEN_BACK: &[u8] =
    b"bibkeep 2\nba7816bf8f01cfea414140de5dae2223b00361a396177a9cb410ff61f20015ad\n0 1\n\n1\n3 8 0\n@misc{k}\n";

/// The journal of the file `abc` after two entries were removed from its end in one step with a label.
const CLEARED: &[u8] =
    b"bibkeep 2\nba7816bf8f01cfea414140de5dae2223b00361a396177a9cb410ff61f20015ad\n1 0\nclear\n1\n3 16 0\n@misc{k}@misc{l}\n";

/// The journal of the file `abc` before any change.
const FRESH: &[u8] =
    b"bibkeep 2\nba7816bf8f01cfea414140de5dae2223b00361a396177a9cb410ff61f20015ad\n0 0\n";

fn text(alloc: Global, bytes: &[u8]) -> Result<Text, AllocError> {
    copied(alloc, bytes)
}

/// A step of one piece, with this label.
fn step(
    alloc: Global,
    label: &[u8],
    place: u64,
    old: &[u8],
    new: &[u8],
) -> Result<Step, AllocError> {
    let mut pieces = Vec::new(alloc);
    pieces.push(Piece {
        place,
        old: text(alloc, old)?,
        new: text(alloc, new)?,
    })?;
    Ok(Step {
        label: text(alloc, label)?,
        pieces: Seq::from_vec(pieces),
    })
}

/// The place at which the bytes go wrong, if they do.
fn wrong_at(alloc: Global, bytes: &[u8]) -> Option<usize> {
    match read_journal(alloc, bytes) {
        Ok(_) => None,
        Err(fault) => fault.place(),
    }
}

/// The journal `REMOVED` with this byte in place of its byte at this place.
fn changed(alloc: Global, place: usize, byte: u8) -> Result<Vec<u8>, AllocError> {
    let mut bytes = REMOVED.to_vec(alloc)?;
    if place < bytes.len() {
        bytes[place] = byte;
    }
    Ok(bytes)
}

/// The bytes of the journal that is written from the contents read from these bytes.
fn written_again(alloc: Global, bytes: &[u8]) -> Result<Text, Fail> {
    let journal = read_journal(alloc, bytes)?;
    let mut undone = journal.future.into_vec();
    undone.reverse();
    let past = journal.past.as_slice();
    Ok(write_journal(alloc, journal.digest.as_slice(), past, undone.as_slice())?)
}

/// The bytes of the journal that is written from these once only the first `undos` of the past steps are past, or all if there
/// are fewer.
fn taken_back(alloc: Global, bytes: &[u8], undos: usize) -> Result<Text, Fail> {
    let journal = pack_journal(alloc, bytes)?;
    let undos = undos.min(journal.past.len());
    Ok(write_packed(alloc, journal.digest, undos, &journal.past, &journal.future)?)
}

#[test]
fn a_removed_entry_is_written(rt: HostRuntime) -> Result<(), Fail> {
    let alloc = rt.alloc();
    let mut past = Vec::new(alloc);
    past.push(step(alloc, b"", 3, b"@misc{k}", b"")?)?;
    let digest = digest(alloc, b"abc")?;
    let journal = write_journal(alloc, digest.as_slice(), past.as_slice(), &[])?;
    assert_eq!(rt; journal.as_slice().len(), 97);
    assert!(rt; journal.as_slice() == REMOVED_NOW);
    Ok(())
}

#[test]
fn a_label_is_written(rt: HostRuntime) -> Result<(), Fail> {
    let alloc = rt.alloc();
    let mut past = Vec::new(alloc);
    past.push(step(alloc, b"clear", 3, b"@misc{k}@misc{l}", b"")?)?;
    let digest = digest(alloc, b"abc")?;
    let journal = write_journal(alloc, digest.as_slice(), past.as_slice(), &[])?;
    assert_eq!(rt; journal.as_slice().len(), 111);
    assert!(rt; journal.as_slice() == CLEARED);
    assert!(rt; written_again(alloc, CLEARED)?.as_slice() == CLEARED);
    Ok(())
}

#[test]
fn version_1_is_written_again_in_version_2(rt: HostRuntime) -> Result<(), Fail> {
    let alloc = rt.alloc();
    assert_eq!(rt; REMOVED.len(), 96);
    assert!(rt; written_again(alloc, REMOVED)?.as_slice() == REMOVED_NOW);
    assert!(rt; written_again(alloc, REMOVED_NOW)?.as_slice() == REMOVED_NOW);
    Ok(())
}

#[test]
fn labels_have_no_control_bytes(rt: HostRuntime) -> Result<(), Fail> {
    let alloc = rt.alloc();
    let mut long = Vec::new(alloc);
    long.resize(255, b'x')?;
    assert!(rt; is_label(b"") && is_label(b" ~\x80\xff") && is_label(long.as_slice()));
    long.push(b'x')?;
    assert!(rt; !is_label(long.as_slice()));
    assert!(rt; !is_label(b"\t") && !is_label(b"\x1f") && !is_label(b"\x7f"));
    Ok(())
}

#[test]
fn nothing_done_is_written(rt: HostRuntime) -> Result<(), Fail> {
    let alloc = rt.alloc();
    let digest = digest(alloc, b"abc")?;
    let journal = write_journal(alloc, digest.as_slice(), &[], &[])?;
    assert_eq!(rt; journal.as_slice().len(), 79);
    assert!(rt; journal.as_slice() == FRESH);
    Ok(())
}

#[test]
fn the_undone_step_that_is_next_stands_first(rt: HostRuntime) -> Result<(), Fail> {
    let alloc = rt.alloc();
    let mut undone = Vec::new(alloc);
    undone.push(step(alloc, b"l", 1, b"", b"last")?)?;
    undone.push(step(alloc, b"", 0, b"x", b"")?)?;
    let digest = digest(alloc, b"abc")?;
    let journal = write_journal(alloc, digest.as_slice(), &[], undone.as_slice())?;
    let steps: &[u8] = b"0 2\n\n1\n0 1 0\nx\nl\n1\n1 0 4\nlast\n";
    assert!(rt; journal.as_slice().ends_with(steps));
    let again = read_journal(alloc, journal.as_slice())?;
    assert_eq!(rt;
        (again.past.as_slice().len(), again.future.as_slice().len()),
        (0, 2)
    );
    assert!(rt; written_again(alloc, journal.as_slice())?.as_slice() == journal.as_slice());
    Ok(())
}

#[test]
fn a_step_that_is_taken_back_stays_where_it_is(rt: HostRuntime) -> Result<(), Fail> {
    let alloc = rt.alloc();
    let mut past = Vec::new(alloc);
    past.push(step(alloc, b"", 0, b"x", b"")?)?;
    past.push(step(alloc, b"l", 1, b"", b"last")?)?;
    let digest = digest(alloc, b"abc")?;
    let journal = write_journal(alloc, digest.as_slice(), past.as_slice(), &[])?;
    let journal = taken_back(alloc, journal.as_slice(), 1)?;
    let steps: &[u8] = b"1 1\n\n1\n0 1 0\nx\nl\n1\n1 0 4\nlast\n";
    assert!(rt; journal.as_slice().ends_with(steps));
    assert!(rt; taken_back(alloc, journal.as_slice(), 1)?.as_slice() == journal.as_slice());
    Ok(())
}

#[test]
fn a_step_of_version_1_is_taken_back_in_version_2(rt: HostRuntime) -> Result<(), Fail> {
    let alloc = rt.alloc();
    assert!(rt; taken_back(alloc, REMOVED, 0)?.as_slice() == TAKEN_BACK);
    assert!(rt; taken_back(alloc, REMOVED_NOW, 0)?.as_slice() == TAKEN_BACK);
    assert!(rt; taken_back(alloc, REMOVED, 1)?.as_slice() == REMOVED_NOW);
    Ok(())
}

#[test]
fn a_journal_that_is_cut_goes_wrong_at_its_end(rt: HostRuntime) -> Result<(), Fail> {
    let alloc = rt.alloc();
    for len in 0..REMOVED.len() {
        assert_eq!(rt; wrong_at(alloc, REMOVED.split_at(len).0), Some(len));
    }
    for len in 0..CLEARED.len() {
        assert_eq!(rt; wrong_at(alloc, CLEARED.split_at(len).0), Some(len));
    }
    Ok(())
}

#[test]
fn forged_journals_go_wrong_at_their_places(rt: HostRuntime) -> Result<(), Fail> {
    let alloc = rt.alloc();
    // another version, a digest with a capital, no line feed at the end, another place
    assert_eq!(rt;
        wrong_at(alloc, changed(alloc, 8, b'3')?.as_slice()),
        Some(0)
    );
    // version 2; the second line after the counts is no number of pieces
    assert_eq!(rt;
        wrong_at(alloc, changed(alloc, 8, b'2')?.as_slice()),
        Some(81)
    );
    assert_eq!(rt;
        wrong_at(alloc, changed(alloc, 10, b'B')?.as_slice()),
        Some(10)
    );
    assert_eq!(rt;
        wrong_at(alloc, changed(alloc, 95, b'x')?.as_slice()),
        Some(95)
    );
    assert_eq!(rt; wrong_at(alloc, changed(alloc, 81, b'0')?.as_slice()), None);
    let mut longer = REMOVED.to_vec(alloc)?;
    longer.push(b'x')?;
    assert_eq!(rt; wrong_at(alloc, longer.as_slice()), Some(96));
    Ok(())
}

#[test]
fn forged_numbers_go_wrong_at_their_lines(rt: HostRuntime) -> Result<(), Fail> {
    let alloc = rt.alloc();
    let head = REMOVED.split_at(75).0;
    let tails: [(&[u8], Option<usize>); 9] = [
        (b"01 0\n1\n3 8 0\n@misc{k}\n", Some(75)),
        (b"65536 0\n1\n3 8 0\n@misc{k}\n", Some(75)),
        (b"1 0 \n1\n3 8 0\n@misc{k}\n", Some(75)),
        (b"1 0\n1\n16777217 8 0\n@misc{k}\n", Some(81)),
        (b"1 0\n1\n16777216 8 0\n@misc{k}\n", None),
        (b"1 0\n+1\n3 8 0\n@misc{k}\n", Some(79)),
        (b"1 0\n2\n3 1 0\na\n3 1 0\na\n", Some(89)),
        (b"1 0\n2\n3 1 0\na\n4 1 0\na\n", None),
        (b"0 1\n0\n", None),
    ];
    for (tail, place) in tails {
        let mut bytes = head.to_vec(alloc)?;
        bytes.extend_from_slice(tail)?;
        assert_eq!(rt; wrong_at(alloc, bytes.as_slice()), place);
    }
    Ok(())
}

#[test]
fn forged_labels_go_wrong_at_their_lines(rt: HostRuntime) -> Result<(), Fail> {
    let alloc = rt.alloc();
    let head = FRESH.split_at(75).0;
    let tails: [(&[u8], Option<usize>); 5] = [
        (b"1 0\ntwo words\n1\n3 1 0\na\n", None),
        (b"1 0\na\tb\n1\n3 1 0\na\n", Some(79)),
        (b"1 0\n\x7f\n1\n3 1 0\na\n", Some(79)),
        (b"1 0\n1\n3 1 0\na\n", Some(81)),
        (b"2 0\n\n0\n\t\n0\n", Some(82)),
    ];
    for (tail, place) in tails {
        let mut bytes = head.to_vec(alloc)?;
        bytes.extend_from_slice(tail)?;
        assert_eq!(rt; wrong_at(alloc, bytes.as_slice()), place);
    }
    Ok(())
}

#[test]
fn steps_that_are_too_long_are_told_first(rt: HostRuntime) -> Result<(), Fail> {
    let alloc = rt.alloc();
    let mut bytes = FRESH.to_vec(alloc)?;
    bytes.resize(79 + 67_174_399, b'x')?;
    assert_eq!(rt; wrong_at(alloc, bytes.as_slice()), Some(79));
    bytes.push(b'x')?;
    assert_eq!(rt; wrong_at(alloc, bytes.as_slice()), Some(79 + 67_174_399));
    bytes[8] = b'1';
    assert_eq!(rt; wrong_at(alloc, bytes.as_slice()), Some(79 + 67_108_864));
    Ok(())
}
