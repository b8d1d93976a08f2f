//! `newkeys`: the keys that `regenerate` gives.

ghost use Rattle.std.specs.Prelude.{◌≡◌, ◌++◌, codes, IfOk, OnOk};
ghost use Rattle.bib_spec.specs.Records.{entries_of, keys_of, IsDepth};
ghost use Rattle.bib_store.specs.Readings.{OfReading};
ghost use Rattle.bib_answers.specs.Opened.{AnswersFile};
ghost use Rattle.bib_answers.specs.NewKeys.{new_key_lines, newkeys_answer};

use crate::answers::{Answer, done};
use crate::lines::add_all;
use crate::opening::answer_file;
use bib_keys::made_keys;
use bib_store::{Database, Paged};
use bib_text::Text;
use std::alloc::{AllocError, Global};

/// For each entry its key and the key that `regenerate` at this depth would give it. The file stays as it is.
pub fn answer_newkeys(alloc: Global, file: Vec<u8>, depth: u8) -> Result<Answer, AllocError>
    requires { IsDepth depth }
    ensures { IfOk result (AnswersFile (newkeys_answer depth) file.items) }
{
    answer_file(alloc, file, |db| newkeys_in(alloc, db, depth))
}

/// What `answer_newkeys` answers, for a file that is open. It takes time and memory for the records of all entries.
pub fn newkeys_in(alloc: Global, db: &Database<Paged>, depth: u8) -> Result<Answer, AllocError>
    requires { IsDepth depth }
    ensures { IfOk result (λ answer. OfReading db.now (λ r. answer ≡ newkeys_answer depth r)) }
{
    let keys = made_keys(alloc, db, depth)?;
    Ok(done(alloc, lines_of(alloc, db, keys.as_slice())?))
}

/// A line for each entry, with its key and the new one.
fn lines_of(alloc: Global, db: &Database<Paged>, keys: &[Text]) -> Result<Text, AllocError>
    ensures { IfOk result (λ text. OfReading db.now (λ r. text ≡ new_key_lines (keys_of (entries_of r)) keys.now)) }
{
    let mut out = Vec::new(alloc);
    'line: for n in 0..keys.len().min(db.entry_count()) {
        add_new_key(&mut out, db.entry(n).key(), keys[n].as_slice())?;
    }
    Ok(Text::from_vec(out))
}

fn add_new_key(out: &mut Vec<u8>, old: &[u8], new: &[u8]) -> Result<(), AllocError>
    ensures { OnOk result (out.new.items ≡ out.old.items ++ (old.now ++ (codes "\t" ++ (new.now ++ codes "\n")))) }
{
    add_all(out, &[old, b"\t", new, b"\n"])
}
