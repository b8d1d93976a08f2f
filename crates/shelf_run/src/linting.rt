//! `lint` over several files.

ghost use Rattle.std.specs.Prelude.{◌≡◌, ◌<◌, List, map, IfOk, IfErr, OnOk};
ghost use Rattle.bib_spec.specs.Text.{Text as FileText};
ghost use Rattle.bib_shelf.specs.Joined.{AreJoined, files_in};
ghost use Rattle.bib_shelf.specs.Faults.{AreAccepted, RefusesShelf};
ghost use Rattle.shelf_run.specs.Answers.{LintsShelf};

use crate::messages::name_of;
use aux_text::AuxKeys;
use bib_answers::{Answer, NamedFiles, lint_fault, lint_in};
use bib_scan::ReadFault;
use bib_shelf::{Joined, Shelf, ShelfFault, file_in};
use bib_store::Paged;
use bib_text::Text;
use std::alloc::{AllocError, Global};

/// What is wrong with files with these names, read as one, and which of the keys that these aux files cite no entry has. Findings
/// with one of the ignored codes are left out.
pub fn answer_lint(
    alloc: Global,
    names: &[Text],
    joined: &Joined,
    ignored: &[Text],
    cited: &[AuxKeys],
) -> Result<Answer, AllocError>
    requires { (files : List FileText) × AreJoined files joined.now }
    ensures { IfOk result (λ answer. (files : List FileText) → AreJoined files joined.now → LintsShelf ignored.now cited.now names.now files answer) }
{
    let (text, spans) = (joined.text.as_slice(), joined.spans.as_slice());
    match open_beside(alloc, joined) {
        Ok(shelf) => {
            let db = shelf.database();
            let files = NamedFiles::new(names, db, shelf.spans());
            lint_in(alloc, db, &files, ignored, cited)
        }
        Err(fault) => {
            let read = ReadFault {
                kind: fault.kind,
                place: fault.place,
            };
            if fault.is_memory() {
                return Err(AllocError);
            }
            lint_fault(
                alloc,
                name_of(names, fault.file),
                file_in(text, spans, fault.file),
                read,
            )
        }
    }
}

/// Opens the files as one, and keeps the text in which they are joined.
fn open_beside(alloc: Global, joined: &Joined) -> Result<Shelf<Paged>, ShelfFault>
    requires { (files : List FileText) × AreJoined files joined.now }
    ensures opened { IfOk result (λ shelf. shelf ≡ joined.now) }
    ensures files { OnOk result ((files : List FileText) → AreJoined files joined.now → AreAccepted files) }
    ensures fault { IfErr result (λ fault. (files : List FileText) → AreJoined files joined.now → RefusesShelf files fault.kind fault.place fault.file) }
{
    let files = files_of(alloc, joined)?;
    Shelf::open(alloc, files.as_slice(), Paged::new(alloc))
}

/// The bytes of each file.
fn files_of(alloc: Global, joined: &Joined) -> Result<Vec<&[u8]>, AllocError>
    requires { (files : List FileText) × AreJoined files joined.now }
    ensures { IfOk result (λ files. map (λ file. file.now) files.items ≡ files_in joined.now.spans joined.now.text) }
{
    let (text, spans) = (joined.text.as_slice(), joined.spans.as_slice());
    let mut files = Vec::with_capacity(alloc, spans.len())?;
    'files: for i in 0..spans.len() {
        files.push(file_in(text, spans, i))?;
    }
    Ok(files)
}
