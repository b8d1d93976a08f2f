//! Says how a run over a file ended, and puts in place what it leaves.

ghost use Rattle.std.specs.Prelude.{◌≡◌, is_some};
ghost use Rattle.std.specs.Option.{option_copied};
ghost use Rattle.bibkeep.specs.Ending.{IsFinished, leaves_some};
ghost use Rattle.bibkeep.specs.Telling.{text_in, is_at_fault, TellsEnd};

use crate::endings::{Messages, end, end_run};
use bib_files::{Folder, Paths, store};
use bib_run::{Outcome, WRITE_FAULT};
use bib_text::Text;
use bib_words::status;
use std::io;
use std::io::Write;

/// The status to end with, and why storing failed if a call did.
#[derive(Drop)]
pub struct Finished {
    pub status: u8,
    pub unstored: Option<io::Error>,
}

/// Says how the run ended, puts the new file and the new journal that it leaves, if there are any, in their places, and
/// returns the status to end with. If they cannot be stored, or have no place, that is said too, and the status is 3. With
/// `is_closed`, the reader of the output was gone before its end.
pub fn finish<D: Folder, E: Write>(
    folder: &mut D,
    errors: &mut Messages<E>,
    paths: Option<&Paths>,
    outcome: &Outcome,
    is_closed: bool,
) -> Finished
    ensures finished { IsFinished (option_copied paths.entry) outcome.now result.status (D.files folder.old) (D.files folder.new) }
    ensures told { TellsEnd outcome.now is_closed result.status (text_in E.contents errors.old) (text_in E.contents errors.new) (is_at_fault errors.new) }
{
    let status = end_run(errors, outcome, is_closed);
    if !leaves_some(outcome) {
        return Finished {
            status,
            unstored: None,
        };
    }
    let Some(paths) = paths else {
        return Finished {
            status: end(errors, WRITE_FAULT, status::FAULT),
            unstored: None,
        };
    };
    let file = bytes_of(&outcome.file);
    let journal = bytes_of(&outcome.journal);
    match store(folder, paths, file, journal) {
        Ok(()) => Finished {
            status,
            unstored: None,
        },
        Err(error) => {
            let status = end(errors, WRITE_FAULT, status::FAULT);
            Finished {
                status,
                unstored: Some(error),
            }
        }
    }
}

/// Whether the outcome leaves something to be put in place.
fn leaves_some(outcome: &Outcome) -> bool
    ensures { result ≡ leaves_some outcome.now }
{
    is_there(&outcome.file) || is_there(&outcome.journal)
}

/// Whether there is a text.
fn is_there(text: &Option<Text>) -> bool
    ensures { result ≡ is_some text.now }
{
    match text {
        Some(_) => true,
        None => false,
    }
}

/// The bytes of a text, if there is one.
fn bytes_of(text: &Option<Text>) -> Option<&[u8]>
    ensures { option_copied result ≡ text.now }
{
    match text {
        Some(text) => Some(text.as_slice()),
        None => None,
    }
}
