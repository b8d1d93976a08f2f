//! Reading the sources of a command: its file, its journal and its input.

ghost use Rattle.std.specs.Prelude.{◌≡◌, ◌≢◌, true, IfOk, IfErr, Err, option_map};
ghost use Rattle.bib_words.specs.Command.{ReadsJournal, TakesInput};
ghost use Rattle.bib_taps.specs.Taps.{has_failed};
ghost use Rattle.bib_run.specs.Lent.{held_before, held_after};
ghost use Rattle.bib_run.specs.Views.{view_of, held, has_any_failed};
ghost use Rattle.bib_run.specs.Sources.{sources, WasRead, HasInput, HasJournal, HasRead, HasFailed, AreSound, EndsUnread, Keeps};
ghost use Rattle.bib_run.specs.declared.source.SourceFault.TheVariants.{Failed, OutOfMemory};

use crate::Tap;
use crate::messages::READ_FAULT;
use crate::source::{SourceFault, read_up_to};
use bib_answers::{Outcome, outcome_of};
use bib_scan::FILE_LIMIT;
use bib_text::{Text, copied};
use bib_words::{Command, status};
use journal_format::JOURNAL_LIMIT;
use std::alloc::Global;
use std::io::Read;

/// What was read of a command's file, of its journal if it has one and reads it, and of its input if it takes input.
#[derive(Drop)]
pub struct Sources {
    pub file: Text,
    pub journal: Option<Text>,
    pub input: Text,
}

/// Reads the sources of a command in order, each to its end or to one byte past its limit; or says how the run ends if
/// one cannot be read. It makes interrupted calls again, up to 100 times on each tap. A command that does not read its
/// journal leaves it alone, and one that takes no input leaves the input alone.
pub fn read_sources<F: Read, J: Read, I: Read>(
    alloc: Global,
    command: &Command,
    file: &mut Tap<F>,
    journal: Option<&mut Tap<J>>,
    input: &mut Tap<I>,
) -> Result<Sources, Outcome>
    ensures read { IfOk result (HasRead command.now
        (sources (view_of F.remaining file.old) (option_map (view_of J.remaining) (held_before journal.entry)) (view_of I.remaining input.old))
        (sources (view_of F.remaining file.new) (option_map (view_of J.remaining) (held_after journal.exit)) (view_of I.remaining input.new))) }
    ensures unread { IfErr result (EndsUnread
        (sources (view_of F.remaining file.old) (option_map (view_of J.remaining) (held_before journal.entry)) (view_of I.remaining input.old))
        (sources (view_of F.remaining file.new) (option_map (view_of J.remaining) (held_after journal.exit)) (view_of I.remaining input.new))) }
    ensures journal { ¬ ReadsJournal command.now → held_after journal.exit ≡ held_before journal.entry }
    ensures input { ¬ TakesInput command.now → input.new ≡ input.old }
{
    match journal {
        Some(journal) => read_beside(alloc, command, file, true, journal, input),
        None => {
            let nothing = &mut Tap::new(b"".as_slice());
            read_beside(alloc, command, file, false, nothing, input)
        }
    }
}

/// Reads the sources of a command. If there is no journal, no call is made on the tap in its place.
pub(crate) fn read_beside<F: Read, J: Read, I: Read>(
    alloc: Global,
    command: &Command,
    file: &mut Tap<F>,
    has_journal: bool,
    journal: &mut Tap<J>,
    input: &mut Tap<I>,
) -> Result<Sources, Outcome>
    ensures read { IfOk result (HasRead command.now
        (sources (view_of F.remaining file.old) (held has_journal (view_of J.remaining journal.old)) (view_of I.remaining input.old))
        (sources (view_of F.remaining file.new) (held has_journal (view_of J.remaining journal.new)) (view_of I.remaining input.new))) }
    ensures unread { IfErr result (EndsUnread
        (sources (view_of F.remaining file.old) (held has_journal (view_of J.remaining journal.old)) (view_of I.remaining input.old))
        (sources (view_of F.remaining file.new) (held has_journal (view_of J.remaining journal.new)) (view_of I.remaining input.new))) }
    ensures journal { ¬ ReadsJournal command.now → journal.new ≡ journal.old }
    ensures input { ¬ TakesInput command.now → input.new ≡ input.old }
{
    // the message is there before a source can fail
    let Ok(read_fault) = copied(alloc, READ_FAULT) else {
        return Err(outcome_of(Text::empty(alloc), status::MEMORY));
    };
    match read_each(alloc, command, file, has_journal, journal, input) {
        Ok(sources) => Ok(sources),
        Err(SourceFault::Failed) => Err(outcome_of(read_fault, status::FAULT)),
        Err(SourceFault::OutOfMemory) => Err(outcome_of(Text::empty(alloc), status::MEMORY)),
    }
}

/// Reads the sources of a command in order, up to the first that cannot be read.
fn read_each<F: Read, J: Read, I: Read>(
    alloc: Global,
    command: &Command,
    file: &mut Tap<F>,
    has_journal: bool,
    journal: &mut Tap<J>,
    input: &mut Tap<I>,
) -> Result<Sources, SourceFault>
    ensures ok { IfOk result (HasRead command.now
        (sources (view_of F.remaining file.old) (held has_journal (view_of J.remaining journal.old)) (view_of I.remaining input.old))
        (sources (view_of F.remaining file.new) (held has_journal (view_of J.remaining journal.new)) (view_of I.remaining input.new))) }
    ensures failed { result ≡ Err Failed → HasFailed
        (sources (view_of F.remaining file.old) (held has_journal (view_of J.remaining journal.old)) (view_of I.remaining input.old))
        (sources (view_of F.remaining file.new) (held has_journal (view_of J.remaining journal.new)) (view_of I.remaining input.new)) }
    ensures memory { result ≡ Err OutOfMemory → AreSound
        (sources (view_of F.remaining file.old) (held has_journal (view_of J.remaining journal.old)) (view_of I.remaining input.old))
        (sources (view_of F.remaining file.new) (held has_journal (view_of J.remaining journal.new)) (view_of I.remaining input.new)) }
    ensures journal { ¬ ReadsJournal command.now → journal.new ≡ journal.old }
    ensures input { ¬ TakesInput command.now → input.new ≡ input.old }
{
    let file = match read_front(alloc, file) {
        Ok(file) => file,
        Err(fault) => return Err(fault),
    };
    let journal = match read_journal(alloc, command, has_journal, journal) {
        Ok(journal) => journal,
        Err(fault) => return Err(fault),
    };
    let input = match read_input(alloc, command, input) {
        Ok(input) => input,
        Err(fault) => return Err(fault),
    };
    Ok(Sources {
        file,
        journal,
        input,
    })
}

/// The journal of a command, if it has one and reads it.
fn read_journal<J: Read>(
    alloc: Global,
    command: &Command,
    has_journal: bool,
    journal: &mut Tap<J>,
) -> Result<Option<Text>, SourceFault>
    ensures ok { IfOk result (HasJournal command.now (held has_journal (view_of J.remaining journal.old)) (held has_journal (view_of J.remaining journal.new))) }
    ensures failed { result ≡ Err Failed → has_any_failed (held has_journal (view_of J.remaining journal.new)) ≡ true }
    ensures sound { result ≢ Err Failed → has_failed journal.new ≡ has_failed journal.old }
    ensures unread { ¬ ReadsJournal command.now → journal.new ≡ journal.old }
{
    if !has_journal {
        return Ok(None);
    }
    if !command.reads_journal() {
        return Ok(None);
    }
    match read_up_to(alloc, journal, JOURNAL_LIMIT + 1) {
        Ok(bytes) => Ok(Some(Text::from_vec(bytes))),
        Err(SourceFault::Failed) => Err(SourceFault::Failed),
        Err(SourceFault::OutOfMemory) => Err(SourceFault::OutOfMemory),
    }
}

/// The input of a command, if it takes input.
fn read_input<I: Read>(
    alloc: Global,
    command: &Command,
    input: &mut Tap<I>,
) -> Result<Text, SourceFault>
    ensures ok { IfOk result (Keeps (HasInput command.now (view_of I.remaining input.old) (view_of I.remaining input.new))) }
    ensures failed { result ≡ Err Failed → has_failed input.new ≡ true }
    ensures memory { result ≡ Err OutOfMemory → has_failed input.new ≡ has_failed input.old }
    ensures unread { ¬ TakesInput command.now → input.new ≡ input.old }
{
    if command.takes_input() {
        return read_front(alloc, input);
    }
    Ok(Text::empty(alloc))
}

/// The bytes of a source up to one byte past the limit.
fn read_front<R: Read>(alloc: Global, source: &mut Tap<R>) -> Result<Text, SourceFault>
    ensures ok { IfOk result (Keeps (WasRead (view_of R.remaining source.old) (view_of R.remaining source.new))) }
    ensures failed { result ≡ Err Failed → has_failed source.new ≡ true }
    ensures memory { result ≡ Err OutOfMemory → has_failed source.new ≡ has_failed source.old }
{
    match read_up_to(alloc, source, FILE_LIMIT + 1) {
        Ok(bytes) => Ok(Text::from_vec(bytes)),
        Err(fault) => Err(fault),
    }
}
