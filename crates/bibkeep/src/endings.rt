//! What the program says at the end, and the status with which it ends.

ghost use Rattle.std.specs.Prelude.{◌≡◌, ◌≢◌, ◌++◌, true, false, codes};
ghost use Rattle.bib_taps.specs.Taps.{tap_inner, has_failed};
ghost use Rattle.bib_run.specs.Transfers.{Tells, WritesPrefix};
ghost use Rattle.bibkeep.specs.Causes.{IsErrorStatus, IsUsageStatus};
ghost use Rattle.bibkeep.specs.Telling.{text_in, is_at_fault, in_file, TellsOf};

use bib_command::Usage;
use bib_run::{Outcome, READ_FAULT, Tap, WRITE_FAULT, write_whole};
use bib_streams::{Heard, Shown};
use bib_words::status;
use std::io;
use std::io::{ErrorKind, IsTerminal, Stderr, Stdout, Write};

/// The message of want of memory.
const MEMORY: &[u8] = b"bibkeep: 10 Memory\n";

/// The writer that messages go to. It is of a type of its own, so that no message goes to standard output, and nothing that
/// a run prints goes to standard error.
#[derive(Drop)]
pub struct Messages<E> {
    tap: Tap<E>,
}

/// Standard error. Messages have names from files, so their control bytes are always shown.
pub fn errors(rt: &HostRuntime) -> Messages<Shown<Stderr>> {
    Messages {
        tap: Tap::new(Shown::new(rt.stderr(), true)),
    }
}

/// Standard output. Control bytes are shown if it is a terminal, or if `shows`.
pub fn output(rt: &HostRuntime, shows: bool) -> Tap<Shown<Heard<Stdout>>>
    ensures { has_failed result ≡ false }
{
    let out = rt.stdout();
    Tap::new(Shown::new(Heard::new(out), shows || out.is_terminal()))
}

/// Writes this to standard error, and returns the status. There is nowhere to report a fault of standard error.
pub fn end<E: Write>(errors: &mut Messages<E>, text: &[u8], status: u8) -> u8
    ensures status { result ≡ status }
    ensures told { Tells (text_in E.contents errors.old) (text_in E.contents errors.new) text.now (is_at_fault errors.new) }
{
    let _told = write_whole(&mut errors.tap, text);
    status
}

/// The words of the command line could not be read: memory ran out, or they are not UTF-8.
pub fn end_without_words<E: Write>(errors: &mut Messages<E>, error: &io::Error) -> u8
    ensures status { IsErrorStatus error.now 2 result }
    ensures memory { result ≡ 4 → Tells (text_in E.contents errors.old) (text_in E.contents errors.new) (codes "bibkeep: 10 Memory\n") (is_at_fault errors.new) }
    ensures told { result ≡ 2 → Tells (text_in E.contents errors.old) (text_in E.contents errors.new) (codes "error: the words of the command line are not UTF-8\n") (is_at_fault errors.new) }
{
    if error.kind() == ErrorKind::OutOfMemory {
        return end(errors, MEMORY, status::MEMORY);
    }
    end(
        errors,
        b"error: the words of the command line are not UTF-8\n",
        status::COMMAND_LINE,
    )
}

/// The file or its journal could not be opened.
pub fn end_unopened<E: Write>(errors: &mut Messages<E>, error: &io::Error) -> u8
    ensures status { IsErrorStatus error.now 3 result }
    ensures memory { result ≡ 4 → Tells (text_in E.contents errors.old) (text_in E.contents errors.new) (codes "bibkeep: 10 Memory\n") (is_at_fault errors.new) }
    ensures told { result ≡ 3 → Tells (text_in E.contents errors.old) (text_in E.contents errors.new) (codes "bibkeep: read fault\n") (is_at_fault errors.new) }
{
    if error.kind() == ErrorKind::OutOfMemory {
        return end(errors, MEMORY, status::MEMORY);
    }
    end(errors, READ_FAULT, status::FAULT)
}

/// Memory ran out.
pub fn end_without_memory<E: Write>(errors: &mut Messages<E>) -> u8
    ensures status { result ≡ 4 }
    ensures told { Tells (text_in E.contents errors.old) (text_in E.contents errors.new) (codes "bibkeep: 10 Memory\n") (is_at_fault errors.new) }
{
    end(errors, MEMORY, status::MEMORY)
}

/// The file at this path is longer than it may be.
pub fn end_long<E: Write>(errors: &mut Messages<E>, path: &[u8]) -> u8
    ensures status { result ≡ 1 }
    ensures told { Tells (text_in E.contents errors.old) (text_in E.contents errors.new) (in_file (codes "bibkeep: 9 FileTooLong at 16777216") path.now) (is_at_fault errors.new) }
{
    end_in(
        errors,
        b"bibkeep: 9 FileTooLong at 16777216",
        path,
        status::REFUSED,
    )
}

/// The file at this path could not be read.
pub fn end_unread<E: Write>(errors: &mut Messages<E>, path: &[u8]) -> u8
    ensures status { result ≡ 3 }
    ensures told { Tells (text_in E.contents errors.old) (text_in E.contents errors.new) (in_file (codes "bibkeep: read fault") path.now) (is_at_fault errors.new) }
{
    end_in(errors, b"bibkeep: read fault", path, status::FAULT)
}

/// Writes a message that names a file, and returns the status.
fn end_in<E: Write>(errors: &mut Messages<E>, text: &[u8], path: &[u8], status: u8) -> u8
    ensures status { result ≡ status }
    ensures told { Tells (text_in E.contents errors.old) (text_in E.contents errors.new) (in_file text.now path.now) (is_at_fault errors.new) }
{
    let _told = write_in(&mut errors.tap, text, path);
    status
}

/// Writes a message that names a file, up to a call that fails, and says whether none did.
fn write_in<E: Write>(errors: &mut Tap<E>, text: &[u8], path: &[u8]) -> bool
    ensures written { WritesPrefix (E.contents (tap_inner errors.old)) (E.contents (tap_inner errors.new)) (in_file text.now path.now) result }
    ensures failed { result ≡ false → has_failed errors.new ≡ true }
{
    if !write_both(errors, text, b" in ") {
        return false;
    }
    write_both(errors, path, b"\n")
}

/// Writes one text and then the other, up to a call that fails, and says whether none did.
fn write_both<E: Write>(errors: &mut Tap<E>, first: &[u8], second: &[u8]) -> bool
    ensures written { WritesPrefix (E.contents (tap_inner errors.old)) (E.contents (tap_inner errors.new)) (first.now ++ second.now) result }
    ensures failed { result ≡ false → has_failed errors.new ≡ true }
{
    if !write_whole(errors, first) {
        return false;
    }
    write_whole(errors, second)
}

/// No command has this many words.
pub fn end_unknown<E: Write>(errors: &mut Messages<E>) -> u8
    ensures status { result ≡ 2 }
    ensures told { Tells (text_in E.contents errors.old) (text_in E.contents errors.new) (codes "error: no command has such words\n") (is_at_fault errors.new) }
{
    end(
        errors,
        b"error: no command has such words\n",
        status::COMMAND_LINE,
    )
}

/// Help and the version go to standard output, and a mistake to standard error.
pub fn end_usage<O: Write, E: Write>(
    out: &mut Tap<O>,
    errors: &mut Messages<E>,
    usage: &Usage,
) -> u8
    ensures status { IsUsageStatus usage.now result }
    ensures shown { usage.now.status ≡ 0 → Tells (O.contents (tap_inner out.old)) (O.contents (tap_inner out.new)) usage.now.text (has_failed out.new) }
    ensures sound { usage.now.status ≡ 0 → result ≡ 0 → has_failed out.new ≡ has_failed out.old }
    ensures fault { usage.now.status ≡ 0 → result ≡ 3 → Tells (text_in E.contents errors.old) (text_in E.contents errors.new) (codes "bibkeep: write fault\n") (is_at_fault errors.new) }
    ensures memory { usage.now.status ≡ 4 → Tells (text_in E.contents errors.old) (text_in E.contents errors.new) (codes "bibkeep: 10 Memory\n") (is_at_fault errors.new) }
    ensures told { usage.now.status ≢ 0 → usage.now.status ≢ 4 → Tells (text_in E.contents errors.old) (text_in E.contents errors.new) usage.now.text (is_at_fault errors.new) }

    // Help and the version are not told as a mistake, and a mistake is not shown as help.
    ensures silent { result ≡ 0 → errors.new ≡ errors.old }
    ensures unshown { usage.now.status ≢ 0 → out.new ≡ out.old }
{
    match usage.status {
        status::DONE => {
            if write_whole(out, usage.text.as_slice()) {
                status::DONE
            } else {
                end(errors, WRITE_FAULT, status::FAULT)
            }
        }
        status::MEMORY => end(errors, MEMORY, status::MEMORY),
        status => end(errors, usage.text.as_slice(), status),
    }
}

/// The message of a run, and its status. There is no message if the reader of the output was gone before its end.
pub fn end_run<E: Write>(errors: &mut Messages<E>, outcome: &Outcome, is_closed: bool) -> u8
    ensures status { result ≡ outcome.now.status }
    ensures told { TellsOf outcome.now is_closed (text_in E.contents errors.old) (text_in E.contents errors.new) (is_at_fault errors.new) }
    ensures silent { is_closed ≡ true → outcome.now.status ≡ 3 → errors.new ≡ errors.old }
{
    if is_closed && outcome.status == status::FAULT {
        return status::FAULT;
    }
    if outcome.status == status::MEMORY {
        return end(errors, MEMORY, status::MEMORY);
    }
    end(errors, outcome.message.as_slice(), outcome.status)
}
