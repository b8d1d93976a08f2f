//! The functions that C can call. A handle leads to nothing before `bib_c_new` and after `bib_c_free`, and to a state between them.

ghost use Rattle.std.specs.Prelude.{◌≡◌, ◌≢◌, Some, None, IsTrue, IsFalse};
ghost use Rattle.bib_data.specs.declared.request.Request.TheVariants.{Undo, Redo};
ghost use Rattle.bib_state.specs.Calls.{undo_count, redo_count};
ghost use Rattle.bib_c.specs.Asking.{asked_of, asked_among};
ghost use Rattle.bib_c.specs.Words.{words_of};
ghost use Rattle.bib_c.specs.Texts.{text_given, IsLength, IsCopy};
ghost use Rattle.bib_c.specs.Calls.{Changes, Holds, fresh, forgotten, journal_if, Opens, Edits, RunsScript, BeginsStep, EndsStep, TurnsSteps, SavesFile, SavesBoth, TellsEntry, TellsKeys, Runs, RunsFiles};

use crate::asking::Options;
use crate::calls;
use crate::files::run_files;
use crate::handle::Handle;
use crate::report::Report;
use crate::texts::{copy_given, len_given};
use bib_state::State;
use std::alloc::Global;

/// Makes a state without a session. It says whether there was memory for it.
#[unsafe(no_mangle)]
pub extern "C" fn bib_c_new(alloc: Global, handle: &mut Handle) -> bool
    requires { handle.old.state ≡ None }
    ensures made { IsTrue result → handle.new.state ≡ Some fresh }
    ensures memory { IsFalse result → handle.new.state ≡ None }
{
    match Box::new(alloc, State::new(alloc)) {
        Ok(state) => {
            *handle = Handle::of(state);
            true
        }
        Err(_) => false,
    }
}

/// Frees the state with all that it has.
#[unsafe(no_mangle)]
pub extern "C" fn bib_c_free(alloc: Global, handle: &mut Handle)
    requires { handle.old.state ≢ None }
    ensures { handle.new.state ≡ None }
{
    drop(handle.take(alloc));
}

/// Opens a session over a copy of these bytes, with the steps that the journal says, if there is one.
#[unsafe(no_mangle)]
pub extern "C" fn bib_c_open(
    alloc: Global,
    handle: &mut Handle,
    file: &[u8],
    has_journal: bool,
    journal: &[u8],
    report: &mut Report,
)
    requires { handle.old.state ≢ None }
    ensures { Changes (Opens file.now (journal_if has_journal journal.now) report.new) handle.old.state handle.new.state }
{
    let mut state = handle.take(alloc);
    *report = calls::open(alloc, &mut state, file, has_journal, journal);
    *handle = Handle::of(state);
}

/// Closes the session, if one is open, and forgets the texts that the last call gave.
#[unsafe(no_mangle)]
pub extern "C" fn bib_c_close(alloc: Global, handle: &mut Handle)
    requires { handle.old.state ≢ None }
    ensures { handle.new.state ≡ Some fresh }
{
    let mut state = handle.take(alloc);
    state.close(alloc);
    *handle = Handle::of(state);
}

/// Forgets the texts that the last call gave.
#[unsafe(no_mangle)]
pub extern "C" fn bib_c_forget(alloc: Global, handle: &mut Handle)
    requires { handle.old.state ≢ None }
    ensures { Changes (λ old new. new ≡ forgotten old) handle.old.state handle.new.state }
{
    let mut state = handle.take(alloc);
    state.forget(alloc);
    *handle = Handle::of(state);
}

/// Makes the edit that these words say: one text, and the length of each word.
#[unsafe(no_mangle)]
pub extern "C" fn bib_c_edit(
    alloc: Global,
    handle: &mut Handle,
    words: &[u8],
    lens: &[usize],
    report: &mut Report,
)
    requires { handle.old.state ≢ None }
    ensures { Changes (Edits words.now lens.now report.new) handle.old.state handle.new.state }
{
    let mut state = handle.take(alloc);
    *report = calls::edit(alloc, &mut state, words, lens);
    *handle = Handle::of(state);
}

/// Does what the lines of a script say, up to the first that is refused.
#[unsafe(no_mangle)]
pub extern "C" fn bib_c_script(
    alloc: Global,
    handle: &mut Handle,
    script: &[u8],
    report: &mut Report,
)
    requires { handle.old.state ≢ None }
    ensures { Changes (RunsScript script.now report.new) handle.old.state handle.new.state }
{
    let mut state = handle.take(alloc);
    *report = calls::script(alloc, &mut state, script);
    *handle = Handle::of(state);
}

/// Begins a step of several edits with this label.
#[unsafe(no_mangle)]
pub extern "C" fn bib_c_begin(alloc: Global, handle: &mut Handle, label: &[u8], report: &mut Report)
    requires { handle.old.state ≢ None }
    ensures { Changes (BeginsStep label.now report.new) handle.old.state handle.new.state }
{
    let mut state = handle.take(alloc);
    *report = calls::begin(&mut state, label);
    *handle = Handle::of(state);
}

/// Ends the step that is open.
#[unsafe(no_mangle)]
pub extern "C" fn bib_c_end(alloc: Global, handle: &mut Handle, report: &mut Report)
    requires { handle.old.state ≢ None }
    ensures { Changes (EndsStep report.new) handle.old.state handle.new.state }
{
    let mut state = handle.take(alloc);
    *report = calls::end(&mut state);
    *handle = Handle::of(state);
}

/// Takes `times` steps back, up to the first refusal.
#[unsafe(no_mangle)]
pub extern "C" fn bib_c_undo(alloc: Global, handle: &mut Handle, times: usize, report: &mut Report)
    requires { handle.old.state ≢ None }
    ensures { Changes (TurnsSteps Undo times report.new) handle.old.state handle.new.state }
{
    let mut state = handle.take(alloc);
    *report = calls::undo(&mut state, times);
    *handle = Handle::of(state);
}

/// Makes `times` steps again that were taken back, up to the first refusal.
#[unsafe(no_mangle)]
pub extern "C" fn bib_c_redo(alloc: Global, handle: &mut Handle, times: usize, report: &mut Report)
    requires { handle.old.state ≢ None }
    ensures { Changes (TurnsSteps Redo times report.new) handle.old.state handle.new.state }
{
    let mut state = handle.take(alloc);
    *report = calls::redo(&mut state, times);
    *handle = Handle::of(state);
}

/// How many steps can be taken back.
#[unsafe(no_mangle)]
pub extern "C" fn bib_c_undo_count(alloc: Global, handle: &mut Handle) -> usize
    requires { handle.old.state ≢ None }
    ensures count { Holds (λ state. result ≡ undo_count state.session) handle.old.state }
    ensures same { handle.new.state ≡ handle.old.state }
{
    let state = handle.take(alloc);
    let count = state.undo_count();
    *handle = Handle::of(state);
    count
}

/// How many steps can be made again.
#[unsafe(no_mangle)]
pub extern "C" fn bib_c_redo_count(alloc: Global, handle: &mut Handle) -> usize
    requires { handle.old.state ≢ None }
    ensures count { Holds (λ state. result ≡ redo_count state.session) handle.old.state }
    ensures same { handle.new.state ≡ handle.old.state }
{
    let state = handle.take(alloc);
    let count = state.redo_count();
    *handle = Handle::of(state);
    count
}

/// Gives the present file.
#[unsafe(no_mangle)]
pub extern "C" fn bib_c_file(alloc: Global, handle: &mut Handle, report: &mut Report)
    requires { handle.old.state ≢ None }
    ensures { Changes (SavesFile report.new) handle.old.state handle.new.state }
{
    let mut state = handle.take(alloc);
    *report = calls::file(alloc, &mut state);
    *handle = Handle::of(state);
}

/// Gives the present file and its journal.
#[unsafe(no_mangle)]
pub extern "C" fn bib_c_save(alloc: Global, handle: &mut Handle, report: &mut Report)
    requires { handle.old.state ≢ None }
    ensures { Changes (SavesBoth report.new) handle.old.state handle.new.state }
{
    let mut state = handle.take(alloc);
    *report = calls::save(alloc, &mut state);
    *handle = Handle::of(state);
}

/// Gives the keys of all entries in order, a line feed after each.
#[unsafe(no_mangle)]
pub extern "C" fn bib_c_keys(alloc: Global, handle: &mut Handle, report: &mut Report)
    requires { handle.old.state ≢ None }
    ensures { Changes (TellsKeys report.new) handle.old.state handle.new.state }
{
    let mut state = handle.take(alloc);
    *report = calls::keys(alloc, &mut state);
    *handle = Handle::of(state);
}

/// Gives the line of JSON of the first entry with this key, with what it inherits from up to `depth` parents, from 1 to 8.
#[unsafe(no_mangle)]
pub extern "C" fn bib_c_entry(
    alloc: Global,
    handle: &mut Handle,
    key: &[u8],
    depth: u8,
    report: &mut Report,
)
    requires { handle.old.state ≢ None }
    ensures { Changes (TellsEntry key.now depth report.new) handle.old.state handle.new.state }
{
    let mut state = handle.take(alloc);
    *report = calls::entry(alloc, &mut state, key, depth);
    *handle = Handle::of(state);
}

/// Runs a command over these bytes, and gives its exit status: 2 if the program has no such command. Its arguments, the file's
/// name first, and its aux files are each one text, and the length of each word.
#[unsafe(no_mangle)]
pub extern "C" fn bib_c_run(
    alloc: Global,
    handle: &mut Handle,
    name: &[u8],
    words: &[u8],
    lens: &[usize],
    aux: &[u8],
    aux_lens: &[usize],
    options: &Options,
    file: &[u8],
    has_journal: bool,
    journal: &[u8],
    input: &[u8],
) -> u8
    requires { handle.old.state ≢ None }
    ensures { Changes (Runs (asked_of name.now words.now lens.now aux.now aux_lens.now options.now) file.now (journal_if has_journal journal.now) input.now result) handle.old.state handle.new.state }
{
    let mut state = handle.take(alloc);
    let status = calls::run(
        alloc,
        &mut state,
        name,
        words,
        lens,
        aux,
        aux_lens,
        options,
        file,
        has_journal,
        journal,
        input,
    );
    *handle = Handle::of(state);
    status
}

/// Runs a command over several files that are read as one, and gives its exit status: 2 if the program has no such command. The names
/// of the files, in the order in which they are read, and their bytes are each one text, and the length of each.
#[unsafe(no_mangle)]
pub extern "C" fn bib_c_run_files(
    alloc: Global,
    handle: &mut Handle,
    name: &[u8],
    words: &[u8],
    lens: &[usize],
    aux: &[u8],
    aux_lens: &[usize],
    options: &Options,
    names: &[u8],
    name_lens: &[usize],
    files: &[u8],
    file_lens: &[usize],
) -> u8
    requires { handle.old.state ≢ None }
    ensures { Changes (RunsFiles (asked_among name.now words.now lens.now aux.now aux_lens.now names.now name_lens.now options.now) (words_of names.now name_lens.now) (words_of files.now file_lens.now) result) handle.old.state handle.new.state }
{
    let mut state = handle.take(alloc);
    let status = run_files(
        alloc, &mut state, name, words, lens, aux, aux_lens, options, names, name_lens, files,
        file_lens,
    );
    *handle = Handle::of(state);
    status
}

/// Whether the last call gave the text with this number (0 output, 1 message, 2 file, 3 journal), and its length.
#[unsafe(no_mangle)]
pub extern "C" fn bib_c_text_len(
    alloc: Global,
    handle: &mut Handle,
    which: u32,
    len: &mut usize,
) -> bool
    requires { handle.old.state ≢ None }
    ensures given { Holds (λ state. IsLength (text_given which state.answer) result len.new) handle.old.state }
    ensures same { handle.new.state ≡ handle.old.state }
{
    let state = handle.take(alloc);
    let is_given = len_given(&state.answer, which, len);
    *handle = Handle::of(state);
    is_given
}

/// Copies a text that the last call gave, if it has this length. It says whether it did.
#[unsafe(no_mangle)]
pub extern "C" fn bib_c_text_copy(
    alloc: Global,
    handle: &mut Handle,
    which: u32,
    to: &mut [u8],
) -> bool
    requires { handle.old.state ≢ None }
    ensures copied { Holds (λ state. IsCopy (text_given which state.answer) result to.old to.new) handle.old.state }
    ensures same { handle.new.state ≡ handle.old.state }
{
    let state = handle.take(alloc);
    let is_copied = copy_given(&state.answer, which, to);
    *handle = Handle::of(state);
    is_copied
}
