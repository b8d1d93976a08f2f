//! What a handle has behind it.

ghost use Rattle.std.specs.Prelude.{◌≡◌, None, IfErr, OnOk, OnErr, option_map};
ghost use Rattle.bib_spec.specs.Records.{IsDepth};
ghost use Rattle.bib_data.specs.declared.request.Request.TheVariants.{Undo, Redo};
ghost use Rattle.bib_journal.specs.Session.{IsOpened, RefusesOpen, Begins, Ends, RefusesEnd};
ghost use Rattle.bib_state.specs.Calls.{Moves, IsOpen, RefusesCall, BySession, OnlyMemory, MakesWords, RefusesWords, RefusesLabel, Turns, DoesScript, nothing_given, GivesSaved, GivesFile, undo_count, redo_count};
ghost use Rattle.bib_state.specs.Telling.{GivesEntry, GivesKeys, RefusesEntry};

use crate::fault::CallFault;
use crate::making::make_words;
use crate::performing::{Scripted, Turned, perform_script, turn};
use crate::telling::{answer_entry, answer_file, answer_keys, answer_saved};
use bib_answers::{Answer, done};
use bib_data::{Request, is_label};
use bib_journal::{Session, SessionFault};
use bib_store::Paged;
use bib_text::Text;
use std::alloc::Global;

/// A session, if one is open, and what the last call that gives texts gave.
#[derive(Drop)]
pub struct State {
    pub session: Option<Session<Paged>>,
    pub answer: Answer,
}

impl State {
    /// No session, and no texts.
    pub fn new(alloc: Global) -> State
        ensures session { result.session ≡ None }
        ensures answer { result.answer ≡ nothing_given }
    {
        State {
            session: None,
            answer: done(alloc, Text::empty(alloc)),
        }
    }

    /// Forgets the texts that the last call gave.
    pub fn forget(&mut self, alloc: Global)
        ensures session { self.new.session ≡ self.old.session }
        ensures answer { self.new.answer ≡ nothing_given }
    {
        self.answer = done(alloc, Text::empty(alloc));
    }

    /// Opens a session over a copy of these bytes, with the steps that the journal says, if there is one. It takes the place
    /// of the session that is open; if it is refused, that one stays.
    pub fn open(
        &mut self,
        alloc: Global,
        file: &[u8],
        journal: Option<&[u8]>,
    ) -> Result<(), SessionFault>
        ensures opened { OnOk result (IsOpen (IsOpened file.now (option_map (λ text. text.now) journal.entry)) self.new.session) }
        ensures refused { IfErr result (λ fault. RefusesOpen fault file.now (option_map (λ text. text.now) journal.entry)) }
        ensures answer { self.new.answer ≡ self.old.answer }
        ensures err { OnErr result (self.new ≡ self.old) }
    {
        self.session = Some(Session::open(alloc, file, journal, Paged::new(alloc))?);
        Ok(())
    }

    /// Closes the session, if one is open, and forgets its steps and the texts that the last call gave.
    pub fn close(&mut self, alloc: Global)
        ensures session { self.new.session ≡ None }
        ensures answer { self.new.answer ≡ nothing_given }
    {
        self.session = None;
        self.forget(alloc);
    }

    /// Makes the edit that the words say, as a step of its own with the words as its label, or as a part of the step that is
    /// open. Where it is refused, no step is left open that was not.
    pub fn edit(&mut self, alloc: Global, words: &[Text]) -> Result<(), CallFault>
        ensures made { OnOk result (Moves (MakesWords words.now) self.old.session self.new.session) }
        ensures refused { IfErr result (λ fault. RefusesCall (RefusesWords words.now) fault self.old.session) }
        ensures answer { self.new.answer ≡ self.old.answer }
        ensures err { OnErr result (self.new ≡ self.old) }
    {
        match &mut self.session {
            Some(session) => make_words(alloc, session, words),
            None => Err(CallFault::Misuse),
        }
    }

    /// Does what the lines of a script say, up to the first that is refused or says no edit. What those before it did is
    /// kept.
    pub fn script(&mut self, alloc: Global, script: &[u8]) -> Scripted
        ensures done { DoesScript script.now result self.old.session self.new.session }
        ensures answer { self.new.answer ≡ self.old.answer }
    {
        match &mut self.session {
            Some(session) => perform_script(alloc, session, script),
            None => Scripted::refused(CallFault::Misuse),
        }
    }

    /// Begins a step of several edits with this label, which has at most 255 bytes and no control byte of ASCII, and may be
    /// empty.
    pub fn begin(&mut self, label: &[u8]) -> Result<(), CallFault>
        ensures begun { OnOk result (Moves (Begins label.now) self.old.session self.new.session) }
        ensures refused { IfErr result (λ fault. RefusesCall (RefusesLabel label.now) fault self.old.session) }
        ensures answer { self.new.answer ≡ self.old.answer }
        ensures err { OnErr result (self.new ≡ self.old) }
    {
        match &mut self.session {
            Some(session) => begin(session, label),
            None => Err(CallFault::Misuse),
        }
    }

    /// Ends the step that is open. One without an edit is forgotten.
    pub fn end(&mut self) -> Result<(), CallFault>
        ensures ended { OnOk result (Moves Ends self.old.session self.new.session) }
        ensures refused { IfErr result (λ fault. RefusesCall (BySession RefusesEnd) fault self.old.session) }
        ensures answer { self.new.answer ≡ self.old.answer }
        ensures err { OnErr result (self.new ≡ self.old) }
    {
        match &mut self.session {
            Some(session) => end(session),
            None => Err(CallFault::Misuse),
        }
    }

    /// Takes `times` steps back, up to the first refusal.
    pub fn undo(&mut self, times: usize) -> Turned
        ensures turned { Turns Undo times result self.old.session self.new.session }
        ensures answer { self.new.answer ≡ self.old.answer }
    {
        match &mut self.session {
            Some(session) => turn(session, &Request::Undo, times),
            None => Turned::refused(CallFault::Misuse),
        }
    }

    /// Makes `times` steps again that were taken back, up to the first refusal.
    pub fn redo(&mut self, times: usize) -> Turned
        ensures turned { Turns Redo times result self.old.session self.new.session }
        ensures answer { self.new.answer ≡ self.old.answer }
    {
        match &mut self.session {
            Some(session) => turn(session, &Request::Redo, times),
            None => Turned::refused(CallFault::Misuse),
        }
    }

    /// How many steps can be taken back: 0 if no session is open.
    pub fn undo_count(&self) -> usize
        ensures { result ≡ undo_count self.now.session }
    {
        match &self.session {
            Some(session) => session.undo_count(),
            None => 0,
        }
    }

    /// How many steps can be made again: 0 if no session is open.
    pub fn redo_count(&self) -> usize
        ensures { result ≡ redo_count self.now.session }
    {
        match &self.session {
            Some(session) => session.redo_count(),
            None => 0,
        }
    }

    /// Gives the present file, which takes memory for a copy of it.
    pub fn file(&mut self, alloc: Global) -> Result<(), CallFault>
        ensures given { OnOk result (IsOpen (GivesFile self.new.answer) self.old.session) }
        ensures refused { IfErr result (λ fault. RefusesCall (BySession OnlyMemory) fault self.old.session) }
        ensures session { self.new.session ≡ self.old.session }
        ensures err { OnErr result (self.new ≡ self.old) }
    {
        let Some(session) = &self.session else {
            return Err(CallFault::Misuse);
        };
        self.answer = answer_file(alloc, session)?;
        Ok(())
    }

    /// Gives the present file and its journal, as `open` takes them up again. It takes memory for both.
    pub fn save(&mut self, alloc: Global) -> Result<(), CallFault>
        ensures given { OnOk result (IsOpen (GivesSaved self.new.answer) self.old.session) }
        ensures refused { IfErr result (λ fault. RefusesCall (BySession OnlyMemory) fault self.old.session) }
        ensures session { self.new.session ≡ self.old.session }
        ensures err { OnErr result (self.new ≡ self.old) }
    {
        let Some(session) = &self.session else {
            return Err(CallFault::Misuse);
        };
        self.answer = answer_saved(alloc, session)?;
        Ok(())
    }

    /// Gives the line of JSON of the first entry with this key, with what it inherits from up to `depth` parents.
    pub fn entry(&mut self, alloc: Global, key: &[u8], depth: u8) -> Result<(), CallFault>
        requires { IsDepth depth }
        ensures given { OnOk result (IsOpen (GivesEntry key.now depth self.new.answer) self.old.session) }
        ensures refused { IfErr result (λ fault. RefusesCall (RefusesEntry key.now depth) fault self.old.session) }
        ensures session { self.new.session ≡ self.old.session }
        ensures err { OnErr result (self.new ≡ self.old) }
    {
        let Some(session) = &self.session else {
            return Err(CallFault::Misuse);
        };
        self.answer = answer_entry(alloc, session, key, depth)?;
        Ok(())
    }

    /// Gives the keys of all entries in the order of the file, a line feed after each.
    pub fn keys(&mut self, alloc: Global) -> Result<(), CallFault>
        ensures given { OnOk result (IsOpen (GivesKeys self.new.answer) self.old.session) }
        ensures refused { IfErr result (λ fault. RefusesCall (BySession OnlyMemory) fault self.old.session) }
        ensures session { self.new.session ≡ self.old.session }
        ensures err { OnErr result (self.new ≡ self.old) }
    {
        let Some(session) = &self.session else {
            return Err(CallFault::Misuse);
        };
        self.answer = answer_keys(alloc, session)?;
        Ok(())
    }
}

/// Begins a step with this label, if it is one.
fn begin(session: &mut Session<Paged>, label: &[u8]) -> Result<(), CallFault>
    ensures begun { OnOk result (Begins label.now session.old session.new) }
    ensures refused { IfErr result (λ fault. RefusesLabel label.now fault session.old) }
    ensures err { OnErr result (session.new ≡ session.old) }
{
    if !is_label(label) {
        return Err(CallFault::Misuse);
    }
    match session.begin(label) {
        Ok(()) => Ok(()),
        Err(fault) => Err(CallFault::Session(fault)),
    }
}

/// Ends the step that is open.
fn end(session: &mut Session<Paged>) -> Result<(), CallFault>
    ensures ended { OnOk result (Ends session.old session.new) }
    ensures refused { IfErr result (λ fault. BySession RefusesEnd fault session.old) }
    ensures err { OnErr result (session.new ≡ session.old) }
{
    match session.end() {
        Ok(()) => Ok(()),
        Err(fault) => Err(CallFault::Session(fault)),
    }
}
