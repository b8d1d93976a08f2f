//! An open file with its history.

ghost use Rattle.std.specs.Prelude.{◌≡◌, ◌+◌, ◌<◌, ◌++◌, ◌↔◌, [], false, length, reverse, slice_get, Some, option_map, IsTrue, IfOk, IfErr, OnOk, OnErr, ◌≢◌, ◌⊎◌};
ghost use Rattle.bib_spec.specs.Texts.{IsOpenable};
ghost use Rattle.history_spec.specs.Steps.{IsSound, AreSteps, IsLabel, IsAllowed};
ghost use Rattle.bib_data.specs.Depths.{HasDepth};
ghost use Rattle.journal_format.specs.Faults.{IsTextOf};
ghost use Rattle.bib_journal.specs.Loading.{Loads, Saves, FitFile, contents_of};
ghost use Rattle.bib_journal.specs.OpenSteps.{idle, after_edit, MakesSteps, LacksRoom};
ghost use Rattle.bib_journal.specs.Session.{started, MakesEdit, MakesEditAt, Inserts, IsOpened, Begins, Ends, RefusesStart, RefusesLoad, RefusesOpen, RefusesEdit, RefusesEditAt, RefusesInsertion, MakesInsertion, RefusesPieces, RefusesBegin, RefusesEnd, RefusesUndo, RefusesRedo, TakesBack, MakesAgain};
ghost use Rattle.bib_journal.specs.declared.fault.SessionFault.TheVariants.{JournalFull, Memory};
ghost use Rattle.bib_journal.specs.declared.open_step.OpenStep.TheVariants.{NoStep, LastStep};

use crate::closing::close;
use crate::fault::{SessionFault, refused, unopened};
use crate::growing::grow;
use crate::inserting::insertion_of;
use crate::loading::{copied, fit, opened_with};
use crate::open_step::{OpenStep, next_label, take_label};
use crate::saving::{Saved, journal_of};
use crate::stepping::{forget, go_back, go_on, go_on_if_open};
use bib_data::Position;
use bib_edit::{Edit, EditFault, plan, plan_at};
use bib_store::{Database, ItemList, Piece};
use bib_text::{Seq, Text};
use journal_format::{
    CHANGE_LIMIT, Journal, STEP_TEXTS_LIMIT, Step, step_text_len, step_texts_len,
};
use std::alloc::Global;
use std::marker::Model;

/// An open file, with the steps that led to it and those that were taken back. It keeps the pieces of each step and no
/// old file. A contract sees the past steps from the oldest, the present file, and the future steps from the next one; and
/// which step is open.
#[derive(Drop)]
pub struct Session<L: ItemList> {
    alloc: Global,
    database: Database<L>,
    past: Vec<Step>,
    undone: Vec<Step>,
    past_len: u64,
    current: OpenStep,
    // where the pieces of the step that is open end in the present file, or none, if it has one edit or is not open
    ends: Vec<u64>,
}

impl<L: ItemList> Model for Session<L> {
    ghost use Rattle.std.specs.Prelude.{reverse};
    ghost use Rattle.bib_journal.specs.Kept.{kept, IsKept};
    ghost use Rattle.bib_journal.specs.OpenSteps.{SessionState};

    ghost Value = { SessionState };

    ghost view = { λ s. record { steps = kept s.past.items s.database (reverse s.undone.items); current = s.current } };

    ghost invariant = { λ s. IsKept (record { steps = kept s.past.items s.database (reverse s.undone.items); current = s.current }) s.past_len s.ends.items };
}

/// Whether the edit seeks parts of values in the whole file, as edits of macros do. Only time depends on it.
fn seeks_parts(edit: &Edit) -> bool {
    match edit {
        Edit::RenameMacro { .. }
        | Edit::InlineMacro { .. }
        | Edit::IntroduceMacro { .. }
        | Edit::UndefineMacro { .. }
        | Edit::DefineMacro { .. }
        | Edit::SetMacro { .. } => true,
        _ => false,
    }
}

/// A session of the open file, with the steps that a journal says, which fit it.
fn with_steps<L: ItemList>(alloc: Global, database: Database<L>, said: Journal) -> Session<L>
    requires fit { FitFile said database }
    requires steps { AreSteps said.past said.future }
    ensures { result ≡ idle (record { past = said.past; present = database; future = said.future }) }
{
    let past = said.past.into_vec();
    let mut undone = said.future.into_vec();
    undone.reverse();
    let past_len = step_texts_len(past.as_slice());
    Session {
        alloc,
        database,
        past,
        undone,
        past_len,
        current: OpenStep::NoStep,
        ends: Vec::new(alloc),
    }
}

impl<L: ItemList> Session<L> {
    /// Opens a copy of the file that these bytes are, to which nothing was done yet. The list that is handed in holds no item.
    pub fn start(alloc: Global, bytes: &[u8], empty: L) -> Result<Session<L>, SessionFault>
        requires { L.items empty ≡ [] }
        ensures started { IfOk result (λ session. session ≡ idle (started bytes.now)) }
        ensures opens { OnOk result (IsOpenable bytes.now) }
        ensures refused { IfErr result (λ fault. RefusesStart fault bytes.now) }
    {
        let file = copied(alloc, bytes)?;
        Session::start_file(alloc, file, empty)
    }

    /// Closes the file, and forgets its steps, as dropping the session does. Nothing is left that a clause could be about, so it
    /// has none.
    pub fn close(self) {
        let Session {
            alloc: _,
            database,
            past: _past,
            undone: _undone,
            past_len: _,
            current: _open,
            ends: _ends,
        } = self;
        close(database);
    }

    /// Opens the file as `start` does. The list may keep the file's memory in place of copies of its items.
    fn start_file(alloc: Global, file: Vec<u8>, empty: L) -> Result<Session<L>, SessionFault>
        requires { L.items empty ≡ [] }
        ensures started { IfOk result (λ session. session ≡ idle (started file.items)) }
        ensures opens { OnOk result (IsOpenable file.items) }
        ensures refused { IfErr result (λ fault. RefusesStart fault file.items) }
    {
        match Database::open_file(alloc, file, empty) {
            Ok(database) => {
                database.opens();
                Ok(Session {
                    alloc,
                    database,
                    past: Vec::new(alloc),
                    undone: Vec::new(alloc),
                    past_len: 0,
                    current: OpenStep::NoStep,
                    ends: Vec::new(alloc),
                })
            }
            Err(fault) => Err(unopened(fault)),
        }
    }

    /// Opens the file that these bytes are, with the steps that its journal says. The list that is handed in holds no item.
    /// It refuses as `start` does, then a text that is not a journal (53, with its place), then one that does not belong to
    /// the file (54). It takes time as opening the file, reading both texts, and splicing each step twice.
    pub fn load(
        alloc: Global,
        bytes: &[u8],
        journal: &[u8],
        empty: L,
    ) -> Result<Session<L>, SessionFault>
        requires { L.items empty ≡ [] }
        ensures loaded { IfOk result (λ session. Loads bytes.now journal.now session.steps) }
        ensures closed { IfOk result (λ session. session.current ≡ NoStep) }
        ensures refused { IfErr result (λ fault. RefusesLoad fault bytes.now journal.now) }
    {
        let file = copied(alloc, bytes)?;
        Session::load_file(alloc, file, journal, empty)
    }

    /// Opens the file with its journal, as `load` does. The list may keep the file's memory in place of copies of its items.
    fn load_file(
        alloc: Global,
        file: Vec<u8>,
        journal: &[u8],
        empty: L,
    ) -> Result<Session<L>, SessionFault>
        requires { L.items empty ≡ [] }
        ensures loaded { IfOk result (λ session. Loads file.items journal.now session.steps) }
        ensures closed { IfOk result (λ session. session.current ≡ NoStep) }
        ensures refused { IfErr result (λ fault. RefusesLoad fault file.items journal.now) }
    {
        let (mut database, said) = opened_with(alloc, file, journal, empty)?;
        match fit(alloc, &mut database, &said) {
            Ok(()) => Ok(with_steps(alloc, database, said)),
            Err(fault) => {
                close(database);
                Err(fault)
            }
        }
    }

    /// Opens the file that these bytes are with its journal, as `load` does, or without one, as `start` does.
    pub fn open(
        alloc: Global,
        bytes: &[u8],
        journal: Option<&[u8]>,
        empty: L,
    ) -> Result<Session<L>, SessionFault>
        requires { L.items empty ≡ [] }
        ensures opened { IfOk result (IsOpened bytes.now (option_map (λ text. text.now) journal.entry)) }
        ensures refused { IfErr result (λ fault. RefusesOpen fault bytes.now (option_map (λ text. text.now) journal.entry)) }
    {
        match journal {
            Some(journal) => Session::load(alloc, bytes, journal, empty),
            None => Session::start(alloc, bytes, empty),
        }
    }

    /// Opens the file with its journal, as `open` does. The list may keep the file's memory in place of copies of its items.
    pub fn open_file(
        alloc: Global,
        file: Vec<u8>,
        journal: Option<&[u8]>,
        empty: L,
    ) -> Result<Session<L>, SessionFault>
        requires { L.items empty ≡ [] }
        ensures opened { IfOk result (IsOpened file.items (option_map (λ text. text.now) journal.entry)) }
        ensures refused { IfErr result (λ fault. RefusesOpen fault file.items (option_map (λ text. text.now) journal.entry)) }
    {
        match journal {
            Some(journal) => Session::load_file(alloc, file, journal, empty),
            None => Session::start_file(alloc, file, empty),
        }
    }

    /// Begins a step of several edits, with this label, which may be empty: the edits up to its end are one change. Until the
    /// first of them it is no change.
    pub fn begin(&mut self, label: &[u8]) -> Result<(), SessionFault>
        requires { IsLabel label.now }
        ensures begun { OnOk result (Begins label.now self.old self.new) }
        ensures refused { IfErr result (λ fault. RefusesBegin fault self.old) }
        ensures err { OnErr result (self.new ≡ self.old) }
    {
        if !self.current.is_none() {
            return Err(SessionFault::StepOpen);
        }
        self.current = OpenStep::NewStep(bib_text::copied(self.alloc, label)?);
        Ok(())
    }

    /// Ends the step that is open. One without an edit is forgotten. It takes no memory.
    pub fn end(&mut self) -> Result<(), SessionFault>
        ensures ended { OnOk result (Ends self.old self.new) }
        ensures refused { IfErr result (λ fault. RefusesEnd fault self.old) }
        ensures err { OnErr result (self.new ≡ self.old) }
    {
        if self.current.is_none() {
            return Err(SessionFault::NoOpenStep);
        }
        self.current = OpenStep::NoStep;
        Ok(())
    }

    /// Makes an edit: a step by itself, or one of the edits of the step that is open. It forgets what could be made again. It
    /// takes time and memory as `plan` and `Database::splice` do. If the step that is open has edits, it also takes them for
    /// those of its pieces that the edit is near. It moves the others as memory, and their ends by one number. An edit of one
    /// piece that begins inside a piece of the step changes that piece in place: only the bytes after it move, as memory.
    /// An edit that makes keys has a depth of 1 to `DEPTH_LIMIT`.
    pub fn edit(&mut self, edit: &Edit) -> Result<(), SessionFault>
        requires { HasDepth edit.now }
        ensures made { OnOk result (MakesEdit edit.now self.old self.new) }
        ensures refused { IfErr result (λ fault. RefusesEdit fault edit.now self.old) }
        ensures err { OnErr result (self.new ≡ self.old) }
    {
        self.note_parts(edit);
        let pieces = match plan(self.alloc, &self.database, edit) {
            Ok(pieces) => pieces,
            Err(fault) => return Err(refused(fault)),
        };
        self.make(pieces)
    }

    /// Makes an edit as `edit` does, at this position in place of its own: an entry is added there, or moved there. It is refused
    /// first if no entry has the key of the position, or several have it. It takes two look-ups more than `edit`. An edit that makes keys has
    /// a depth of 1 to `DEPTH_LIMIT`.
    pub fn edit_at(&mut self, position: &Position, edit: &Edit) -> Result<(), SessionFault>
        requires { HasDepth edit.now }
        ensures made { OnOk result (MakesEditAt position.now edit.now self.old self.new) }
        ensures refused { IfErr result (λ fault. RefusesEditAt fault position.now edit.now self.old) }
        ensures err { OnErr result (self.new ≡ self.old) }
    {
        let pieces = match plan_at(self.alloc, &self.database, position, edit) {
            Ok(pieces) => pieces,
            Err(fault) => return Err(refused(fault)),
        };
        self.make(pieces)
    }

    /// Puts this text in at this position, byte for byte, as a step of its own; where it follows a line of the file that is not
    /// ended, a line's end is put before it. It forgets what could be made again. It is refused with 55 if a step is open; with 1
    /// to 9 and a place of the text, if the text can't be opened by itself; with 35, 36, 34, 37, 38, 40 and 9 as `place_of` and
    /// `plan_insertion` say; with 41 if there is no room for the step; and with 8 if a raw text would be too long. It takes time
    /// and memory as opening the text and as `Database::splice` do. (dialect)
    pub fn insert(&mut self, position: &Position, text: &[u8]) -> Result<(), SessionFault>
        ensures inserted { OnOk result (Inserts position.now text.now self.old self.new) }
        ensures refused { IfErr result (λ fault. RefusesInsertion position.now text.now self.old fault) }
        ensures err { OnErr result (self.new ≡ self.old) }
    {
        if !self.current.is_none() {
            return Err(SessionFault::StepOpen);
        }
        match insertion_of(self.alloc, &self.database, position, text) {
            Ok(pieces) => self.put_in(pieces),
            Err(fault) => Err(fault),
        }
    }

    /// Makes the pieces of an insertion a step of their own, unless they make a raw text too long.
    fn put_in(&mut self, pieces: Seq<Piece>) -> Result<(), SessionFault>
        requires { self.old.current ≡ NoStep }
        ensures made { OnOk result (MakesInsertion pieces self.old self.new) }
        ensures refused { IfErr result (λ fault. RefusesPieces pieces self.old fault) }
        ensures err { OnErr result (self.new ≡ self.old) }
    {
        match self.try_add(pieces) {
            Ok(true) => Ok(()),
            Ok(false) => Err(SessionFault::Refused(EditFault::TextTooLong)),
            Err(fault) => Err(fault),
        }
    }

    /// Tells the database that parts will be sought, if the edit seeks some.
    fn note_parts(&mut self, edit: &Edit)
        ensures { self.new ≡ self.old }
    {
        if seeks_parts(edit) {
            self.database.note_parts();
        }
    }

    /// Makes these pieces a step of their own, or one of the edits of the step that is open.
    fn make(&mut self, pieces: Seq<Piece>) -> Result<(), SessionFault>
        requires { IsAllowed pieces self.old.steps.present }
        ensures made { OnOk result (MakesSteps self.old.current pieces self.old.steps self.new.steps) }
        ensures current { OnOk result (self.new.current ≡ after_edit self.old.current) }
        ensures room { OnOk result (LacksRoom self.old.current pieces self.old.steps → ⊥) }
        ensures full { result ≡ Err JournalFull → LacksRoom self.old.current pieces self.old.steps }
        ensures only { IfErr result (λ fault. (fault ≡ JournalFull) ⊎ (fault ≡ Memory)) }
        ensures err { OnErr result (self.new ≡ self.old) }
    {
        if self.current.is_last() {
            self.join(pieces)
        } else {
            self.add(pieces)
        }
    }

    /// Makes these pieces a step of their own.
    fn add(&mut self, pieces: Seq<Piece>) -> Result<(), SessionFault>
        requires allowed { IsAllowed pieces self.old.steps.present }
        requires none { self.old.current ≢ LastStep }
        ensures added { OnOk result (MakesSteps self.old.current pieces self.old.steps self.new.steps) }
        ensures current { OnOk result (self.new.current ≡ after_edit self.old.current) }
        ensures room { OnOk result (LacksRoom self.old.current pieces self.old.steps → ⊥) }
        ensures full { result ≡ Err JournalFull → LacksRoom self.old.current pieces self.old.steps }
        ensures only { IfErr result (λ fault. (fault ≡ JournalFull) ⊎ (fault ≡ Memory)) }
        ensures err { OnErr result (self.new ≡ self.old) }
    {
        let leads = self.try_add(pieces)?;
        if !leads {
            unreachable!();
        }
        Ok(())
    }

    /// Makes these pieces a step of their own, if they lead to a file that can be opened. Otherwise nothing changes.
    fn try_add(&mut self, pieces: Seq<Piece>) -> Result<bool, SessionFault>
        requires { self.old.current ≢ LastStep }
        ensures allowed { IfOk result (λ yes. IsTrue yes ↔ IsAllowed pieces self.old.steps.present) }
        ensures added { IfOk result (λ yes. IsTrue yes → MakesSteps self.old.current pieces self.old.steps self.new.steps) }
        ensures current { IfOk result (λ yes. IsTrue yes → self.new.current ≡ after_edit self.old.current) }
        ensures same { IfOk result (λ yes. yes ≡ false → self.new ≡ self.old) }
        ensures room { OnOk result (LacksRoom self.old.current pieces self.old.steps → ⊥) }
        ensures full { result ≡ Err JournalFull → LacksRoom self.old.current pieces self.old.steps }
        ensures only { IfErr result (λ fault. (fault ≡ JournalFull) ⊎ (fault ≡ Memory)) }
        ensures err { OnErr result (self.new ≡ self.old) }
    {
        let text_len = step_text_len(next_label(&self.current), pieces.as_slice());
        let len = self.past_len.saturating_add(text_len);
        if self.past.len() >= CHANGE_LIMIT || len > STEP_TEXTS_LIMIT {
            return Err(SessionFault::JournalFull);
        }
        self.past.reserve(1)?;
        let leads = go_on_if_open(&mut self.database, pieces.as_slice())?;
        if !leads {
            return Ok(false);
        }
        let label = take_label(self.alloc, &mut self.current);
        self.past.push_reserved(Step { label, pieces });
        self.past_len = len;
        self.ends.clear();
        forget(&mut self.undone);
        Ok(true)
    }

    /// Makes these pieces a part of the last step of the past.
    fn join(&mut self, pieces: Seq<Piece>) -> Result<(), SessionFault>
        requires allowed { IsAllowed pieces self.old.steps.present }
        requires last { self.old.current ≡ LastStep }
        ensures joined { OnOk result (MakesSteps self.old.current pieces self.old.steps self.new.steps) }
        ensures current { OnOk result (self.new.current ≡ after_edit self.old.current) }
        ensures room { OnOk result (LacksRoom self.old.current pieces self.old.steps → ⊥) }
        ensures full { result ≡ Err JournalFull → LacksRoom self.old.current pieces self.old.steps }
        ensures only { IfErr result (λ fault. (fault ≡ JournalFull) ⊎ (fault ≡ Memory)) }
        ensures err { OnErr result (self.new ≡ self.old) }
    {
        let Some(mut step) = self.past.pop() else {
            unreachable!()
        };
        let grown = grow(
            self.alloc,
            &mut self.database,
            &mut step,
            &mut self.ends,
            pieces.as_slice(),
            self.past_len,
        );
        self.past.push_reserved(step);
        self.past_len = grown?;
        Ok(())
    }

    /// Takes the last step back.
    pub fn undo(&mut self) -> Result<(), SessionFault>
        ensures back { OnOk result (TakesBack self.old self.new) }
        ensures refused { IfErr result (λ fault. RefusesUndo fault self.old) }
        ensures err { OnErr result (self.new ≡ self.old) }
    {
        if !self.current.is_none() {
            return Err(SessionFault::StepOpen);
        }
        let Some(step) = self.past.last() else {
            return Err(SessionFault::NothingToUndo);
        };
        self.undone.reserve(1)?;
        go_back(self.alloc, &mut self.database, step.pieces.as_slice())?;
        let Some(step) = self.past.pop() else {
            unreachable!()
        };
        self.past_len -= step_text_len(step.label.as_slice(), step.pieces.as_slice());
        self.undone.push_reserved(step);
        Ok(())
    }

    /// Makes the step again that was taken back last.
    pub fn redo(&mut self) -> Result<(), SessionFault>
        ensures again { OnOk result (MakesAgain self.old self.new) }
        ensures refused { IfErr result (λ fault. RefusesRedo fault self.old) }
        ensures err { OnErr result (self.new ≡ self.old) }
    {
        if !self.current.is_none() {
            return Err(SessionFault::StepOpen);
        }
        let Some(step) = self.undone.last() else {
            return Err(SessionFault::NothingToRedo);
        };
        self.past.reserve(1)?;
        go_on(&mut self.database, step.pieces.as_slice())?;
        let Some(step) = self.undone.pop() else {
            unreachable!()
        };
        self.past_len += step_text_len(step.label.as_slice(), step.pieces.as_slice());
        self.past.push_reserved(step);
        Ok(())
    }

    /// The present file's bytes.
    pub fn bytes(&self) -> Result<Text, SessionFault>
        ensures bytes { IfOk result (λ text. text ≡ self.now.steps.present) }
        ensures only { IfErr result (λ fault. fault ≡ SessionFault.Memory) }
    {
        match self.database.bytes() {
            Ok(bytes) => Ok(bytes),
            Err(_) => Err(SessionFault::Memory),
        }
    }

    /// The present file and its journal, as a later run loads them. It takes memory for both texts, and time in their length.
    pub fn saved(&self) -> Result<Saved, SessionFault>
        ensures saved { IfOk result (Saves self.now.steps) }
        ensures only { IfErr result (λ fault. fault ≡ SessionFault.Memory) }
    {
        let file = self.bytes()?;
        let past = self.past.as_slice();
        let undone = self.undone.as_slice();
        let journal = journal_of(self.alloc, file.as_slice(), past, undone)?;
        Ok(Saved { file, journal })
    }

    /// The journal of the present file. It takes memory for a copy of the file and for the text, and time in their length.
    pub fn save(&self) -> Result<Text, SessionFault>
        ensures saved { IfOk result (IsTextOf (contents_of self.now.steps)) }
        ensures only { IfErr result (λ fault. fault ≡ SessionFault.Memory) }
    {
        Ok(self.saved()?.journal)
    }

    /// Step `n`, counted from 0: the past steps from the oldest, then the future ones from the next to be redone.
    fn step_at(&self, n: usize) -> &Step
        requires { n < length self.now.steps.past + length self.now.steps.future }
        ensures { slice_get (self.now.steps.past ++ self.now.steps.future) n ≡ Some result.now }
    {
        if n < self.past.len() {
            return &self.past[n];
        }
        let next = n - self.past.len();
        &self.undone[self.undone.len() - 1 - next]
    }

    /// The pieces of step `n`, counted from 0: the past steps from the oldest, then the future ones from the next to be
    /// redone. It takes no memory.
    pub fn step(&self, n: usize) -> &[Piece]
        requires { n < length self.now.steps.past + length self.now.steps.future }
        ensures { option_map (λ step. step.pieces) (slice_get (self.now.steps.past ++ self.now.steps.future) n) ≡ Some result.now }
    {
        self.step_at(n).pieces.as_slice()
    }

    /// The label of step `n`, counted as `step` counts them; it may be empty. It takes no memory.
    pub fn label(&self, n: usize) -> &[u8]
        requires { n < length self.now.steps.past + length self.now.steps.future }
        ensures { option_map (λ step. step.label) (slice_get (self.now.steps.past ++ self.now.steps.future) n) ≡ Some result.now }
    {
        self.step_at(n).label.as_slice()
    }

    /// How many changes can be taken back.
    pub fn undo_count(&self) -> usize
        ensures { result ≡ length self.now.steps.past }
    {
        self.past.len()
    }

    /// How many changes can be made again.
    pub fn redo_count(&self) -> usize
        ensures { result ≡ length self.now.steps.future }
    {
        self.undone.len()
    }

    /// The present file, open.
    pub fn database(&self) -> &Database<L>
        ensures { result.now ≡ self.now.steps.present }
    {
        &self.database
    }

    /// What a session keeps is sound: the present is a file, from which the steps lead back and on from file to file.
    pub fn is_sound(&self)
        ensures { IsSound self.now.steps }
    {
        let _ = &self.past;
    }
}
