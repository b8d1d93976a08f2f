//! Replacing pieces of a file.

use crate::change::{find_change, front_len, new_front, put_front};
use crate::database::Database;
use crate::exchanging::exchange;
use crate::following_runs::replace_runs;
use crate::runs::{RunFault, run_starts};
use crate::scanning::Scan;
use crate::touching::touched;
use bib_data::Piece;
use bib_items::{ItemList, StoreFault};
use bib_text::Seq;

impl<L: ItemList> Database<L> {
    ghost use Rattle.std.specs.Prelude.{◌≡◌, ◌⊎◌, IfErr, OnOk, OnErr};
    ghost use Rattle.bib_spec.specs.Texts.{IsOpenable};
    ghost use Rattle.bib_spec.specs.Pieces.{Fit, applied};
    ghost use Rattle.bib_items.specs.declared.fault.StoreFault.TheVariants.{Memory, BadSplice};

    /// Replaces pieces of the file, all at once. It is refused if the pieces don't fit, if they lead to bytes that are no
    /// file to be opened, or if memory runs out; nothing has changed then. It takes time and memory in the length of what
    /// it reads again, and a few steps for each page of the tables for each item that comes or goes; if the tables are made
    /// again, time in the file's length, and memory as opening it. "How a splice follows" in ARCHITECTURE.md has a table of
    /// the cases.
    pub fn splice(&mut self, pieces: &[Piece]) -> Result<(), StoreFault>
        ensures fit { OnOk result (Fit pieces.now self.old) }
        ensures spliced { OnOk result (self.new ≡ applied pieces.now self.old) }
        ensures file { OnOk result (IsOpenable self.new) }
        ensures refused { IfErr result (λ fault. fault ≡ BadSplice → Fit pieces.now self.old → IsOpenable (applied pieces.now self.old) → ⊥) }
        ensures only { IfErr result (λ fault. (fault ≡ BadSplice) ⊎ (fault ≡ Memory)) }
        ensures err { OnErr result (self.new ≡ self.old) }
    {
        let spliced = self.splice_in_turn(pieces);
        self.settle();
        spliced
    }

    /// Replaces pieces as `splice` does, when another splice follows at once. Looking up an item after those that were read
    /// takes one step more for each page, until the next call of `splice` or `settle`.
    pub fn splice_in_turn(&mut self, pieces: &[Piece]) -> Result<(), StoreFault>
        ensures fit { OnOk result (Fit pieces.now self.old) }
        ensures spliced { OnOk result (self.new ≡ applied pieces.now self.old) }
        ensures file { OnOk result (IsOpenable self.new) }
        ensures refused { IfErr result (λ fault. fault ≡ BadSplice → Fit pieces.now self.old → IsOpenable (applied pieces.now self.old) → ⊥) }
        ensures only { IfErr result (λ fault. (fault ≡ BadSplice) ⊎ (fault ≡ Memory)) }
        ensures err { OnErr result (self.new ≡ self.old) }
    {
        self.prepare(pieces);
        let scan = Scan::of(
            self.alloc,
            self.front.as_slice(),
            &self.items,
            self.tables.file_len,
            pieces,
        )?;
        self.splice_at_once(pieces)?;
        self.scanned = scan.bytes(self.front.as_slice(), &self.items, self.tables.file_len);
        Ok(())
    }

    /// Replaces pieces, run by run if it can, or else in one window.
    fn splice_at_once(&mut self, pieces: &[Piece]) -> Result<(), StoreFault>
        ensures fit { OnOk result (Fit pieces.now self.old) }
        ensures spliced { OnOk result (self.new ≡ applied pieces.now self.old) }
        ensures file { OnOk result (IsOpenable self.new) }
        ensures refused { IfErr result (λ fault. fault ≡ BadSplice → Fit pieces.now self.old → IsOpenable (applied pieces.now self.old) → ⊥) }
        ensures only { IfErr result (λ fault. (fault ≡ BadSplice) ⊎ (fault ≡ Memory)) }
        ensures err { OnErr result (self.new ≡ self.old) }
    {
        match self.splice_runs(pieces) {
            Ok(()) => Ok(()),
            Err(RunFault::Memory) => Err(StoreFault::Memory),
            Err(RunFault::NotApart) => self.splice_window(pieces),
        }
    }

    /// Prepares the look-up of items, so that it takes no step for each page. The file is unchanged, and nothing else is
    /// promised: the call only saves time.
    pub fn settle(&mut self)
        ensures { self.new ≡ self.old }
    {
        self.items.prepare(usize::MAX);
    }

    /// Prepares the look-up of the items that the pieces touch. The file is unchanged.
    fn prepare(&mut self, pieces: &[Piece])
        ensures { self.new ≡ self.old }
    {
        if let Some(last) = pieces.last() {
            self.items.prepare((last.place as usize).saturating_add(last.old.as_slice().len()));
        }
    }

    /// Replaces pieces that touch several runs of items, each run read alone.
    fn splice_runs(&mut self, pieces: &[Piece]) -> Result<(), RunFault>
        ensures fit { OnOk result (Fit pieces.now self.old) }
        ensures spliced { OnOk result (self.new ≡ applied pieces.now self.old) }
        ensures file { OnOk result (IsOpenable self.new) }
        ensures err { OnErr result (self.new ≡ self.old) }
    {
        let starts = run_starts(
            self.alloc,
            self.front.as_slice(),
            &self.items,
            self.tables.file_len,
            pieces,
        )?;
        self.notes = Seq::empty(self.alloc);
        replace_runs(
            self.alloc,
            &mut self.front,
            &mut self.items,
            &mut self.tables,
            &starts,
            pieces,
        )?;
        Ok(())
    }

    /// Replaces pieces in one window, from the first item that they touch to the last.
    fn splice_window(&mut self, pieces: &[Piece]) -> Result<(), StoreFault>
        ensures fit { OnOk result (Fit pieces.now self.old) }
        ensures spliced { OnOk result (self.new ≡ applied pieces.now self.old) }
        ensures file { OnOk result (IsOpenable self.new) }
        ensures refused { IfErr result (λ fault. fault ≡ BadSplice → Fit pieces.now self.old → IsOpenable (applied pieces.now self.old) → ⊥) }
        ensures only { IfErr result (λ fault. (fault ≡ BadSplice) ⊎ (fault ≡ Memory)) }
        ensures err { OnErr result (self.new ≡ self.old) }
    {
        let window = touched(
            self.front.as_slice(),
            &self.items,
            self.tables.file_len,
            pieces,
        );
        let change = find_change(
            self.alloc,
            self.front.as_slice(),
            &self.items,
            self.tables.file_len,
            window,
            pieces,
        )?;
        let front = new_front(self.alloc, &change)?;
        let front_len = front_len(self.front.as_slice(), &front);
        self.notes = Seq::empty(self.alloc);
        exchange(
            self.alloc,
            front_len,
            &mut self.items,
            &mut self.tables,
            change,
        )?;
        put_front(&mut self.front, front);
        Ok(())
    }
}
