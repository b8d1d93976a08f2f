//! Several files that are open as one database.

ghost use Rattle.std.specs.Prelude.{◌≡◌, ◌≢◌, List, length};
ghost use Rattle.bib_spec.specs.Text.{Text as FileText};
ghost use Rattle.bib_store.specs.Readings.{IsOpenFault};
ghost use Rattle.bib_shelf.specs.Joined.{AreJoined, AreOfShelf, text_of, spans_from};
ghost use Rattle.bib_shelf.specs.Faults.{HaveTheirPlaces, RefusesShelf};

use crate::counting::first_from;
use crate::fault::ShelfFault;
use crate::joining::Joined;
use crate::locating::locate;
use crate::reading::{check_each, read_each};
use bib_scan::ReadFault;
use bib_store::{Database, ItemList, Unopened};
use bib_text::Seq;
use std::alloc::Global;
use std::marker::Model;

/// The fault of the shelf's text, as one of the file that has it.
fn located(spans: &[(usize, usize)], fault: ReadFault) -> ShelfFault
    ensures { (files : List FileText) → spans.now ≡ spans_from 0 files → HaveTheirPlaces files (length files) → IsOpenFault (text_of files) fault.kind fault.place
        → RefusesShelf files result.kind result.place result.file }
{
    if fault.is_memory() {
        return ShelfFault::MEMORY;
    }
    let (file, place) = locate(spans, fault.place);
    ShelfFault {
        kind: fault.kind,
        place,
        file,
    }
}

/// Why the shelf's text was not opened: the fault of the first file that has one, or else that of the text.
fn first_fault(alloc: Global, unopened: Unopened, spans: &[(usize, usize)]) -> ShelfFault
    requires { unopened.fault.kind ≢ 10 → AreOfShelf unopened.file spans.now }
    ensures { (files : List FileText) → (unopened.fault.kind ≢ 10 → AreJoined files (record { text = unopened.file; spans = spans.now })) → IsOpenFault (text_of files) unopened.fault.kind unopened.fault.place
        → RefusesShelf files result.kind result.place result.file }
{
    let Unopened { fault, file } = unopened;
    if fault.is_memory() {
        return ShelfFault::MEMORY;
    }
    match read_each(alloc, file.as_slice(), spans) {
        Ok(()) => located(spans, fault),
        Err(first) => first,
    }
}

/// Several files that are open as one database: the database of the shelf's text. Entries have the numbers that they have in the
/// shelf. A contract sees the text, and where each file lies in it.
#[derive(Drop)]
pub struct Shelf<L: ItemList> {
    database: Database<L>,
    spans: Seq<(usize, usize)>,
}

impl<L: ItemList> Model for Shelf<L> {
    ghost use Rattle.bib_shelf.specs.declared.joining.Joined.{Joined as JoinedFiles};

    ghost Value = { JoinedFiles };

    ghost view = { λ s. record { text = s.database; spans = s.spans } };
}

impl<L: ItemList> Shelf<L> {
    ghost use Rattle.std.specs.Prelude.{◌≡◌, ◌<◌, List, [], length, map, IfOk, IfErr, OnOk};
    ghost use Rattle.bib_spec.specs.Text.{Text as FileText};
    ghost use Rattle.bib_spec.specs.Reading.{Reading};
    ghost use Rattle.shelf_spec.specs.Shelf.{AllRead};
    ghost use Rattle.bib_shelf.specs.Joined.{AreJoined, located_in};
    ghost use Rattle.bib_shelf.specs.Items.{items_at};
    ghost use Rattle.bib_shelf.specs.Faults.{AreAccepted, RefusesShelf};

    /// Opens these files as one database. `empty` is a list without items, which keeps the items of all files from now on. It
    /// takes time and memory in the length of all files, which are copied. It is refused at the first file that has no reading (1
    /// to 7) or ends in the shelf's text past 16,777,216 bytes (9); then with 8 at the first value whose raw text is longer than
    /// 1,048,576 bytes; and with 10 if memory runs out.
    pub fn open(alloc: Global, files: &[&[u8]], empty: L) -> Result<Self, ShelfFault>
        requires { L.items empty ≡ [] }
        ensures opened { IfOk result (AreJoined (map (λ file. file.now) files.now)) }
        ensures files { OnOk result (AreAccepted (map (λ file. file.now) files.now)) }
        ensures fault { IfErr result (λ fault. RefusesShelf (map (λ file. file.now) files.now) fault.kind fault.place fault.file) }
    {
        let joined = Joined::of(alloc, files)?;
        Shelf::open_joined(alloc, joined, empty)
    }

    /// Opens these files as `open` does, without a copy of their text. It reads them in one pass. If they are refused, it also reads
    /// each file by itself, to find which is at fault; and if the end of a file lies in an item of their text, it copies that.
    pub fn open_joined(alloc: Global, joined: Joined, empty: L) -> Result<Self, ShelfFault>
        requires joined { (files : List FileText) × AreJoined files joined }
        requires empty { L.items empty ≡ [] }
        ensures opened { IfOk result (λ shelf. shelf ≡ joined) }
        ensures files { OnOk result ((files : List FileText) → AreJoined files joined → AreAccepted files) }
        ensures fault { IfErr result (λ fault. (files : List FileText) → AreJoined files joined → RefusesShelf files fault.kind fault.place fault.file) }
    {
        let Joined { text, spans } = joined;
        match Database::open_or_return(alloc, text.into_vec(), empty) {
            Ok(database) => {
                check_each(alloc, &database, spans.as_slice())?;
                Ok(Shelf { database, spans })
            }
            Err(unopened) => Err(first_fault(alloc, unopened, spans.as_slice())),
        }
    }

    /// The database of the shelf's text. It takes no memory.
    pub fn database(&self) -> &Database<L>
        ensures { result.now ≡ self.now.text }
    {
        &self.database
    }

    /// How many files there are. It takes no memory.
    pub fn file_count(&self) -> usize
        ensures { result ≡ length self.now.spans }
    {
        self.spans.as_slice().len()
    }

    /// Where each file begins and ends in the shelf's text, in bytes. It takes no memory.
    pub fn spans(&self) -> &[(usize, usize)]
        ensures { result.now ≡ self.now.spans }
    {
        self.spans.as_slice()
    }

    /// The file with this place of the shelf's text, and the place in that file; in a seam, the end of the file before it. Places
    /// are in bytes. It takes a search in the list of files, and no memory.
    pub fn locate(&self, place: usize) -> (usize, usize)
        ensures { (files : List FileText) → AreJoined files self.now → result ≡ located_in files place }
    {
        locate(self.spans.as_slice(), place)
    }

    /// The number that the first item of this file has in the shelf, and how many items the file has. A comment between two files
    /// has a number too, and is an item of neither file. If the file has no items, the number is that of the comment after the
    /// file, or the number of all items. It takes two binary searches in the list of items, which look up a place at each step,
    /// and no memory.
    pub fn items(&self, file: usize) -> (usize, usize)
        requires { file < length self.now.spans }
        ensures { (files : List FileText) (dbs : List Reading) → AreJoined files self.now → AllRead files dbs → result ≡ items_at dbs file }
    {
        let (start, end) = self.spans.as_slice()[file];
        let first = first_from(&self.database, start);
        let next = first_from(&self.database, end);
        (first, next.saturating_sub(first))
    }
}
