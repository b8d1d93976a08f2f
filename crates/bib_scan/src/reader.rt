//! Reading a file item by item.

ghost use Rattle.std.specs.Prelude.{◌≡◌, ◌++◌, [], ◌∷◌, OnOk, OnErr};

use crate::body::past_command;
use crate::fault::ReadFault;
use crate::layout::{Layout, Span};
use crate::note::Note;
use crate::opening::next_command;
use crate::spans::text_from;
use std::alloc::{AllocError, Global};
use std::marker::Model;

/// The longest file that is read, in bytes. (dialect)
pub const FILE_LIMIT: usize = 16_777_216;

/// An item that was read: its body, its note, and its byte offset in the file, from 0.
#[derive(Clone, Copy)]
pub struct ItemRead<'a> {
    pub body: &'a [u8],
    pub note: Note,
    pub start: usize,
}

/// Reads a file item by item, in one pass over its bytes. It keeps two places and a note for each item. It does not
/// recurse, however deep braces nest.
#[derive(Drop)]
pub struct Reader<'a> {
    bytes: &'a [u8],
    // from the next item on
    rest: &'a [u8],
    front_len: usize,
    spans: Vec<Span>,
    notes: Vec<Note>,
}

impl<'a> Model for Reader<'a> {
    ghost use Rattle.std.specs.Prelude.{◌≡◌, ◌≤◌, length};
    ghost use Rattle.bib_spec.specs.Bytes.{name_limit, file_limit};
    ghost use Rattle.bib_scan.specs.LeftToRight.{next_command};
    ghost use Rattle.bib_scan.specs.Progress.{Progress};
    ghost use Rattle.bib_scan.specs.ReadSoFar.{CommandsOn, NotedOn};

    ghost Value = { Progress };

    ghost view = { λ r. record { file = r.bytes.now; count = length r.spans.items; left = length r.rest.now } };

    ghost invariant = { λ r. (length r.bytes.now ≤ file_limit) × (r.front_len ≡ next_command r.bytes.now) × CommandsOn name_limit r.bytes.now r.rest.now r.spans.items × NotedOn r.bytes.now r.rest.now r.spans.items r.notes.items };
}

impl<'a> Reader<'a> {
    ghost use Rattle.std.specs.Prelude.{◌≡◌, ◌+◌, ◌<◌, ◌≤◌, None, length, IfOk, IfErr, IfSome, OnOk, OnErr};
    ghost use Rattle.bib_spec.specs.Bytes.{file_limit};
    ghost use Rattle.bib_spec.specs.Fault.{IsReadFault};
    ghost use Rattle.bib_scan.specs.Layout.{IsLayoutOf};
    ghost use Rattle.bib_scan.specs.Note.{IsNoteOf};
    ghost use Rattle.bib_scan.specs.Progress.{IsItemOf, AreAllOf};

    /// Begins to read a file, and reads its front. Refused with 9 at `FILE_LIMIT` if the file is longer.
    pub fn new(alloc: Global, bytes: &'a [u8]) -> Result<Self, ReadFault>
        ensures start { IfOk result (λ reader. (reader.file ≡ bytes.now) × (reader.count ≡ 0) × (reader.left ≤ length bytes.now)) }
        ensures short { OnOk result (length bytes.now ≤ file_limit) }
        ensures fault { IfErr result (λ fault. IsReadFault bytes.now fault.kind fault.place) }
    {
        if bytes.len() > FILE_LIMIT {
            return Err(ReadFault::TOO_LONG);
        }
        let front_len = next_command(bytes);
        Ok(Reader {
            bytes,
            rest: text_from(bytes, front_len),
            front_len,
            spans: Vec::new(alloc),
            notes: Vec::new(alloc),
        })
    }

    /// Reads the next item, if there is one, in time linear in the bytes up to the item after it. Refused with 1 to 7 at
    /// the first byte at which no valid file continues, and with 10 if memory ran out; the reader is then unchanged.
    pub fn next_item(&mut self) -> Result<Option<ItemRead<'a>>, ReadFault>
        ensures file { self.new.file ≡ self.old.file }
        ensures item { IfOk result (λ item. IfSome item (λ read. IsItemOf self.old.file self.old.count read.body.now read.start)) }
        ensures note { IfOk result (λ item. IfSome item (λ read. IsNoteOf read.body.now read.note)) }
        ensures count { IfOk result (λ item. IfSome item (λ _. (self.new.count ≡ self.old.count + 1) × (self.new.left < self.old.left))) }
        ensures done { IfOk result (λ item. item ≡ None → (self.new.left ≡ 0) × AreAllOf self.old.file self.old.count) }
        ensures fault { IfErr result (λ fault. IsReadFault self.old.file fault.kind fault.place) }
        ensures err { OnErr result (self.new ≡ self.old) }
    {
        if self.rest.is_empty() {
            return Ok(None);
        }
        let (after, head) = match past_command(self.rest) {
            Ok(read) => read,
            Err(stop) => {
                return Err(ReadFault {
                    kind: stop.fault.number(),
                    place: self.bytes.len() - stop.rest.len(),
                });
            }
        };
        let span = Span::of_left(self.bytes.len(), self.rest.len(), after.len());
        let note = Note::of(self.rest.len(), head);
        let body = self.rest.split_at(self.rest.len() - after.len()).0;
        match keep(&mut self.spans, &mut self.notes, span, note) {
            Ok(()) => {}
            Err(_) => return Err(ReadFault::MEMORY),
        }
        self.rest = text_from(after, next_command(after));
        Ok(Some(ItemRead {
            body,
            note,
            start: span.start as usize,
        }))
    }

    /// Reads the rest of the file, and returns the places of its front and items. Refused for the same reasons as
    /// `next_item`.
    pub fn finish(self) -> Result<Layout, ReadFault>
        ensures found { IfOk result (λ layout. IsLayoutOf self.entry.file layout) }
        ensures fault { IfErr result (λ fault. IsReadFault self.entry.file fault.kind fault.place) }
    {
        let mut reader = self;
        while let Some(_) = reader.next_item()? {}
        Ok(reader.into_layout())
    }

    /// The places of the front and the items, once the whole file is read.
    fn into_layout(self) -> Layout
        requires { self.left ≡ 0 }
        ensures { IsLayoutOf self.entry.file result }
    {
        Layout::new(self.front_len, self.spans, self.notes)
    }
}

/// Keeps an item's span and its note. If memory is refused, neither is kept.
#[inline(always)]
fn keep(
    spans: &mut Vec<Span>,
    notes: &mut Vec<Note>,
    span: Span,
    note: Note,
) -> Result<(), AllocError>
    ensures spans { OnOk result (spans.new.items ≡ spans.old.items ++ span ∷ []) }
    ensures notes { OnOk result (notes.new.items ≡ notes.old.items ++ note ∷ []) }
    ensures spans_err { OnErr result (spans.new.items ≡ spans.old.items) }
    ensures notes_err { OnErr result (notes.new.items ≡ notes.old.items) }
{
    spans.reserve(1)?;
    notes.reserve(1)?;
    spans.push_reserved(span);
    notes.push_reserved(note);
    Ok(())
}
