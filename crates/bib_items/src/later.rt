//! What a page has once items came to it or parts were sought: bytes of its own, and marks. Most pages have neither, so that
//! both are in one box.

ghost use Rattle.std.specs.Prelude.{◌≡◌, ◌≢◌, ◌++◌, ◌⊎◌, length, false, [], Some, None, IfOk, OnOk};
ghost use Rattle.bib_spec.specs.Text.{Text as Bytes};
ghost use Rattle.bib_items.specs.Items.{item};
ghost use Rattle.bib_items.specs.Spans.{item_in, LiesInEither, Extends};
ghost use Rattle.bib_items.specs.Seeking.{LacksPart};
ghost use Rattle.bib_items.specs.PartMarks.{IsCovered};
ghost use Rattle.bib_items.specs.PageOwn.{nothing_own, only_bytes};

use crate::marking::{Marks, cover};
use crate::searching::Search;
use crate::span::Span;
use std::alloc::{AllocError, Global};
use std::marker::Model;

/// The page's own bytes, and the marks of its items' parts.
#[derive(Drop)]
struct Kept {
    own: Vec<u8>,
    // once they were asked for
    marks: Option<Marks>,
    // whether there were too many of them when they were asked for
    is_crowded: bool,
}

/// How they are kept.
#[derive(Drop)]
enum Held {
    Nothing,
    Boxed(Box<Kept>),
}

/// What a page has besides the text that it shares and the places of its items: its own bytes, which are those of the items
/// that came later, and the marks of its items' parts.
#[derive(Drop)]
pub(crate) struct Later {
    held: Held,
}

impl Model for Later {
    ghost use Rattle.bib_items.specs.PageOwn.{PageOwn, own_of};

    ghost Value = { PageOwn };

    ghost view = { λ l. own_of l.held };
}

/// Appends a body and a trail to the page's own bytes, and returns their span. The shared text has `shared_len` bytes.
pub(crate) fn append(
    shared_len: usize,
    own: &mut Vec<u8>,
    body: &[u8],
    trail: &[u8],
) -> Result<Span, AllocError>
    ensures extends { Extends own.old.items own.new.items }
    ensures lies { IfOk result (λ span. (shared : Bytes) → length shared ≡ shared_len → LiesInEither shared own.new.items span) }
    ensures item { IfOk result (λ span. (shared : Bytes) → length shared ≡ shared_len → item_in (shared ++ own.new.items) span ≡ item body.now trail.now) }
{
    let Some(start) = shared_len.checked_add(own.len()) else {
        return Err(AllocError);
    };
    let span = Span::of(start, body.len(), trail.len())?;
    own.extend_from_slice(body)?;
    own.extend_from_slice(trail)?;
    Ok(span)
}

/// A box with these bytes, and without marks.
fn boxed(alloc: Global, own: Vec<u8>) -> Result<Box<Kept>, AllocError>
    ensures own { IfOk result (λ kept. kept.value.own.items ≡ own.items) }
    ensures marks { IfOk result (λ kept. kept.value.marks ≡ None) }
{
    let kept = Kept {
        own,
        marks: None,
        is_crowded: false,
    };
    Ok(Box::new(alloc, kept)?)
}

impl Later {
    /// Neither bytes nor marks. It asks for no memory.
    pub(crate) fn nothing() -> Self
        ensures { result ≡ nothing_own }
    {
        Later {
            held: Held::Nothing,
        }
    }

    /// These bytes, and no marks.
    pub(crate) fn of(alloc: Global, own: Vec<u8>) -> Result<Later, AllocError>
        ensures { IfOk result (λ later. later ≡ only_bytes own.items) }
    {
        if own.as_slice().is_empty() {
            return Ok(Later::nothing());
        }
        Ok(Later {
            held: Held::Boxed(boxed(alloc, own)?),
        })
    }

    /// The page's own bytes.
    pub(crate) fn own(&self) -> &[u8]
        ensures { result.now ≡ self.now.own }
    {
        match &self.held {
            Held::Nothing => &[],
            Held::Boxed(kept) => kept.own.as_slice(),
        }
    }

    /// Puts other bytes in the place of the page's own.
    pub(crate) fn set_own(&mut self, own: Vec<u8>)
        ensures own { self.old.own ≢ [] → self.new.own ≡ own.items }
        ensures marks { self.new.marks ≡ self.old.marks }
    {
        match &mut self.held {
            Held::Nothing => {}
            Held::Boxed(kept) => kept.own = own,
        }
    }

    /// Makes room for bytes and marks.
    fn begin(&mut self, alloc: Global) -> Result<(), AllocError>
        ensures { self.new ≡ self.old }
    {
        if let Held::Nothing = self.held {
            self.held = Held::Boxed(boxed(alloc, Vec::new(alloc))?);
        }
        Ok(())
    }

    /// Appends an item's body and trail to the page's own bytes, and returns their span. The shared text has `shared_len`
    /// bytes. If marks were made, those of the item are added.
    pub(crate) fn append(
        &mut self,
        alloc: Global,
        shared_len: usize,
        body: &[u8],
        trail: &[u8],
    ) -> Result<Span, AllocError>
        ensures extends { Extends self.old.own self.new.own }
        ensures kept { (other : Bytes) → IsCovered self.old.marks other → IsCovered self.new.marks other }
        ensures added { OnOk result (IsCovered self.new.marks body.now) }
        ensures lies { IfOk result (λ span. (shared : Bytes) → length shared ≡ shared_len → LiesInEither shared self.new.own span) }
        ensures item { IfOk result (λ span. (shared : Bytes) → length shared ≡ shared_len → item_in (shared ++ self.new.own) span ≡ item body.now trail.now) }
    {
        self.begin(alloc)?;
        match &mut self.held {
            Held::Nothing => Err(AllocError),
            Held::Boxed(kept) => {
                cover(alloc, &mut kept.marks, body);
                append(shared_len, &mut kept.own, body, trail)
            }
        }
    }

    /// Whether marks were made, or would be too many.
    pub(crate) fn is_noted(&self) -> bool {
        match &self.held {
            Held::Nothing => false,
            Held::Boxed(kept) => kept.is_crowded || kept.marks.is_some(),
        }
    }

    /// Takes these marks, unless memory is refused.
    pub(crate) fn note(&mut self, alloc: Global, marks: Marks)
        ensures own { self.new.own ≡ self.old.own }
        ensures marks { (self.new.marks ≡ Some marks) ⊎ (self.new.marks ≡ self.old.marks) }
    {
        if self.begin(alloc).is_err() {
            return;
        }
        match &mut self.held {
            Held::Nothing => {}
            Held::Boxed(kept) => kept.marks = Some(marks),
        }
    }

    /// Records that there would be too many marks, unless memory is refused.
    pub(crate) fn note_crowd(&mut self, alloc: Global)
        ensures { self.new ≡ self.old }
    {
        if self.begin(alloc).is_err() {
            return;
        }
        match &mut self.held {
            Held::Nothing => {}
            Held::Boxed(kept) => kept.is_crowded = true,
        }
    }

    /// Whether an item may have a part that is sought, as far as the marks show. Without marks, any item may.
    pub(crate) fn may_have(&self, sought: &Search<'_>) -> bool
        ensures { result ≡ false → (body : Bytes) → IsCovered self.now.marks body → LacksPart sought.now body }
    {
        match &self.held {
            Held::Nothing => true,
            Held::Boxed(kept) => match &kept.marks {
                Some(marks) => sought.is_among(marks),
                None => true,
            },
        }
    }
}
