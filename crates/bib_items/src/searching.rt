//! Searches for parts: what is found out once, and then asked of each page and of each item.

ghost use Rattle.std.specs.Prelude.{◌≡◌, true, false};
ghost use Rattle.bib_spec.specs.Text.{Text as Bytes};
ghost use Rattle.bib_items.specs.Seeking.{LacksPart};
ghost use Rattle.bib_items.specs.PartMarks.{HasItemMarks};
ghost use Rattle.bib_items.specs.Glancing.{head_of};

use crate::glancing::{lacks_word, rarest};
use crate::marking::{Marks, head, sought_mark};
use crate::seeking::Sought;
use std::marker::Model;

/// The first bytes of the name or of the text that is sought.
fn head_of(sought: Sought<'_>) -> &[u8]
    ensures { result.now ≡ head_of sought.entry }
{
    match sought {
        Sought::Nothing => b"",
        Sought::Uses(name) => head(name),
        Sought::Holds(text) => head(text),
    }
}

/// A search for parts. A contract sees the parts that are sought.
#[derive(Drop)]
pub(crate) struct Search<'a> {
    sought: Sought<'a>,
    mark: Option<u32>,
    // the first bytes of the name or of the text
    head: &'a [u8],
    // the number of a byte of these that is rare
    rare: usize,
}

impl<'a> Model for Search<'a> {
    ghost use Rattle.bib_items.specs.declared.seeking.Sought.{Sought};
    ghost use Rattle.bib_items.specs.Glancing.{IsSearch};

    ghost Value = { Sought };

    ghost view = { λ s. s.sought };

    ghost invariant = { λ s. IsSearch s.sought s.mark s.head.now s.rare };
}

impl<'a> Search<'a> {
    /// The search for these parts.
    pub(crate) fn of(sought: Sought<'a>) -> Self
        ensures { result ≡ sought.entry }
    {
        let head = head_of(sought);
        Search {
            sought,
            mark: sought_mark(sought),
            head,
            rare: rarest(head),
        }
    }

    /// Whether an item whose marks are among these may have a part that is sought.
    pub(crate) fn is_among(&self, marks: &Marks) -> bool
        ensures { result ≡ false → (body : Bytes) → HasItemMarks marks.now body → LacksPart self.now body }
    {
        match self.mark {
            Some(mark) => marks.has(mark),
            None => false,
        }
    }

    /// Whether the item with this body has no part that is sought, as far as a look at its bytes shows.
    pub(crate) fn passes(&self, body: &[u8]) -> bool
        ensures { result ≡ true → LacksPart self.now body.now }
    {
        match self.sought {
            Sought::Nothing => true,
            Sought::Uses(_) | Sought::Holds(_) => !self.head.is_empty()
                && lacks_word(body, self.head, self.rare),
        }
    }
}
