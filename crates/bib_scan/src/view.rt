//! A view of an item: its parts, as slices of the file.

ghost use Rattle.std.specs.Prelude.{◌≡◌, ◌≤◌, length};
ghost use Rattle.bib_spec.specs.Bytes.{name_limit};
ghost use Rattle.bib_scan.specs.FieldsLeft.{first_row, read_head, read_opening};
ghost use Rattle.bib_scan.specs.DelimiterView.{delimiter_view};
ghost use Rattle.bib_spec.specs.Tree.{Tree, IsTree, tree_bytes};

use crate::body::key_len;
use crate::fields::Fields;
use crate::note::Note;
use crate::opening::Delimiter;
use crate::spans::{past_space, split_type_name, text_from};
use bib_text::same_folded;
use std::marker::Model;

/// The kinds of items.
#[derive(Clone, Copy, Debug, PartialEq, Eq)]
pub enum Kind {
    Entry,
    Macro,
    Preamble,
    Comment,
}

impl Kind {
    ghost use Rattle.bib_scan.specs.FieldsLeft.{kind_named, kind_after};

    /// The kind of item that has this type.
    fn named(type_name: &[u8]) -> Self
        ensures { result ≡ kind_named type_name.now }
    {
        if same_folded(type_name, b"comment") {
            Kind::Comment
        } else if same_folded(type_name, b"string") {
            Kind::Macro
        } else if same_folded(type_name, b"preamble") {
            Kind::Preamble
        } else {
            Kind::Entry
        }
    }

    /// The kind of item that may have the fields after the first one: only an entry has more than one field.
    pub(crate) fn after_field(self) -> Self
        ensures { result ≡ kind_after self }
    {
        match self {
            Kind::Entry => Kind::Entry,
            Kind::Macro | Kind::Preamble | Kind::Comment => Kind::Comment,
        }
    }
}

/// An item as slices of the file: it takes no memory. A contract sees the view of the item's tree.
#[derive(Drop)]
pub struct ItemView<'a> {
    kind: Kind,
    body: &'a [u8],
    trail: &'a [u8],
    key: &'a [u8],
    key_at: usize,
    // the bytes after the key, or after the opening of an item without a key
    inside: &'a [u8],
}

impl<'a> Model for ItemView<'a> {
    ghost use Rattle.std.specs.Prelude.{◌≤◌, length};
    ghost use Rattle.bib_scan.specs.View.{View};
    ghost use Rattle.bib_scan.specs.FieldsLeft.{all_fields_left, first_row, read_head};

    ghost Value = { View };

    ghost view = { λ v. record {
      kind = v.kind;
      body = v.body.now;
      trail = v.trail.now;
      type_name = (read_head v.body.now).0;
      key = v.key.now;
      key_at = v.key_at;
      fields = all_fields_left v.kind (length v.body.now) (first_row v.kind v.inside.now);
    } };

    ghost invariant = { λ v. length v.inside.now ≤ length v.body.now };
}

impl<'a> ItemView<'a> {
    ghost use Rattle.std.specs.Prelude.{◌≡◌, ◌<◌, ◌^◌, length};
    ghost use Rattle.bib_scan.specs.View.{view_of, with_trail};
    ghost use Rattle.bib_scan.specs.Note.{note_of};

    /// The view of the item with this body and trail. It reads the body up to the key's end, in time linear in that length.
    pub fn of(body: &'a [u8], trail: &'a [u8]) -> Self
        ensures slices { (result.body ≡ body.now) × (result.trail ≡ trail.now) }
        ensures item { (tree : Tree) → IsTree name_limit tree → tree_bytes tree ≡ body.now → result ≡ view_of (record { tree = tree; trail = trail.now }) }
    {
        let (type_name, after_type) = split_head(body);
        let (delimiter, inside) = split_opening(past_space(after_type));
        match Kind::named(type_name) {
            Kind::Entry => {
                let (key, after_key) = inside.split_at(key_len(delimiter, inside));
                ItemView {
                    kind: Kind::Entry,
                    body,
                    trail,
                    key,
                    key_at: body.len() - inside.len(),
                    inside: after_key,
                }
            }
            kind => ItemView {
                kind,
                body,
                trail,
                key: b"",
                key_at: 0,
                inside,
            },
        }
    }

    /// The view of the item with this body, trail and note. It reads no byte of an entry.
    pub fn noted(body: &'a [u8], trail: &'a [u8], note: Note) -> Self
        ensures slices { (result.body ≡ body.now) × (result.trail ≡ trail.now) }
        ensures item { (tree : Tree) → IsTree name_limit tree → tree_bytes tree ≡ body.now → note ≡ note_of tree → result ≡ view_of (record { tree = tree; trail = trail.now }) }
    {
        let (key_at, key_len) = (note.key_at as usize, note.key_len as usize);
        if key_at == 0 || key_at + key_len > body.len() {
            return ItemView::of(body, trail);
        }
        let (key, after_key) = text_from(body, key_at).split_at(key_len);
        ItemView {
            kind: Kind::Entry,
            body,
            trail,
            key,
            key_at,
            inside: after_key,
        }
    }

    /// Whether it is an entry, a macro definition, a preamble or a comment.
    pub fn kind(&self) -> Kind
        ensures { result ≡ self.now.kind }
    {
        self.kind
    }

    /// The item's own bytes, from its at-sign to its closing delimiter; the body of a comment is its head alone.
    pub fn body(&self) -> &'a [u8]
        ensures { result.now ≡ self.now.body }
    {
        self.body
    }

    /// The text between the body and the next item.
    pub fn trail(&self) -> &'a [u8]
        ensures { result.now ≡ self.now.trail }
    {
        self.trail
    }

    /// The word after the at-sign, as the file has it. It is read from the body.
    pub fn type_name(&self) -> &'a [u8]
        ensures { result.now ≡ self.now.type_name }
    {
        split_head(self.body).0
    }

    /// An entry's key, as the file has it. It is empty for other items, and may be empty for an entry.
    pub fn key(&self) -> &'a [u8]
        ensures { result.now ≡ self.now.key }
    {
        self.key
    }

    /// The place of the key in the body, in bytes from 0; it is 0 for all items except entries.
    pub fn key_at(&self) -> usize
        ensures { result ≡ self.now.key_at }
    {
        self.key_at
    }

    /// The item's fields in order; each is read when the iterator reaches it.
    pub fn fields(&self) -> Fields<'a>
        ensures fields { result ≡ self.now.fields }
        // so that a usize can count the fields
        ensures count { length result < 2 ^ 64 }
    {
        let rows = first_row(self.kind, self.inside);
        Fields::from_rest(self.kind, self.body.len(), rows)
    }

    /// The same item with another trail.
    pub fn with_trail(self, trail: &'a [u8]) -> Self
        ensures { result ≡ with_trail self.entry trail.now }
    {
        ItemView { trail, ..self }
    }
}

/// The type name of a body, and the text after it.
fn split_head(body: &[u8]) -> (&[u8], &[u8])
    ensures parts { (result.0.now, result.1.now) ≡ read_head body.now }
    ensures within { length result.1.now ≤ length body.now }
{
    match body {
        [_, after @ ..] => split_type_name(past_space(after)),
        [] => (body, body),
    }
}

/// The opening delimiter, and the text after it and white space.
fn split_opening(text: &[u8]) -> (Delimiter, &[u8])
    ensures parts { (delimiter_view result.0, result.1.now) ≡ read_opening text.now }
    ensures within { length result.1.now ≤ length text.now }
{
    match text {
        [first, inside @ ..] => (Delimiter::of(*first), past_space(inside)),
        [] => (Delimiter::Brace, text),
    }
}

/// The text from an item's first field on, given the text after its key or, for an item without a key, after its opening.
fn first_row(kind: Kind, inside: &[u8]) -> &[u8]
    ensures rows { result.now ≡ first_row kind inside.now }
    ensures within { length result.now ≤ length inside.now }
{
    match kind {
        Kind::Entry => past_space(inside),
        Kind::Macro | Kind::Preamble | Kind::Comment => inside,
    }
}
