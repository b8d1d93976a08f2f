//! Edits of a database.

use bib_text::{Seq, Text};

/// The greatest depth of records: how many generations of parents an entry may be asked to inherit from (dialect). The least is 1, which is
/// BibTeX's.
pub const DEPTH_LIMIT: u8 = 8;

/// An entry to be added: its type, its key, and its fields' names and values, as bytes.
#[derive(Debug, Drop)]
pub struct NewEntry {
    pub kind_name: Text,
    pub key: Text,
    pub fields: Seq<(Text, Text)>,
}

/// An edit of a database. A key names the first entry that has it, folded; `place` is an item's position among the items,
/// from 0. The key of an entry that is there, a field's name and the name of a macro to set or remove may end with a comma
/// and a number from 1: `t,2` is the second of that name in file order.
#[derive(Debug, Drop)]
pub enum Edit {
    /// Sets the field of this entry to this value; if the entry has no such field, it is added after the last field.
    SetField {
        key: Text,
        field: Text,
        value: Text,
    },
    /// Removes the field of this entry, with the comma before it.
    DropField {
        key: Text,
        field: Text,
    },
    /// Adds the entry before item `place`.
    AddEntry {
        place: usize,
        entry: NewEntry,
    },
    /// Adds the entries after the last item, in order.
    AddMany {
        entries: Seq<NewEntry>,
    },
    /// Removes the entry; the text after it is kept.
    RemoveEntry {
        key: Text,
    },
    /// Takes the entry out, and puts it in again before item `place` of the other items.
    MoveEntry {
        key: Text,
        place: usize,
    },
    /// Gives the entry another key, and changes each crossref that names it to the new key.
    RenameKey {
        from: Text,
        to: Text,
    },
    /// Gives all entries generated keys at once, made from their records at this depth, from 1 to `DEPTH_LIMIT`, and
    /// changes each crossref to the new key of its target.
    RegenerateKeys {
        depth: u8,
    },
    /// Gives the macro another name, in its definition and in each use after that.
    RenameMacro {
        from: Text,
        to: Text,
    },
    /// Replaces each use of the macro after its definition by the macro's text, in braces, and removes the definition.
    InlineMacro {
        name: Text,
    },
    /// Replaces each part that is the text, in braces or in quotes, by a use of a new macro, defined as the text before the
    /// first use.
    IntroduceMacro {
        name: Text,
        text: Text,
    },
    /// Gives the entry another type, written as here.
    SetType {
        key: Text,
        kind_name: Text,
    },
    /// Removes the definition of the macro, which no part after it uses; the text after it is kept.
    UndefineMacro {
        name: Text,
    },
    /// Gives each field of this name another name, written as here: in every entry, or in the entry that this key names.
    RenameField {
        from: Text,
        to: Text,
        key: Option<Text>,
    },
    /// Adds a definition of the macro as this value after the last definition before the first entry.
    DefineMacro {
        name: Text,
        value: Text,
    },
    /// Gives the definition of the macro this value.
    SetMacro {
        name: Text,
        value: Text,
    },
}
