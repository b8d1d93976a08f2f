//! The definitions of each name.

ghost use Rattle.std.specs.Prelude.{◌≡◌, [], ◌<◌, ◌≤◌, length, IfSome, IsSome, OnOk, OnErr};
ghost use Rattle.std.specs.Option.{option_copied};
ghost use Rattle.bib_spec.specs.Bytes.{name_limit};
ghost use Rattle.bib_spec.specs.Text.{Text, folded};
ghost use Rattle.folded_map.specs.FoldedMap.{value_at};
ghost use Rattle.bib_definitions.specs.Held.{Fits};
ghost use Rattle.bib_definitions.specs.ByName.{definitions_of, each_held, text_before, texts_before, with_definition, without_label, Gives, Ascends, AreInOrder};

use crate::held::{Definition, Held, count_below};
use bib_value::month;
use folded_map::FoldedMap;
use std::alloc::{AllocError, Global};
use std::marker::Model;

/// All definitions of a file. A contract sees the defined names, folded, each with its definitions in file order.
#[derive(Drop)]
pub(crate) struct ByName {
    lists: FoldedMap<Held>,
}

impl Model for ByName {
    ghost use Rattle.bib_definitions.specs.ByName.{Defined, each_held, AreInOrder};

    ghost Value = { Defined };

    ghost view = { λ d. each_held d.lists };

    ghost invariant = { λ d. AreInOrder (each_held d.lists) };
}

impl ByName {
    /// No definitions: only the names of months stand for texts. It takes no memory.
    pub(crate) fn new(alloc: Global) -> Self
        ensures { (name : Text) → definitions_of result name ≡ [] }
    {
        ByName {
            lists: FoldedMap::new(alloc),
        }
    }

    /// Puts a definition among those of its name, in the order of their labels. If memory is refused, nothing changes. It
    /// takes time in the logarithm of their count, and in the count of those after it.
    pub(crate) fn put(&mut self, name: &[u8], definition: Definition) -> Result<(), AllocError>
        requires { length name.now ≤ name_limit }
        ensures ok { OnOk result (Gives self.old name.now (with_definition definition (definitions_of self.old (folded name.now))) self.new) }
        ensures err { OnErr result (self.new ≡ self.old) }
    {
        put(&mut self.lists, name, definition)
    }

    /// Takes the definition with this label from those of its name. It asks for no memory.
    pub(crate) fn take(&mut self, name: &[u8], label: usize)
        ensures { Gives self.old name.now (without_label label (definitions_of self.old (folded name.now))) self.new }
    {
        take(&mut self.lists, name, label);
    }

    /// The definitions of a name. It takes time in the length of the name.
    pub(crate) fn of(&self, name: &[u8]) -> &[Definition]
        ensures is { result.now ≡ definitions_of self.now (folded name.now) }
        ensures ascend { Ascends result.now }
    {
        match self.lists.get(name) {
            Some(held) => held.as_slice(),
            None => &[],
        }
    }

    /// What the name stands for after the definitions with a label below this one. It takes time in the length of the name
    /// and, for a name that is defined m times, log m; it takes no memory.
    pub(crate) fn text_before(&self, label: usize, name: &[u8]) -> Option<&[u8]>
        ensures { option_copied result ≡ texts_before self.now label (folded name.now) }
    {
        match text_before(self.of(name), label) {
            Some(text) => Some(text),
            None => month(name),
        }
    }
}

/// The text of the last definition with a label below this one.
fn text_before(definitions: &[Definition], label: usize) -> Option<&[u8]>
    requires { Ascends definitions.now }
    ensures { option_copied result ≡ text_before label definitions.now }
{
    let count = count_below(definitions, label);
    if count == 0 {
        return None;
    }
    Some(definitions[count - 1].text.as_slice())
}

/// Puts a definition among those that its name has. If memory is refused, nothing changes.
fn put(lists: &mut FoldedMap<Held>, name: &[u8], definition: Definition) -> Result<(), AllocError>
    requires short { length name.now ≤ name_limit }
    requires order { AreInOrder (each_held lists.old) }
    ensures ok { OnOk result (Gives (each_held lists.old) name.now (with_definition definition (definitions_of (each_held lists.old) (folded name.now))) (each_held lists.new)) }
    ensures err { OnErr result (lists.new ≡ lists.old) }
{
    match lists.get(name) {
        Some(held) => {
            let room = held.room(lists.allocator())?;
            put_among(lists, name, room, definition);
        }
        None => {
            lists.insert(name, Held::One(definition))?;
        }
    }
    Ok(())
}

/// Puts a definition among those that its name has. If they have no room for it, all of them move to `room`. It asks for no
/// more memory.
fn put_among(
    lists: &mut FoldedMap<Held>,
    name: &[u8],
    room: Vec<Definition>,
    definition: Definition,
)
    requires some { IsSome (value_at lists.old (folded name.now)) }
    requires fits { IfSome (value_at lists.old (folded name.now)) (λ held. Fits held room) }
    requires order { AreInOrder (each_held lists.old) }
    ensures { Gives (each_held lists.old) name.now (with_definition definition (definitions_of (each_held lists.old) (folded name.now))) (each_held lists.new) }
{
    let Some(held) = lists.replace(name, Held::Nothing) else {
        unreachable!();
    };
    lists.replace(name, held.with(room, definition));
}

/// Takes the definition with this label from those of its name. It asks for no memory.
fn take(lists: &mut FoldedMap<Held>, name: &[u8], label: usize)
    requires { AreInOrder (each_held lists.old) }
    ensures { Gives (each_held lists.old) name.now (without_label label (definitions_of (each_held lists.old) (folded name.now))) (each_held lists.new) }
{
    let Some(held) = lists.replace(name, Held::Nothing) else {
        return;
    };
    lists.replace(name, held.without(label));
}
