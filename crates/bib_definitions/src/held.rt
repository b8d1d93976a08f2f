//! The definitions of one name.

ghost use Rattle.std.specs.Prelude.{◌≡◌, ◌≤◌, ◌+◌, ◌∷◌, [], nat_lt, true, false, length, insert, vec_len, vec_capacity, IfOk};
ghost use Rattle.std.specs.List.Sorted.{IsPartitionPoint};
ghost use Rattle.bib_definitions.specs.ByName.{with_definition, without_label, Ascends};
ghost use Rattle.bib_definitions.specs.Held.{definitions_held, HasRoom, Fits};

use bib_text::Text;
use std::alloc::{AllocError, Global};
use std::slice::from_ref;

/// A definition: the label that stands for its place among all definitions of the file, and the text that it gives.
#[derive(Drop)]
pub(crate) struct Definition {
    pub label: usize,
    pub text: Text,
}

/// The definitions of a name in the order of their labels. A single definition takes no memory of its own.
#[derive(Drop)]
pub(crate) enum Held {
    Nothing,
    One(Definition),
    Many(Vec<Definition>),
}

impl Held {
    /// The definitions.
    pub(crate) fn as_slice(&self) -> &[Definition]
        ensures { result.now ≡ definitions_held self.now }
    {
        match self {
            Held::Nothing => &[],
            Held::One(definition) => from_ref(definition),
            Held::Many(all) => all.as_slice(),
        }
    }

    /// Memory for these definitions and one more, if they have no room for it.
    pub(crate) fn room(&self, alloc: Global) -> Result<Vec<Definition>, AllocError>
        ensures { IfOk result (λ room. Fits self.now room) }
    {
        match self {
            Held::Nothing => Ok(Vec::new(alloc)),
            Held::One(_) => Vec::with_capacity(alloc, 2),
            Held::Many(all) => room_beside(alloc, all),
        }
    }

    /// These definitions with one more, in the order of their labels. If they have no room for it, all of them move to
    /// `room`. It asks for no more memory.
    pub(crate) fn with(self, room: Vec<Definition>, definition: Definition) -> Held
        requires fits { Fits self room }
        requires ascend { Ascends (definitions_held self) }
        ensures { definitions_held result ≡ with_definition definition (definitions_held self) }
    {
        match self {
            Held::Nothing => Held::One(definition),
            Held::One(first) => Held::Many(ordered(room, first, definition)),
            Held::Many(all) => {
                let place = count_below(&all, definition.label);
                Held::Many(longer(all, room, place, definition))
            }
        }
    }

    /// These definitions without the one that has this label. It asks for no memory.
    pub(crate) fn without(self, label: usize) -> Held
        requires { Ascends (definitions_held self) }
        ensures { definitions_held result ≡ without_label label (definitions_held self) }
    {
        match self {
            Held::Nothing => Held::Nothing,
            Held::One(definition) => {
                if definition.label == label {
                    Held::Nothing
                } else {
                    Held::One(definition)
                }
            }
            Held::Many(all) => Held::Many(shorter(all, label)),
        }
    }
}

/// How many of the definitions have a label below this one.
pub(crate) fn count_below(all: &[Definition], label: usize) -> usize
    requires { Ascends all.now }
    ensures within { result ≤ length all.now }
    ensures point { IsPartitionPoint (λ d. nat_lt d.label label ≡ true) (λ d. nat_lt d.label label ≡ false) all.now result }
{
    all.partition_point(|d| d.label < label)
}

/// Memory for twice as many definitions and one more, if these fill their own memory.
fn room_beside(alloc: Global, all: &Vec<Definition>) -> Result<Vec<Definition>, AllocError>
    ensures { IfOk result (λ room. vec_capacity all.now ≤ vec_len all.now → HasRoom room (vec_len all.now + 1)) }
{
    if all.len() < all.capacity() {
        return Ok(Vec::new(alloc));
    }
    Vec::with_capacity(alloc, 2 * all.len() + 1)
}

/// Two definitions in the order of their labels.
fn ordered(room: Vec<Definition>, first: Definition, new: Definition) -> Vec<Definition>
    requires { HasRoom room 2 }
    ensures { result.items ≡ with_definition new (first ∷ []) }
{
    if first.label < new.label {
        return pair(room, first, new);
    }
    pair(room, new, first)
}

/// Two definitions.
fn pair(room: Vec<Definition>, first: Definition, second: Definition) -> Vec<Definition>
    requires { HasRoom room 2 }
    ensures { result.items ≡ first ∷ second ∷ [] }
{
    let mut all = room;
    all.push_reserved(first);
    all.push_reserved(second);
    all
}

/// These definitions with one more at a place. If they fill their own memory, all of them move to `room`.
fn longer(
    mut all: Vec<Definition>,
    mut room: Vec<Definition>,
    place: usize,
    definition: Definition,
) -> Vec<Definition>
    requires within { place ≤ length all.items }
    requires room { vec_capacity all ≤ vec_len all → HasRoom room (vec_len all + 1) }
    ensures { result.items ≡ insert all.items place definition }
{
    if all.len() < all.capacity() {
        return placed(all, place, definition);
    }
    match room.append(&mut all) {
        Ok(()) => {}
        Err(_) => unreachable!(),
    }
    placed(room, place, definition)
}

/// These definitions with one more at a place.
fn placed(mut all: Vec<Definition>, place: usize, definition: Definition) -> Vec<Definition>
    requires within { place ≤ length all.items }
    requires room { vec_len all + 1 ≤ vec_capacity all }
    ensures { result.items ≡ insert all.items place definition }
{
    match all.insert(place, definition) {
        Ok(()) => all,
        Err(_) => unreachable!(),
    }
}

/// These definitions without the one that has this label.
fn shorter(mut all: Vec<Definition>, label: usize) -> Vec<Definition>
    requires { Ascends all.items }
    ensures { result.items ≡ without_label label all.items }
{
    let place = count_below(&all, label);
    if place < all.len() && all[place].label == label {
        all.remove(place);
    }
    all
}
