//! The macros that a file defines, and where.

ghost use Rattle.std.specs.Prelude.{◌≡◌, ◌≤◌, ◌++◌, ◌∷◌, suc, ℕ, List, length, map, OnOk, OnErr};
ghost use Rattle.bib_spec.specs.Bytes.{name_limit};
ghost use Rattle.bib_spec.specs.Text.{folded};
ghost use Rattle.bib_numbers.specs.Numbers.{PartAt, HaveNext};
ghost use Rattle.bib_definitions.specs.ByName.{definitions_of, with_definition, Gives};

use crate::by_name::ByName;
use crate::held::Definition;
use crate::macros_at::MacrosAt;
use bib_numbers::{Labels, Numbers};
use bib_text::{NAME_LIMIT, Text};
use std::alloc::{AllocError, Global};
use std::marker::Model;

/// How long the longest text of a month is: `September`.
const LONGEST_MONTH: usize = 9;

/// All definitions of a file, and the numbers that they have among its items. An item that comes or goes costs a few steps
/// for each page of definitions, and some for the definitions of one page; if it is a definition, also time in the
/// definitions of its name.
#[derive(Drop)]
pub struct Definitions {
    numbers: Numbers,
    labels: Labels,
    by_name: ByName,
    // no name stands for a longer text
    longest: usize,
}

impl Model for Definitions {
    ghost use Rattle.bib_definitions.specs.ByName.{AreAsLong};
    ghost use Rattle.bib_definitions.specs.Definitions.{Known};

    ghost Value = { Known };

    ghost view = { λ d. record { numbers = d.numbers; labels = d.labels; defined = d.by_name; longest = d.longest } };

    ghost invariant = { λ d. AreAsLong d.longest d.by_name };
}

impl Definitions {
    ghost use Rattle.std.specs.Prelude.{◌≡◌, ◌+◌, ◌<◌, ◌≤◌, ◌^◌, ◌++◌, ◌∷◌, [], true, false, max, ℕ, List, length, IfOk, OnOk, OnErr};
    ghost use Rattle.bib_spec.specs.Bytes.{name_limit};
    ghost use Rattle.bib_spec.specs.Reading.{Item};
    ghost use Rattle.bib_spec.specs.Texts.{months, macros_at};
    ghost use Rattle.bib_definitions.specs.Definitions.{label_at, texts_at, is_definition_of, is_definition_tree, definition_count, first_definition, AreDefinitionsOf, Defines, AreAtMost, AreSettled};
    ghost use Rattle.bib_definitions.specs.MacrosSeen.{macros_seen};

    /// No definitions: only the names of months stand for texts. It takes no memory.
    pub fn new(alloc: Global) -> Self
        ensures { AreDefinitionsOf [] result }
    {
        Definitions {
            numbers: Numbers::new(alloc),
            labels: Labels::new(alloc),
            by_name: ByName::new(alloc),
            longest: LONGEST_MONTH,
        }
    }

    /// Adds the definition that is item `n`, before the items with the numbers from `n` on, and returns whether it could. It
    /// can't if no label is left between those of its neighbours, which only happens after many others came there; nothing
    /// changes then, nor if memory is refused. The definitions after it may not depend on macros.
    pub fn insert(&mut self, n: usize, name: &[u8], text: Text) -> Result<bool, AllocError>
        ensures come { IfOk result (λ done. done ≡ true → (before after : List Item) (item : Item) → length before ≡ n → n + length after < 2 ^ 64 → is_definition_tree item.tree ≡ true
            → Defines (macros_at months before n) item.tree name.now text → AreSettled after → AreDefinitionsOf (before ++ after) self.old → AreDefinitionsOf (before ++ item ∷ after) self.new) }
        ensures longest { OnOk result (self.new.longest ≤ max self.old.longest (length text)) }
        ensures same { IfOk result (λ done. done ≡ false → self.new ≡ self.old) }
        ensures err { OnErr result (self.new ≡ self.old) }
    {
        // No item has a longer name.
        if name.len() > NAME_LIMIT {
            return Ok(false);
        }
        let k = self.numbers.rank(n).min(self.labels.count());
        let Some(label) = self.labels.make(k)? else {
            return Ok(false);
        };
        let len = text.as_slice().len();
        let definition = Definition { label, text };
        match put(&mut self.numbers, &mut self.by_name, n, name, definition) {
            Ok(()) => {}
            Err(fault) => {
                self.labels.remove(k);
                return Err(fault);
            }
        }
        self.longest = self.longest.max(len);
        Ok(true)
    }

    /// Removes the definition of this name that is item `n`. The definitions after it may not depend on macros. It asks for
    /// no memory.
    pub fn remove(&mut self, n: usize, name: &[u8])
        ensures go { (before after : List Item) (item : Item) → length before ≡ n → n + length after < 2 ^ 64 → is_definition_of name.now item.tree ≡ true → AreSettled after
            → AreDefinitionsOf (before ++ item ∷ after) self.old → AreDefinitionsOf (before ++ after) self.new }
        ensures longest { self.new.longest ≡ self.old.longest }
    {
        let Some(k) = self.numbers.position(n) else {
            return;
        };
        if k >= self.labels.count() {
            return;
        }
        self.by_name.take(name, self.labels.get(k));
        self.labels.remove(k);
        self.numbers.remove(n);
    }

    /// Makes way for an item that comes as item `n` and defines nothing. At item `n` macros stand for what they stood for.
    pub fn make_way(&mut self, n: usize)
        ensures come { (before after : List Item) (item : Item) → length before ≡ n → n + length after < 2 ^ 64 → is_definition_tree item.tree ≡ false → AreDefinitionsOf (before ++ after) self.old → AreDefinitionsOf (before ++ item ∷ after) self.new }
        ensures seen { texts_at self.new n ≡ texts_at self.old n }
        ensures longest { self.new.longest ≡ self.old.longest }
    {
        self.numbers.make_way(n);
    }

    /// Closes the gap of item `n`, which goes and defined nothing.
    pub fn close(&mut self, n: usize)
        ensures go { (before after : List Item) (item : Item) → length before ≡ n → n + length after < 2 ^ 64 → is_definition_tree item.tree ≡ false → AreDefinitionsOf (before ++ item ∷ after) self.old → AreDefinitionsOf (before ++ after) self.new }
        ensures longest { self.new.longest ≡ self.old.longest }
    {
        self.numbers.close(n);
    }

    /// A length in bytes: before any item, no name stands for a longer text. It never becomes less.
    pub fn longest(&self) -> usize
        ensures is { result ≡ self.now.longest }
        ensures most { (n : ℕ) → AreAtMost result (texts_at self.now n) }
    {
        self.longest
    }

    /// How many items define the name, folded. It takes time in the length of the name.
    pub fn count(&self, name: &[u8]) -> usize
        ensures { (items : List Item) → AreDefinitionsOf items self.now → result ≡ definition_count name.now items }
    {
        self.by_name.of(name).len()
    }

    /// The number of the first item that defines the name, folded. It takes time in the length of the name, and in the
    /// logarithm of the count of definitions.
    pub fn first(&self, name: &[u8]) -> Option<usize>
        requires { (items : List Item) × AreDefinitionsOf items self.now }
        ensures { (items : List Item) → AreDefinitionsOf items self.now → result ≡ first_definition name.now items }
    {
        match self.by_name.of(name).first() {
            Some(definition) => Some(self.numbers.get(self.labels.rank(definition.label))),
            None => None,
        }
    }

    /// What macros stand for before item `n`. It takes time in the logarithm of the count of definitions.
    pub fn at(&self, n: usize) -> MacrosAt<'_>
        ensures { macros_seen result ≡ texts_at self.now n }
    {
        MacrosAt {
            names: &self.by_name,
            label: self.label_of(self.numbers.rank(n)),
        }
    }

    /// The label of definition `k`, or the greatest number if there are no more than `k`.
    fn label_of(&self, k: usize) -> usize
        ensures { result ≡ label_at self.now.labels k }
    {
        if k >= self.labels.count() {
            return usize::MAX;
        }
        self.labels.get(k)
    }
}

/// Puts number `n` among the numbers, and a definition among those of its name. If memory is refused, nothing changes.
fn put(
    numbers: &mut Numbers,
    by_name: &mut ByName,
    n: usize,
    name: &[u8],
    definition: Definition,
) -> Result<(), AllocError>
    requires { length name.now ≤ name_limit }
    ensures numbers { OnOk result ((front rest : List ℕ) → PartAt n front rest numbers.old → HaveNext rest → numbers.new ≡ front ++ n ∷ map suc rest) }
    ensures names { OnOk result (Gives by_name.old name.now (with_definition definition (definitions_of by_name.old (folded name.now))) by_name.new) }
    ensures err { OnErr result ((numbers.new ≡ numbers.old) × (by_name.new ≡ by_name.old)) }
{
    numbers.insert(n)?;
    match by_name.put(name, definition) {
        Ok(()) => Ok(()),
        Err(fault) => {
            numbers.remove(n);
            Err(fault)
        }
    }
}
