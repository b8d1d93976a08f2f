//! What macros stand for.

ghost use Rattle.std.specs.Prelude.{◌≡◌, ◌≤◌, Some, length, IsTrue, IfOk, IfSome, OnOk, OnErr, IfErr};
ghost use Rattle.std.specs.Option.{option_copied};
ghost use Rattle.bib_spec.specs.Text.{folded, is_name};
ghost use Rattle.bib_spec.specs.Texts.{Macros as MacrosOf, months, updated, raw_limit};
ghost use Rattle.bib_value.specs.Macros.{macros_of};
ghost use Rattle.bib_value.specs.declared.fault.ValueFault.TheVariants.{Memory};

use crate::fault::ValueFault;
use crate::months::month;
use bib_text::{Text, copied};
use folded_map::FoldedMap;
use std::alloc::Global;
use std::marker::Model;

/// A table that gives what each macro stands for.
pub trait MacroTable {
    ghost use Rattle.bib_spec.specs.Texts.{Macros as MacrosOf};

    /// What each name, folded, stands for.
    ghost macros: { Self → MacrosOf };

    /// The text that the name stands for, if it is defined. It takes no memory.
    fn text_of(&self, name: &[u8]) -> Option<&[u8]>
        ensures { option_copied result ≡ macros self.now (folded name.now) };
}

/// A table of defined macros, in addition to the months. Contracts speak of the defined names, folded, with their texts.
#[derive(Drop)]
pub struct Macros {
    defined: FoldedMap<Text>,
}

impl Model for Macros {
    ghost use Rattle.std.specs.Prelude.{List};
    ghost use Rattle.bib_spec.specs.Text.{Text as Bytes};
    ghost use Rattle.bib_value.specs.Macros.{TextsAreShort};

    ghost Value = { List (Bytes × Bytes) };

    ghost view = { λ m. m.defined };

    ghost invariant = { λ m. TextsAreShort m.defined };
}

impl Macros {
    /// The macros at the start of a file: the months. It takes no memory.
    pub fn months(alloc: Global) -> Result<Macros, ValueFault>
        ensures months { IfOk result (λ m. macros_of m ≡ months) }
        ensures only { IfErr result (λ fault. fault ≡ Memory) }
    {
        Ok(Macros {
            defined: FoldedMap::new(alloc),
        })
    }

    /// Defines the macro: from now on the name stands for this text.
    pub fn define(&mut self, name: &[u8], text: &[u8]) -> Result<(), ValueFault>
        requires name { IsTrue (is_name name.now) }
        requires text { length text.now ≤ raw_limit }
        ensures ok { OnOk result (macros_of self.new ≡ updated (macros_of self.old) name.now (Some text.now)) }
        ensures err { OnErr result (self.new ≡ self.old) }
        ensures only { IfErr result (λ fault. fault ≡ Memory) }
    {
        let alloc = self.defined.allocator();
        let text = copied(alloc, text)?;
        self.defined.insert(name, text)?;
        Ok(())
    }

    /// The text that the name stands for: the text of its last definition, else the text of the month with this name.
    pub fn text(&self, name: &[u8]) -> Option<&[u8]>
        ensures text { option_copied result ≡ macros_of self.now (folded name.now) }
        ensures short { IfSome result (λ text. length text.now ≤ raw_limit) }
    {
        match self.defined.get(name) {
            Some(text) => Some(text.as_slice()),
            None => month(name),
        }
    }
}

impl MacroTable for Macros {
    ghost macros = { macros_of };

    fn text_of(&self, name: &[u8]) -> Option<&[u8]> {
        self.text(name)
    }
}
