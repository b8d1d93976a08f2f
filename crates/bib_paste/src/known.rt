//! Definitions that say what is known.

ghost use Rattle.std.specs.Prelude.{◌≡◌, IfOk};
ghost use Rattle.std.specs.List.{list_all};
ghost use Rattle.std.specs.Option.{option_copied};
ghost use Rattle.bib_spec.specs.Bytes.{name_limit};
ghost use Rattle.bib_spec.specs.Text.{is_space};
ghost use Rattle.bib_spec.specs.Tree.{IsTree};
ghost use Rattle.bib_spec.specs.Reading.{Item};
ghost use Rattle.bib_scan.specs.PartView.{part_view};
ghost use Rattle.bib_scan.specs.ValueParts.{IsPartsOf};
ghost use Rattle.bib_scan.specs.View.{view_of};
ghost use Rattle.bib_value.specs.Raw.{OfValue};
ghost use Rattle.bib_paste.specs.News.{own_text, lone_text, is_said, says_known, is_known};

use bib_scan::{ItemView, Kind, Part, Parts, read_value};
use bib_text::is_space;
use bib_value::MacroTable;
use std::alloc::{AllocError, Global};

/// The text of a part that isn't a macro.
fn own_text<'a>(part: Part<'a>) -> Option<&'a [u8]>
    ensures { option_copied result ≡ own_text (part_view part.entry) }
{
    match part {
        Part::Braced(text) | Part::Quoted(text) | Part::Digits(text) => Some(text),
        Part::Macro(_) => None,
    }
}

/// The text of a value with these parts, if it is one text or number.
fn text_alone<'a>(value: &'a [u8], parts: &Parts) -> Option<&'a [u8]>
    requires { IsPartsOf value.now parts.now }
    ensures { OfValue value.now (λ v. option_copied result ≡ lone_text v) }
{
    if parts.len() != 1 {
        return None;
    }
    own_text(parts.part(value, 0))
}

/// The text of a value that is one text or number.
fn lone_text(alloc: Global, value: &[u8]) -> Result<Option<&[u8]>, AllocError>
    ensures { IfOk result (λ text. OfValue value.now (λ v. option_copied text ≡ lone_text v)) }
{
    match read_value(alloc, value) {
        Ok(parts) => Ok(text_alone(value, &parts)),
        // The value of an item can be read, so only want of memory refuses it.
        Err(_) => Err(AllocError),
    }
}

/// Whether there are two texts, and they are the same.
fn is_said(text: Option<&[u8]>, said: Option<&[u8]>) -> bool
    ensures { result ≡ is_said (option_copied text.entry) (option_copied said.entry) }
{
    match (text, said) {
        (Some(text), Some(said)) => text == said,
        _ => false,
    }
}

/// Whether the item defines a macro as what it stands for.
fn says_known<M: MacroTable>(
    alloc: Global,
    macros: &M,
    view: &ItemView<'_>,
) -> Result<bool, AllocError>
    ensures { IfOk result (λ same. (i : Item) → IsTree name_limit i.tree → view.now ≡ view_of i → same ≡ says_known (M.macros macros.now) i.tree) }
{
    match view.kind() {
        Kind::Macro => match view.fields().next() {
            Some(field) => {
                let text = lone_text(alloc, field.value)?;
                Ok(is_said(text, macros.text_of(field.name)))
            }
            None => Ok(false),
        },
        Kind::Entry | Kind::Preamble | Kind::Comment => Ok(false),
    }
}

/// Whether the text is white space.
fn is_white(text: &[u8]) -> bool
    ensures { result ≡ list_all is_space text.now }
{
    text.iter().all(|byte| is_space(*byte))
}

/// Whether the item defines a macro as what it stands for, and only white space is behind it.
pub(crate) fn is_known<M: MacroTable>(
    alloc: Global,
    macros: &M,
    view: &ItemView<'_>,
) -> Result<bool, AllocError>
    ensures { IfOk result (λ known. (i : Item) → IsTree name_limit i.tree → view.now ≡ view_of i → known ≡ is_known (M.macros macros.now) i) }
{
    let same = says_known(alloc, macros, view)?;
    Ok(same && is_white(view.trail()))
}
