//! Raw texts.

ghost use Rattle.std.specs.Prelude.{◌≡◌, ◌+◌, ◌<◌, ◌≤◌, [], min, length, unwrap_or, IfOk, IfErr};
ghost use Rattle.std.specs.Option.{option_copied};
ghost use Rattle.bib_spec.specs.Texts.{part_text, raw_text, raw_limit};
ghost use Rattle.bib_scan.specs.PartView.{part_view};
ghost use Rattle.bib_scan.specs.ValueParts.{IsPartsOf};
ghost use Rattle.bib_spec.specs.Text.{folded};
ghost use Rattle.bib_value.specs.Macros.{without, is_own};
ghost use Rattle.bib_value.specs.Raw.{OfValue};
ghost use Rattle.bib_value.specs.declared.fault.ValueFault.TheVariants.{TextTooLong};

use crate::fault::ValueFault;
use crate::table::MacroTable;
use bib_scan::{Part, Parts};
use bib_text::{Seq, Text, same_folded};
use std::alloc::Global;

/// The longest raw text, in bytes. (dialect)
pub const RAW_LIMIT: u32 = 1_048_576;

/// What a part says: its content, or what its macro stands for. The macro `own`, which is being defined, gives nothing; an
/// undefined macro gives nothing, too.
pub fn part_text<'a, M: MacroTable>(part: Part<'a>, macros: &'a M, own: Option<&[u8]>) -> &'a [u8]
    ensures { result.now ≡ part_text (without (option_copied own.entry) (M.macros macros.entry.now)) (part_view part.entry) }
{
    match part {
        Part::Braced(text) => text,
        Part::Quoted(text) => text,
        Part::Digits(text) => text,
        Part::Macro(name) => macro_text(name, macros, own),
    }
}

/// What a macro stands for, or nothing if it is undefined.
fn macro_text<'a, M: MacroTable>(name: &[u8], macros: &'a M, own: Option<&[u8]>) -> &'a [u8]
    ensures { result.now ≡ unwrap_or (without (option_copied own.entry) (M.macros macros.entry.now) (folded name.now)) [] }
{
    if is_own(name, own) {
        return b"";
    }
    match macros.text_of(name) {
        Some(text) => text,
        None => b"",
    }
}

/// Whether the name is the name of the macro that is being defined.
fn is_own(name: &[u8], own: Option<&[u8]>) -> bool
    ensures { result ≡ is_own (option_copied own.entry) (folded name.now) }
{
    match own {
        Some(own) => same_folded(name, own),
        None => false,
    }
}

/// The length of a value's raw text, or 1,048,577 if it is longer than 1,048,576 bytes. It takes time linear in the number
/// of parts up to there.
pub fn raw_len<M: MacroTable>(parts: &Parts, bytes: &[u8], macros: &M, own: Option<&[u8]>) -> u32
    requires { IsPartsOf bytes.now parts.now }
    ensures len { OfValue bytes.now (λ v. result ≡ min (length (raw_text (without (option_copied own.entry) (M.macros macros.now)) v)) (raw_limit + 1)) }
    ensures at_most { result ≤ raw_limit + 1 }
{
    let mut len: u32 = 0;
    'measure: for n in 0..parts.len() {
        let part = part_text(parts.part(bytes, n), macros, own);
        if part.len() > (RAW_LIMIT - len) as usize {
            return RAW_LIMIT + 1;
        }
        len += part.len() as u32;
    }
    len
}

/// The raw text of a value: what its parts say, joined. It takes memory only for the text. If the text is longer than
/// 1,048,576 bytes, it is refused and not built. (btxdoc 2.1; dialect)
pub fn raw_text<M: MacroTable>(
    alloc: Global,
    parts: &Parts,
    bytes: &[u8],
    macros: &M,
    own: Option<&[u8]>,
) -> Result<Text, ValueFault>
    requires { IsPartsOf bytes.now parts.now }
    ensures text { IfOk result (λ text. OfValue bytes.now (λ v. text ≡ raw_text (without (option_copied own.entry) (M.macros macros.now)) v)) }
    ensures short { IfOk result (λ text. length text ≤ raw_limit) }
    ensures too_long { IfErr result (λ fault. fault ≡ TextTooLong → OfValue bytes.now (λ v. raw_limit < length (raw_text (without (option_copied own.entry) (M.macros macros.now)) v))) }
{
    let len = raw_len(parts, bytes, macros, own);
    if len > RAW_LIMIT {
        return Err(ValueFault::TextTooLong);
    }
    let mut text = Vec::with_capacity(alloc, len as usize)?;
    'join: for n in 0..parts.len() {
        text.extend_from_slice(part_text(parts.part(bytes, n), macros, own))?;
    }
    Ok(Seq::from_vec(text))
}
