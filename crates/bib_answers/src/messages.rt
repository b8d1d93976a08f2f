//! What an answer says besides its output, a line each.

ghost use Rattle.std.specs.Prelude.{◌≡◌, IfOk};
ghost use Rattle.bib_answers.specs.Messages.{fault_name, placed_line, no_such_entry_in, refusal_line, refusal_in};

use crate::lines::add_all;
use bib_scan::ReadFault;
use bib_text::Text;
use std::alloc::{AllocError, Global};

/// The message that no entry has the key.
pub const NO_SUCH_ENTRY: &[u8] = b"bibkeep: 11 NoSuchEntry\n";

/// The message that what would be written is longer than a file may be.
pub const TOO_LONG: &[u8] = b"bibkeep: 9 FileTooLong\n";

/// `bibkeep: N Name at P`, a line.
pub fn placed_line(alloc: Global, number: u8, name: &str, place: usize) -> Result<Text, AllocError>
    ensures { IfOk result (λ line. line ≡ placed_line number name.now place) }
{
    let line = format!(in alloc; "bibkeep: {} {} at {}\n", number, name, place)?;
    Ok(Text::from_vec(line.into_bytes()))
}

/// The message that no entry has this key, a line.
pub fn no_such_entry_in(alloc: Global, key: &[u8]) -> Result<Text, AllocError>
    ensures { IfOk result (λ line. line ≡ no_such_entry_in key.now) }
{
    let mut line = Vec::new(alloc);
    add_all(&mut line, &[b"bibkeep: 11 NoSuchEntry in ", key, b"\n"])?;
    Ok(Text::from_vec(line))
}

/// Why a file is not read, a line.
pub fn refusal_line(alloc: Global, fault: ReadFault) -> Result<Text, AllocError>
    ensures { IfOk result (λ line. line ≡ refusal_line fault.kind fault.place) }
{
    placed_line(alloc, fault.kind, fault_name(fault.kind), fault.place)
}

/// Why a source with this name is not read, a line.
pub fn refusal_in(alloc: Global, kind: u8, place: usize, name: &[u8]) -> Result<Text, AllocError>
    ensures { IfOk result (λ line. line ≡ refusal_in kind place name.now) }
{
    let said = format!(in alloc; "bibkeep: {} {} at {} in ", kind, fault_name(kind), place)?;
    let mut line = said.into_bytes();
    line.extend_from_slice(name)?;
    line.extend_from_slice(b"\n")?;
    Ok(Text::from_vec(line))
}

/// The name of a fault of reading, by its number.
pub fn fault_name(kind: u8) -> &'static str
    ensures { result.now ≡ fault_name kind }
{
    match kind {
        1 => "Unended",
        2 => "ExpectedName",
        3 => "ExpectedEquals",
        4 => "ExpectedCommaOrClose",
        5 => "ExpectedValue",
        6 => "UnbalancedBrace",
        7 => "KeyTooLong",
        8 => "TextTooLong",
        9 => "FileTooLong",
        _ => "Memory",
    }
}
