//! Why there is no script, a line.

ghost use Rattle.std.specs.Prelude.{◌≡◌, ◌≢◌, IfOk, IfSome};
ghost use Rattle.bib_diff.specs.declared.fault.DiffFault.TheVariants.{Memory};
ghost use Rattle.diff_answers.specs.Answers.{no_script_line, diff_line};

use bib_answers::refusal_in;
use bib_diff::DiffFault;
use bib_text::{Text, copied};
use std::alloc::{AllocError, Global};

/// Why files with these names have no script, a line; or none if memory ran out.
pub(crate) fn diff_line(
    alloc: Global,
    old_name: &[u8],
    new_name: &[u8],
    fault: &DiffFault,
) -> Result<Option<Text>, AllocError>
    ensures { IfOk result (λ o. IfSome o (λ line. (fault.now ≢ Memory) × (line ≡ diff_line old_name.now new_name.now fault.now))) }
{
    match fault {
        DiffFault::Old(fault) => Ok(Some(refusal_in(alloc, fault.kind, fault.place, old_name)?)),
        DiffFault::New(fault) => Ok(Some(refusal_in(alloc, fault.kind, fault.place, new_name)?)),
        DiffFault::NoScript(key) => Ok(Some(no_script_line(alloc, key)?)),
        DiffFault::Memory => Ok(None),
    }
}

/// No script leads from one file to the other; the entry with this key is at fault, if one is.
fn no_script_line(alloc: Global, key: &Option<Text>) -> Result<Text, AllocError>
    ensures { IfOk result (λ line. line ≡ no_script_line key.now) }
{
    let Some(key) = key else {
        return copied(alloc, b"bibkeep: 46 NoScript\n");
    };
    let mut line = Vec::new(alloc);
    line.extend_from_slice(b"bibkeep: 46 NoScript in ")?;
    line.extend_from_slice(key.as_slice())?;
    line.extend_from_slice(b"\n")?;
    Ok(Text::from_vec(line))
}
