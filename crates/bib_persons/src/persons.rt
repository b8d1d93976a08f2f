//! Lists of names, and the names in them that have too many commas.

ghost use Rattle.std.specs.Prelude.{◌≡◌, ◌≤◌, [], length, map, IsTrue, IfOk};
ghost use Rattle.std.specs.List.{count_by};
ghost use Rattle.bib_spec.specs.Text.{Text};
ghost use Rattle.bib_spec.specs.Texts.{field_text};
ghost use Rattle.bib_persons.specs.Persons.{has_names, is_comma_byte, has_many_commas, refused_names};

use bib_names::{NameFault, split_name, split_names};
use bib_text::{Seq, same_folded};
use std::alloc::{AllocError, Global};

/// How many bytes a run has at most: the count of its commas fits a byte.
const RUN: usize = 255;

/// Whether a field of this name has a list of names.
pub fn has_names(name: &[u8]) -> bool
    ensures { result ≡ has_names name.now }
{
    same_folded(name, b"author") || same_folded(name, b"editor")
}

/// How many commas there are. They are counted run by run: while a count fits a byte, the processor counts many bytes at once.
fn comma_count(text: &[u8]) -> usize
    ensures { result ≡ count_by is_comma_byte text.now }
{
    let mut count = 0;
    let mut rest = text;
    'runs: while rest.len() > RUN {
        let (run, more) = rest.split_at(RUN);
        count += usize::from(count_in_run(run));
        rest = more;
    }
    count + usize::from(count_in_run(rest))
}

/// How many bytes of a run are commas.
fn count_in_run(run: &[u8]) -> u8
    requires { length run.now ≤ 255 }
    ensures { result ≡ count_by is_comma_byte run.now }
{
    let mut count = 0;
    'bytes: for byte in run {
        if *byte == b',' {
            count += 1;
        }
    }
    count
}

/// Whether the text has so few commas that no list of names with at most as many has a name with too many: at most two. It takes
/// time in the text's length, and no memory.
pub fn has_few_commas(text: &[u8]) -> bool
    ensures { IsTrue result → (raw : Text) → count_by is_comma_byte raw ≤ count_by is_comma_byte text.now → refused_names (field_text raw) ≡ [] }
{
    comma_count(text) <= 2
}

/// Whether a name has too many commas.
fn has_many_commas(alloc: Global, name: &[u8]) -> Result<bool, AllocError>
    ensures { IfOk result (λ many. many ≡ has_many_commas name.now) }
{
    if comma_count(name) <= 2 {
        return Ok(false);
    }
    match split_name(alloc, name) {
        Ok(_) => return Ok(false),
        Err(NameFault::TooManyCommas) => return Ok(true),
        Err(NameFault::UnbalancedName) => return Ok(false),
        Err(_) => return Err(AllocError),
    }
}

/// The names of a list that have too many commas, as slices of it in order. It takes time in the list's length, and memory for
/// the places of its names.
pub fn refused_names(alloc: Global, list: &[u8]) -> Result<Seq<&[u8]>, AllocError>
    ensures { IfOk result (λ names. map (λ n. n.now) names ≡ refused_names list.now) }
{
    let names = match split_names(alloc, list) {
        Ok(names) => names,
        Err(NameFault::UnbalancedName) => return Ok(Seq::empty(alloc)),
        Err(_) => return Err(AllocError),
    };
    let mut refused = Vec::new(alloc);
    'names: for name in names.as_slice() {
        if has_many_commas(alloc, name)? {
            refused.push(*name)?;
        }
    }
    Ok(Seq::from_vec(refused))
}
