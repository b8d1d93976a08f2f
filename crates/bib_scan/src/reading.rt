//! Reading a file.

ghost use Rattle.std.specs.Prelude.{◌≤◌, length, IfOk, IfErr};
ghost use Rattle.bib_spec.specs.Bytes.{file_limit};
ghost use Rattle.bib_spec.specs.Fault.{IsReadFault};
ghost use Rattle.bib_scan.specs.Layout.{IsLayoutOf};

use crate::fault::ReadFault;
use crate::layout::Layout;
use crate::reader::Reader;
use std::alloc::Global;

/// The places of the front and the items of a file, by the one reading that the file has.
///
/// It takes one pass over the bytes, and two lists that grow by two places and a note for each item. It does not recurse,
/// however deep braces nest. Refused with 9 at `FILE_LIMIT` if the file is longer, which is tested first; with 1 to 7 at the
/// first byte at which no valid file of any length continues; with 10 if memory ran out. (btxdoc 2 and 3; dialect)
pub fn read(alloc: Global, bytes: &[u8]) -> Result<Layout, ReadFault>
    ensures found { IfOk result (λ layout. (length bytes.now ≤ file_limit) × IsLayoutOf bytes.now layout) }
    ensures fault { IfErr result (λ fault. IsReadFault bytes.now fault.kind fault.place) }
{
    Reader::new(alloc, bytes)?.finish()
}
