//! The files in the text of a shelf, and the file with a place of it.

ghost use Rattle.std.specs.Prelude.{◌≡◌, ◌≤◌, ◌-◌, [], List, length, take, drop, slice_index_or};
ghost use Rattle.bib_spec.specs.Text.{Text as FileText};
ghost use Rattle.bib_shelf.specs.Joined.{spans_from, located_in, files_in, AreOfShelf};

/// The file with this place of the shelf, and the place in that file; in a seam, the end of the file before it. It takes a
/// binary search in the list of files.
pub fn locate(spans: &[(usize, usize)], place: usize) -> (usize, usize)
    ensures { (files : List FileText) → spans.now ≡ spans_from 0 files → result ≡ located_in files place }
{
    if spans.is_empty() {
        return (0, place);
    }
    let mut file = 0;
    let mut end = spans.len();
    'search: while end - file > 1 {
        let middle = file + (end - file) / 2;
        if spans[middle].0 <= place {
            file = middle;
        } else {
            end = middle;
        }
    }
    let (start, stop) = spans[file];
    if end == spans.len() {
        return (file, place.saturating_sub(start));
    }
    if place <= stop {
        return (file, place.saturating_sub(start));
    }
    (file, stop.saturating_sub(start))
}

/// The bytes of file `i`, counted from 0, in the text of a shelf; nothing if there are not so many files. It takes no memory.
pub fn file_in<'a>(text: &'a [u8], spans: &[(usize, usize)], i: usize) -> &'a [u8]
    requires { AreOfShelf text.now spans.now }
    ensures { result.now ≡ slice_index_or (files_in spans.now text.now) i [] }
{
    match spans.get(i) {
        Some((start, end)) => bytes_between(text, *start, *end),
        None => b"",
    }
}

/// The bytes from one place of the text up to another.
pub(crate) fn bytes_between(text: &[u8], start: usize, end: usize) -> &[u8]
    requires order { start ≤ end }
    requires within { end ≤ length text.now }
    ensures { result.now ≡ take (end - start) (drop start text.now) }
{
    text.split_at(start).1.split_at(end - start).0
}
