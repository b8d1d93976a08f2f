//! Pages made of a text that is read.

ghost use Rattle.std.specs.Prelude.{◌≡◌, IfOk};
ghost use Rattle.bib_spec.specs.Reading.{Reading, Reads};
ghost use Rattle.bib_scan.specs.Layout.{IsLayoutOf};
ghost use Rattle.bib_pages.specs.Pages.{joined};
ghost use Rattle.bib_items.specs.Items.{all_stored};
ghost use Rattle.bib_items.specs.Pages.{ArePages};

use crate::page::Page;
use crate::places::PAGE_LIMIT;
use crate::shared_text::SharedText;
use bib_scan::Layout;
use std::alloc::{AllocError, Global};

/// The items of a text that was read, in pages that share the text. Each page except the last is full.
pub(crate) fn pages_of(
    alloc: Global,
    text: Vec<u8>,
    layout: &Layout,
) -> Result<Vec<Page>, AllocError>
    requires { IsLayoutOf text.items layout.now }
    ensures items { IfOk result (λ pages. (db : Reading) → Reads text.items db → joined pages.items ≡ all_stored db.items) }
    ensures pages { IfOk result (λ pages. ArePages pages.items) }
{
    let text = SharedText::of(alloc, text)?;
    pages_over(alloc, &text, layout)
}

/// The items of a text that was read, in pages that share it. Each page except the last is full.
fn pages_over(alloc: Global, text: &SharedText, layout: &Layout) -> Result<Vec<Page>, AllocError>
    requires { IsLayoutOf text.now layout.now }
    ensures items { IfOk result (λ pages. (db : Reading) → Reads text.now db → joined pages.items ≡ all_stored db.items) }
    ensures pages { IfOk result (λ pages. ArePages pages.items) }
{
    let count = layout.len();
    let mut pages = Vec::with_capacity(alloc, count.div_ceil(PAGE_LIMIT))?;
    // for the proof: the text's length fits a usize
    let _ = text.len();
    let mut start = layout.front(text.as_slice()).len();
    let mut from = 0;
    'fill: while from < count {
        let to = count.min(from.saturating_add(PAGE_LIMIT));
        let page = Page::of(alloc, text, layout, start, from, to)?;
        start += page.byte_len();
        pages.push(page)?;
        from = to;
    }
    Ok(pages)
}
