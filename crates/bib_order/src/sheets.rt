//! The pages of an order: in which page each id is, and how ids come and go.

ghost use Rattle.std.specs.Prelude.{◌≡◌, ◌+◌, ◌≤◌, ◌<◌, ◌^◌, ℕ, [], ◌∷◌, length, insert, remove, set, slice_get, slice_index, Some, None, OnOk, OnErr, IfOk, true};
ghost use Rattle.std.specs.Option.{IfSome, IfNone};
ghost use Rattle.bib_pages.specs.Pages.{joined, page_at, IsPlace, IsGap, parted_at};
ghost use Rattle.bib_order.specs.Orders.{Lacks, IsTold};

use crate::sheet::{Sheet, position_in};
use std::alloc::{AllocError, Global};

/// How many ids a page has at most.
const SHEET_LIMIT: usize = 512;

/// How many ids stay in a full page that is cut in two.
const HALF: usize = 256;

/// The page that has id `n`, and the id's number in that page.
fn locate(sheets: &[Sheet], n: usize) -> (usize, usize)
    requires { n < length (joined sheets.now) }
    ensures { IsPlace sheets.now n result.0 result.1 }
{
    let mut left = n;
    'pass: for p in 0..sheets.len() {
        let len = sheets[p].len();
        if left < len {
            return (p, left);
        }
        left -= len;
    }
    (0, 0)
}

/// The page for an id that is inserted before id `n` or at the end, and the id's number in that page.
fn gap(sheets: &[Sheet], count: usize, n: usize) -> (usize, usize)
    requires some { 0 < length sheets.now }
    requires count { count ≡ length (joined sheets.now) }
    requires within { n ≤ count }
    ensures { IsGap sheets.now n result.0 result.1 }
{
    if n < count {
        return locate(sheets, n);
    }
    let last = sheets.len() - 1;
    (last, sheets[last].len())
}

/// Records in `homes` that the page with this name has each of these ids.
fn set_home(homes: &mut Vec<Option<usize>>, ids: &[usize], name: usize)
    ensures { IsTold homes.old.items homes.new.items }
{
    'pass: for k in 0..ids.len() {
        if ids[k] < homes.len() {
            homes[ids[k]] = Some(name);
        }
    }
}

/// Cuts page `p` in two. The second page gets the given name.
fn part(
    alloc: Global,
    sheets: &mut Vec<Sheet>,
    homes: &mut Vec<Option<usize>>,
    name: usize,
    p: usize,
) -> Result<(), AllocError>
    requires page { p < length sheets.old.items }
    requires long { 256 ≤ length (page_at sheets.old.items p) }
    ensures ok { OnOk result (sheets.new.items ≡ parted_at 256 p sheets.old.items) }
    ensures err { OnErr result (sheets.new.items ≡ sheets.old.items) }
    ensures told { IsTold homes.old.items homes.new.items }
{
    sheets.reserve(1)?;
    let second = sheets[p].tail(alloc, HALF, name)?;
    set_home(homes, second.ids(), name);
    sheets.insert(p + 1, second)?;
    sheets[p].truncate(HALF);
    Ok(())
}

/// The page and the number at which an id is inserted before id `k` of page `p`, or at its end. A full page is cut in two
/// first.
fn room(
    alloc: Global,
    sheets: &mut Vec<Sheet>,
    homes: &mut Vec<Option<usize>>,
    name: usize,
    p: usize,
    k: usize,
) -> Result<(usize, usize), AllocError>
    requires page { p < length sheets.old.items }
    requires within { k ≤ length (page_at sheets.old.items p) }
    ensures room { IfOk result (λ r. (n : ℕ) → IsGap sheets.old.items n p k → IsGap sheets.new.items n r.0 r.1) }
    ensures same { joined sheets.new.items ≡ joined sheets.old.items }
    ensures told { IsTold homes.old.items homes.new.items }
{
    if sheets[p].len() < SHEET_LIMIT {
        return Ok((p, k));
    }
    part(alloc, sheets, homes, name, p)?;
    if k <= HALF {
        Ok((p, k))
    } else {
        Ok((p + 1, k - HALF))
    }
}

/// Inserts an id into a page that has room, and returns the page's name.
fn put_in(sheets: &mut Vec<Sheet>, p: usize, k: usize, id: usize) -> Result<usize, AllocError>
    requires page { p < length sheets.old.items }
    requires within { k ≤ length (page_at sheets.old.items p) }
    ensures ok { OnOk result (sheets.new.items ≡ set sheets.old.items p (insert (page_at sheets.old.items p) k id)) }
    ensures err { OnErr result (sheets.new.items ≡ sheets.old.items) }
{
    let sheet = &mut sheets[p];
    sheet.insert(k, id)?;
    Ok(sheet.name())
}

/// Makes the first page, with one id, and returns the page's name.
fn begin(
    alloc: Global,
    sheets: &mut Vec<Sheet>,
    name: usize,
    id: usize,
) -> Result<usize, AllocError>
    requires { sheets.old.items ≡ [] }
    ensures ok { OnOk result (sheets.new.items ≡ (id ∷ []) ∷ []) }
    ensures err { OnErr result (sheets.new.items ≡ sheets.old.items) }
{
    let mut ids = Vec::new(alloc);
    ids.push(id)?;
    sheets.push(Sheet::new(name, ids))?;
    Ok(name)
}

/// Inserts an id before id `n` or at the end, and returns the name of its page. A new page gets the given name.
pub(crate) fn put(
    alloc: Global,
    sheets: &mut Vec<Sheet>,
    homes: &mut Vec<Option<usize>>,
    name: usize,
    count: usize,
    n: usize,
    id: usize,
) -> Result<usize, AllocError>
    requires count { count ≡ length (joined sheets.old.items) }
    requires within { n ≤ count }
    ensures ok { OnOk result (joined sheets.new.items ≡ insert (joined sheets.old.items) n id) }
    ensures err { OnErr result (joined sheets.new.items ≡ joined sheets.old.items) }
    ensures told { IsTold homes.old.items homes.new.items }
{
    if sheets.is_empty() {
        return begin(alloc, sheets, name, id);
    }
    let (p, k) = gap(sheets, count, n);
    let (p, k) = room(alloc, sheets, homes, name, p, k)?;
    put_in(sheets, p, k, id)
}

/// Removes id `k` of page `p`, and the page too if it has no other id.
fn take_out(sheets: &mut Vec<Sheet>, p: usize, k: usize)
    requires page { p < length sheets.old.items }
    requires within { k < length (page_at sheets.old.items p) }
    ensures { (n : ℕ) → IsPlace sheets.old.items n p k → joined sheets.new.items ≡ remove (joined sheets.old.items) n }
{
    if sheets[p].len() == 1 {
        sheets.remove(p);
    } else {
        let sheet = &mut sheets[p];
        sheet.remove(k);
    }
}

/// Removes id `n`, and returns it.
pub(crate) fn take_away(sheets: &mut Vec<Sheet>, n: usize) -> usize
    requires within { n < length (joined sheets.old.items) }
    ensures id { result ≡ slice_index (joined sheets.old.items) n }
    ensures list { joined sheets.new.items ≡ remove (joined sheets.old.items) n }
{
    let (p, k) = locate(sheets, n);
    let id = sheets[p].ids()[k];
    take_out(sheets, p, k);
    id
}

/// Id `n`.
pub(crate) fn id_of(sheets: &[Sheet], n: usize) -> usize
    requires { n < length (joined sheets.now) }
    ensures { result ≡ slice_index (joined sheets.now) n }
{
    let (p, k) = locate(sheets, n);
    sheets[p].ids()[k]
}

/// Whether to search this page: a page of the given name, or any page if no name is given.
fn is_meant(sheet: &Sheet, name: Option<usize>) -> bool
    ensures { name ≡ None → result ≡ true }
{
    match name {
        Some(name) => sheet.name() == name,
        None => true,
    }
}

/// The number of the id, if a page of this name has it, or any page if no name is given.
pub(crate) fn seek(sheets: &[Sheet], name: Option<usize>, id: usize) -> Option<usize>
    requires { length (joined sheets.now) < 2 ^ 64 }
    ensures found { IfSome result (λ n. slice_get (joined sheets.now) n ≡ Some id) }
    ensures none { name ≡ None → IfNone result (Lacks (joined sheets.now) id) }
{
    let mut before = 0;
    'pass: for p in 0..sheets.len() {
        if is_meant(&sheets[p], name) {
            if let Some(k) = position_in(sheets[p].ids(), id) {
                return Some(before + k);
            }
        }
        before += sheets[p].len();
    }
    None
}
