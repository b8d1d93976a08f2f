//! The parts of a file that an edit seeks, each with its place.

ghost use Rattle.std.specs.Prelude.{◌≡◌, ◌+◌, ◌≤◌, ◌<◌, ◌^◌, false, ◌++◌, ◌∷◌, [], take, drop, length, slice_get, Some, OnOk, IfOk, IfSome};
ghost use Rattle.std.specs.List.{list_any, between};
ghost use Rattle.std.specs.Option.{option_map};
ghost use Rattle.bib_spec.specs.Bytes.{name_limit};
ghost use Rattle.bib_spec.specs.Tree.{part_bytes};
ghost use Rattle.bib_spec.specs.Reading.{Item, IsValueWithin};
ghost use Rattle.part_spec.specs.Parts.{any_part, have_part};
ghost use Rattle.bib_scan.specs.PartView.{part_view};
ghost use Rattle.bib_scan.specs.ValueParts.{parts_of, IsPartsOf};
ghost use Rattle.bib_scan.specs.Layout.{start_of};
ghost use Rattle.bib_value.specs.Raw.{OfValue};
ghost use Rattle.bib_store.specs.Readings.{OfReading, IsItemNumber, IsItemGap};
ghost use Rattle.bib_tokens.specs.FirstItem.{first_item};
ghost use Rattle.bib_tokens.specs.PlacedParts.{value_placed, items_placed, token_at, tokens_of, token_seen, tokens_seen, ArePlacedFields, AreFieldTokens, IsMetIn};
ghost use Rattle.bib_items.specs.Seeking.{test_of};

use bib_items::Sought;
use bib_scan::{Fields, Part, Parts, only_part, read_value};
use bib_store::{Database, ItemList};
use std::alloc::{AllocError, Global};

/// Bytes of the file, with their place.
#[derive(Clone, Copy, Debug)]
pub struct Token<'a> {
    pub place: usize,
    pub bytes: &'a [u8],
}

/// How many bytes a part has, its delimiters among them.
fn part_len(part: Part<'_>) -> usize
    ensures { result ≡ length (part_bytes (part_view part.entry)) }
{
    match part {
        Part::Braced(text) => text.len() + 2,
        Part::Quoted(text) => text.len() + 2,
        Part::Digits(text) => text.len(),
        Part::Macro(name) => name.len(),
    }
}

/// Part `n` of a value that begins at this place in the file.
fn token_of<'a>(at: usize, parts: &Parts, value: &'a [u8], n: usize) -> Token<'a>
    requires value { IsPartsOf value.now parts.now }
    requires number { n < length parts.now }
    requires place { at + length value.now < 2 ^ 64 }
    ensures { OfValue value.now (λ v. option_map token_at (slice_get (value_placed at v) n) ≡ Some (token_seen result)) }
{
    let start = parts.place(n);
    let len = part_len(parts.part(value, n));
    Token {
        place: at + start,
        bytes: value.split_at(start).1.split_at(len).0,
    }
}

/// The parts of a value.
fn parts_in(alloc: Global, value: &[u8]) -> Result<Parts, AllocError>
    requires { IsValueWithin name_limit value.now }
    ensures { IfOk result (λ parts. IsPartsOf value.now parts) }
{
    match read_value(alloc, value) {
        Ok(parts) => Ok(parts),
        // Every value is valid here, so only want of memory refuses it.
        Err(_) => Err(AllocError),
    }
}

/// Adds the only part of a value to the tokens if it is sought. The value begins at this place in the file.
fn push_only<'a>(
    tokens: &mut Vec<Token<'a>>,
    at: usize,
    value: &'a [u8],
    part: Part<'_>,
    sought: Sought<'_>,
) -> Result<(), AllocError>
    requires { OfValue value.now (λ v. parts_of v ≡ part_view part ∷ []) }
    ensures tokens { OnOk result (OfValue value.now (λ v. tokens_seen tokens.new.items ≡ tokens_seen tokens.old.items ++ tokens_of (test_of sought.entry) (value_placed at v))) }
    ensures front { take (length tokens.old.items) tokens.new.items ≡ tokens.old.items }
{
    if !sought.is_met(part) {
        return Ok(());
    }
    tokens.push(Token {
        place: at,
        bytes: value,
    })?;
    Ok(())
}

/// Adds the sought parts of a value to the tokens, and says whether a part of it is watched for. The value begins at this
/// place in the file. Most values have one part, and are not taken apart.
fn push_in_value<'a>(
    alloc: Global,
    tokens: &mut Vec<Token<'a>>,
    at: usize,
    value: &'a [u8],
    sought: Sought<'_>,
    watched: Sought<'_>,
) -> Result<bool, AllocError>
    requires value { IsValueWithin name_limit value.now }
    requires place { at + length value.now < 2 ^ 64 }
    ensures tokens { OnOk result (OfValue value.now (λ v. tokens_seen tokens.new.items ≡ tokens_seen tokens.old.items ++ tokens_of (test_of sought.entry) (value_placed at v))) }
    ensures met { IfOk result (λ met. OfValue value.now (λ v. met ≡ list_any (test_of watched.entry) (parts_of v))) }
    ensures front { take (length tokens.old.items) tokens.new.items ≡ tokens.old.items }
{
    if let Some(part) = only_part(value) {
        push_only(tokens, at, value, part, sought)?;
        return Ok(watched.is_met(part));
    }
    let parts = parts_in(alloc, value)?;
    let mut met = false;
    'parts: for n in 0..parts.len() {
        let part = parts.part(value, n);
        let here = watched.is_met(part);
        met |= here;
        if sought.is_met(part) {
            tokens.push(token_of(at, &parts, value, n))?;
        }
    }
    Ok(met)
}

/// Adds the sought parts of an item's fields to the tokens, and says whether a part of them is watched for. The item
/// begins at this place in the file.
fn push_in_fields<'a>(
    alloc: Global,
    tokens: &mut Vec<Token<'a>>,
    start: usize,
    fields: Fields<'a>,
    sought: Sought<'_>,
    watched: Sought<'_>,
) -> Result<bool, AllocError>
    requires { ArePlacedFields start fields }
    ensures tokens { OnOk result (AreFieldTokens (test_of sought.entry) start fields.entry (tokens_seen tokens.old.items) (tokens_seen tokens.new.items)) }
    ensures met { IfOk result (λ met. IsMetIn (test_of watched.entry) fields.entry met) }
    ensures front { take (length tokens.old.items) tokens.new.items ≡ tokens.old.items }
{
    let mut rest = fields;
    let mut met = false;
    'fields: while let Some(field) = rest.next() {
        let at = start + field.value_at;
        let here = push_in_value(alloc, tokens, at, field.value, sought, watched)?;
        met |= here;
    }
    Ok(met)
}

/// The place of item `n`, or of the file's end, if item `near` begins at the place `at`. It is known at once if both are the
/// same item.
fn place_of<L: ItemList>(db: &Database<L>, n: usize, near: usize, at: usize) -> usize
    requires within { IsItemGap db.now n }
    requires near { OfReading db.now (λ r. at ≡ start_of r near) }
    ensures { OfReading db.now (λ r. result ≡ start_of r n) }
{
    if n == near { at } else { db.item_place(n) }
}

/// The number of an item, from item `n` on, to which a search can go: item `n` itself if it is `likely` to have a part that one
/// of the two seeks, which spares a look at its bytes.
fn next_from<L: ItemList>(
    db: &Database<L>,
    n: usize,
    likely: bool,
    sought: Sought<'_>,
    watched: Sought<'_>,
) -> usize
    requires { IsItemGap db.now n }
    ensures order { n ≤ result }
    ensures within { IsItemGap db.now result }
    ensures sought { OfReading db.now (λ db. have_part (test_of sought.entry) (between n result db.items) ≡ false) }
    ensures watched { OfReading db.now (λ db. have_part (test_of watched.entry) (between n result db.items) ≡ false) }
{
    if likely {
        return n;
    }
    db.next_with(n, sought, watched)
}

/// Adds the sought parts of item `n` and of those after it to the tokens, in their order, and says whether a part of one
/// is watched for. It takes apart only items whose bytes have what is sought or watched for, each once, and an item behind two
/// neighbours that have it, since it then is likely to have it too. It passes over pages of items that have no such part, if
/// the database was told to note parts. If memory is refused, some of the tokens may have been added.
pub fn push_from<'a, L: ItemList>(
    alloc: Global,
    tokens: &mut Vec<Token<'a>>,
    db: &'a Database<L>,
    n: usize,
    sought: Sought<'_>,
    watched: Sought<'_>,
) -> Result<bool, AllocError>
    requires { IsItemGap db.now n }
    ensures tokens { OnOk result (OfReading db.now (λ r. tokens_seen tokens.new.items ≡ tokens_seen tokens.old.items ++ tokens_of (test_of sought.entry) (items_placed (start_of r n) (drop n r.items)))) }
    ensures met { IfOk result (λ met. OfReading db.now (λ r. met ≡ have_part (test_of watched.entry) (drop n r.items))) }
    ensures front { take (length tokens.old.items) tokens.new.items ≡ tokens.old.items }
{
    db.opens();
    let mut k = db.next_with(n, sought, watched);
    let mut at = db.item_place(k);
    let mut met = false;
    let mut follows = false;
    let count = db.item_count();
    'items: while k < count {
        let view = db.item(k);
        let found = tokens.len();
        let here = push_in_fields(alloc, tokens, at, view.fields(), sought, watched)?;
        met |= here;
        let end = at + (view.body().len() + view.trail().len());
        let likely = follows && tokens.len() > found;
        let next = next_from(db, k + 1, likely, sought, watched);
        at = place_of(db, next, k + 1, end);
        follows = next == k + 1;
        k = next;
    }
    Ok(met)
}

/// What an item has: parts that are sought, and parts that are watched for.
#[derive(Clone, Copy, Debug)]
struct Has {
    sought: bool,
    watched: bool,
}

/// Whether a part of item `n` is sought, and whether one is watched for.
fn look_at<L: ItemList>(
    alloc: Global,
    db: &Database<L>,
    n: usize,
    sought: Sought<'_>,
    watched: Sought<'_>,
) -> Result<Has, AllocError>
    requires { IsItemNumber db.now n }
    ensures sought { IfOk result (λ has. OfReading db.now (λ r. (i : Item) → slice_get r.items n ≡ Some i → has.sought ≡ any_part (test_of sought.entry) i.tree)) }
    ensures watched { IfOk result (λ has. OfReading db.now (λ r. (i : Item) → slice_get r.items n ≡ Some i → has.watched ≡ any_part (test_of watched.entry) i.tree)) }
{
    db.opens();
    let mut tokens = Vec::new(alloc);
    let met = push_in_fields(alloc, &mut tokens, 0, db.item(n).fields(), sought, watched)?;
    Ok(Has {
        sought: !tokens.as_slice().is_empty(),
        watched: met,
    })
}

/// Whether a part of item `n` is watched for.
pub fn has_part<L: ItemList>(
    alloc: Global,
    db: &Database<L>,
    n: usize,
    watched: Sought<'_>,
) -> Result<bool, AllocError>
    requires { IsItemNumber db.now n }
    ensures { IfOk result (λ has. OfReading db.now (λ r. (i : Item) → slice_get r.items n ≡ Some i → has ≡ any_part (test_of watched.entry) i.tree)) }
{
    Ok(look_at(alloc, db, n, Sought::Nothing, watched)?.watched)
}

/// Whether a part of an item before item `n` is watched for. It passes over items as `push_from` does.
pub fn is_met_before<L: ItemList>(
    alloc: Global,
    db: &Database<L>,
    n: usize,
    watched: Sought<'_>,
) -> Result<bool, AllocError>
    requires { IsItemGap db.now n }
    ensures { IfOk result (λ met. OfReading db.now (λ r. met ≡ have_part (test_of watched.entry) (take n r.items))) }
{
    let mut k = db.next_with(0, watched, Sought::Nothing);
    'items: while k < n {
        if look_at(alloc, db, k, Sought::Nothing, watched)?.watched {
            return Ok(true);
        }
        k = db.next_with(k + 1, watched, Sought::Nothing);
    }
    Ok(false)
}

/// The first item with a part that is sought: its number, and whether an item before it has a part that is watched for.
#[derive(Clone, Copy, Debug)]
pub struct First {
    pub n: usize,
    pub met: bool,
}

/// Finds the first item with a part that is sought, and tells what was met before it. It passes over items as `push_from`
/// does.
pub fn first_with<L: ItemList>(
    alloc: Global,
    db: &Database<L>,
    sought: Sought<'_>,
    watched: Sought<'_>,
) -> Result<Option<First>, AllocError>
    ensures first { IfOk result (λ first. OfReading db.now (λ r. option_map (λ first. first.n) first ≡ first_item (any_part (test_of sought.entry)) r.items)) }
    ensures met { IfOk result (λ first. IfSome first (λ first. OfReading db.now (λ r. first.met ≡ have_part (test_of watched.entry) (take first.n r.items)))) }
{
    let count = db.item_count();
    let mut met = false;
    let mut n = db.next_with(0, sought, watched);
    'items: while n < count {
        let has = look_at(alloc, db, n, sought, watched)?;
        if has.sought {
            return Ok(Some(First { n, met }));
        }
        met |= has.watched;
        n = db.next_with(n + 1, sought, watched);
    }
    Ok(None)
}
