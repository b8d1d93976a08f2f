//! The limits of what an edit makes.

ghost use Rattle.std.specs.Prelude.{◌≡◌, ◌↔◌, ◌+◌, ◌<◌, ◌≤◌, nat_lt, length, IsTrue};
ghost use Rattle.bib_spec.specs.Bytes.{file_limit};
ghost use Rattle.bib_spec.specs.Texts.{months, macros_at, raw_text, raw_limit};
ghost use Rattle.bib_scan.specs.ValueParts.{IsPartsOf};
ghost use Rattle.bib_value.specs.Raw.{OfValue};
ghost use Rattle.bib_store.specs.Readings.{OfReading, IsItemGap};
ghost use Rattle.bib_edit.specs.Limits.{olds_len, news_len};

use bib_scan::{FILE_LIMIT, Parts};
use bib_store::{Database, ItemList, Piece};
use bib_value::{RAW_LIMIT, raw_len};

/// Whether the file would be too long if `old_len` of its bytes went and `new_len` others came.
pub(crate) fn is_file_too_long<L: ItemList>(
    db: &Database<L>,
    old_len: usize,
    new_len: usize,
) -> bool
    ensures { IsTrue result ↔ file_limit + old_len < length db.now + new_len }
{
    db.opens();
    new_len.saturating_sub(old_len) > FILE_LIMIT - db.byte_count()
}

/// How many bytes go with these pieces.
fn old_len(pieces: &[Piece]) -> usize
    requires { olds_len pieces.now ≤ file_limit }
    ensures { result ≡ olds_len pieces.now }
{
    let mut len = 0;
    for piece in pieces {
        len += piece.old.as_slice().len();
    }
    len
}

/// Whether the file would be too long if the new bytes of these pieces replaced the old ones.
pub(crate) fn are_too_long<L: ItemList>(db: &Database<L>, pieces: &[Piece]) -> bool
    requires { olds_len pieces.now ≤ file_limit }
    ensures { IsTrue result ↔ file_limit + olds_len pieces.now < length db.now + news_len pieces.now }
{
    db.opens();
    let mut room = FILE_LIMIT - db.byte_count() + old_len(pieces);
    for piece in pieces {
        let len = piece.new.as_slice().len();
        if len > room {
            return true;
        }
        room -= len;
    }
    false
}

/// Whether the value's raw text would be too long in item `n`.
pub(crate) fn is_text_too_long<L: ItemList>(
    db: &Database<L>,
    n: usize,
    parts: &Parts,
    value: &[u8],
) -> bool
    requires place { IsItemGap db.now n }
    requires value { IsPartsOf value.now parts.now }
    ensures { OfReading db.now (λ r. OfValue value.now (λ v. result ≡ nat_lt raw_limit (length (raw_text (macros_at months r.items n) v)))) }
{
    raw_len(parts, value, &db.macros_at(n), None) > RAW_LIMIT
}
