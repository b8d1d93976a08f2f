//! Items seen as views, their fields, and values taken apart.

use bib_scan::{
    FieldView, ItemView, Kind, Part, ReadFault, is_balanced, is_clean_trail, is_key, is_name,
    is_type, read, read_value,
};
use bib_text::same_folded;
use std::alloc::Global;
use std::test::Fail;

/// What the example expects to see of an item.
#[derive(Clone, Copy)]
struct Seen<'a> {
    kind: Kind,
    body: &'a [u8],
    trail: &'a [u8],
    type_name: &'a [u8],
    key: &'a [u8],
    key_at: usize,
    fields: &'a [FieldView<'a>],
}

fn has_fields(item: &ItemView<'_>, fields: &[FieldView<'_>]) -> bool {
    let mut rest = item.fields();
    for field in fields {
        if rest.next() != Some(*field) {
            return false;
        }
    }
    rest.next().is_none()
}

fn is_seen(item: &ItemView<'_>, seen: &Seen<'_>) -> bool {
    item.kind() == seen.kind
        && item.body() == seen.body
        && item.trail() == seen.trail
        && item.type_name() == seen.type_name
        && item.key() == seen.key
        && item.key_at() == seen.key_at
        && has_fields(item, seen.fields)
}

/// Whether the file has this front, and then these items.
fn are_seen(
    alloc: Global,
    bytes: &[u8],
    front: &[u8],
    items: &[Seen<'_>],
) -> Result<bool, ReadFault> {
    let layout = read(alloc, bytes)?;
    Ok(
        layout.front(bytes) == front
            && layout.len() == items.len()
            && items.iter().enumerate().all(|(n, seen)| n < layout.len()
                && is_seen(&layout.item(bytes, n), seen)),
    )
}

const LONE: Seen<'_> = Seen {
    kind: Kind::Entry,
    body: b"@Misc{a,}",
    trail: b"\n",
    type_name: b"Misc",
    key: b"a",
    key_at: 6,
    fields: &[],
};

#[test]
fn an_item_is_seen_with_another_trail(rt: HostRuntime) {
    let moved = ItemView::of(LONE.body, LONE.trail).with_trail(b" ");
    assert!(rt;
        is_seen(
            &moved,
            &Seen {
                trail: b" ",
                ..LONE
            }
        )
    );
}

/// A comment leaves its text to its trail.
const COMMENT: Seen<'_> = Seen {
    kind: Kind::Comment,
    body: b"@comment",
    trail: b"{ ",
    type_name: b"comment",
    key: b"",
    key_at: 0,
    fields: &[],
};

const COMMENTED: Seen<'_> = Seen {
    kind: Kind::Entry,
    body: b"@misc{a}",
    trail: b"}",
    type_name: b"misc",
    key: b"a",
    key_at: 6,
    fields: &[],
};

const DEFINITION: Seen<'_> = Seen {
    kind: Kind::Macro,
    body: b"@string{p = {A} # 1}",
    trail: b"\n",
    type_name: b"string",
    key: b"",
    key_at: 0,
    fields: &[FieldView {
        name: b"p",
        value: b"{A} # 1",
        start: 8,
        name_at: 8,
        value_at: 12,
    }],
};

const PREAMBLE: Seen<'_> = Seen {
    kind: Kind::Preamble,
    body: b"@preamble( \"x\" )",
    trail: b"",
    type_name: b"preamble",
    key: b"",
    key_at: 0,
    fields: &[FieldView {
        name: b"",
        value: b"\"x\"",
        start: 11,
        name_at: 11,
        value_at: 11,
    }],
};

const BOOK: Seen<'_> = Seen {
    kind: Kind::Entry,
    body: b"@Book (k9 , a = 1 # p,\n b={c} , )",
    trail: b"tail",
    type_name: b"Book",
    key: b"k9",
    key_at: 7,
    fields: &[
        FieldView {
            name: b"a",
            value: b"1 # p",
            start: 10,
            name_at: 12,
            value_at: 16,
        },
        FieldView {
            name: b"b",
            value: b"{c}",
            start: 21,
            name_at: 24,
            value_at: 26,
        },
    ],
};

const EMPTY_KEY: Seen<'_> = Seen {
    kind: Kind::Entry,
    body: b"@misc{ ,t=1}",
    trail: b"",
    type_name: b"misc",
    key: b"",
    key_at: 7,
    fields: &[FieldView {
        name: b"t",
        value: b"1",
        start: 7,
        name_at: 8,
        value_at: 10,
    }],
};

#[test]
fn fields_stand_at_their_places(rt: HostRuntime) {
    for seen in [DEFINITION, PREAMBLE, BOOK, EMPTY_KEY] {
        assert!(rt; is_seen(&ItemView::of(seen.body, seen.trail), &seen));
    }
}

/// A file, its front, and its items.
const FILES: &[(&[u8], &[u8], &[Seen<'static>])] = &[
    (b"mail joe@x.org\n@Misc{a,}\n", b"mail joe@x.org\n", &[LONE]),
    (b"@comment{ @misc{a}}", b"", &[COMMENT, COMMENTED]),
    (
        b"x @string{p = {A} # 1}\n@preamble( \"x\" )@Book (k9 , a = 1 # p,\n b={c} , )tail",
        b"x ",
        &[DEFINITION, PREAMBLE, BOOK],
    ),
];

#[test]
fn a_file_is_seen_item_by_item(rt: HostRuntime) -> Result<(), Fail> {
    for (bytes, front, items) in FILES {
        assert!(rt; are_seen(rt.alloc(), bytes, front, items)?, "{bytes:?}");
    }
    Ok(())
}

/// Whether the value has these parts at these places.
fn has_parts(alloc: Global, bytes: &[u8], all: &[(usize, Part<'_>)]) -> Result<bool, ReadFault> {
    let parts = read_value(alloc, bytes)?;
    Ok(
        parts.len() == all.len()
            && all.iter().enumerate().all(|(n, (place, part))| {
                n < parts.len() && parts.place(n) == *place && parts.part(bytes, n) == *part
            }),
    )
}

const TAKEN_APART: &[(&[u8], &[(usize, Part<'static>)])] = &[
    (
        b"\"a\" # b",
        &[(0, Part::Quoted(b"a")), (6, Part::Macro(b"b"))],
    ),
    (
        b"{x{y}} # 12",
        &[(0, Part::Braced(b"x{y}")), (9, Part::Digits(b"12"))],
    ),
];

#[test]
fn a_value_is_taken_apart(rt: HostRuntime) -> Result<(), Fail> {
    for (bytes, parts) in TAKEN_APART {
        assert!(rt; has_parts(rt.alloc(), bytes, parts)?, "{bytes:?}");
    }
    Ok(())
}

/// How many parts the value has, or the number and place of its fault.
#[derive(Clone, Copy, Debug, PartialEq, Eq)]
enum Outcome {
    Parts(usize),
    Fault(u8, usize),
}

fn answer(alloc: Global, bytes: &[u8]) -> Outcome {
    match read_value(alloc, bytes) {
        Ok(parts) => Outcome::Parts(parts.len()),
        Err(fault) => Outcome::Fault(fault.kind, fault.place),
    }
}

const VALUES: &[(&[u8], Outcome)] = &[
    (b"\"a\" # b", Outcome::Parts(2)),
    (b"\"a\" #", Outcome::Fault(1, 5)),
    (b"1 ", Outcome::Fault(1, 2)),
    (b" 1", Outcome::Fault(5, 0)),
    (b"", Outcome::Fault(1, 0)),
    (b"{a}{b}", Outcome::Fault(4, 3)),
    (b"{a} {b}", Outcome::Fault(4, 4)),
    (b"\"a}\"", Outcome::Fault(6, 2)),
];

#[test]
fn a_text_that_is_no_value_is_refused_at_its_place(rt: HostRuntime) {
    for (bytes, outcome) in VALUES {
        assert_eq!(rt; answer(rt.alloc(), bytes), *outcome);
    }
}

#[test]
fn plain_tests(rt: HostRuntime) {
    let rows = [
        ("a key", is_key(b"knuth:84"), true),
        ("a key with a brace", is_key(b"a{b"), false),
        ("a name", is_name(b"note+an"), true),
        ("a name that begins with a digit", is_name(b"1st"), false),
        ("a type", is_type(b"Article"), true),
        ("the type of a definition", is_type(b"String"), false),
        ("a type with an at-sign", is_type(b"a@b"), false),
        ("braces that balance", is_balanced(b"{a}{\\{}}"), true),
        ("braces in the wrong order", is_balanced(b"}{"), false),
        (
            "letters of either case",
            same_folded(b"Title", b"TITLE"),
            true,
        ),
        ("one letter more", same_folded(b"Title", b"Titles"), false),
        ("a comment's trail", is_clean_trail(true, b"{ "), true),
        (
            "a letter after a comment",
            is_clean_trail(true, b"s"),
            false,
        ),
        ("a letter after an item", is_clean_trail(false, b"s"), true),
        ("an item in a trail", is_clean_trail(false, b" @x{"), false),
    ];
    for (name, is_so, expected) in rows {
        assert_eq!(rt; is_so, expected, "{name}");
    }
}
