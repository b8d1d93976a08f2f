//! Names split and printed, and labels made.

use bib_data::Record;
use bib_names::{
    Name, NameFault, Template, Word, key_base, label_base, labels, split_name, split_names, text_in,
};
use bib_text::{Seq, Text, copied};
use std::alloc::{AllocError, Global};
use std::test::Fail;

fn owned(alloc: Global, text: &[u8]) -> Result<Text, NameFault> {
    Ok(copied(alloc, text)?)
}

/// The number of the fault, and 0 for none.
fn number<T: Drop>(answer: Result<T, NameFault>) -> u16 {
    match answer {
        Ok(_) => 0,
        Err(fault) => fault.number(),
    }
}

/// A template, a name, and the print of the name.
#[derive(Clone, Copy)]
struct Printed<'a> {
    name: &'a str,
    template: &'a [u8],
    given: &'a [u8],
    text: &'a [u8],
}

const PRINTED: &[Printed<'static>] = &[
    Printed {
        name: "initials stand before von and last",
        template: b"{f. }{vv~}{ll}",
        given: b"Jean-Paul Sartre",
        text: b"J.-P. Sartre",
    },
    Printed {
        name: "what stands in braces is one last name",
        template: b"{f. }{vv~}{ll}",
        given: b"{Barnes and Noble}",
        text: b"{Barnes and Noble}",
    },
    Printed {
        name: "von stands before last",
        template: b"{f. }{vv~}{ll}",
        given: b"de la Fontaine, Jean",
        text: b"J. de~la Fontaine",
    },
    Printed {
        name: "von and last stand before jr and initials",
        template: b"{vv~}{ll}{, jj}{, f.}",
        given: b"King, Jr, Martin Luther",
        text: b"King, Jr, M.~L.",
    },
    Printed {
        name: "there is no jr",
        template: b"{vv~}{ll}{, jj}{, f.}",
        given: b"de Gaulle, Charles",
        text: b"de~Gaulle, C.",
    },
    Printed {
        name: "what gives no initial gives no period",
        template: b"{f. }{ll}",
        given: b"1 Jean Knuth",
        text: b"~J. Knuth",
    },
    Printed {
        name: "a letter that is not ASCII ends an initial",
        template: b"{f}",
        given: b"Knuth, e\x80x",
        text: b"e",
    },
    Printed {
        name: "the period and what stands before count for ties",
        template: b"{,f}",
        given: b"A B C Knuth",
        text: b",A. B.~C",
    },
];

fn is_printed(alloc: Global, row: &Printed<'_>) -> Result<bool, NameFault> {
    let name = split_name(alloc, row.given)?;
    let text = Template::read(alloc, row.template)?.print(&name)?;
    Ok(text.as_slice() == row.text)
}

#[test]
fn names_are_printed_by_templates(rt: HostRuntime) -> Result<(), Fail> {
    for row in PRINTED {
        assert!(rt; is_printed(rt.alloc(), row)?, "{}", row.name);
    }
    Ok(())
}

/// A list, and the names that it is cut into.
#[derive(Clone, Copy)]
struct Cut<'a> {
    list: &'a [u8],
    names: &'a [&'a [u8]],
}

const CUTS: &[Cut<'static>] = &[
    Cut {
        list: b"a and and b",
        names: &[b"a", b"", b"b"],
    },
    Cut {
        list: b" \n",
        names: &[],
    },
    Cut {
        list: b"{a and b} AND c",
        names: &[b"{a and b}", b"c"],
    },
];

fn is_cut(alloc: Global, row: &Cut<'_>) -> Result<bool, NameFault> {
    let names = split_names(alloc, row.list)?;
    Ok(names.as_slice() == row.names)
}

#[test]
fn a_list_is_cut_at_each_and(rt: HostRuntime) -> Result<(), Fail> {
    for row in CUTS {
        assert!(rt; is_cut(rt.alloc(), row)?, "{:?}", row.list);
    }
    Ok(())
}

/// Whether these are the words, by the separator before each, its place and its text.
fn are_words(words: &[Word<'_>], expected: &[(u8, usize, &[u8])]) -> bool {
    words.len() == expected.len()
        && words.iter().zip(expected).all(|(word, (sep, at, text))| word.sep == *sep
            && word.at == *at
            && word.text == *text)
}

fn has_parts(name: &Name<'_>) -> bool {
    are_words(
        name.first.as_slice(),
        &[(b' ', 0, b"Jean"), (b'-', 5, b"Paul")],
    ) && are_words(name.von.as_slice(), &[(b' ', 11, b"de"), (b'~', 14, b"la")])
        && are_words(name.last.as_slice(), &[(b' ', 17, b"Fontaine")])
        && name.jr.as_slice().is_empty()
}

#[test]
fn words_know_their_places(rt: HostRuntime) -> Result<(), Fail> {
    let name = split_name(rt.alloc(), b"Jean-Paul  de~la\tFontaine")?;
    assert!(rt; has_parts(&name));
    Ok(())
}

/// What a text is read as.
#[derive(Clone, Copy)]
enum Form {
    Name,
    List,
    Template,
}

/// A text, what it is read as, and the number of its fault.
const FAULTS: &[(&[u8], Form, u16)] = &[
    (b"a, b, c, d", Form::Name, 21),
    (b"a, b, c,", Form::Name, 0),
    (b"{a", Form::Name, 22),
    (b"a and {b", Form::List, 22),
    (b"{fx}", Form::Template, 23),
    (b"{, }", Form::Template, 23),
    (b"{", Form::Template, 23),
];

fn fault_of(alloc: Global, text: &[u8], form: Form) -> u16 {
    match form {
        Form::Name => number(split_name(alloc, text)),
        Form::List => number(split_names(alloc, text)),
        Form::Template => number(Template::read(alloc, text)),
    }
}

#[test]
fn faults_have_numbers_and_no_place(rt: HostRuntime) {
    for (text, form, number) in FAULTS {
        assert_eq!(rt; fault_of(rt.alloc(), text, *form), *number);
    }
    assert!(rt; NameFault::BadTemplate.place().is_none());
}

/// Names of fields and their texts.
type Fields<'a> = &'a [(&'a [u8], &'a [u8])];

/// A record with these fields.
fn given(alloc: Global, fields: Fields<'_>) -> Result<Record, NameFault> {
    let mut own = Vec::new(alloc);
    for (name, text) in fields {
        own.push((owned(alloc, name)?, owned(alloc, text)?))?;
    }
    Ok(Record {
        kind_name: owned(alloc, b"misc")?,
        key: owned(alloc, b"k")?,
        fields: Seq::from_vec(own),
    })
}

const YEARS: Fields<'static> = &[(b"years", b"1"), (b"year", b"2"), (b"year", b"3")];

fn has_first_year(rec: &Record) -> bool {
    let fields = rec.fields.as_slice();
    text_in(fields, b"year") == b"2".as_slice() && text_in(fields, b"Year").is_empty()
}

#[test]
fn a_text_is_that_of_the_first_field_of_its_name(rt: HostRuntime) -> Result<(), Fail> {
    let rec = given(rt.alloc(), YEARS)?;
    assert!(rt; has_first_year(&rec));
    Ok(())
}

/// The fields of a record, and the base of its label.
const BASES: &[(Fields<'static>, &[u8])] = &[
    (
        &[
            (
                b"author",
                b"Knuth, D. E. and Graham, R. L. and Patashnik, O.",
            ),
            (b"year", b"1989"),
        ],
        b"KGP89",
    ),
    (
        &[(b"author", b"Jean de la Fontaine"), (b"year", b"1668")],
        b"dlF68",
    ),
    (
        &[(b"author", b"A. Lee and others"), (b"year", b"2000")],
        b"L+00",
    ),
    (
        &[
            (b"author", b"A. Aa and B. Bb and C. Cc and D. Dd and E. Ee"),
            (b"year", b"1999"),
        ],
        b"ABC+99",
    ),
    (&[(b"author", b""), (b"year", b"1999")], b"anon99"),
    (
        &[(b"author", b"A. Lee and Bob others"), (b"year", b"")],
        b"Lo",
    ),
    (&[(b"author", b"others"), (b"year", b"")], b"oth"),
    (&[(b"author", b"{"), (b"editor", b"Leslie Lamport")], b"Lam"),
    (
        &[(b"key", b"{\\'E}{A}bc"), (b"year", b"c. 7")],
        b"{\\'E}Ab7",
    ),
];

fn has_base(alloc: Global, fields: Fields<'_>, expected: &[u8]) -> Result<bool, NameFault> {
    let rec = given(alloc, fields)?;
    let base = label_base(alloc, &rec)?;
    Ok(base.as_slice() == expected)
}

#[test]
fn labels_take_letters_from_names_and_keys(rt: HostRuntime) -> Result<(), Fail> {
    for (fields, expected) in BASES {
        assert!(rt; has_base(rt.alloc(), fields, expected)?, "{expected:?}");
    }
    Ok(())
}

const LEE: Fields<'static> = &[(b"author", b"A. Lee and others"), (b"year", b"2000")];

fn has_key_base(alloc: Global, fields: Fields<'_>, expected: &[u8]) -> Result<bool, NameFault> {
    let rec = given(alloc, fields)?;
    let base = key_base(alloc, &rec)?;
    Ok(base.as_slice() == expected)
}

#[test]
fn a_made_key_has_letters_and_digits(rt: HostRuntime) -> Result<(), Fail> {
    assert!(rt; has_key_base(rt.alloc(), LEE, b"L00")?);
    Ok(())
}

const KNUTH: Fields<'static> = &[(b"author", b"Donald E. Knuth"), (b"year", b"1984")];

const LAMPORT: Fields<'static> = &[(b"author", b"Leslie Lamport"), (b"year", b"1986")];

/// Many records with one base, and one with another.
fn with_equal_bases(alloc: Global) -> Result<Vec<Record>, NameFault> {
    let mut records = Vec::new(alloc);
    for _ in 0..28_usize {
        records.push(given(alloc, KNUTH)?)?;
    }
    records.push(given(alloc, LAMPORT)?)?;
    Ok(records)
}

/// Labels at their places.
const LABELS: &[(usize, &[u8])] = &[
    (0, b"Knu84a"),
    (1, b"Knu84b"),
    (25, b"Knu84z"),
    (26, b"Knu84aa"),
    (27, b"Knu84ab"),
    (28, b"Lam86"),
];

/// Whether the records have this many labels, and these at these places.
fn have_labels(
    alloc: Global,
    records: &[Record],
    expected: &[(usize, &[u8])],
) -> Result<bool, NameFault> {
    let made = labels(alloc, records)?;
    let made = made.as_slice();
    Ok(
        made.len() == records.len()
            && expected.iter().all(|(n, label)| made
                .get(*n)
                .is_some_and(|text| text.as_slice() == *label)),
    )
}

#[test]
fn equal_bases_get_letters(rt: HostRuntime) -> Result<(), Fail> {
    let records = with_equal_bases(rt.alloc())?;
    assert!(rt; have_labels(rt.alloc(), records.as_slice(), LABELS)?);
    Ok(())
}

fn long_list(alloc: Global) -> Result<Vec<u8>, AllocError> {
    let mut list = Vec::from_slice(alloc, b"Jean-Paul {Barnes and Noble} de la Xyz")?;
    for _ in 1..100_000_usize {
        list.extend_from_slice(b" and Jean-Paul {Barnes and Noble} de la Xyz")?;
    }
    Ok(list)
}

/// Whether these are the counts of the names in the list, and of the words of First and of von in the last name.
fn ends_in(alloc: Global, list: &[u8], counts: (usize, usize, usize)) -> Result<bool, NameFault> {
    let names = split_names(alloc, list)?;
    let Some(last) = names.as_slice().last() else {
        return Ok(false);
    };
    let last = split_name(alloc, last)?;
    Ok(
        (
            names.as_slice().len(),
            last.first.as_slice().len(),
            last.von.as_slice().len(),
        ) == counts,
    )
}

#[test]
fn a_hundred_thousand_names_are_split(rt: HostRuntime) -> Result<(), Fail> {
    let list = long_list(rt.alloc())?;
    assert!(rt; ends_in(rt.alloc(), list.as_slice(), (100_000, 3, 2))?);
    Ok(())
}
