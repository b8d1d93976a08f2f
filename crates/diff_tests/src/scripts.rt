//! The scripts that lead from one file to another.

use bib_diff::{DiffFault, difference};
use bib_text::Text;
use script_text::script_text;
use std::alloc::Global;
use std::test::Fail;

/// What is to come out: a script, or no script with the key of the entry at fault, if it has one.
#[derive(Clone, Copy, Debug, PartialEq, Eq)]
enum Wanted<'a> {
    Script(&'a [u8]),
    Nothing(&'a [u8]),
}

/// An old file, a new one, and what is to come out.
struct Row<'a> {
    name: &'a str,
    old: &'a [u8],
    new: &'a [u8],
    wanted: Wanted<'a>,
}

const ROWS: &[Row<'_>] = &[
    Row {
        name: "an entry goes, one comes, and a field is set",
        old: b"@misc{a, t = 1}\n@misc{b}\n",
        new: b"@misc{a, t = {2}}\n\n@book{c, u = 1}\n",
        wanted: Wanted::Script(b"remove\tb\nadd\t1\tbook\tc\tu\t1\nset\ta\tt\t{2}\n"),
    },
    Row {
        name: "an entry that says the same has another key",
        old: b"@misc{p, t = 1}@misc{c, crossref={p}}",
        new: b"@misc{q,T={1}}@misc{c, crossref = \"Q\"}",
        wanted: Wanted::Script(b"rename-key\tp\tq\nset\tc\tcrossref\t\"Q\"\n"),
    },
    Row {
        name: "a macro that says something else in the old file is not used",
        old: b"@string{m={A}}@misc{a,t=m}",
        new: b"@string{m={B}}@misc{a,t=m}",
        wanted: Wanted::Script(b"set\ta\tt\t{B}\n"),
    },
    Row {
        name: "a value of two lines is written in one",
        old: b"@misc{a}",
        new: b"@misc{a,t={x\ny}}",
        wanted: Wanted::Script(b"set\ta\tt\t{x y}\n"),
    },
    Row {
        name: "one entry moves where the others are in order",
        old: b"@misc{a}@misc{b}@misc{c}",
        new: b"@misc{c}@misc{a}@misc{b}",
        wanted: Wanted::Script(b"move\tc\t0\n"),
    },
    Row {
        name: "an entry with another type goes and comes again",
        old: b"@misc{c,crossref={p}}@misc{p,t=1}",
        new: b"@misc{c,crossref={p}}@book{p,t=1}",
        wanted: Wanted::Script(
            b"drop\tc\tcrossref\nremove\tp\nadd\t1\tbook\tp\tt\t1\nset\tc\tcrossref\t{p}\n",
        ),
    },
    Row {
        name: "white space and delimiters are no difference",
        old: b"@misc{a,t={x  y}}",
        new: b"% new\n@misc{a,\n  t = \"x\ny\" ,\n}",
        wanted: Wanted::Script(b""),
    },
    Row {
        name: "the order of fields is no difference",
        old: b"@misc{a,t=1,u=2}",
        new: b"@misc{a,u=2,t=1}",
        wanted: Wanted::Script(b""),
    },
    Row {
        name: "no script removes the second entry of a key",
        old: b"@misc{a}@misc{a}",
        new: b"@misc{a}",
        wanted: Wanted::Nothing(b"a"),
    },
    Row {
        name: "no script adds an entry without a key",
        old: b"@misc{a}",
        new: b"@misc{a}@misc{}",
        wanted: Wanted::Nothing(b""),
    },
    Row {
        name: "a key in another case is renamed",
        old: b"@misc{Key,t=1}@misc{c,crossref={Key}}",
        new: b"@misc{key,t=1}@misc{c,crossref={key}}",
        wanted: Wanted::Script(b"rename-key\tKey\tkey\n"),
    },
    Row {
        name: "two entries that say the same are not renamed",
        old: b"@misc{a,t=1}@misc{b,t=1}",
        new: b"@misc{c,t=1}@misc{d,t=1}",
        wanted: Wanted::Script(
            b"remove\ta\nremove\tb\nadd\t0\tmisc\tc\tt\t1\nadd\t1\tmisc\td\tt\t1\n",
        ),
    },
    Row {
        name: "a child goes before its parent, wherever it is",
        old: b"@misc{p,t=1}@misc{c,u=1,crossref={p}}",
        new: b"",
        wanted: Wanted::Script(b"remove\tc\nremove\tp\n"),
    },
    Row {
        name: "of a ring the first drops its crossref",
        old: b"@misc{a,t=1,crossref={b}}@misc{b,u=1,crossref={a}}",
        new: b"",
        wanted: Wanted::Script(b"drop\ta\tcrossref\nremove\tb\nremove\ta\n"),
    },
    Row {
        name: "a field goes, one is set, and a crossref comes last",
        old: b"@misc{a,t=1,u=2,crossref={b}}@misc{b}@misc{c}",
        new: b"@misc{a,U=3,w=m # {x},crossref={c}}@misc{b}@misc{c,v=1}",
        wanted: Wanted::Script(
            b"drop\ta\tt\nset\ta\tU\t3\nset\ta\tw\tm # {x}\nset\tc\tv\t1\nset\ta\tcrossref\t{c}\n",
        ),
    },
    Row {
        name: "a new first entry comes after the definitions",
        old: b"@string{m={A}}@misc{a}",
        new: b"@string{m={A}}@misc{b,t=m}@misc{a}",
        wanted: Wanted::Script(b"add\t1\tmisc\tb\tt\tm\n"),
    },
    Row {
        name: "no script drops a field that is there twice",
        old: b"@misc{a,t=1,t=2}",
        new: b"@misc{a,t=3}",
        wanted: Wanted::Nothing(b"a"),
    },
    Row {
        name: "no script changes a key to one that no edit writes",
        old: b"@misc{a,t=1}",
        new: b"@misc(x{y,t=1)",
        wanted: Wanted::Nothing(b"x{y"),
    },
];

/// The script that leads from the old file to the new one.
fn outcome(alloc: Global, old: &[u8], new: &[u8]) -> Result<Text, DiffFault> {
    let requests = difference(alloc, old, new)?;
    match script_text(alloc, requests.as_slice())? {
        Some(text) => Ok(text),
        None => Err(DiffFault::NoScript(None)),
    }
}

/// Whether this comes out.
fn comes_out(alloc: Global, row: &Row<'_>) -> bool {
    match (outcome(alloc, row.old, row.new), row.wanted) {
        (Ok(text), Wanted::Script(wanted)) => text.as_slice() == wanted,
        (Err(DiffFault::NoScript(Some(key))), Wanted::Nothing(wanted)) => key.as_slice() == wanted,
        (Err(DiffFault::NoScript(None)), Wanted::Nothing(wanted)) => wanted.is_empty(),
        _ => false,
    }
}

#[test]
fn scripts_are_the_shortest_of_their_kind(rt: HostRuntime) -> Result<(), Fail> {
    for row in ROWS {
        if !comes_out(rt.alloc(), row) {
            return Err(Fail::new(format_args!("{}: comes out otherwise", row.name)));
        }
    }
    Ok(())
}
