//! What BibTeX 0.99d lists for keys. Each row was run by the program itself.

use bib_answers::Answer;
use bib_text::{Text, copied};
use bibtex_answers::{answer_cite_as_bibtex, answer_json_as_bibtex};
use std::alloc::{AllocError, Global};
use std::test::Fail;

/// A file, cited keys, how many entries must name a parent that is not cited, and the lines that come out.
struct Row<'a> {
    name: &'a str,
    file: &'a [u8],
    keys: &'a [&'a [u8]],
    least: u32,
    lines: &'a [u8],
}

/// A file, cited keys, and the records that come out.
struct RecordRow<'a> {
    name: &'a str,
    file: &'a [u8],
    keys: &'a [&'a [u8]],
    records: &'a [u8],
}

const CHAIN: &[u8] = b"@misc{c, crossref={b}}@misc{b, crossref={a}}@misc{a, t=1}\n\n";

const UPWARDS: &[u8] = b"@misc{a, t=1}@misc{b, crossref={a}}@misc{c, crossref={b}}\n\n";

const PARENT_FIRST: &[u8] = b"@misc{p, t=1}@misc{c, crossref={p}}\n\n";

const SELF_NAMED: &[u8] = b"@misc{c, crossref={p}}@misc{p, t=1, crossref={p}}\n\n";

const RING: &[u8] =
    b"@misc{a, x=1, crossref={b}}@misc{b, y=2, crossref={c}}@misc{c, z=3, crossref={a}}\n\n";

const THREE: &[u8] = b"@misc{a}@misc{b}@misc{c}\n\n";

const ROWS: &[Row<'_>] = &[
    Row {
        name: "a parent before its child is not found",
        file: PARENT_FIRST,
        keys: &[b"c"],
        least: 1,
        lines: b"c\n",
    },
    Row {
        name: "a parent before its child is found if it is cited",
        file: PARENT_FIRST,
        keys: &[b"c", b"p"],
        least: 1,
        lines: b"c\tp\np\n",
    },
    Row {
        name: "the first holder of the key after the child is the parent",
        file: b"@misc{p, t=1}@misc{c, crossref={p}}@misc{P, t=2}\n\n",
        keys: &[b"c"],
        least: 1,
        lines: b"c\tP\nP\n",
    },
    Row {
        name: "a later entry with the key of a parent changes nothing",
        file: b"@misc{c, crossref={p}}@misc{p, t=1}@misc{P, t=2}\n\n",
        keys: &[b"c"],
        least: 1,
        lines: b"c\tp\np\n",
    },
    Row {
        name: "a parent that is not listed is not named",
        file: CHAIN,
        keys: &[b"b", b"c"],
        least: 2,
        lines: b"b\nc\tb\n",
    },
    Row {
        name: "an added entry adds its own parent",
        file: CHAIN,
        keys: &[b"c"],
        least: 1,
        lines: b"c\tb\nb\ta\na\n",
    },
    Row {
        name: "all entries are in the order of the file",
        file: UPWARDS,
        keys: &[b"*"],
        least: 2,
        lines: b"a\nb\ta\nc\tb\n",
    },
    Row {
        name: "parents are added in the order in which they are named",
        file: b"@misc{c, crossref={q}}@misc{d, crossref={p}}@misc{p}@misc{q}\n\n",
        keys: &[b"d", b"c"],
        least: 1,
        lines: b"d\tp\nc\tq\nq\np\n",
    },
    Row {
        name: "an entry that names itself counts as its child",
        file: SELF_NAMED,
        keys: &[b"c"],
        least: 2,
        lines: b"c\tp\np\tp\n",
    },
    Row {
        name: "two children are fewer than three",
        file: b"@misc{c, crossref={p}}@misc{d, crossref={P}}@misc{p, t=1}\n\n",
        keys: &[b"c", b"d"],
        least: 3,
        lines: b"c\nd\n",
    },
    Row {
        name: "keys before the star come first",
        file: THREE,
        keys: &[b"c", b"*", b"a"],
        least: 2,
        lines: b"c\na\nb\n",
    },
    Row {
        name: "keys after the star do not",
        file: THREE,
        keys: &[b"a", b"*", b"c"],
        least: 2,
        lines: b"a\nb\nc\n",
    },
    Row {
        name: "a key without an entry names the place with its number",
        file: b"@misc{b, t=2}@misc{c, crossref={zz}}\n\n",
        keys: &[b"*", b"zz"],
        least: 2,
        lines: b"b\nc\tzz\n? zz\n",
    },
    Row {
        name: "an empty crossref names the empty key",
        file: b"@misc{a, crossref={}}@misc{, t=1}\n\n",
        keys: &[b"a"],
        least: 1,
        lines: b"a\t\n\n",
    },
    Row {
        name: "of a repeated key the first entry is listed",
        file: b"@misc{a, t=1}@misc{A, t=2}\n\n",
        keys: &[b"*"],
        least: 2,
        lines: b"a\n",
    },
    Row {
        name: "a key is spelled as it is cited first",
        file: b"@misc{Knuth, t=1}\n\n",
        keys: &[b"KNUTH", b"knuth"],
        least: 2,
        lines: b"KNUTH\n",
    },
];

const RECORD_ROWS: &[RecordRow<'_>] = &[
    RecordRow {
        name: "nothing comes from a parent that is not found",
        file: PARENT_FIRST,
        keys: &[b"c"],
        records: b"{\"type\":\"misc\",\"key\":\"c\",\"parent\":null,\"fields\":{}}\n",
    },
    RecordRow {
        name: "a parent that inherited before gives what it inherited",
        file: CHAIN,
        keys: &[b"b", b"c"],
        records: b"\
            {\"type\":\"misc\",\"key\":\"b\",\"parent\":null,\"fields\":{\"t\":\"1\"}}\n\
            {\"type\":\"misc\",\"key\":\"c\",\"parent\":\"b\",\"fields\":{\"t\":\"1\"}}\n",
    },
    RecordRow {
        name: "a parent that inherits later gives its own fields",
        file: CHAIN,
        keys: &[b"c", b"b"],
        records: b"\
            {\"type\":\"misc\",\"key\":\"c\",\"parent\":\"b\",\"fields\":{}}\n\
            {\"type\":\"misc\",\"key\":\"b\",\"parent\":null,\"fields\":{\"t\":\"1\"}}\n",
    },
    RecordRow {
        name: "all entries inherit in the order of the file",
        file: UPWARDS,
        keys: &[b"*"],
        records: b"\
            {\"type\":\"misc\",\"key\":\"a\",\"parent\":null,\"fields\":{\"t\":\"1\"}}\n\
            {\"type\":\"misc\",\"key\":\"b\",\"parent\":\"a\",\"fields\":{\"t\":\"1\"}}\n\
            {\"type\":\"misc\",\"key\":\"c\",\"parent\":\"b\",\"fields\":{\"t\":\"1\"}}\n",
    },
    RecordRow {
        name: "an entry can be its own parent",
        file: SELF_NAMED,
        keys: &[b"c"],
        records: b"\
            {\"type\":\"misc\",\"key\":\"c\",\"parent\":\"p\",\"fields\":{\"t\":\"1\"}}\n\
            {\"type\":\"misc\",\"key\":\"p\",\"parent\":\"p\",\"fields\":{\"t\":\"1\"}}\n",
    },
    RecordRow {
        name: "in a ring each entry gets what its parent has by then",
        file: RING,
        keys: &[b"a", b"b", b"c"],
        records: b"\
            {\"type\":\"misc\",\"key\":\"a\",\"parent\":\"b\",\"fields\":{\"x\":\"1\",\"y\":\"2\"}}\n\
            {\"type\":\"misc\",\"key\":\"b\",\"parent\":\"c\",\"fields\":{\"y\":\"2\",\"z\":\"3\"}}\n\
            {\"type\":\"misc\",\"key\":\"c\",\"parent\":\"a\",\"fields\":{\"z\":\"3\",\"x\":\"1\",\"y\":\"2\"}}\n",
    },
    RecordRow {
        name: "a field with an empty text is not inherited",
        file: b"@misc{c, t={}, crossref={p}}@misc{p, t=1}\n\n",
        keys: &[b"c"],
        records: b"{\"type\":\"misc\",\"key\":\"c\",\"parent\":null,\"fields\":{\"t\":\"\"}}\n",
    },
    RecordRow {
        name: "the style defines macros",
        file: b"@misc{a, t=cacm, u=JAN # TCS}\n\n",
        keys: &[b"a"],
        records: b"{\"type\":\"misc\",\"key\":\"a\",\"parent\":null,\"fields\":{\"t\":\"Communications of the ACM\",\"u\":\"JanuaryTheoretical Computer Science\"}}\n",
    },
    RecordRow {
        name: "the file can define a macro of the style again",
        file: b"@misc{a, t=cacm}@string{CACM = cacm # {x}}@misc{b, t=cacm}\n\n",
        keys: &[b"*"],
        records: b"\
            {\"type\":\"misc\",\"key\":\"a\",\"parent\":null,\"fields\":{\"t\":\"Communications of the ACM\"}}\n\
            {\"type\":\"misc\",\"key\":\"b\",\"parent\":null,\"fields\":{\"t\":\"x\"}}\n",
    },
];

/// The keys as owned texts.
pub(crate) fn texts(alloc: Global, keys: &[&[u8]]) -> Result<Vec<Text>, AllocError> {
    let mut texts = Vec::new(alloc);
    for key in keys {
        texts.push(copied(alloc, key)?)?;
    }
    Ok(texts)
}

/// What `cite` answers to a file.
pub(crate) fn cite(
    alloc: Global,
    file: &[u8],
    keys: &[&[u8]],
    least: u32,
    strict: bool,
) -> Result<Answer, AllocError> {
    let keys = texts(alloc, keys)?;
    answer_cite_as_bibtex(
        alloc,
        Vec::from_slice(alloc, file)?,
        keys.as_slice(),
        least,
        strict,
    )
}

/// What `json` answers to a file.
pub(crate) fn json(alloc: Global, file: &[u8], keys: &[&[u8]]) -> Result<Answer, AllocError> {
    let keys = texts(alloc, keys)?;
    answer_json_as_bibtex(alloc, Vec::from_slice(alloc, file)?, keys.as_slice())
}

/// Whether the answer has this output and no message.
fn says(answer: Result<Answer, AllocError>, output: &[u8]) -> bool {
    match answer {
        Ok(answer) => {
            answer.output.as_slice() == output && answer.outcome.message.as_slice().is_empty()
        }
        Err(_) => false,
    }
}

#[test]
fn lists_are_those_of_bibtex(rt: HostRuntime) -> Result<(), Fail> {
    for row in ROWS {
        let answer = cite(rt.alloc(), row.file, row.keys, row.least, false);
        if !says(answer, row.lines) {
            return Err(Fail::new(format_args!("{}: comes out otherwise", row.name)));
        }
    }
    Ok(())
}

#[test]
fn records_are_those_of_bibtex(rt: HostRuntime) -> Result<(), Fail> {
    for row in RECORD_ROWS {
        if !says(json(rt.alloc(), row.file, row.keys), row.records) {
            return Err(Fail::new(format_args!("{}: comes out otherwise", row.name)));
        }
    }
    Ok(())
}
