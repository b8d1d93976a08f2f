//! What is answered to an entry, and to files and keys that are refused.

use crate::lists::{cite, json};
use bib_answers::Answer;
use bibtex_answers::answer_show_as_bibtex;
use std::alloc::{AllocError, Global};
use std::test::Fail;

/// A file and a key, and what comes out: the output, the message, and the status.
struct Row<'a> {
    name: &'a str,
    file: &'a [u8],
    key: &'a [u8],
    output: &'a [u8],
    message: &'a [u8],
    status: u8,
}

const PARENT_LAST: &[u8] = b"@misc{p, t=1}@misc{c, crossref={p}}@misc{P, t=2}\n\n";

const SHOWN: &[Row<'_>] = &[
    Row {
        name: "the crossref is the key of the parent, as its entry writes it",
        file: PARENT_LAST,
        key: b"C",
        output: b"@misc C\nt = 2\ncrossref = P\n",
        message: b"",
        status: 0,
    },
    Row {
        name: "no entry has the key",
        file: PARENT_LAST,
        key: b"x",
        output: b"",
        message: b"bibkeep: 11 NoSuchEntry\n",
        status: 1,
    },
    Row {
        name: "the star is no entry's key",
        file: PARENT_LAST,
        key: b"*",
        output: b"",
        message: b"bibkeep: 11 NoSuchEntry\n",
        status: 1,
    },
    Row {
        name: "an entry begins in the last line, after one that ends there",
        file: b"@misc{a,\n t=1}@misc{b}\n",
        key: b"a",
        output: b"",
        message: b"bibkeep: 14 NotPlain at 14\n",
        status: 1,
    },
    Row {
        name: "a repeated entry has an at-sign in its body",
        file: b"@misc{a}@misc{a, t={@misc{b}}}\n\n",
        key: b"a",
        output: b"",
        message: b"bibkeep: 14 NotPlain at 20\n",
        status: 1,
    },
    Row {
        name: "a fault is told at its place in the file",
        file: b"@misc{a, t}\n",
        key: b"a",
        output: b"",
        message: b"bibkeep: 3 ExpectedEquals at 10\n",
        status: 1,
    },
    Row {
        name: "an item that does not end goes on to the end of the file",
        file: b"@misc{a",
        key: b"a",
        output: b"",
        message: b"bibkeep: 1 Unended at 7\n",
        status: 1,
    },
];

/// What `show` answers to a file.
fn show(alloc: Global, file: &[u8], key: &[u8]) -> Result<Answer, AllocError> {
    answer_show_as_bibtex(alloc, Vec::from_slice(alloc, file)?, key)
}

/// Whether the answer has this output, this message and this status.
fn says(answer: Result<Answer, AllocError>, output: &[u8], message: &[u8], status: u8) -> bool {
    match answer {
        Ok(answer) => {
            answer.output.as_slice() == output
                && answer.outcome.message.as_slice() == message
                && answer.outcome.status == status
        }
        Err(_) => false,
    }
}

/// So many entries, each but the first with the one before it as its parent.
fn chain(alloc: Global, count: usize) -> Result<Vec<u8>, AllocError> {
    let mut key = Vec::new(alloc);
    let mut file = Vec::new(alloc);
    for _ in 0..count {
        file.extend_from_slice(b"@misc{x")?;
        file.extend_from_slice(key.as_slice())?;
        if !key.is_empty() {
            file.extend_from_slice(b", crossref={x")?;
            file.extend_from_slice(key.split_at(key.len() - 1).0)?;
            file.extend_from_slice(b"}")?;
        }
        file.extend_from_slice(b"}\n")?;
        key.push(b'a')?;
    }
    file.extend_from_slice(b"\n")?;
    Ok(file)
}

#[test]
fn entries_are_shown_as_bibtex_gives_them(rt: HostRuntime) -> Result<(), Fail> {
    for row in SHOWN {
        let answer = show(rt.alloc(), row.file, row.key);
        if !says(answer, row.output, row.message, row.status) {
            return Err(Fail::new(format_args!("{}: comes out otherwise", row.name)));
        }
    }
    Ok(())
}

#[test]
fn keys_without_an_entry_are_told(rt: HostRuntime) -> Result<(), Fail> {
    let cited = cite(rt.alloc(), PARENT_LAST, &[b"x", b"c", b"X"], 1, true);
    assert!(rt; says(cited, b"c\tP\nP\n? x\n? X\n", b"", 1));
    let told = json(rt.alloc(), PARENT_LAST, &[b"*", b"x"]);
    assert!(rt; says(told, b"", b"bibkeep: 11 NoSuchEntry\n", 1));
    Ok(())
}

#[test]
fn a_text_that_is_not_utf8_is_told_with_the_key_as_cited(rt: HostRuntime) -> Result<(), Fail> {
    let told = json(rt.alloc(), b"@misc{a, t={\xff}}\n\n", &[b"A"]);
    assert!(rt; says(told, b"", b"bibkeep: 24 NotUtf8 in A\n", 1));
    Ok(())
}

#[test]
fn an_entry_may_inherit_from_64_entries(rt: HostRuntime) -> Result<(), Fail> {
    let file = chain(rt.alloc(), 65)?;
    let told = json(rt.alloc(), file.as_slice(), &[b"x"]);
    assert!(rt;
        says(
            told,
            b"{\"type\":\"misc\",\"key\":\"x\",\"parent\":null,\"fields\":{}}\n",
            b"",
            0
        )
    );
    assert!(rt;
        cite(rt.alloc(), file.as_slice(), &[b"*"], 2, false)?
            .outcome
            .status
            == 0
    );
    let file = chain(rt.alloc(), 66)?;
    let cited = cite(rt.alloc(), file.as_slice(), &[b"*"], 2, false);
    assert!(rt; says(cited, b"", b"bibkeep: 15 TooDeep\n", 1));
    Ok(())
}
