//! Fields that get other names.

use crate::rows::{Row, all_hold};
use crate::turns::Turn;
use std::test::Fail;

const IN_ALL: &[Row<'_>] = &[
    Row {
        name: "a field gets its new name in every entry, and a macro of the old name is left",
        file: b"@misc{a, Journal = {J}, t=1}\n@string{journal=1}@misc{b,JOURNAL=journal}",
        turn: Turn::Script(b"rename-field\tjournal\tjournalTitle"),
        refusal: 0,
        left: b"@misc{a, journalTitle = {J}, t=1}\n@string{journal=1}@misc{b,journalTitle=journal}",
    },
    Row {
        name: "the case of a name alone may change",
        file: b"@misc{a,t=1}@misc{b,T=2}",
        turn: Turn::Script(b"rename-field\tt\tT"),
        refusal: 0,
        left: b"@misc{a,T=1}@misc{b,T=2}",
    },
    Row {
        name: "no entry has the field",
        file: TWO,
        turn: Turn::Script(b"rename-field\tx\ty"),
        refusal: 35,
        left: TWO,
    },
    Row {
        name: "an entry has a field of the new name already",
        file: b"@misc{b,t=3}@misc{a,title=1,t=2}",
        turn: Turn::Script(b"rename-field\tt\ttitle"),
        refusal: 36,
        left: b"@misc{b,t=3}@misc{a,title=1,t=2}",
    },
    Row {
        name: "an entry has the field twice",
        file: b"@misc{a,t=1,T=2}",
        turn: Turn::Script(b"rename-field\tt\tu"),
        refusal: 36,
        left: b"@misc{a,t=1,T=2}",
    },
    Row {
        name: "an entry that has not the field may have two of the new name",
        file: b"@misc{a,u=1,U=2}@misc{b,t=3}",
        turn: Turn::Script(b"rename-field\tt\tu"),
        refusal: 0,
        left: b"@misc{a,u=1,U=2}@misc{b,u=3}",
    },
    Row {
        name: "a crossref keeps its name",
        file: TWO,
        turn: Turn::Script(b"rename-field\tCrossRef\tx"),
        refusal: 32,
        left: TWO,
    },
    Row {
        name: "no field gets the name of a crossref",
        file: TWO,
        turn: Turn::Script(b"rename-field\tt\tcrossref"),
        refusal: 32,
        left: TWO,
    },
    Row {
        name: "a name begins with no digit",
        file: TWO,
        turn: Turn::Script(b"rename-field\tt\t1t"),
        refusal: 32,
        left: TWO,
    },
];

const IN_ONE: &[Row<'_>] = &[
    Row {
        name: "a field gets its new name in the entry that the key names",
        file: TWO,
        turn: Turn::Script(b"rename-field\tt\ttitle\tB"),
        refusal: 0,
        left: b"@misc{a,t=1}\n@misc{b,title = {2}}",
    },
    Row {
        name: "the entry has not the field",
        file: TWO,
        turn: Turn::Script(b"rename-field\tx\ty\ta"),
        refusal: 35,
        left: TWO,
    },
    Row {
        name: "no entry has the key",
        file: TWO,
        turn: Turn::Script(b"rename-field\tt\ty\tc"),
        refusal: 35,
        left: TWO,
    },
    Row {
        name: "the entry has a field of the new name already",
        file: b"@misc{a,t=1,u=2}@misc{b,t=1}",
        turn: Turn::Script(b"rename-field\tt\tu\ta"),
        refusal: 36,
        left: b"@misc{a,t=1,u=2}@misc{b,t=1}",
    },
    Row {
        name: "another entry may have both",
        file: b"@misc{a,t=1,u=2}@misc{b,t=1}",
        turn: Turn::Script(b"rename-field\tt\tu\tb"),
        refusal: 0,
        left: b"@misc{a,t=1,u=2}@misc{b,u=1}",
    },
    Row {
        name: "two entries have the key",
        file: b"@misc{a,t=1}@misc{A,t=2}",
        turn: Turn::Script(b"rename-field\tt\tu\ta"),
        refusal: 36,
        left: b"@misc{a,t=1}@misc{A,t=2}",
    },
    Row {
        name: "two entries have the key, and the first has not the field",
        file: b"@misc{a,x=1}@misc{A,t=2}",
        turn: Turn::Script(b"rename-field\tt\tu\ta"),
        refusal: 35,
        left: b"@misc{a,x=1}@misc{A,t=2}",
    },
];

const TWO: &[u8] = b"@misc{a,t=1}\n@misc{b,t = {2}}";

#[test]
fn fields_get_other_names_in_all_entries(rt: HostRuntime) -> Result<(), Fail> {
    all_hold(rt.alloc(), IN_ALL)
}

#[test]
fn fields_get_other_names_in_one_entry(rt: HostRuntime) -> Result<(), Fail> {
    all_hold(rt.alloc(), IN_ONE)
}
