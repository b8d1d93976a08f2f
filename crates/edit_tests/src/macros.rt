//! Macros that are renamed, inlined, introduced, undefined, defined and given a value.

use crate::rows::{Course, Row, Step, all_come_out, all_hold};
use crate::turns::Turn;
use std::test::Fail;

const MONTH: &[u8] = b"@string{jan = jan # { x}}@misc{a, month = jan}";

const BESIDE: &[u8] =
    b"@string{m={x}}\n@misc{a}\n@misc{b,t=n}\n@string{n=m # {y}}\n@misc{c,t=n}\n@misc{d,t=n}\n";

const PARTS: &[u8] = b"@misc{a, t = {x} # \"x\"}";

const RENAMED: &[Row<'_>] = &[
    Row {
        name: "a macro is renamed in its own definition too",
        file: MONTH,
        turn: Turn::Script(b"rename-macro\tjan\tj"),
        refusal: 0,
        left: b"@string{j = j # { x}}@misc{a, month = j}",
    },
    Row {
        name: "a macro is spelled otherwise",
        file: MONTH,
        turn: Turn::Script(b"rename-macro\tjan\tJAN"),
        refusal: 0,
        left: b"@string{JAN = JAN # { x}}@misc{a, month = JAN}",
    },
    Row {
        name: "the name of a macro to rename is a name",
        file: MONTH,
        turn: Turn::Script(b"rename-macro\t1\tx"),
        refusal: 32,
        left: MONTH,
    },
    Row {
        name: "a month without a definition is not renamed",
        file: MONTH,
        turn: Turn::Script(b"rename-macro\tfeb\tj"),
        refusal: 35,
        left: MONTH,
    },
    Row {
        name: "a macro with two definitions is not renamed",
        file: b"@string{p={A}}@misc{a,t=p}@string{p={B}}@misc{b,t=p}",
        turn: Turn::Script(b"rename-macro\tp\tq"),
        refusal: 36,
        left: b"@string{p={A}}@misc{a,t=p}@string{p={B}}@misc{b,t=p}",
    },
    Row {
        name: "a macro does not get the name of a month",
        file: MONTH,
        turn: Turn::Script(b"rename-macro\tjan\tMay"),
        refusal: 38,
        left: MONTH,
    },
    Row {
        name: "a use before the definition keeps its name",
        file: b"@misc{a, t = m}@string{m = 1}@misc{b, t = m}",
        turn: Turn::Script(b"rename-macro\tm\tn"),
        refusal: 0,
        left: b"@misc{a, t = m}@string{n = 1}@misc{b, t = n}",
    },
    Row {
        name: "a crossref of parts is renamed with its macro",
        file: b"@string{conf={conf}}@misc{conf95}@misc{b, crossref = conf # {95}}",
        turn: Turn::Script(b"rename-macro\tconf\tc"),
        refusal: 0,
        left: b"@string{c={conf}}@misc{conf95}@misc{b, crossref = c # {95}}",
    },
];

const INLINED: &[Row<'_>] = &[
    Row {
        name: "what a macro says stands for its uses in braces",
        file: b"@string{m = \"a\" # {\"}}@misc{k, t = m # 1}",
        turn: Turn::Script(b"inline\tm"),
        refusal: 0,
        left: b"@misc{k, t = {a\"} # 1}",
    },
    Row {
        name: "what a macro says is what it said at its definition",
        file: b"@string{x={1}}@string{m=x}@string{x={2}}@misc{k,t=m}",
        turn: Turn::Script(b"inline\tm"),
        refusal: 0,
        left: b"@string{x={1}}@string{x={2}}@misc{k,t={1}}",
    },
];

const INTRODUCED: &[Row<'_>] = &[
    Row {
        name: "a text in braces and in quotes gets one name",
        file: PARTS,
        turn: Turn::Script(b"introduce\tm\tx"),
        refusal: 0,
        left: b"@string{m = {x}}\n@misc{a, t = m # m}",
    },
    Row {
        name: "a text does not get the name of a month",
        file: PARTS,
        turn: Turn::Script(b"introduce\tmay\tx"),
        refusal: 38,
        left: PARTS,
    },
    Row {
        name: "a text that no part has gets no name",
        file: PARTS,
        turn: Turn::Script(b"introduce\tm\ty"),
        refusal: 35,
        left: PARTS,
    },
    Row {
        name: "a text that does not balance gets no name",
        file: PARTS,
        turn: Turn::Script(b"introduce\tm\t}"),
        refusal: 33,
        left: PARTS,
    },
    Row {
        name: "a number is no text that gets a name",
        file: b"@misc{a, t = m}@string{n = 1}@misc{b, t = n}",
        turn: Turn::Script(b"introduce\tm\t1"),
        refusal: 35,
        left: b"@misc{a, t = m}@string{n = 1}@misc{b, t = n}",
    },
];

const UNDEFINED: &[Row<'_>] = &[
    Row {
        name: "a definition that no use sees is removed, and a use before it is left",
        file: b"@misc{a,t=m}@string{m=m#{x}}y@misc{b}",
        turn: Turn::Script(b"undefine\tM"),
        refusal: 0,
        left: b"@misc{a,t=m}y@misc{b}",
    },
    Row {
        name: "a definition that a field uses is left",
        file: USED,
        turn: Turn::Script(b"undefine\tm"),
        refusal: 39,
        left: USED,
    },
    Row {
        name: "a definition that another definition uses is left",
        file: b"@string{m=1}@string{n={x}#M}",
        turn: Turn::Script(b"undefine\tm"),
        refusal: 39,
        left: b"@string{m=1}@string{n={x}#M}",
    },
    Row {
        name: "one of two definitions is not removed",
        file: b"@string{m=1}@string{M=2}",
        turn: Turn::Script(b"undefine\tm"),
        refusal: 36,
        left: b"@string{m=1}@string{M=2}",
    },
    Row {
        name: "a month is no definition",
        file: USED,
        turn: Turn::Script(b"undefine\tjan"),
        refusal: 35,
        left: USED,
    },
    Row {
        name: "a definition between texts that would begin an item is left",
        file: b"a@foo \n@string{m = 1}{b",
        turn: Turn::Script(b"undefine\tm"),
        refusal: 40,
        left: b"a@foo \n@string{m = 1}{b",
    },
];

const DEFINED: &[Row<'_>] = &[
    Row {
        name: "a definition comes after the last one before the first entry, in a line of its own",
        file: DEFINING,
        turn: Turn::Script(b"define\tn\tm # {b}"),
        refusal: 0,
        left: b"@string{l=1}\n@string(m=2)\n@string{n = m # {b}}\n\n% remark\n@misc{a,t=m}\n@string{k=3}\n",
    },
    Row {
        name: "without a definition before the first entry it comes first",
        file: b"x\n@misc{a}\n@string{m=1}",
        turn: Turn::Script(b"define\tn\t2"),
        refusal: 0,
        left: b"x\n@string{n = 2}\n@misc{a}\n@string{m=1}",
    },
    Row {
        name: "comments and preambles may be before the definitions and after them",
        file: b"@comment{x}@preamble{{p}}@string{m=1}@preamble{{q}}@misc{a}",
        turn: Turn::Script(b"define\tn\t2"),
        refusal: 0,
        left: b"@comment{x}@preamble{{p}}@string{m=1}\n@string{n = 2}@preamble{{q}}@misc{a}",
    },
    Row {
        name: "in a file without entries it comes after the last definition",
        file: b"@string{m=1}\n@comment{x}\n",
        turn: Turn::Script(b"define\tn\t2"),
        refusal: 0,
        left: b"@string{m=1}\n@string{n = 2}\n@comment{x}\n",
    },
    Row {
        name: "a file without items gets one at its end",
        file: b"x\n",
        turn: Turn::Script(b"define\tn\t{a} # 1"),
        refusal: 0,
        left: b"x\n@string{n = {a} # 1}\n",
    },
    Row {
        name: "a month gets a definition",
        file: DEFINING,
        turn: Turn::Script(b"define\tjan\t{Jan.}"),
        refusal: 0,
        left: b"@string{l=1}\n@string(m=2)\n@string{jan = {Jan.}}\n\n% remark\n@misc{a,t=m}\n@string{k=3}\n",
    },
    Row {
        name: "a name that has a definition, wherever that is, is refused",
        file: DEFINING,
        turn: Turn::Script(b"define\tK\t1"),
        refusal: 38,
        left: DEFINING,
    },
    Row {
        name: "a definition has a name",
        file: DEFINING,
        turn: Turn::Script(b"define\t1\t{"),
        refusal: 32,
        left: DEFINING,
    },
    Row {
        name: "a definition has a value",
        file: DEFINING,
        turn: Turn::Script(b"define\tk\t{"),
        refusal: 33,
        left: DEFINING,
    },
];

const SET: &[Row<'_>] = &[
    Row {
        name: "the value of a definition gives way alone, in parentheses too",
        file: DEFINING,
        turn: Turn::Script(b"set-macro\tM\tl # {x}"),
        refusal: 0,
        left: b"@string{l=1}\n@string(m=l # {x})\n\n% remark\n@misc{a,t=m}\n@string{k=3}\n",
    },
    Row {
        name: "a definition after the entries gets a value",
        file: DEFINING,
        turn: Turn::Script(b"set-macro\tk\t\"x\""),
        refusal: 0,
        left: b"@string{l=1}\n@string(m=2)\n\n% remark\n@misc{a,t=m}\n@string{k=\"x\"}\n",
    },
    Row {
        name: "a month alone is no definition that gets a value",
        file: DEFINING,
        turn: Turn::Script(b"set-macro\tmay\t5"),
        refusal: 35,
        left: DEFINING,
    },
    Row {
        name: "one of two definitions gets no value",
        file: b"@string{m=1}@string{M=2}",
        turn: Turn::Script(b"set-macro\tm\t3"),
        refusal: 36,
        left: b"@string{m=1}@string{M=2}",
    },
    Row {
        name: "the name of a macro that gets a value is a name",
        file: DEFINING,
        turn: Turn::Script(b"set-macro\t{m}\t{"),
        refusal: 32,
        left: DEFINING,
    },
    Row {
        name: "a macro gets a value, before it is sought",
        file: DEFINING,
        turn: Turn::Script(b"set-macro\tx\t1 #"),
        refusal: 33,
        left: DEFINING,
    },
];

const DEFINING: &[u8] = b"@string{l=1}\n@string(m=2)\n\n% remark\n@misc{a,t=m}\n@string{k=3}\n";

const USED: &[u8] = b"@misc{a,t=m}@string{m=1}@misc{b,t=m}";

const INLINED_BESIDE: &[u8] = b"@string{m={x}}\n\n@misc{b,t=n}\n\n\n@misc{d,t={xy}}\n";

const MOVED_AND_INLINED: &[u8] =
    b"@string{m={x}}\n\n@misc{c,t=n}\n@misc{b,t=n}\n\n\n@misc{d,t={xy}}\n@misc{a}\n";

const MOVED_BACK: &[u8] =
    b"@string{m={x}}\n\n@misc{a}\n@misc{c,t=n}\n@misc{b,t=n}\n@string{n=m # {y}}\n\n@misc{d,t=n}\n\n";

const BESIDE_DEFINITIONS: &[Course<'_>] = &[
    Course {
        name: "an entry goes from beside a definition and comes back",
        file: BESIDE,
        steps: &[
            Step {
                turn: Turn::Script(b"remove\ta"),
                refusal: 0,
                file: Some(
                    b"@string{m={x}}\n\n@misc{b,t=n}\n@string{n=m # {y}}\n@misc{c,t=n}\n@misc{d,t=n}\n",
                ),
                counts: None,
            },
            Step {
                turn: Turn::Script(b"remove\tc\ninline\tn"),
                refusal: 0,
                file: Some(INLINED_BESIDE),
                counts: None,
            },
            Step {
                turn: Turn::Undo(3),
                refusal: 0,
                file: Some(BESIDE),
                counts: None,
            },
            Step {
                turn: Turn::Redo(3),
                refusal: 0,
                file: Some(INLINED_BESIDE),
                counts: None,
            },
        ],
    },
    Course {
        name: "an entry moves away from a definition and back",
        file: BESIDE,
        steps: &[
            Step {
                turn: Turn::Script(b"move\ta\t5"),
                refusal: 0,
                file: Some(
                    b"@string{m={x}}\n\n@misc{b,t=n}\n@string{n=m # {y}}\n@misc{c,t=n}\n@misc{d,t=n}\n@misc{a}\n",
                ),
                counts: None,
            },
            Step {
                turn: Turn::Script(b"move\tc\t1\ninline\tn"),
                refusal: 0,
                file: Some(MOVED_AND_INLINED),
                counts: None,
            },
            Step {
                turn: Turn::Undo(3),
                refusal: 0,
                file: Some(BESIDE),
                counts: None,
            },
            Step {
                turn: Turn::Redo(2),
                refusal: 0,
                file: Some(
                    b"@string{m={x}}\n\n@misc{c,t=n}\n@misc{b,t=n}\n@string{n=m # {y}}\n\n@misc{d,t=n}\n@misc{a}\n",
                ),
                counts: None,
            },
            Step {
                turn: Turn::Script(b"move\ta\t1"),
                refusal: 0,
                file: Some(MOVED_BACK),
                counts: None,
            },
        ],
    },
];

#[test]
fn a_macro_is_renamed(rt: HostRuntime) -> Result<(), Fail> {
    all_hold(rt.alloc(), RENAMED)
}

#[test]
fn a_macro_is_inlined(rt: HostRuntime) -> Result<(), Fail> {
    all_hold(rt.alloc(), INLINED)
}

#[test]
fn a_macro_is_introduced(rt: HostRuntime) -> Result<(), Fail> {
    all_hold(rt.alloc(), INTRODUCED)
}

#[test]
fn a_macro_is_undefined(rt: HostRuntime) -> Result<(), Fail> {
    all_hold(rt.alloc(), UNDEFINED)
}

#[test]
fn a_macro_is_defined(rt: HostRuntime) -> Result<(), Fail> {
    all_hold(rt.alloc(), DEFINED)
}

#[test]
fn a_macro_gets_a_value(rt: HostRuntime) -> Result<(), Fail> {
    all_hold(rt.alloc(), SET)
}

#[test]
fn definitions_are_followed(rt: HostRuntime) -> Result<(), Fail> {
    all_come_out(rt.alloc(), BESIDE_DEFINITIONS)
}
