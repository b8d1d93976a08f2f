//! How long values and steps may be.

use crate::rows::{Course, Step, Stop, all_come_out, told};
use crate::turns::{Long, Turn};
use bib_journal::STEP_TEXTS_LIMIT;
use bib_store::Piece;
use bib_text::{Seq, Text};
use journal_format::step_text_len;
use std::alloc::{AllocError, Global};
use std::test::Fail;

const FILE: &[u8] = b"@misc{a,t=1}";

/// A text of 32 uses of a macro.
const USING: &[u8] =
    b"@string{m=1}@misc{a,t=m#m#m#m#m#m#m#m#m#m#m#m#m#m#m#m#m#m#m#m#m#m#m#m#m#m#m#m#m#m#m#m}";

const UNDEFINED: &[u8] =
    b"@misc{a,t=m#m#m#m#m#m#m#m#m#m#m#m#m#m#m#m#m#m#m#m#m#m#m#m#m#m#m#m#m#m#m#m}";

/// A line that sets a field to digits.
const DIGITS: Long = Long {
    before: b"set\ta\tt\t",
    byte: b'1',
    count: 1_048_576,
    after: b"",
};

const LENGTHS: &[Course<'_>] = &[
    Course {
        name: "a value may be as long as the limit",
        file: FILE,
        steps: &[
            Step {
                turn: Turn::Long(
                    1,
                    Long {
                        before: b"set\ta\tt\t{",
                        byte: b'x',
                        count: 1_048_577,
                        after: b"}",
                    },
                ),
                refusal: 8,
                file: Some(FILE),
                counts: None,
            },
            Step {
                turn: Turn::Long(
                    1,
                    Long {
                        before: b"set\ta\tt\t{",
                        byte: b'x',
                        count: 1_048_576,
                        after: b"}",
                    },
                ),
                refusal: 0,
                file: None,
                counts: Some((1, 0)),
            },
        ],
    },
    Course {
        name: "the texts of steps are limited",
        file: FILE,
        steps: &[
            Step {
                turn: Turn::Long(32, DIGITS),
                refusal: 0,
                file: None,
                counts: None,
            },
            Step {
                turn: Turn::Long(1, DIGITS),
                refusal: 41,
                file: None,
                counts: Some((32, 0)),
            },
        ],
    },
];

const MACRO_LENGTHS: &[Course<'_>] = &[
    Course {
        name: "the value of a macro may make a text as long as the limit",
        file: USING,
        steps: &[
            Step {
                turn: Turn::Long(
                    1,
                    Long {
                        before: b"set-macro\tm\t{",
                        byte: b'x',
                        count: 32_769,
                        after: b"}",
                    },
                ),
                refusal: 8,
                file: Some(USING),
                counts: None,
            },
            Step {
                turn: Turn::Long(
                    1,
                    Long {
                        before: b"set-macro\tm\t{",
                        byte: b'x',
                        count: 32_768,
                        after: b"}",
                    },
                ),
                refusal: 0,
                file: None,
                counts: Some((1, 0)),
            },
        ],
    },
    Course {
        name: "a definition may make a text after it as long as the limit",
        file: UNDEFINED,
        steps: &[
            Step {
                turn: Turn::Long(
                    1,
                    Long {
                        before: b"define\tm\t{",
                        byte: b'x',
                        count: 32_769,
                        after: b"}",
                    },
                ),
                refusal: 8,
                file: Some(UNDEFINED),
                counts: None,
            },
            Step {
                turn: Turn::Long(
                    1,
                    Long {
                        before: b"define\tm\t{",
                        byte: b'x',
                        count: 32_768,
                        after: b"}",
                    },
                ),
                refusal: 0,
                file: None,
                counts: Some((1, 0)),
            },
        ],
    },
];

#[test]
fn values_of_macros_have_limits(rt: HostRuntime) -> Result<(), Fail> {
    all_come_out(rt.alloc(), MACRO_LENGTHS)
}

#[test]
fn values_and_steps_have_limits(rt: HostRuntime) -> Result<(), Fail> {
    all_come_out(rt.alloc(), LENGTHS)
}

fn digits(alloc: Global, count: usize) -> Result<Text, AllocError> {
    let mut digits = Vec::new(alloc);
    digits.resize(count, DIGITS.byte)?;
    Ok(Seq::from_vec(digits))
}

/// How long the text of the step is that replaces `old` digits by `new` digits.
fn step_len(alloc: Global, old: usize, new: usize) -> Result<u64, AllocError> {
    let pieces = [Piece {
        place: 10,
        old: digits(alloc, old)?,
        new: digits(alloc, new)?,
    }];
    Ok(step_text_len(b"", &pieces))
}

/// Whether the texts of 32 steps together are as long as the example says, which may be kept; and with one step more,
/// which may not.
fn are_added_up(alloc: Global) -> Result<bool, Stop> {
    let first = step_len(alloc, 1, DIGITS.count)?;
    let next = step_len(alloc, DIGITS.count, DIGITS.count)?;
    let kept = next.saturating_mul(31).saturating_add(first);
    let over = kept.saturating_add(next);
    let is_between = kept <= STEP_TEXTS_LIMIT && STEP_TEXTS_LIMIT < over;
    Ok(kept == 66_061_019 && over == 68_158_194 && is_between)
}

#[test]
fn texts_of_steps_add_up(rt: HostRuntime) -> Result<(), Fail> {
    told("the texts of steps", are_added_up(rt.alloc()))
}
