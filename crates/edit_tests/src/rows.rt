//! Worked examples as rows. A row holds if it gives what it says, both with the file in a plain list and with it in
//! pages.

use crate::turns::{Asked, Left, Turn, after, asked_of, is_same};
use bib_edit::EditFault;
use bib_journal::SessionFault;
use bib_scan::ReadFault;
use bib_store::{Flat, Paged, StoreFault};
use std::alloc::{AllocError, Global};
use std::test::Fail;

/// A file, a turn, the number of the refusal at which the turn ends, or 0, and the file that it leaves.
#[derive(Clone, Copy)]
pub struct Row<'a> {
    pub name: &'a str,
    pub file: &'a [u8],
    pub turn: Turn,
    pub refusal: u16,
    pub left: &'a [u8],
}

/// A turn; the number of the refusal at which it ends, or 0; and what the example says about the file that it leaves,
/// and about how many changes can be undone and redone then.
#[derive(Clone, Copy)]
pub struct Step<'a> {
    pub turn: Turn,
    pub refusal: u16,
    pub file: Option<&'a [u8]>,
    pub counts: Option<(usize, usize)>,
}

/// A file and several turns.
#[derive(Clone, Copy)]
pub struct Course<'a> {
    pub name: &'a str,
    pub file: &'a [u8],
    pub steps: &'a [Step<'a>],
}

fn all_asked(alloc: Global, steps: &[Step<'_>]) -> Result<Vec<Asked>, AllocError> {
    let mut turns = Vec::new(alloc);
    for step in steps {
        turns.push(asked_of(alloc, &step.turn)?)?;
    }
    Ok(turns)
}

/// Whether a turn left what the example says.
pub fn is_left(left: &Left, step: &Step<'_>) -> bool {
    left.refusal == step.refusal
        && step.file.is_none_or(|file| left.file.as_slice() == file)
        && step.counts.is_none_or(|counts| left.counts == counts)
}

fn are_left(lefts: &[Left], steps: &[Step<'_>]) -> bool {
    lefts.len() == steps.len()
        && lefts
            .iter()
            .zip(steps)
            .all(|(left, step)| is_left(left, step))
}

fn are_same(some: &[Left], others: &[Left]) -> bool {
    some.len() == others.len()
        && some
            .iter()
            .zip(others)
            .all(|(one, other)| is_same(one, other))
}

fn holds(alloc: Global, file: &[u8], steps: &[Step<'_>]) -> Result<bool, Stop> {
    let turns = all_asked(alloc, steps)?;
    let plain = after(alloc, file, Flat::new(alloc), turns.as_slice())?;
    let paged = after(alloc, file, Paged::new(alloc), turns.as_slice())?;
    Ok(are_left(plain.as_slice(), steps) && are_same(plain.as_slice(), paged.as_slice()))
}

/// The number of the fault at which an example stops.
#[derive(Clone, Copy, Debug)]
pub struct Stop(pub u16);

impl From<AllocError> for Stop {
    fn from(_fault: AllocError) -> Stop {
        Stop(10)
    }
}

impl From<ReadFault> for Stop {
    fn from(fault: ReadFault) -> Stop {
        Stop(u16::from(fault.kind))
    }
}

impl From<StoreFault> for Stop {
    fn from(fault: StoreFault) -> Stop {
        Stop(fault.number())
    }
}

impl From<EditFault> for Stop {
    fn from(fault: EditFault) -> Stop {
        Stop(fault.number())
    }
}

impl From<SessionFault> for Stop {
    fn from(fault: SessionFault) -> Stop {
        Stop(fault.number())
    }
}

/// Fails with the name of the example that does not hold.
pub fn told(name: &str, holds: Result<bool, Stop>) -> Result<(), Fail> {
    match holds {
        Ok(true) => Ok(()),
        Ok(false) => Err(Fail::new(format_args!("{name}: comes out otherwise"))),
        Err(stop) => Err(Fail::new(format_args!("{name}: stops at {}", stop.0))),
    }
}

/// Fails with the name of the first of these that does not hold.
pub fn all_hold(alloc: Global, rows: &[Row<'_>]) -> Result<(), Fail> {
    for row in rows {
        let step = Step {
            turn: row.turn,
            refusal: row.refusal,
            file: Some(row.left),
            counts: None,
        };
        told(row.name, holds(alloc, row.file, &[step]))?;
    }
    Ok(())
}

/// Fails with the name of the first example of several turns that does not hold.
pub fn all_come_out(alloc: Global, courses: &[Course<'_>]) -> Result<(), Fail> {
    for course in courses {
        told(course.name, holds(alloc, course.file, course.steps))?;
    }
    Ok(())
}
