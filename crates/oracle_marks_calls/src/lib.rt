// One operation of the comparison of marks, plain or by pattern, for crate oracle_marks. Nothing is promised of the answers: what they are
// is promised of the calls of crates marks and marks_by that are made here.
// What the comparison lends is one value (`Lent`), made by the function that it calls.
#![tactic(auto)]

use format::Refusal;
use marks_held::Marks;
use oracle_marks_held::{Held, Ran, held_by, told};
use oracle_numbers::{DONE, END, NO_OPERATION, NOT_STARTED, REFUSED};
use patterned::Patterned;
use std::ops::Bound;

// What the comparison lends to an operation: a file and its table of keys, and the bytes of the bounds and the names. The readings are by the pattern of
// these positions, with its rest or without, or plain where there is none.
#[derive(Clone, Copy)]
pub struct Lent<'l> {
    pub file: &'l [u8],
    pub table: &'l [u64],
    pub pattern: Option<(&'l [u16], bool)>,
    pub bytes: &'l [u8],
}

// The held reading by its pattern.
fn patterned_of(held: Held) -> Patterned {
    Patterned {
        reading: held.plain.reading,
        pattern: held.pattern,
    }
}

// An operation: a start with two bounds, a next with a key buffer that is so much shorter, or a mark or a return with a name.
#[derive(Clone, Copy)]
pub enum Operation<'l> {
    Start(Bound<&'l [u8]>, Bound<&'l [u8]>),
    Next(usize),
    Mark(&'l [u8]),
    Back(&'l [u8]),
}

// An operation that is none: all that is held stays, as it does after a refusal.
pub fn no_operation(held: Held) -> Ran {
    told(NO_OPERATION, 0, held)
}

fn not_started(why: Refusal, held: Held) -> Ran {
    told(NOT_STARTED + u64::from(u8::from(why)), 0, held)
}

fn refused(why: Refusal, held: Held) -> Ran {
    told(REFUSED + u64::from(u8::from(why)), 0, held)
}

// What a next answered.
fn stepped(answer: Result<Option<(usize, u64)>, Refusal>, held: Held) -> Ran {
    match answer {
        Ok(Some((n, value))) => told(n as u64, value, held),
        Ok(None) => told(END, 0, held),
        Err(why) => refused(why, held),
    }
}

// What a mark answered.
fn marked(marking: Result<Marks, Refusal>, held: Held) -> Ran {
    match marking {
        Ok(marks) => told(DONE, 0, Held { marks, ..held }),
        Err(why) => refused(why, held),
    }
}

// An operation on a plain reading.
fn called_plain(lent: Lent<'_>, operation: Operation<'_>, held: Held, key: &mut [u8]) -> Ran {
    match operation {
        Operation::Start(lower, upper) => match stream::start(lent.file, lower, upper, lent.table) {
            Ok(plain) => told(DONE, 0, Held { plain, ..held }),
            Err(why) => not_started(why, held),
        },
        Operation::Next(less) => {
            if key.len() < less {
                return no_operation(held);
            }
            let step = marks::next_marked(lent.file, held.plain, held.marks, &mut key[less..]);
            let mut plain = step.reading;
            // no level is left at the end, and a made state may count again those that were there before it
            if let Ok(None) = step.answer {
                plain.reading.stack = held.plain.reading.stack;
            }
            stepped(step.answer, Held { plain, ..held })
        }
        Operation::Mark(name) => marked(marks::mark(lent.file, held.plain, held.marks, name), held),
        Operation::Back(name) => match marks::go_back(lent.file, held.plain, held.marks, name) {
            Ok(plain) => told(DONE, 0, Held { plain, ..held }),
            Err(why) => refused(why, held),
        },
    }
}

// The same by a pattern. No trait over both kinds of readings is plainer: it would have these calls as methods of two impls.
fn called_by(
    lent: Lent<'_>,
    positions: &[u16],
    rest: bool,
    operation: Operation<'_>,
    held: Held,
    key: &mut [u8],
) -> Ran {
    let patterned = patterned_of(held);
    match operation {
        Operation::Start(lower, upper) => {
            match patterned::start(lent.file, positions, rest, lower, upper) {
                Ok(begun) => told(DONE, 0, held_by(begun, held.marks)),
                Err(why) => not_started(why, held),
            }
        }
        Operation::Next(less) => {
            if key.len() < less {
                return no_operation(held);
            }
            let step = marks_by::next_marked_by(lent.file, patterned, held.marks, &mut key[less..]);
            stepped(step.answer, held_by(step.reading, held.marks))
        }
        Operation::Mark(name) => {
            marked(
                marks_by::mark_by(lent.file, patterned, held.marks, name),
                held,
            )
        }
        Operation::Back(name) => {
            match marks_by::go_back_by(lent.file, patterned, held.marks, name) {
                Ok(back) => told(DONE, 0, held_by(back, held.marks)),
                Err(why) => refused(why, held),
            }
        }
    }
}

// An operation on what is held.
pub fn called(lent: Lent<'_>, operation: Operation<'_>, held: Held, key: &mut [u8]) -> Ran {
    match lent.pattern {
        None => called_plain(lent, operation, held, key),
        Some((positions, rest)) => called_by(lent, positions, rest, operation, held, key),
    }
}
