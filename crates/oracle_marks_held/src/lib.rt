// What the comparison of marks holds between operations, and the states that it makes of it, for crate oracle_marks. Nothing is asked of a caller but
// by the types, and nothing is promised of what is made.
#![tactic(auto)]

use marks_held::{MARKS, Mark, Marks};
use patterned::Patterned;
use patterned_held::Pattern;
use stream::Plain;

// What is held between operations. A plain reading has no pattern, and a reading by pattern no number of keys.
#[derive(Clone, Copy)]
pub struct Held {
    pub plain: Plain,
    pub pattern: Pattern,
    pub marks: Marks,
}

// What an operation answers, and what is held after it.
#[derive(Clone, Copy)]
pub struct Ran {
    pub told: [u64; 6],
    pub held: Held,
}

pub fn told(code: u64, value: u64, held: Held) -> Ran {
    let plain = held.plain;
    let reading = plain.reading;
    let marks = held.marks;
    Ran {
        told: [
            code,
            value,
            reading.total,
            plain.keys,
            reading.levels as u64,
            marks.count as u64,
        ],
        held,
    }
}

// A reading by pattern and its marks.
pub fn held_by(patterned: Patterned, marks: Marks) -> Held {
    let reading = patterned.reading;
    let pattern = patterned.pattern;
    Held {
        plain: Plain { reading, keys: 0 },
        pattern,
        marks,
    }
}

// No reading, no pattern and no marks.
pub fn nothing() -> Held {
    let plain = stream::no_plain();
    let pattern = Pattern {
        len: 0,
        rest: false,
        positions: [0; 255],
    };
    let marks = marks::none();
    Held {
        plain,
        pattern,
        marks,
    }
}

// ---- made states

// What a made state has otherwise of a reading: how many levels it has, the length of its bound, or that of its file.
#[derive(Clone, Copy)]
pub enum ReadingChange {
    Levels(usize),
    BoundLen(usize),
    FileLen(usize),
}

// What it has otherwise of a mark: the length of its name, its name, which is that of the mark at a place, or its reading.
#[derive(Clone, Copy)]
pub enum MarkChange {
    NameLen(usize),
    NameOf(usize),
    Reading(ReadingChange),
}

// What it has otherwise of what is held: how many marks there are, the mark at a place, the reading itself, how many positions its pattern has, or nothing,
// where the number that the comparison gives is none of these.
#[derive(Clone, Copy)]
pub enum Change {
    Count(usize),
    Mark(usize, MarkChange),
    Reading(ReadingChange),
    Positions(usize),
    Unknown,
}

// The change of a number, a place and a value, which the comparison gives (crate oracle_marks_run); none for 0.
pub fn change_of(number: u64, place: usize, value: usize) -> Option<Change> {
    match number {
        0 => None,
        1 => Some(Change::Count(value)),
        2 => Some(Change::Mark(place, MarkChange::NameLen(value))),
        3 => Some(Change::Mark(place, MarkChange::NameOf(value))),
        4 => Some(Change::Mark(place, MarkChange::Reading(ReadingChange::Levels(value)))),
        5 => Some(Change::Mark(place, MarkChange::Reading(ReadingChange::BoundLen(value)))),
        6 => Some(Change::Mark(place, MarkChange::Reading(ReadingChange::FileLen(value)))),
        7 => Some(Change::Reading(ReadingChange::Levels(value))),
        8 => Some(Change::Reading(ReadingChange::BoundLen(value))),
        9 => Some(Change::Reading(ReadingChange::FileLen(value))),
        10 => Some(Change::Positions(value)),
        _ => Some(Change::Unknown),
    }
}

fn changed_plain(plain: Plain, change: ReadingChange) -> Plain {
    let mut made = plain;
    match change {
        ReadingChange::Levels(n) => made.reading.levels = n,
        ReadingChange::BoundLen(n) => made.reading.bound_len = n,
        ReadingChange::FileLen(n) => made.reading.len = n,
    }
    made
}

// A mark among these, changed. It keeps its name where the place of the other mark is none.
fn changed_mark(mark: Mark, marks: &[Mark; MARKS], change: MarkChange) -> Mark {
    match change {
        MarkChange::NameLen(name_len) => Mark { name_len, ..mark },
        MarkChange::NameOf(whose) => match marks.get(whose) {
            Some(other) => Mark {
                reading: mark.reading,
                ..*other
            },
            None => mark,
        },
        MarkChange::Reading(change) => Mark {
            reading: changed_plain(mark.reading, change),
            ..mark
        },
    }
}

// The marks with the one at a place changed, or as they are where the place is none.
fn changed_marks(marks: Marks, place: usize, change: MarkChange) -> Marks {
    if MARKS <= place {
        return marks;
    }
    let made = changed_mark(marks.marks[place], &marks.marks, change);
    marks_held::put_mark(marks, marks.count, place, made)
}

// What is held, changed.
pub fn changed(held: Held, change: Change) -> Held {
    let mut made = held;
    match change {
        Change::Count(n) => made.marks.count = n,
        Change::Mark(place, change) => made.marks = changed_marks(held.marks, place, change),
        Change::Reading(change) => made.plain = changed_plain(held.plain, change),
        Change::Positions(n) => made.pattern.len = n,
        Change::Unknown => {}
    }
    made
}
