// A whole list of operations on one reading and its marks as one function on numbers and slices, for the comparison with the Rust (oracle/README.md; crate
// oracle_marks exports it), so that no marks are passed. Nothing is asked of a caller, and nothing is promised of the answers but that there are some:
// what they are is promised of the calls of crates marks and marks_by that are made here. A slice is passed as its pointer and then its length.
//
// An operation is ten numbers: what it is; which file (0 the first, any other number the second); the kind of a lower bound, or by how many bytes the
// key buffer is shorter than 255; the kind of an upper bound; three places in `bytes`; and a change, a place and a value.
//     0  a start, whose lower bound stands from the first place to the second, and the upper from there to the third; the marks stay
//     1  next
//     2  mark, with the name from the first place to the third
//     3  go back, with that name
// The readings are plain where `by` is 0, else by the pattern of `positions` and `rest`.
//
// Where the change is not 0, the operation meets a made state, and afterwards all is as it was before it:
//     1  this many marks
//     2  the mark at the place has a name of this length
//     3  the mark at the place has the name of the mark at the place that the value says
//     4, 5, 6     the mark at the place has this many levels, a bound of this length, a file of this length
//     7, 8, 9     the same of the reading itself
//     10  the pattern has this many positions
// Any other number changes nothing in the state that is met.
//
// An answer is six numbers: a key's length, or 1000 for the end, 1002 for what was done, 2000 plus a refusal, 3000 plus the refusal of a start, or 4000
// for an operation that is none; the value; and then the reading's total, number of keys to come and levels, and how many marks there are. The key stands
// in a row of 255 bytes.
// `run_operations` takes each thing that the comparison lends as a parameter of its own, as the C interface does, and makes one value (`Lent`) of them,
// which the functions that it calls take.
#![tactic(auto)]

use oracle_marks_calls::{Lent, Operation, called, no_operation};
use oracle_marks_held::{Held, Ran, change_of, changed, nothing};
use stream_arrays::bound_with;

// The bytes of a row, room for the longest key.
const ROW: usize = 255;

// The operation of ten numbers; none where the first is no operation, or the bytes have no such places.
fn operation_of<'l>(op: [u64; 10], bytes: &'l [u8]) -> Option<Operation<'l>> {
    let from = op[4] as usize;
    let middle = op[5] as usize;
    let to = op[6] as usize;
    // a name's three places stand in order too, though the middle one is not used
    let name = if from <= middle && middle <= to {
        bytes.get(from..to)
    } else {
        None
    };
    match op[0] {
        0 => Some(Operation::Start(
            bound_with(op[2], bytes.get(from..middle)?),
            bound_with(op[3], bytes.get(middle..to)?),
        )),
        1 => Some(Operation::Next(op[2] as usize)),
        2 => Some(Operation::Mark(name?)),
        3 => Some(Operation::Back(name?)),
        _ => None,
    }
}

// One operation, with the file that it names, and on a made state where it says so, also where it is none.
fn ran(lent: Lent<'_>, op: [u64; 10], held: Held, key: &mut [u8]) -> Ran {
    let change = change_of(op[7], op[8] as usize, op[9] as usize);
    let met = match change {
        None => held,
        Some(change) => changed(held, change),
    };
    let after = match operation_of(op, lent.bytes) {
        None => no_operation(met),
        Some(operation) => called(lent, operation, met, key),
    };
    if change.is_none() {
        return after;
    }
    let told = after.told;
    Ran { told, held }
}

// Runs the operations one after the other from no reading and no marks, as far as there is room for answers and rows; how many were run.
pub fn run_operations<'l>(
    file: &'l [u8],
    table: &'l [u64],
    other: &'l [u8],
    other_table: &'l [u64],
    by: u64,
    positions: &'l [u16],
    rest: u64,
    bytes: &'l [u8],
    operations: &[[u64; 10]],
    answers: &mut [[u64; 6]],
    rows: &mut [u8],
) -> u64 {
    let count = operations.len().min(answers.len()).min(rows.len() / ROW);
    let first = Lent {
        file,
        table,
        pattern: (by != 0).then_some((positions, rest != 0)),
        bytes,
    };
    let second = Lent {
        file: other,
        table: other_table,
        ..first
    };
    let mut held = nothing();
    // by index: the operations, the answers and the rows zipped are no chain that the borrow checker covers
    for i in 0..count {
        let at = i * ROW;
        let op = operations[i];
        let row = &mut rows[at..at + ROW];
        let lent = if op[1] == 0 { first } else { second };
        let after = ran(lent, op, held, row);
        let answer = after.told;
        answers[i] = answer;
        held = after.held;
    }
    count as u64
}
