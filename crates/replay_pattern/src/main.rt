// Replays recorded readings by pattern, with no Rust at hand. The list on standard input has files, each with starts and the calls
// of next after them (README.md). Each is asked again, and the answer, the total, the number of levels and the key buffer are held
// to what is recorded. A difference changes a count that is written.
#![tactic(auto)]

use oracle_numbers::done;
use patterned::Patterned;
use patterned_held::Pattern;
use replay_list::{Counts, Entry, FILE, KEPT, MALFORMED, answer_alike, at_most, number};
use std::io;
use std::io::Read;
use stream_arrays::bound_with;
use stream_start::Reading;

// The list's length, and one byte more by which a longer list is seen.
const LIST: u64 = 79_790;

// The kinds of record beside the file.
const START: u64 = 2;

const NEXT: u64 = 3;

const HELD: u64 = 4;

// More positions than any record gives.
const ROOM: usize = 300;

// ---- starts

// Starts again, from positions of 2 bytes each and two bounds: whether it is answered as recorded. The reading that it gives is left in `here`, or where
// it is refused the one before.
fn replay_start(here: &mut Patterned, file: &[u8], entry: Entry<'_>) -> bool {
    let n = at_most(entry.b % 65_536, ROOM);
    let Some((listed, bounds)) = entry.part.split_at_checked(2 * n) else {
        return false;
    };
    let mut positions = [0u16; ROOM];
    for (position, bytes) in positions.iter_mut().zip(listed.chunks_exact(2)) {
        *position = u16::from_le_bytes([bytes[0], bytes[1]]);
    }
    let (low, high) = bounds.split_at(at_most(entry.b / 65_536, bounds.len()));
    let kinds = entry.c % 9;
    let lower = bound_with(kinds / 3, low);
    let upper = bound_with(kinds % 3, high);
    match patterned::start(file, &positions[..n], 9 <= entry.c, lower, upper) {
        Ok(begun) => {
            *here = begun;
            entry.a == 0
        }
        Err(why) => done(Err(why)) == entry.a,
    }
}

// ---- calls of next

// Whether the reading after a call, by its total and its levels, and the buffer are what is recorded.
fn left_alike(part: &[u8], after: Reading, key: &[u8; 4096]) -> bool {
    let Some((head, bytes)) = part.split_at_checked(10) else {
        return false;
    };
    number(head, 0, 8) == after.total
        && number(head, 8, 2) == after.levels as u64
        && replay_list::same_bytes(bytes, key)
}

// Calls next again: whether it is answered as recorded. The reading that it leaves is left in `here`.
fn replay_next(here: &mut Patterned, file: &[u8], entry: Entry<'_>) -> bool {
    let space = at_most(entry.c, 4096);
    let mut key = [KEPT; 4096];
    let step = patterned::next(file, *here, &mut key[..space]);
    *here = step.reading;
    answer_alike(step.answer, entry.a, entry.b)
        && left_alike(entry.part, step.reading.reading, &key)
}

// ---- what no start gives

// The reading that was left, with so many levels and positions stated: whether the record has no part.
fn replay_stated(here: &mut Patterned, entry: Entry<'_>) -> bool {
    here.reading.levels = entry.a as usize;
    here.pattern.len = entry.b as usize;
    entry.part.is_empty()
}

// A reading of nothing, by a pattern that has no position.
fn nothing() -> Patterned {
    Patterned {
        reading: stream_start::no_reading(),
        pattern: Pattern {
            len: 0,
            rest: false,
            positions: [0; 255],
        },
    }
}

// ---- the list

// Every record of the list, each with the reading that the one before left.
fn replay(list: &[u8]) -> io::Result<Counts> {
    let mut here = nothing();
    replay_list::replay(list, |entry, file| {
        let same = match entry.kind {
            START => replay_start(&mut here, file, entry),
            NEXT => replay_next(&mut here, file, entry),
            HELD => replay_stated(&mut here, entry),
            kind => kind == FILE,
        };
        Ok(same)
    })
}

fn main(rt: HostRuntime) -> io::Result<()> {
    let mut list = Vec::new(rt.alloc());
    rt.stdin().take(LIST).read_to_end(&mut list)?;
    let counts = replay(&list)?;
    counts.line(&rt, FILE, b"files")?;
    counts.line(&rt, START, b"starts by pattern")?;
    counts.line(&rt, NEXT, b"calls of next by pattern")?;
    counts.line(&rt, HELD, b"levels and positions stated")?;
    counts.line(&rt, MALFORMED, b"malformed")
}
