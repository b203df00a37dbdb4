// Replays recorded readings, with no Rust at hand. The list on standard input has files, each with
// tables of keys, starts and the calls of next after them (README.md). Each is asked again, and the
// answer, the total, the number of keys to come and the key buffer are held to what is recorded. A
// difference changes a count that is written.
#![tactic(auto)]

use format::LEVELS;
use oracle_numbers::done;
use replay_list::{CELLS, Counts, Entry, FILE, KEPT, MALFORMED, answer_alike, at_most, number};
use std::io;
use std::io::Read;
use stream::Plain;
use stream_arrays::{bound_with, kind_of};
use stream_levels::Stack;
use stream_start::Reading;

// The list's length, and one byte more by which a longer list is seen.
const LIST: u64 = 255_462;

// The kinds of record beside the file.
const START: u64 = 2;

const NEXT: u64 = 3;

const MADE: u64 = 4;

const TABLE: u64 = 5;

// The bytes of an entry that the record of a table lists: address 2, number 8.
const TABLE_ROW: usize = 10;

// The bytes of a made reading before its bound, and of each of its levels behind that: address 4, input 1, transition 2, output 8.
const MADE_HEAD: usize = 26;

const LEVEL: usize = 15;

// What the records up to a place leave: the reading that the last of them left, and the table of keys with how many of its entries are lent.
#[derive(Drop)]
struct Left {
    plain: Plain,
    table: [u64; CELLS],
    lent: u64,
}

// ---- tables of keys

// The entries that a record lists.
fn fill_table(rows: &[u8], table: &mut [u64; CELLS]) {
    for row in rows.chunks_exact(TABLE_ROW) {
        let addr = number(row, 0, 2) as usize;
        if addr < CELLS {
            table[addr] = number(row, 2, 8);
        }
    }
}

// The table of a record: one entry everywhere, but for those that it lists. Whether it lists whole entries.
fn replay_table(left: &mut Left, entry: Entry<'_>) -> bool {
    left.table = [entry.b; CELLS];
    fill_table(entry.part, &mut left.table);
    left.lent = entry.c;
    entry.part.len() % TABLE_ROW == 0
}

// ---- starts

// Starts again with so many entries of the table: whether it is answered as recorded. The reading that it gives is left, or where it is
// refused the one before.
fn replay_start(left: &mut Left, file: &[u8], entry: Entry<'_>) -> bool {
    let Some((head, bounds)) = entry.part.split_at_checked(8) else {
        return false;
    };
    let keys = number(head, 0, 8);
    let (low, high) = bounds.split_at(at_most(entry.b, bounds.len()));
    let lower = bound_with(entry.c / 3, low);
    let upper = bound_with(entry.c % 3, high);
    let lent = at_most(left.lent, CELLS);
    let start = stream::start(file, lower, upper, &left.table[..lent]);
    let alike = done(start.map(|_| ())) == entry.a;
    match start {
        Ok(begun) => {
            left.plain = begun;
            alike && begun.keys == keys
        }
        Err(_) => alike,
    }
}

// ---- calls of next

// Whether the reading after a call, by its total, its levels and its number of keys to come, and the buffer are what is recorded.
fn left_alike(part: &[u8], after: Plain, key: &[u8; 4096]) -> bool {
    let Some((head, bytes)) = part.split_at_checked(18) else {
        return false;
    };
    number(head, 0, 8) == after.reading.total
        && number(head, 8, 2) == after.reading.levels as u64
        && number(head, 10, 8) == after.keys
        && replay_list::same_bytes(bytes, key)
}

// Calls next again: whether it is answered as recorded. The reading that it leaves is left.
fn replay_next(left: &mut Left, file: &[u8], entry: Entry<'_>) -> bool {
    let space = at_most(entry.c, 4096);
    let mut key = [KEPT; 4096];
    let step = stream::next(file, left.plain, &mut key[..space]);
    left.plain = step.reading;
    answer_alike(step.answer, entry.a, entry.b) && left_alike(entry.part, step.reading, &key)
}

// ---- readings that no start gave

// The levels. Those past 256 are none of a reading's.
fn levels_of(rows: &[u8]) -> Stack {
    let mut stack = Stack::new();
    for (i, row) in rows.chunks_exact(LEVEL).take(LEVELS).enumerate() {
        stack.put(
            i,
            le_bytes::read_u32_le(row),
            row[4],
            u16::from_le_bytes([row[5], row[6]]),
            number(row, 7, 8),
        );
    }
    stack
}

// A recorded reading but for its number of keys, or none where the part is not as long as it says.
fn made(entry: Entry<'_>) -> Option<Reading> {
    let bytes = at_most(entry.c, 255);
    let levels = at_most(entry.a, LEVELS);
    if entry.part.len() != MADE_HEAD + bytes + LEVEL * levels {
        return None;
    }
    let (head, behind) = entry.part.split_at(MADE_HEAD);
    let (bound_bytes, rows) = behind.split_at(bytes);
    let mut bound = [0u8; 255];
    bound[..bytes].copy_from_slice(bound_bytes);
    Some(Reading {
        len: number(head, 0, 8) as usize,
        kind: kind_of(number(head, 17, 1)),
        bound_len: entry.c as usize,
        bound,
        // the value of the empty key, where that key is pending
        empty_output: (number(head, 8, 1) != 0).then_some(number(head, 9, 8)),
        total: entry.b,
        levels: entry.a as usize,
        stack: levels_of(rows),
    })
}

// A recorded reading with its number of keys, or one of nothing: whether its part is as long as it says.
fn replay_made(left: &mut Left, entry: Entry<'_>) -> bool {
    let keys = if entry.part.len() < MADE_HEAD {
        0
    } else {
        number(entry.part, 18, 8)
    };
    let read = made(entry);
    let reading = read.unwrap_or_else(stream_start::no_reading);
    left.plain = Plain { reading, keys };
    read.is_some()
}

// ---- the list

// Every record of the list.
fn replay(list: &[u8]) -> io::Result<Counts> {
    let mut left = Left {
        plain: stream::no_plain(),
        table: [0; CELLS],
        lent: 0,
    };
    replay_list::replay(list, |entry, file| {
        let same = match entry.kind {
            TABLE => replay_table(&mut left, entry),
            START => replay_start(&mut left, file, entry),
            NEXT => replay_next(&mut left, file, entry),
            MADE => replay_made(&mut left, entry),
            kind => kind == FILE,
        };
        Ok(same)
    })
}

fn main(rt: HostRuntime) -> io::Result<()> {
    let mut list = Vec::new(rt.alloc());
    rt.stdin().take(LIST).read_to_end(&mut list)?;
    let counts = replay(&list)?;
    counts.line(&rt, FILE, b"files")?;
    counts.line(&rt, START, b"starts")?;
    counts.line(&rt, NEXT, b"calls of next")?;
    counts.line(&rt, MADE, b"readings that no start gave")?;
    counts.line(&rt, TABLE, b"tables of keys")?;
    counts.line(&rt, MALFORMED, b"malformed")
}
