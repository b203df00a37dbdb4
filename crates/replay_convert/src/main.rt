// Replays recorded answers of the conversion of version 1 files, with no Rust at hand. The list on standard input has files, each with conversions in
// buffers of any length (README.md). Each is asked again, and the answer, the new file, the table of new addresses and the two work tables are held to what
// is recorded. A difference changes a count that is written.
#![tactic(auto)]

use format::MAX_LEN;
use replay_list::{
    CELLS, Entry, FILE, KEPT, KEPT16, KEPT64, MALFORMED, answer_number, at_most, number,
};
use std::io;
use std::io::Read;

// The list's length, and one byte more by which a longer list is seen.
const LIST: u64 = 69_587;
// The bytes of a row of the table of new addresses: address 2, new address 4.
const ROW: usize = 6;
// What an entry of the table of new addresses holds before it is lent.
const KEPT32: u32 = 2_863_311_530;

// What a refusal is added to, in a record's answer: no file of the list is as long.
const REFUSED: u16 = 20_000;

// The kinds of record beside the file.
const NEW_FILE: u64 = 2;

const NEW_ADDRESSES: u64 = 3;

const WORK_TABLES: u64 = 4;

// ---- the new file

// Whether a conversion within the recorded limit, in an output of the recorded length, answers and writes as recorded.
fn writes_alike(file: &[u8], entry: Entry<'_>) -> bool {
    let limit = at_most(entry.b, MAX_LEN);
    let space = at_most(entry.c, 4096);
    let mut depths = [KEPT16; CELLS];
    let mut sums = [KEPT64; CELLS];
    let mut table = [KEPT32; CELLS];
    let mut out = [KEPT; 4096];
    let answer = convert::convert_within(
        file,
        limit,
        &mut depths,
        &mut sums,
        &mut out[..space],
        &mut table,
    );
    answer_number(answer, REFUSED) == entry.a && replay_list::same_bytes(entry.part, &out)
}

// ---- the table of new addresses

// Whether the table has the new addresses of these rows.
fn rows_alike(rows: &[u8], table: &[u32; CELLS]) -> bool {
    rows.chunks_exact(ROW).all(|row| {
        let addr = at_most(number(row, 0, 2), CELLS - 1);
        u64::from(table[addr]) == number(row, 2, 4)
    })
}

// How many of the entries that are written have a new address, which is not 0; None where another entry is not what it was.
fn entries(written: &[u32], others: &[u32]) -> Option<usize> {
    if others.iter().any(|entry| *entry != KEPT32) {
        return None;
    }
    Some(written.iter().filter(|entry| **entry != 0).count())
}

// Whether a conversion with a table and work tables of the recorded lengths answers as recorded, and leaves the table so.
fn addresses_alike(file: &[u8], entry: Entry<'_>) -> bool {
    let lent = at_most(entry.b, CELLS);
    let work = at_most(entry.c, CELLS);
    let mut depths = [KEPT16; CELLS];
    let mut sums = [KEPT64; CELLS];
    let mut table = [KEPT32; CELLS];
    let mut out = [KEPT; 4096];
    let answer = convert::convert(
        file,
        &mut depths[..work],
        &mut sums[..work],
        &mut out,
        &mut table[..lent],
    );
    if answer_number(answer, REFUSED) != entry.a {
        return false;
    }
    let written = if entry.a < u64::from(REFUSED) {
        file.len().min(CELLS)
    } else {
        0
    };
    entries(&table[..written], &table[written..]) == Some(entry.part.len() / ROW)
        && rows_alike(entry.part, &table)
}

// ---- the work tables

// Whether a conversion within the recorded limit, with an output and work tables of the recorded lengths, answers as recorded and leaves the work tables as
// admission does, which the list of whole files replays.
fn restores_alike(file: &[u8], entry: Entry<'_>) -> bool {
    if entry.part.len() != 6 {
        return false;
    }
    let work = at_most(entry.c, CELLS);
    let most = at_most(number(entry.part, 0, 4), MAX_LEN);
    let room = at_most(number(entry.part, 4, 2), 4096);
    let mut depths = [KEPT16; CELLS];
    let mut sums = [KEPT64; CELLS];
    let mut table = [KEPT32; CELLS];
    let mut out = [KEPT; 4096];
    let answer = convert::convert_within(
        file,
        most,
        &mut depths[..work],
        &mut sums[..work],
        &mut out[..room],
        &mut table,
    );
    let mut depths_want = [KEPT16; CELLS];
    let mut sums_want = [KEPT64; CELLS];
    let _ = admission::admit(file, &mut depths_want[..work], &mut sums_want[..work]);
    answer_number(answer, REFUSED) == entry.a && depths == depths_want && sums == sums_want
}

// ---- the records

// Whether a record that is about this file is answered as recorded.
fn alike(file: &[u8], entry: Entry<'_>) -> bool {
    match entry.kind {
        NEW_FILE => writes_alike(file, entry),
        NEW_ADDRESSES => addresses_alike(file, entry),
        WORK_TABLES => restores_alike(file, entry),
        kind => kind == FILE,
    }
}

fn main(rt: HostRuntime) -> io::Result<()> {
    let mut list = Vec::new(rt.alloc());
    rt.stdin().take(LIST).read_to_end(&mut list)?;
    let counts = replay_list::replay(&list, |entry, file| Ok(alike(file, entry)))?;
    counts.line(&rt, FILE, b"files")?;
    counts.line(&rt, NEW_FILE, b"new files")?;
    counts.line(&rt, NEW_ADDRESSES, b"tables of new addresses")?;
    counts.line(&rt, WORK_TABLES, b"work tables restored")?;
    counts.line(&rt, MALFORMED, b"malformed")
}
