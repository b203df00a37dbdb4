// Replays recorded answers on whole files, with no Rust at hand. The list on standard input has
// files, each with what opening and admission answer and with lookups (README.md). Each is asked
// again, and the answers, both tables and the key buffer are held to what is recorded. A difference
// changes a count that is written.
#![tactic(auto)]

ghost use Rattle.std.specs.Prelude.{◌≤◌, IfSome};

use fst::Meta;
use oracle_numbers::{NO_CHECKSUM, NOT_HELD, done, key_number};
use replay_list::{CELLS, Entry, FILE, KEPT, KEPT16, KEPT64, MALFORMED, at_most, number};
use std::io;
use std::io::Read;

// The list's length, and one byte more by which a longer list is seen.
const LIST: u64 = 198_022;
// The bytes of a row of both tables: address 2, depth 2, sum 8.
const ROW: usize = 12;

// The kinds of record beside the file.
const OPENING: u64 = 2;

const ADMISSION: u64 = 3;

const KEY: u64 = 4;

const VALUE: u64 = 5;

// ---- opening

// Whether a part is what a file says: 8 bytes each for version, type, number of keys, root and checksum, 2^32 for none.
fn meta_alike(part: &[u8], meta: Meta) -> bool {
    part.len() == 40
        && number(part, 0, 8) == meta.version
        && number(part, 8, 8) == meta.ty
        && number(part, 16, 8) == meta.len
        && number(part, 24, 8) == meta.root as u64
        && number(part, 32, 8) == meta.checksum.map_or(NO_CHECKSUM, u64::from)
}

fn opens_alike(file: &[u8], entry: Entry<'_>) -> bool {
    match fst::open(file) {
        Err(why) => u64::from(u8::from(why)) == entry.a,
        Ok(meta) => meta_alike(entry.part, meta),
    }
}

// ---- admission

// Whether the entries of the nodes are those of the rows.
fn rows_alike(rows: &[u8], depths: &[u16; CELLS], sums: &[u64; CELLS]) -> bool {
    rows.chunks_exact(ROW).all(|row| {
        let addr = at_most(number(row, 0, 2), CELLS - 1);
        u64::from(depths[addr]) == number(row, 2, 2) && sums[addr] == number(row, 4, 8)
    })
}

// How many nodes have the entries of one address: 1, or 0 where they are 0 in what is written and
// else what they held; None for what they never are.
fn cell(depth: u16, sum: u64, written: bool) -> Option<usize>
    ensures { IfSome result (λ n. n ≤ 1) }
{
    match (written, depth, sum) {
        (true, 0, 0) => Some(0),
        (true, 0, _) => None,
        (true, _, _) => Some(1),
        (false, KEPT16, KEPT64) => Some(0),
        (false, _, _) => None,
    }
}

// How many nodes have entries, where the first n of each table are written; None where entries are
// what they never are.
fn entries(depths: &[u16; CELLS], sums: &[u64; CELLS], n: usize) -> Option<usize> {
    let mut there = 0;
    // by index: that the count fits is proved from the place, and the proof has no place of a zip that is enumerated
    for (i, depth) in depths.iter().enumerate() {
        there += cell(*depth, sums[i], i < n)?;
    }
    Some(there)
}

// Whether both tables are as recorded: so many entries written, and of those the rows of the part, the others 0.
fn tables_alike(entry: Entry<'_>, depths: &[u16; CELLS], sums: &[u64; CELLS]) -> bool {
    entries(depths, sums, entry.c as usize) == Some(entry.part.len() / ROW)
        && rows_alike(entry.part, depths, sums)
}

// Whether a file is admitted or refused as recorded, in tables of the recorded length, and leaves
// them as it should.
fn admits_alike(file: &[u8], entry: Entry<'_>) -> bool {
    let lent = at_most(entry.b, CELLS);
    let mut depths = [KEPT16; CELLS];
    let mut sums = [KEPT64; CELLS];
    let answer = admission::admit(file, &mut depths[..lent], &mut sums[..lent]);
    done(answer) == entry.a && tables_alike(entry, &depths, &sums)
}

// ---- lookup

fn gets_alike(file: &[u8], entry: Entry<'_>) -> bool {
    match lookup::get(file, entry.part) {
        Ok(Some(v)) => entry.a == 0 && v == entry.b,
        Ok(None) => entry.a == NOT_HELD,
        Err(why) => u64::from(u8::from(why)) == entry.a,
    }
}

fn finds_alike(file: &[u8], entry: Entry<'_>) -> bool {
    let space = at_most(entry.c, 4096);
    let mut key = [KEPT; 4096];
    let answer = lookup_key::get_key(file, entry.b, &mut key[..space]);
    key_number(answer) == entry.a && replay_list::same_bytes(entry.part, &key)
}

// ---- the list

// Whether a record that is about this file is answered as recorded.
fn alike(file: &[u8], entry: Entry<'_>) -> bool {
    match entry.kind {
        OPENING => opens_alike(file, entry),
        ADMISSION => admits_alike(file, entry),
        KEY => gets_alike(file, entry),
        VALUE => finds_alike(file, entry),
        kind => kind == FILE,
    }
}

fn main(rt: HostRuntime) -> io::Result<()> {
    let mut list = Vec::new(rt.alloc());
    rt.stdin().take(LIST).read_to_end(&mut list)?;
    let counts = replay_list::replay(&list, |entry, file| Ok(alike(file, entry)))?;
    counts.line(&rt, FILE, b"files")?;
    counts.line(&rt, OPENING, b"opened")?;
    counts.line(&rt, ADMISSION, b"admitted or refused")?;
    counts.line(&rt, KEY, b"lookups by key")?;
    counts.line(&rt, VALUE, b"lookups by value")?;
    counts.line(&rt, MALFORMED, b"malformed")
}
