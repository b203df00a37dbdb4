// A whole operation over several files in one call, on numbers and slices, for the comparison with the Rust (crate `oracle_ops`). Nothing is asked of a
// caller: it answers on every input. It promises nothing of the items that it writes: what they are is promised of `ops::next_item`.
// Each function takes what the comparison lends, one by one, as the C interface does.
#![tactic(auto)]

use format::Refusal;
use ops::{Cards, Item, Step};
use ops_decide::{Op, op_of};
use stream::Plain;
use stream_arrays::bound_with;

// The bytes of an item: room for the longest key, and the number of the file of each pair.
const ROW: usize = 263;
// The numbers of an item: the key's length, how many pairs it has, and the value of each.
const ITEM: usize = 10;

// What is answered beside the number of items: no room for another item, files that do not follow one another, a start that is refused, and a begin or
// a call that is refused. A refusal is added to the last two.
const NO_ROOM: u64 = 4_294_967_296;

const LAYOUT: u64 = 4_294_967_297;

const START_REFUSED: u64 = 4_294_968_296;

const REFUSED: u64 = 4_294_969_296;

// ---- the arguments taken apart

// What stands from one place to another, and nothing where they are not there.
fn part<T>(items: &[T], from: usize, to: usize) -> &[T] {
    items.get(from..to).unwrap_or(&[])
}

// Whether parts that end there follow one another in so many bytes.
fn is_ordered(ends: [u64; 8], len: usize) -> bool {
    ends.is_sorted() && ends[7] <= len as u64
}

// A bound's bytes: so many from its place on, at most 255.
fn bound_at(bounds: &[u8], at: usize, len: u64) -> &[u8] {
    if 255 < len {
        return &bounds[..0];
    }
    if 4_096 < at {
        return &bounds[..0];
    }
    part(bounds, at, at + (len as usize))
}

// The start of a reading between two bounds, each given by its kind and its bytes.
fn start(
    file: &[u8],
    counts: &[u64],
    lower_kind: u64,
    lower: &[u8],
    upper_kind: u64,
    upper: &[u8],
) -> Result<Plain, Refusal> {
    stream::start(
        file,
        bound_with(lower_kind, lower),
        bound_with(upper_kind, upper),
        counts,
    )
}

// ---- the items

// Writes a key and the numbers of its files to the front of a row that has room for them.
fn put_row(key: &[u8], files: [u8; 8], row: &mut [u8]) {
    if key.len() < 255 {
        return;
    }
    if row.len() < ROW {
        return;
    }
    buffers::copy_front(key, 255, row);
    buffers::copy_front(&files, 8, &mut row[255..]);
}

// Writes an item to the front of both buffers. The values of its pairs stand after the key's length and the number of pairs.
fn put_item(found: Item, key: &[u8], row: &mut [u8], item: &mut [u64]) {
    let pairs = found.pairs;
    put_row(key, pairs.files, row);
    if let Some(front) = item.get_mut(..2) {
        front.copy_from_slice(&[found.len as u64, pairs.count as u64]);
    }
    if let Some(values) = item.get_mut(2..10) {
        values.copy_from_slice(&pairs.values);
    }
}

// The transitions that the reading of each card followed.
fn totals(cards: Cards) -> [u64; 8] {
    cards.cards.map(|card| card.reading.reading.total)
}

// Calls up to the first that hands out no item, and no more than there is room for: each takes a row.
fn items(
    files: [&[u8]; 8],
    first: Cards,
    rows: &mut [u8],
    numbers: &mut [u64],
    followed: &mut [u64; 8],
) -> u64 {
    // the cards stay in what a call gave back: they are 33 KB, and are not copied out for the next call
    let mut step = Step {
        answer: Ok(None),
        cards: first,
    };
    for (n, (row, item)) in rows
        .chunks_exact_mut(ROW)
        .zip(numbers.chunks_exact_mut(ITEM))
        .enumerate()
    {
        let mut key = [0u8; 255];
        step = ops::next_item(files, step.cards, &mut key);
        match step.answer {
            Err(why) => return REFUSED + u64::from(u8::from(why)),
            Ok(None) => {
                *followed = totals(step.cards);
                return n as u64;
            }
            Ok(Some(found)) => put_item(found, &key, row, item),
        }
    }
    NO_ROOM
}

// ---- the whole run

// Where file i begins: where the one before it ends.
fn begins_at(ends: [u64; 8], i: usize) -> usize {
    if i == 0 {
        return 0;
    }
    if 8 < i {
        return 0;
    }
    ends[i - 1] as usize
}

// The start of a reading of file i, which ends at ends[i], and whose table of keys stands where it stands. The numbers from 4 i on state the lower
// bound's kind and length and the upper one's, whose bytes stand from 510 i and 510 i + 255 on.
fn start_at(
    blob: &[u8],
    tables: &[u64],
    ends: [u64; 8],
    stated: [u64; 32],
    bounds: &[u8],
    i: usize,
) -> Result<Plain, Refusal> {
    if 8 <= i {
        return Err(Refusal::Cards);
    }
    let from = begins_at(ends, i);
    let to = ends[i] as usize;
    let lower_kind = stated[4 * i];
    let lower_len = stated[4 * i + 1];
    let upper_kind = stated[4 * i + 2];
    let upper_len = stated[4 * i + 3];
    let file = part(blob, from, to);
    let counts = part(tables, from, to);
    let lower = bound_at(bounds, 510 * i, lower_len);
    let upper = bound_at(bounds, 510 * i + 255, upper_len);
    start(file, counts, lower_kind, lower, upper_kind, upper)
}

// The readings of eight files, or the first refusal.
fn readings(
    blob: &[u8],
    tables: &[u64],
    ends: [u64; 8],
    stated: [u64; 32],
    bounds: &[u8],
) -> Result<[Plain; 8], Refusal> {
    let mut all = [stream::no_plain(); 8];
    for (i, reading) in all.iter_mut().enumerate() {
        *reading = start_at(blob, tables, ends, stated, bounds, i)?;
    }
    Ok(all)
}

// The operation over readings of these files that stand at their starts.
fn run(
    op: Op,
    count: usize,
    files: [&[u8]; 8],
    readings: [Plain; 8],
    rows: &mut [u8],
    numbers: &mut [u64],
    followed: &mut [u64; 8],
) -> u64 {
    match ops::begin(op, count, readings) {
        Err(why) => REFUSED + u64::from(u8::from(why)),
        Ok(cards) => items(files, cards, rows, numbers, followed),
    }
}

// The number of items; or NO_ROOM, LAYOUT, or START_REFUSED or REFUSED plus the refusal. Item i stands in the rows from 263 i on (the key, and from
// 255 on the number of each pair's file) and in the numbers from 10 i on (the key's length, the number of pairs, and the value of each); after the end
// followed has each reading's total.
pub fn whole(
    op: u64,
    count: usize,
    blob: &[u8],
    tables: &[u64],
    ends: &[u64; 8],
    stated: &[u64; 32],
    bounds: &[u8],
    rows: &mut [u8],
    numbers: &mut [u64],
    followed: &mut [u64; 8],
) -> u64 {
    let e = *ends;
    let s = *stated;
    if !is_ordered(e, blob.len()) {
        return LAYOUT;
    }
    let all = match readings(blob, tables, e, s, bounds) {
        Err(why) => return START_REFUSED + u64::from(u8::from(why)),
        Ok(all) => all,
    };
    let mut files: [&[u8]; 8] = [&[]; 8];
    // by index: the borrow checker covers no `iter_mut` over an array of lent slices
    for i in 0..8 {
        files[i] = part(blob, begins_at(e, i), e[i] as usize);
    }
    run(op_of(op), count, files, all, rows, numbers, followed)
}
