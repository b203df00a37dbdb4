// The functions that the C display firmware calls to count keys, and to read them one by one or a page at a time. include/baxhiso.h declares
// them for C. Results: 0 for an answer, -2 for the end of a reading, -3 for a page that is full, else the number of a refusal. No function
// asks anything of its arguments' values.
//
// A reading stands in the arrays of `stream_arrays`, which C has as one struct: the header's fst_start and fst_next lend each of its fields.
// Each function takes what the C caller lends, one by one: the C interface.
#![tactic(auto)]

ghost use Rattle.std.specs.Prelude.{length};
ghost use Rattle.plain.specs.Plain as P;
ghost use Rattle.paging.specs.Paging as G;
ghost use Rattle.baxhiso_readings.specs.Readings.{CountLeaves, StartLeaves, NextLeaves, RangeLeaves};
ghost use Rattle.stream_start.specs.Views.{bound_is};
ghost use Rattle.stream_arrays.specs.Arrays.{kind_is, held, held_plain};

use baxhiso::{OK, code, done};
use baxhiso_results::{answered, stopped};
use stream::Plain;
use stream_arrays::{bound_with, put_plain, reading_of};

// Admits a file, and fills the two tables and the table of keys, or refuses it.
pub fn fst_count(file: &[u8], depths: &mut [u16], sums: &mut [u64], counts: &mut [u64]) -> i32
    ensures { CountLeaves file.now depths.old sums.old
        counts.old depths.new sums.new counts.new result }
{
    let answer = counting::count_keys(file, depths, sums, counts);
    done(answer)
}

// Starts a reading of the keys between two bounds. On 0 the arrays hold it; on a refusal they stay as given.
pub fn fst_start_arrays(
    file: &[u8],
    lower_kind: u64,
    lower: &[u8],
    upper_kind: u64,
    upper: &[u8],
    counts: &[u64],
    head: &mut [u64; 7],
    bound: &mut [u8; 255],
    addrs: &mut [u32; 256],
    inps: &mut [u8; 256],
    trans: &mut [u16; 256],
    outs: &mut [u64; 256],
    keys: &mut [u64; 1],
) -> i32
    ensures { StartLeaves (P.start_plain file.now
        (bound_is (kind_is lower_kind) lower.now)
        (bound_is (kind_is upper_kind) upper.now) counts.now)
        (held head.old bound.old addrs.old inps.old
        trans.old outs.old) keys.old
        (held head.new bound.new addrs.new inps.new
        trans.new outs.new) keys.new result }
{
    let low = bound_with(lower_kind, lower);
    let high = bound_with(upper_kind, upper);
    match stream::start(file, low, high, counts) {
        Err(why) => code(why),
        Ok(plain) => {
            put_plain(plain, head, bound, addrs, inps, trans, outs, keys);
            OK
        }
    }
}

// The next key of the reading that the arrays hold, and the reading after it. On 0 the key stands from the buffer's first byte on, and its length
// and its value are written; else all three stay as given.
pub fn fst_next_arrays(
    file: &[u8],
    head: &mut [u64; 7],
    bound: &mut [u8; 255],
    addrs: &mut [u32; 256],
    inps: &mut [u8; 256],
    trans: &mut [u16; 256],
    outs: &mut [u64; 256],
    keys: &mut [u64; 1],
    key: &mut [u8],
    len: &mut usize,
    value: &mut u64,
) -> i32
    ensures { NextLeaves (P.next_plain file.now
        (held_plain (held head.old bound.old addrs.old
        inps.old trans.old outs.old) keys.old)
        (length key.old))
        (held head.new bound.new addrs.new inps.new
        trans.new outs.new) keys.new key.old key.new
        len.old len.new value.old value.new result }
{
    let mut plain = Plain {
        reading: reading_of(*head, *bound, *addrs, *inps, *trans, *outs),
        keys: keys[0],
    };
    // on the one copy, which goes back into the arrays only where the call is not refused
    match stream::turn(file, &mut plain, key) {
        Err(why) => code(why),
        Ok(found) => {
            put_plain(plain, head, bound, addrs, inps, trans, outs, keys);
            answered(Ok(found), len, value)
        }
    }
}

// ---- a range

// Up to `most` keys between two bounds, the least first, each in a row of 256 bytes with its value beside it, and how many.
pub fn fst_range_rows(
    file: &[u8],
    lower_kind: u64,
    lower: &[u8],
    upper_kind: u64,
    upper: &[u8],
    most: usize,
    rows: &mut [u8],
    values: &mut [u64],
    count: &mut usize,
) -> i32
    ensures { RangeLeaves (G.range file.now
        (bound_is (kind_is lower_kind) lower.now)
        (bound_is (kind_is upper_kind) upper.now) most (length rows.old)
        (length values.old)) rows.old rows.new
        values.old values.new count.new result }
{
    let from = bound_with(lower_kind, lower);
    let to = bound_with(upper_kind, upper);
    let ranged = range::range(file, from, to, most, rows, values);
    *count = ranged.count;
    stopped(ranged.stop)
}
