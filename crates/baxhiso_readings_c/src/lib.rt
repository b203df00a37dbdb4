// What C links of crate `baxhiso_readings` (include/baxhiso.h): counting, and readings, key by key and a page at a time. Each function calls the one
// of the same name there, and states its contract again. A slice is passed as its pointer and then its length, an array as its pointer. No function
// asks anything of its arguments' values.
// Each function takes what the C caller lends, one by one: the C interface.
#![tactic(auto)]

ghost use Rattle.std.specs.Prelude.{length};
ghost use Rattle.plain.specs.Plain as P;
ghost use Rattle.paging.specs.Paging as G;
ghost use Rattle.baxhiso_readings.specs.Readings.{CountLeaves, StartLeaves, NextLeaves, RangeLeaves};
ghost use Rattle.stream_start.specs.Views.{bound_is};
ghost use Rattle.stream_arrays.specs.Arrays.{kind_is, held, held_plain};

// Admits a file, and fills the two tables and the table of keys, or refuses it.
#[unsafe(no_mangle)]
pub extern "C" fn fst_count(
    file: &[u8],
    depths: &mut [u16],
    sums: &mut [u64],
    counts: &mut [u64],
) -> i32
    ensures { CountLeaves file.now depths.old sums.old
        counts.old depths.new sums.new counts.new result }
{
    baxhiso_readings::fst_count(file, depths, sums, counts)
}

// Starts a reading of the keys between two bounds. On 0 the arrays hold it; on a refusal they stay as given.
#[unsafe(no_mangle)]
pub extern "C" fn fst_start_arrays(
    file: &[u8],
    lower_kind: u64,
    lower: &[u8],
    upper_kind: u64,
    upper: &[u8],
    counts: &[u64],
    head: &mut [u64; 7],
    bound: &mut [u8; 255],
    addrs: &mut [u32; 256],
    inps: &mut [u8; 256],
    trans: &mut [u16; 256],
    outs: &mut [u64; 256],
    keys: &mut [u64; 1],
) -> i32
    ensures { StartLeaves (P.start_plain file.now
        (bound_is (kind_is lower_kind) lower.now)
        (bound_is (kind_is upper_kind) upper.now) counts.now)
        (held head.old bound.old addrs.old inps.old
        trans.old outs.old) keys.old
        (held head.new bound.new addrs.new inps.new
        trans.new outs.new) keys.new result }
{
    baxhiso_readings::fst_start_arrays(
        file, lower_kind, lower, upper_kind, upper, counts, head, bound, addrs, inps, trans, outs,
        keys,
    )
}

// The next key of the reading that the arrays hold, and the reading after it. On 0 the key stands from the buffer's first byte on, and its length
// and its value are written; else all three stay as given.
#[unsafe(no_mangle)]
pub extern "C" fn fst_next_arrays(
    file: &[u8],
    head: &mut [u64; 7],
    bound: &mut [u8; 255],
    addrs: &mut [u32; 256],
    inps: &mut [u8; 256],
    trans: &mut [u16; 256],
    outs: &mut [u64; 256],
    keys: &mut [u64; 1],
    key: &mut [u8],
    len: &mut usize,
    value: &mut u64,
) -> i32
    ensures { NextLeaves (P.next_plain file.now
        (held_plain (held head.old bound.old addrs.old
        inps.old trans.old outs.old) keys.old)
        (length key.old))
        (held head.new bound.new addrs.new inps.new
        trans.new outs.new) keys.new key.old key.new
        len.old len.new value.old value.new result }
{
    baxhiso_readings::fst_next_arrays(
        file, head, bound, addrs, inps, trans, outs, keys, key, len, value,
    )
}

// Up to `most` keys between two bounds, the least first, each in a row of 256 bytes with its value beside it, and how many.
#[unsafe(no_mangle)]
pub extern "C" fn fst_range_rows(
    file: &[u8],
    lower_kind: u64,
    lower: &[u8],
    upper_kind: u64,
    upper: &[u8],
    most: usize,
    rows: &mut [u8],
    values: &mut [u64],
    count: &mut usize,
) -> i32
    ensures { RangeLeaves (G.range file.now
        (bound_is (kind_is lower_kind) lower.now)
        (bound_is (kind_is upper_kind) upper.now) most (length rows.old)
        (length values.old)) rows.old rows.new
        values.old values.new count.new result }
{
    baxhiso_readings::fst_range_rows(
        file, lower_kind, lower, upper_kind, upper, most, rows, values, count,
    )
}
