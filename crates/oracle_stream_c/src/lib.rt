// What the comparison links of crate `oracle_stream` (oracle/README.md): each function calls the one of the same name there, and states its contract
// again. A slice is passed as its pointer and then its length, an array as its pointer.
// Each function takes what the comparison lends, one by one, as the C interface does.
#![tactic(auto)]

ghost use Rattle.std.specs.Prelude.{length};
ghost use Rattle.reading.specs.Reading as R;
ghost use Rattle.plain.specs.Plain as P;
ghost use Rattle.stream_start.specs.Views.{bound_is};
ghost use Rattle.stream_arrays.specs.Arrays.{kind_is, held, held_plain};
ghost use Rattle.oracle_stream.specs.StreamTells.{StartTold, NextTold};
ghost use Rattle.oracle_stream.specs.Runs.{StartKeysTold, BareKeysTold};

// 0 where a start with this table gives a reading, which stands in the arrays then; else the refusal, the arrays as they were.
// As fst_start_arrays of the library, with its results by another numbering: the C interface has two exported names.
#[unsafe(no_mangle)]
pub extern "C" fn oracle_start(
    file: &[u8],
    lower_kind: u64,
    lower: &[u8],
    upper_kind: u64,
    upper: &[u8],
    counts: &[u64],
    head: &mut [u64; 7],
    bound: &mut [u8; 255],
    addrs: &mut [u32; 256],
    inps: &mut [u8; 256],
    trans: &mut [u16; 256],
    outs: &mut [u64; 256],
    keys: &mut [u64; 1],
) -> u64
    ensures { StartTold (P.start_plain file.now
        (bound_is (kind_is lower_kind) lower.now)
        (bound_is (kind_is upper_kind) upper.now) counts.now)
        (held head.old bound.old addrs.old inps.old
        trans.old outs.old) keys.old
        (held head.new bound.new addrs.new inps.new
        trans.new outs.new) keys.new result }
{
    oracle_stream::oracle_start(
        file, lower_kind, lower, upper_kind, upper, counts, head, bound, addrs, inps, trans, outs,
        keys,
    )
}

// The length of the next key, which stands at the front of key, with its value; 1000 for the end; or 2000 plus the refusal. The arrays
// hold the reading afterwards.
#[unsafe(no_mangle)]
pub extern "C" fn oracle_next(
    file: &[u8],
    head: &mut [u64; 7],
    bound: &mut [u8; 255],
    addrs: &mut [u32; 256],
    inps: &mut [u8; 256],
    trans: &mut [u16; 256],
    outs: &mut [u64; 256],
    keys: &mut [u64; 1],
    key: &mut [u8],
    value: &mut [u64; 1],
) -> u64
    ensures { NextTold (P.next_plain file.now
        (held_plain (held head.old bound.old addrs.old
        inps.old trans.old outs.old) keys.old)
        (length key.old))
        (held head.new bound.new addrs.new inps.new
        trans.new outs.new) keys.new key.old key.new
        value.old value.new result }
{
    oracle_stream::oracle_next(
        file, head, bound, addrs, inps, trans, outs, keys, key, value,
    )
}

// How many calls after a start with this table hand out a key, up to the first that does not and at most so many; none where the start is
// refused. The buffer holds what the last of them left there.
#[unsafe(no_mangle)]
pub extern "C" fn oracle_keys(
    file: &[u8],
    lower_kind: u64,
    lower: &[u8],
    upper_kind: u64,
    upper: &[u8],
    counts: &[u64],
    most: u64,
    key: &mut [u8],
) -> u64
    ensures { StartKeysTold most file.now
        (P.start_plain file.now (bound_is (kind_is lower_kind) lower.now)
        (bound_is (kind_is upper_kind) upper.now) counts.now)
        key.old key.new result }
{
    oracle_stream::oracle_keys(
        file, lower_kind, lower, upper_kind, upper, counts, most, key,
    )
}

// As oracle_keys, by readings without the number, which take no table.
#[unsafe(no_mangle)]
pub extern "C" fn oracle_bare_keys(
    file: &[u8],
    lower_kind: u64,
    lower: &[u8],
    upper_kind: u64,
    upper: &[u8],
    most: u64,
    key: &mut [u8],
) -> u64
    ensures { BareKeysTold most file.now
        (R.start file.now (bound_is (kind_is lower_kind) lower.now)
        (bound_is (kind_is upper_kind) upper.now)) key.old key.new
        result }
{
    oracle_stream::oracle_bare_keys(file, lower_kind, lower, upper_kind, upper, most, key)
}
