// A start and a next by pattern as functions on numbers, slices and arrays, for the comparison with the Rust (oracle/README.md). Nothing is asked of
// a caller: each function answers on every input, and its contract says the answer and what the lent buffers hold afterwards. A slice is passed
// as its pointer and then its length, an array as its pointer.
//
// A reading stands in the six arrays of `stream_arrays`; by pattern it holds no number of keys to come. A held pattern stands in two: pattern has
// its length and 0 where no rest may follow, positions its positions.
// Each function takes what the comparison lends, one by one, as the C interface does.
#![tactic(auto)]

ghost use Rattle.std.specs.Prelude.{ltb, length, get_or};
ghost use Rattle.stream_start.specs.Views.{bound_is, view_is};
ghost use Rattle.pattern.specs.Pattern.{start_by, next_by};
ghost use Rattle.patterned_fit.specs.Positions.{pattern_is};
ghost use Rattle.patterned_held.specs.HeldPatterns.{given_is};
ghost use Rattle.stream_arrays.specs.Arrays.{kind_is, held, held_is};
ghost use Rattle.oracle_pattern.specs.HeldBy.{StartByTold, NextByTold};

use oracle_stream::told;
use patterned::Patterned;
use patterned_held::Pattern;
use stream_arrays::{bound_with, put, reading_of};

// 0 where a start gives a reading, which stands in the arrays then; else the refusal, the arrays as they were.
#[unsafe(no_mangle)]
pub extern "C" fn oracle_start_by(
    file: &[u8],
    positions: &[u16],
    rest: u64,
    lower_kind: u64,
    lower: &[u8],
    upper_kind: u64,
    upper: &[u8],
    head: &mut [u64; 7],
    bound: &mut [u8; 255],
    addrs: &mut [u32; 256],
    inps: &mut [u8; 256],
    trans: &mut [u16; 256],
    outs: &mut [u64; 256],
) -> u64
    ensures { StartByTold (start_by file.now
        (given_is positions.now (ltb 0 rest))
        (bound_is (kind_is lower_kind) lower.now)
        (bound_is (kind_is upper_kind) upper.now))
        (held head.old bound.old addrs.old inps.old
        trans.old outs.old)
        (held head.new bound.new addrs.new inps.new
        trans.new outs.new) result }
{
    let from = bound_with(lower_kind, lower);
    let to = bound_with(upper_kind, upper);
    match patterned::start(file, positions, 0 < rest, from, to) {
        Err(why) => u64::from(u8::from(why)),
        Ok(patterned) => {
            put(patterned.reading, head, bound, addrs, inps, trans, outs);
            0
        }
    }
}

// The length of the next key, which stands at the front of key, with its value; 1000 for the end; or 2000 plus the refusal. The arrays
// hold the reading afterwards.
#[unsafe(no_mangle)]
pub extern "C" fn oracle_next_by(
    file: &[u8],
    pattern: &[u64; 2],
    positions: &[u16; 255],
    head: &mut [u64; 7],
    bound: &mut [u8; 255],
    addrs: &mut [u32; 256],
    inps: &mut [u8; 256],
    trans: &mut [u16; 256],
    outs: &mut [u64; 256],
    key: &mut [u8],
    value: &mut [u64; 1],
) -> u64
    ensures { NextByTold (next_by file.now
        (pattern_is (get_or pattern.now 0 0) (ltb 0 (get_or pattern.now 1 0))
        positions.now) (view_is (held_is (held head.old bound.old
        addrs.old inps.old trans.old outs.old)))
        (length key.old)) (held head.new bound.new
        addrs.new inps.new trans.new outs.new)
        key.old key.new value.old value.new result }
{
    let h = *head;
    let b = *bound;
    let a = *addrs;
    let i = *inps;
    let t = *trans;
    let o = *outs;
    let reading = reading_of(h, b, a, i, t, o);
    let p = *positions;
    let len = pattern[0] as usize;
    let rest = 0 < pattern[1];
    let pattern = Pattern {
        len,
        rest,
        positions: p,
    };
    let patterned = Patterned { reading, pattern };
    let step = patterned::next(file, patterned, key);
    let after = step.reading;
    let reading = after.reading;
    put(reading, head, bound, addrs, inps, trans, outs);
    let answer = step.answer;
    told(answer, value)
}
