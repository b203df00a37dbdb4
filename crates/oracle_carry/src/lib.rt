// Carrying a reading as functions on numbers, slices and arrays, for the comparison with a model (oracle/README.md). Nothing is asked of a caller: each
// function answers on every input, and its contract says the answer and what the lent buffers hold afterwards. A slice is passed as its pointer and
// then its length, an array as its pointer. A reading stands in the arrays of `stream_arrays`.
// Each function takes what the comparison lends, one by one, as the C interface does.
#![tactic(auto)]

ghost use Rattle.std.specs.Prelude.{false, replicate};
ghost use Rattle.stream_start.specs.Views.{view_is};
ghost use Rattle.patterned_fit.specs.Positions.{pattern_is};
ghost use Rattle.carrying.specs.Carry.{carry_plain, carry_by};
ghost use Rattle.stream_arrays.specs.Arrays.{held, held_is, held_plain};
ghost use Rattle.oracle_carry.specs.CarryTells.{CarryTold, CarryByTold};

use patterned::Patterned;
use patterned_held::Pattern;
use stream::Plain;
use stream_arrays::{put, reading_of};

// 0 where a plain reading is carried, which stands in the arrays then; else the refusal, the arrays as they were. The number of keys to come is copied.
#[unsafe(no_mangle)]
pub extern "C" fn oracle_carry(
    old: &[u8],
    new: &[u8],
    head: &mut [u64; 7],
    bound: &mut [u8; 255],
    addrs: &mut [u32; 256],
    inps: &mut [u8; 256],
    trans: &mut [u16; 256],
    outs: &mut [u64; 256],
    keys: u64,
) -> u64
    ensures { CarryTold (carry_plain old.now new.now
        (held_plain (held head.old bound.old addrs.old
        inps.old trans.old outs.old) (replicate 1 keys)))
        (held head.old bound.old addrs.old inps.old
        trans.old outs.old)
        (held head.new bound.new addrs.new inps.new
        trans.new outs.new) keys result }
{
    let h = *head;
    let b = *bound;
    let a = *addrs;
    let i = *inps;
    let t = *trans;
    let o = *outs;
    let reading = reading_of(h, b, a, i, t, o);
    let plain = Plain { reading, keys };
    let carried = carry::carry(old, new, plain);
    match carried {
        Err(why) => u64::from(u8::from(why)),
        Ok(after) => {
            let reading = after.reading;
            put(reading, head, bound, addrs, inps, trans, outs);
            0
        }
    }
}

// The same of a reading by a pattern of so many positions, whatever they are.
#[unsafe(no_mangle)]
pub extern "C" fn oracle_carry_by(
    old: &[u8],
    new: &[u8],
    len: usize,
    head: &mut [u64; 7],
    bound: &mut [u8; 255],
    addrs: &mut [u32; 256],
    inps: &mut [u8; 256],
    trans: &mut [u16; 256],
    outs: &mut [u64; 256],
) -> u64
    ensures { CarryByTold (carry_by old.now new.now
        (pattern_is len false (replicate 255 0))
        (view_is (held_is (held head.old bound.old addrs.old
        inps.old trans.old outs.old))))
        (held head.old bound.old addrs.old inps.old
        trans.old outs.old)
        (held head.new bound.new addrs.new inps.new
        trans.new outs.new) result }
{
    let h = *head;
    let b = *bound;
    let a = *addrs;
    let i = *inps;
    let t = *trans;
    let o = *outs;
    let reading = reading_of(h, b, a, i, t, o);
    let pattern = Pattern {
        len,
        rest: false,
        positions: [0; 255],
    };
    let patterned = Patterned { reading, pattern };
    let carried = carry::carry_by(old, new, patterned);
    match carried {
        Err(why) => u64::from(u8::from(why)),
        Ok(after) => {
            let reading = after.reading;
            put(reading, head, bound, addrs, inps, trans, outs);
            0
        }
    }
}
