// The function that carries a reading to another file for the C caller. include/baxhiso.h declares it; results and conventions are those of crate `baxhiso`.
// A slice is passed as its pointer and then its length, an array as its pointer. The function asks nothing of its arguments' values.
// Each function takes what the C caller lends, one by one: the C interface.
#![tactic(auto)]

ghost use Rattle.std.specs.Prelude.{replicate};
ghost use Rattle.carrying.specs.Carry.{carry_plain};
ghost use Rattle.stream_arrays.specs.Arrays.{held, held_plain};
ghost use Rattle.baxhiso_carry.specs.CarryArrays.{CarryLeaves};

use baxhiso::{OK, code};
use stream::Plain;
use stream_arrays::{put, reading_of};

// Carries the reading that the arrays hold from the old file to the new one, at the same place. On 0 the arrays hold the reading of the new file; on a
// refusal they stay as given. The number of keys to come stays what it is.
pub fn fst_carry_arrays(
    old: &[u8],
    new: &[u8],
    head: &mut [u64; 7],
    bound: &mut [u8; 255],
    addrs: &mut [u32; 256],
    inps: &mut [u8; 256],
    trans: &mut [u16; 256],
    outs: &mut [u64; 256],
    keys: u64,
) -> i32
    ensures { CarryLeaves (carry_plain old.now new.now
        (held_plain (held head.old bound.old addrs.old
        inps.old trans.old outs.old) (replicate 1 keys)))
        (held head.old bound.old addrs.old inps.old
        trans.old outs.old)
        (held head.new bound.new addrs.new inps.new
        trans.new outs.new) keys result }
{
    let h = *head;
    let b = *bound;
    let a = *addrs;
    let i = *inps;
    let t = *trans;
    let o = *outs;
    let reading = reading_of(h, b, a, i, t, o);
    let plain = Plain { reading, keys };
    let carried = carry::carry(old, new, plain);
    match carried {
        Err(why) => code(why),
        Ok(after) => {
            let reading = after.reading;
            put(reading, head, bound, addrs, inps, trans, outs);
            OK
        }
    }
}
