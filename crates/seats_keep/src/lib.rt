// What is kept of a seat that was served, in the arrays of `seats_arrays`: the reading that its call gave back.
// What the C caller lends goes down one by one: the C interface.
#![tactic(auto)]

ghost use Rattle.std.specs.Prelude.{◌<◌};
ghost use Rattle.seats_arrays.specs.SeatArrays.{rows};
ghost use Rattle.seats_keep.specs.Keeps.{KeptIn};

use seats_arrays::{put_flag, put_plain};
use stream::Plain;

// A seat was served: it holds the reading that its call gave back and waits no more, and the next turn begins after it.
pub fn keep(
    plain: Plain,
    number: usize,
    last: &mut usize,
    waiting: &mut [u8; 8],
    heads: &mut [[u64; 7]; 8],
    bounds: &mut [[u8; 255]; 8],
    addrs: &mut [[u32; 256]; 8],
    inps: &mut [[u8; 256]; 8],
    trans: &mut [[u16; 256]; 8],
    outs: &mut [[u64; 256]; 8],
    keys: &mut [u64; 8],
    seat: &mut usize,
)
    requires { number < 8 }
    ensures { KeptIn plain number waiting.old
        (rows heads.old bounds.old addrs.old inps.old
        trans.old outs.old keys.old) last.new
        waiting.new
        (rows heads.new bounds.new addrs.new inps.new
        trans.new outs.new keys.new) seat.new }
{
    put_plain(plain, number, heads, bounds, addrs, inps, trans, outs, keys);
    put_flag(waiting, number, 0);
    *last = number;
    *seat = number;
}
