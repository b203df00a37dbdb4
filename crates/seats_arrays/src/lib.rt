// Eight seats in arrays (document 02, N13): what a caller in another language lends, and what is kept there between its calls. Crate seats has them
// by value; here no more than one seat's reading is copied.
//
// The seat served last is a number. `taken` and `waiting` have a number for each seat, 0 for no and any other for yes. The arrays of stream_arrays have
// a row for each seat. They are passed as slices here, so that their lengths are known to a caller that has them as arrays of eight.
// Each function takes what the C caller lends, one by one: the C interface.
#![tactic(auto)]

ghost use Rattle.std.specs.Prelude.{◌≡◌, ◌<◌, length};
ghost use Rattle.stream_arrays.specs.Arrays.{held};
ghost use Rattle.seats_arrays.specs.SeatArrays.{FlagPut, rows, Within, plain_of, RowSet, RowPut};

use stream::Plain;
use stream_arrays::{put, reading_of};

// The reading of a seat.
pub fn plain_at(
    number: usize,
    heads: &[[u64; 7]],
    bounds: &[[u8; 255]],
    addrs: &[[u32; 256]],
    inps: &[[u8; 256]],
    trans: &[[u16; 256]],
    outs: &[[u64; 256]],
    keys: &[u64],
) -> Plain
    requires { Within number (rows heads.now bounds.now addrs.now inps.now trans.now
        outs.now keys.now) }
    ensures { result ≡ plain_of (rows heads.now bounds.now
        addrs.now inps.now trans.now outs.now
        keys.now) number }
{
    let reading = reading_of(
        heads[number],
        bounds[number],
        addrs[number],
        inps[number],
        trans[number],
        outs[number],
    );
    Plain {
        reading,
        keys: keys[number],
    }
}

// Puts a reading into the rows of a seat.
pub fn put_plain(
    plain: Plain,
    number: usize,
    heads: &mut [[u64; 7]],
    bounds: &mut [[u8; 255]],
    addrs: &mut [[u32; 256]],
    inps: &mut [[u8; 256]],
    trans: &mut [[u16; 256]],
    outs: &mut [[u64; 256]],
    keys: &mut [u64],
)
    requires { Within number (rows heads.old bounds.old addrs.old inps.old trans.old
        outs.old keys.old) }
    ensures { RowPut plain number (rows heads.old bounds.old
        addrs.old inps.old trans.old outs.old
        keys.old) (rows heads.new bounds.new addrs.new
        inps.new trans.new outs.new keys.new) }
{
    put(
        plain.reading,
        &mut heads[number],
        &mut bounds[number],
        &mut addrs[number],
        &mut inps[number],
        &mut trans[number],
        &mut outs[number],
    );
    keys[number] = plain.keys;
}

// Copies the arrays of one reading into the rows of a seat.
pub fn put_rows(
    number: usize,
    head: &[u64; 7],
    bound: &[u8; 255],
    addr: &[u32; 256],
    inp: &[u8; 256],
    tran: &[u16; 256],
    out: &[u64; 256],
    to_come: u64,
    heads: &mut [[u64; 7]],
    bounds: &mut [[u8; 255]],
    addrs: &mut [[u32; 256]],
    inps: &mut [[u8; 256]],
    trans: &mut [[u16; 256]],
    outs: &mut [[u64; 256]],
    keys: &mut [u64],
)
    requires { Within number (rows heads.old bounds.old addrs.old inps.old trans.old
        outs.old keys.old) }
    ensures { RowSet (held head.now bound.now addr.now
        inp.now tran.now out.now) to_come number
        (rows heads.old bounds.old addrs.old inps.old
        trans.old outs.old keys.old)
        (rows heads.new bounds.new addrs.new inps.new
        trans.new outs.new keys.new) }
{
    // each by a variable: stored straight it is compiled to a call of `memmove`, and the library for C may call `memcpy` and `memset` alone
    let h = *head;
    let b = *bound;
    let a = *addr;
    let i = *inp;
    let t = *tran;
    let o = *out;
    heads[number] = h;
    bounds[number] = b;
    addrs[number] = a;
    inps[number] = i;
    trans[number] = t;
    outs[number] = o;
    keys[number] = to_come;
}

// Writes whether a seat has a reading, or whether it waits.
pub fn put_flag(flags: &mut [u8], number: usize, flag: u8)
    requires { number < length flags.old }
    ensures { FlagPut number flag flags.old flags.new }
{
    flags[number] = flag;
}
