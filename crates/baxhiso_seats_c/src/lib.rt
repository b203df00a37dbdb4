// What C links of crate `baxhiso_seats` (include/baxhiso.h): eight seats on one index. Each function calls the one of the same name there, and states
// its contract again. A slice is passed as its pointer and then its length, an array as its pointer. No function asks anything of its arguments'
// values.
// Each function takes what the C caller lends, one by one: the C interface.
#![tactic(auto)]

ghost use Rattle.std.specs.Prelude.{length, replicate};
ghost use Rattle.turns.specs.Turns as T;
ghost use Rattle.stream_arrays.specs.Arrays.{held, held_plain};
ghost use Rattle.seats_arrays.specs.SeatArrays.{rows, flat, flat_is};
ghost use Rattle.baxhiso_seats.specs.Seats.{EmptyLeaves, RaiseTold, SeatLeaves, DispatchLeaves};

// No seat has a reading, nobody waits, and the first turn is seat 0's.
#[unsafe(no_mangle)]
pub extern "C" fn fst_empty_seats(last: &mut usize, taken: &mut [u8; 8], waiting: &mut [u8; 8])
    ensures { EmptyLeaves last.new taken.new waiting.new }
{
    baxhiso_seats::fst_empty_seats(last, taken, waiting);
}

// The seat waits from now on.
#[unsafe(no_mangle)]
pub extern "C" fn fst_raise_arrays(
    last: usize,
    taken: &[u8; 8],
    waiting: &mut [u8; 8],
    number: usize,
) -> i32
    ensures { RaiseTold last taken.now waiting.old number
        waiting.new result }
{
    baxhiso_seats::fst_raise_arrays(last, taken, waiting, number)
}

// The seat holds this reading from now on.
#[unsafe(no_mangle)]
pub extern "C" fn fst_seat_arrays(
    last: usize,
    taken: &mut [u8; 8],
    waiting: &[u8; 8],
    heads: &mut [[u64; 7]; 8],
    bounds: &mut [[u8; 255]; 8],
    addrs: &mut [[u32; 256]; 8],
    inps: &mut [[u8; 256]; 8],
    trans: &mut [[u16; 256]; 8],
    outs: &mut [[u64; 256]; 8],
    keys: &mut [u64; 8],
    number: usize,
    head: &[u64; 7],
    bound: &[u8; 255],
    addr: &[u32; 256],
    inp: &[u8; 256],
    tran: &[u16; 256],
    out: &[u64; 256],
    to_come: u64,
) -> i32
    ensures { SeatLeaves
        (T.seat (flat_is (flat last taken.old waiting.now
        (rows heads.old bounds.old addrs.old inps.old
        trans.old outs.old keys.old))) number
        (held_plain (held head.now bound.now addr.now
        inp.now tran.now out.now) (replicate 1 to_come)))
        (flat last taken.old waiting.now
        (rows heads.old bounds.old addrs.old inps.old
        trans.old outs.old keys.old)) number
        (held head.now bound.now addr.now inp.now
        tran.now out.now) to_come
        (flat last taken.new waiting.now
        (rows heads.new bounds.new addrs.new inps.new
        trans.new outs.new keys.new)) result }
{
    baxhiso_seats::fst_seat_arrays(
        last, taken, waiting, heads, bounds, addrs, inps, trans, outs, keys, number, head, bound,
        addr, inp, tran, out, to_come,
    )
}

// Serves the first waiting seat after the one served last with one call of its reading.
#[unsafe(no_mangle)]
pub extern "C" fn fst_dispatch_arrays(
    file: &[u8],
    last: &mut usize,
    taken: &[u8; 8],
    waiting: &mut [u8; 8],
    heads: &mut [[u64; 7]; 8],
    bounds: &mut [[u8; 255]; 8],
    addrs: &mut [[u32; 256]; 8],
    inps: &mut [[u8; 256]; 8],
    trans: &mut [[u16; 256]; 8],
    outs: &mut [[u64; 256]; 8],
    keys: &mut [u64; 8],
    key: &mut [u8],
    seat: &mut usize,
    len: &mut usize,
    value: &mut u64,
) -> i32
    ensures { DispatchLeaves (T.dispatch file.now
        (flat_is (flat last.old taken.now waiting.old
        (rows heads.old bounds.old addrs.old inps.old
        trans.old outs.old keys.old))) (length key.old))
        (flat last.old taken.now waiting.old
        (rows heads.old bounds.old addrs.old inps.old
        trans.old outs.old keys.old))
        (flat last.new taken.now waiting.new
        (rows heads.new bounds.new addrs.new inps.new
        trans.new outs.new keys.new)) key.old
        key.new seat.old seat.new len.old
        len.new value.old value.new result }
{
    baxhiso_seats::fst_dispatch_arrays(
        file, last, taken, waiting, heads, bounds, addrs, inps, trans, outs, keys, key, seat, len,
        value,
    )
}
