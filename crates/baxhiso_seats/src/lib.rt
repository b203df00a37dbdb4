// Eight seats on one index for the C caller. include/baxhiso.h declares the functions; results and conventions are those of crate `baxhiso`.
// The seats stand in the arrays of `seats_arrays`, which C has as one struct: the header's fst_seat, fst_raise and fst_dispatch lend its fields. No
// function asks anything of its arguments' values.
// Each function takes what the C caller lends, one by one: the C interface.
#![tactic(auto)]

ghost use Rattle.std.specs.Prelude.{◌<◌, length, replicate};
ghost use Rattle.plain.specs.Plain as P;
ghost use Rattle.turns.specs.Turns as T;
ghost use Rattle.stream_arrays.specs.Arrays.{held, held_plain};
ghost use Rattle.seats_arrays.specs.SeatArrays.{rows, plain_at, flat, flat_is};
ghost use Rattle.baxhiso_seats.specs.Seats.{EmptyLeaves, RaiseTold, SeatLeaves, ServeLeaves, DispatchLeaves};

use baxhiso::{NONE, OK, code};
use baxhiso_results::answered;
use format::Refusal;
use seats_arrays::{plain_at, put_flag, put_rows};
use seats_flags::{seats_right, turn_of};
use seats_keep::keep;
use seats_turn::LAST_SEAT;

// No seat has a reading, nobody waits, and the first turn is seat 0's.
pub fn fst_empty_seats(last: &mut usize, taken: &mut [u8; 8], waiting: &mut [u8; 8])
    ensures { EmptyLeaves last.new taken.new waiting.new }
{
    *last = LAST_SEAT;
    *taken = [0; 8];
    *waiting = [0; 8];
}

// The seat waits from now on.
pub fn fst_raise_arrays(last: usize, taken: &[u8; 8], waiting: &mut [u8; 8], number: usize) -> i32
    ensures { RaiseTold last taken.now waiting.old number
        waiting.new result }
{
    if LAST_SEAT < number {
        return code(Refusal::Seat);
    }
    let taken_now = *taken;
    let waiting_now = *waiting;
    if !seats_right(last, taken_now, waiting_now) {
        return code(Refusal::Seat);
    }
    let empty = taken_now[number] == 0;
    if empty {
        return code(Refusal::Seat);
    }
    put_flag(waiting, number, 1);
    OK
}

// The seat holds this reading from now on.
pub fn fst_seat_arrays(
    last: usize,
    taken: &mut [u8; 8],
    waiting: &[u8; 8],
    heads: &mut [[u64; 7]; 8],
    bounds: &mut [[u8; 255]; 8],
    addrs: &mut [[u32; 256]; 8],
    inps: &mut [[u8; 256]; 8],
    trans: &mut [[u16; 256]; 8],
    outs: &mut [[u64; 256]; 8],
    keys: &mut [u64; 8],
    number: usize,
    head: &[u64; 7],
    bound: &[u8; 255],
    addr: &[u32; 256],
    inp: &[u8; 256],
    tran: &[u16; 256],
    out: &[u64; 256],
    to_come: u64,
) -> i32
    ensures { SeatLeaves
        (T.seat (flat_is (flat last taken.old waiting.now
        (rows heads.old bounds.old addrs.old inps.old
        trans.old outs.old keys.old))) number
        (held_plain (held head.now bound.now addr.now
        inp.now tran.now out.now) (replicate 1 to_come)))
        (flat last taken.old waiting.now
        (rows heads.old bounds.old addrs.old inps.old
        trans.old outs.old keys.old)) number
        (held head.now bound.now addr.now inp.now
        tran.now out.now) to_come
        (flat last taken.new waiting.now
        (rows heads.new bounds.new addrs.new inps.new
        trans.new outs.new keys.new)) result }
{
    if LAST_SEAT < number {
        return code(Refusal::Seat);
    }
    let t = *taken;
    let w = *waiting;
    if !seats_right(last, t, w) {
        return code(Refusal::Seat);
    }
    put_rows(
        number, head, bound, addr, inp, tran, out, to_come, heads, bounds, addrs, inps, trans,
        outs, keys,
    );
    put_flag(taken, number, 1);
    OK
}

// One call of the reading of a seat, which is kept unless it was refused.
fn serve(
    file: &[u8],
    number: usize,
    last: &mut usize,
    waiting: &mut [u8; 8],
    heads: &mut [[u64; 7]; 8],
    bounds: &mut [[u8; 255]; 8],
    addrs: &mut [[u32; 256]; 8],
    inps: &mut [[u8; 256]; 8],
    trans: &mut [[u16; 256]; 8],
    outs: &mut [[u64; 256]; 8],
    keys: &mut [u64; 8],
    key: &mut [u8],
    seat: &mut usize,
    len: &mut usize,
    value: &mut u64,
) -> i32
    requires { number < 8 }
    ensures { ServeLeaves (P.next_plain file.now
        (plain_at (rows heads.old bounds.old addrs.old
        inps.old trans.old outs.old keys.old) number)
        (length key.old)) number last.old waiting.old
        (rows heads.old bounds.old addrs.old inps.old
        trans.old outs.old keys.old) last.new
        waiting.new
        (rows heads.new bounds.new addrs.new inps.new
        trans.new outs.new keys.new) key.old
        key.new seat.old seat.new len.old
        len.new value.old value.new result }
{
    let plain = plain_at(number, heads, bounds, addrs, inps, trans, outs, keys);
    let step = stream::next(file, plain, key);
    let answer = step.answer;
    let refused = answer.is_err();
    if refused {
        return answered(answer, len, value);
    }
    keep(
        step.reading,
        number,
        last,
        waiting,
        heads,
        bounds,
        addrs,
        inps,
        trans,
        outs,
        keys,
        seat,
    );
    answered(answer, len, value)
}

// Serves the first waiting seat after the one served last with one call of its reading.
pub fn fst_dispatch_arrays(
    file: &[u8],
    last: &mut usize,
    taken: &[u8; 8],
    waiting: &mut [u8; 8],
    heads: &mut [[u64; 7]; 8],
    bounds: &mut [[u8; 255]; 8],
    addrs: &mut [[u32; 256]; 8],
    inps: &mut [[u8; 256]; 8],
    trans: &mut [[u16; 256]; 8],
    outs: &mut [[u64; 256]; 8],
    keys: &mut [u64; 8],
    key: &mut [u8],
    seat: &mut usize,
    len: &mut usize,
    value: &mut u64,
) -> i32
    ensures { DispatchLeaves (T.dispatch file.now
        (flat_is (flat last.old taken.now waiting.old
        (rows heads.old bounds.old addrs.old inps.old
        trans.old outs.old keys.old))) (length key.old))
        (flat last.old taken.now waiting.old
        (rows heads.old bounds.old addrs.old inps.old
        trans.old outs.old keys.old))
        (flat last.new taken.now waiting.new
        (rows heads.new bounds.new addrs.new inps.new
        trans.new outs.new keys.new)) key.old
        key.new seat.old seat.new len.old
        len.new value.old value.new result }
{
    let at = *last;
    let t = *taken;
    let w = *waiting;
    if !seats_right(at, t, w) {
        return code(Refusal::Seat);
    }
    let turn = turn_of(at, w);
    match turn {
        None => NONE,
        Some(number) => serve(
            file, number, last, waiting, heads, bounds, addrs, inps, trans, outs, keys, key, seat,
            len, value,
        ),
    }
}
