// A plain reading in arrays: what a caller in another language lends, and what is kept there between its calls. Nothing is asked of a caller.
//
// A reading stands in six arrays: head has the file's length, the upper bound's kind and length, 1 where an empty key is pending, its
// value, the total and the number of levels; the others have the bound's bytes and the levels. Beside them stands an array of one, the
// number of keys to come.
// What the C caller lends goes down one by one: the C interface.
#![tactic(auto)]

ghost use Rattle.std.specs.Prelude.{◌≡◌};
ghost use Rattle.stream_start.specs.Views.{bound_of, bound_is};
ghost use Rattle.stream_arrays.specs.Arrays.{kind_is, kind_number, pending_is, pending_flag, pending_value, head_as, held, held_is, held_as, PlainPut};

use std::ops::Bound;
use stream::Plain;
use stream_levels::Stack;
use stream_start::Reading;

// ---- what stands for a kind and for a pending key

// The kind of a bound: 0 included, 1 excluded, any other number unbounded. No `From`: std's Bound is a type of another crate.
#[tactic(auto, using(crate::proofs::KindNumbers::kind_other))]
pub fn kind_of(n: u64) -> Bound<()>
    ensures { result ≡ kind_is n }
{
    match n {
        0 => Bound::Included(()),
        1 => Bound::Excluded(()),
        _ => Bound::Unbounded,
    }
}

// A bound by its kind's number and its bytes, which carry no meaning beside an unbounded one.
pub fn bound_with<'b>(kind: u64, bytes: &'b [u8]) -> Bound<&'b [u8]>
    ensures { bound_of result ≡ bound_is (kind_is kind) bytes.now }
{
    kind_of(kind).map(|_| bytes)
}

// The number that stands for a kind. No `From` here either.
fn kind_number(kind: Bound<()>) -> u64
    ensures { result ≡ kind_number kind }
{
    match kind {
        Bound::Included(()) => 0,
        Bound::Excluded(()) => 1,
        Bound::Unbounded => 2,
    }
}

// A pending empty key: none where the first number is 0.
#[tactic(auto, using(crate::proofs::KindNumbers::pending_there))]
fn pending_of(there: u64, value: u64) -> Option<u64>
    ensures { result ≡ pending_is there value }
{
    if there == 0 { None } else { Some(value) }
}

fn pending_flag(empty: Option<u64>) -> u64
    ensures { result ≡ pending_flag empty }
{
    u64::from(empty.is_some())
}

fn pending_value(empty: Option<u64>) -> u64
    ensures { result ≡ pending_value empty }
{
    empty.unwrap_or(0)
}

// ---- a reading in the arrays

// The reading that the arrays hold.
pub fn reading_of(
    head: [u64; 7],
    bound: [u8; 255],
    addrs: [u32; 256],
    inps: [u8; 256],
    trans: [u16; 256],
    outs: [u64; 256],
) -> Reading
    ensures { result ≡ held_is (held head bound addrs inps trans outs) }
{
    Reading {
        len: head[0] as usize,
        kind: kind_of(head[1]),
        bound_len: head[2] as usize,
        bound,
        empty_output: pending_of(head[3], head[4]),
        total: head[5],
        levels: head[6] as usize,
        stack: Stack {
            addrs,
            inps,
            trans,
            outs,
        },
    }
}

// The first of the arrays, for a reading.
fn head_of(reading: Reading) -> [u64; 7]
    ensures { result ≡ head_as reading }
{
    [
        reading.len as u64,
        kind_number(reading.kind),
        reading.bound_len as u64,
        pending_flag(reading.empty_output),
        pending_value(reading.empty_output),
        reading.total,
        reading.levels as u64,
    ]
}

// Puts a reading into the arrays.
pub fn put(
    reading: Reading,
    head: &mut [u64; 7],
    bound: &mut [u8; 255],
    addrs: &mut [u32; 256],
    inps: &mut [u8; 256],
    trans: &mut [u16; 256],
    outs: &mut [u64; 256],
)
    ensures { held head.new bound.new addrs.new
        inps.new trans.new outs.new ≡ held_as reading }
{
    *head = head_of(reading);
    // each by a variable: tried straight, and no proof is made where a field that is an array is stored so
    let b = reading.bound;
    *bound = b;
    let Stack {
        addrs: a,
        inps: i,
        trans: t,
        outs: o,
    } = reading.stack;
    *addrs = a;
    *inps = i;
    *trans = t;
    *outs = o;
}

// Puts a plain reading into the arrays.
pub fn put_plain(
    plain: Plain,
    head: &mut [u64; 7],
    bound: &mut [u8; 255],
    addrs: &mut [u32; 256],
    inps: &mut [u8; 256],
    trans: &mut [u16; 256],
    outs: &mut [u64; 256],
    keys: &mut [u64; 1],
)
    ensures { PlainPut plain (held head.new bound.new addrs.new
        inps.new trans.new outs.new) keys.new }
{
    put(plain.reading, head, bound, addrs, inps, trans, outs);
    *keys = [plain.keys];
}
