// A plain reading's start and next as functions on numbers, slices and arrays, for the comparison with the Rust (oracle/README.md). Nothing
// is asked of a caller: each function answers on every input, and its contract says the answer and what the lent buffers hold afterwards. A
// slice is passed as its pointer and then its length, an array as its pointer. A reading stands in the arrays of `stream_arrays`.
// Each function takes what the comparison lends, one by one, as the C interface does.
#![tactic(auto)]

ghost use Rattle.std.specs.Prelude.{◌≡◌, length};
ghost use Rattle.reading.specs.Reading as R;
ghost use Rattle.plain.specs.Plain as P;
ghost use Rattle.stream_start.specs.Views.{bound_is, view_is};
ghost use Rattle.stream.specs.Plains.{plain_is};
ghost use Rattle.stream_arrays.specs.Arrays.{kind_is, held, held_plain};
ghost use Rattle.oracle_stream.specs.StreamTells.{StartTold, Told, NextTold};
ghost use Rattle.oracle_stream.specs.Runs.{key_test, KeysTold, PlainKeysTold, StartKeysTold, BareKeysTold};

use format::Refusal;
use oracle_numbers::{END, REFUSED};
use stream::Plain;
use stream_arrays::{bound_with, put_plain, reading_of};
use stream_start::Reading;

// ---- start

// 0 where a start with this table gives a reading, which stands in the arrays then; else the refusal, the arrays as they were.
pub fn oracle_start(
    file: &[u8],
    lower_kind: u64,
    lower: &[u8],
    upper_kind: u64,
    upper: &[u8],
    counts: &[u64],
    head: &mut [u64; 7],
    bound: &mut [u8; 255],
    addrs: &mut [u32; 256],
    inps: &mut [u8; 256],
    trans: &mut [u16; 256],
    outs: &mut [u64; 256],
    keys: &mut [u64; 1],
) -> u64
    ensures { StartTold (P.start_plain file.now
        (bound_is (kind_is lower_kind) lower.now)
        (bound_is (kind_is upper_kind) upper.now) counts.now)
        (held head.old bound.old addrs.old inps.old
        trans.old outs.old) keys.old
        (held head.new bound.new addrs.new inps.new
        trans.new outs.new) keys.new result }
{
    let from = bound_with(lower_kind, lower);
    let to = bound_with(upper_kind, upper);
    match stream::start(file, from, to, counts) {
        Err(why) => u64::from(u8::from(why)),
        Ok(plain) => {
            put_plain(plain, head, bound, addrs, inps, trans, outs, keys);
            0
        }
    }
}

// ---- next

// An answer as a number: a key's length, 1000 for the end, or 2000 plus the refusal. A key's value is written.
pub fn told(answer: Result<Option<(usize, u64)>, Refusal>, value: &mut [u64; 1]) -> u64
    ensures { Told answer value.old value.new result }
{
    match answer {
        Ok(Some((n, v))) => {
            *value = [v];
            n as u64
        }
        Ok(None) => END,
        Err(why) => REFUSED + u64::from(u8::from(why)),
    }
}

// The length of the next key, which stands at the front of key, with its value; 1000 for the end; or 2000 plus the refusal. The arrays
// hold the reading afterwards.
pub fn oracle_next(
    file: &[u8],
    head: &mut [u64; 7],
    bound: &mut [u8; 255],
    addrs: &mut [u32; 256],
    inps: &mut [u8; 256],
    trans: &mut [u16; 256],
    outs: &mut [u64; 256],
    keys: &mut [u64; 1],
    key: &mut [u8],
    value: &mut [u64; 1],
) -> u64
    ensures { NextTold (P.next_plain file.now
        (held_plain (held head.old bound.old addrs.old
        inps.old trans.old outs.old) keys.old)
        (length key.old))
        (held head.new bound.new addrs.new inps.new
        trans.new outs.new) keys.new key.old key.new
        value.old value.new result }
{
    let h = *head;
    let b = *bound;
    let a = *addrs;
    let i = *inps;
    let t = *trans;
    let o = *outs;
    let n = *keys;
    let reading = reading_of(h, b, a, i, t, o);
    let plain = Plain {
        reading,
        keys: n[0],
    };
    let step = stream::next(file, plain, key);
    let after = step.reading;
    put_plain(after, head, bound, addrs, inps, trans, outs, keys);
    let answer = step.answer;
    told(answer, value)
}

// ---- a range in one call, so that it is timed without the arrays

fn is_key(answer: Result<Option<(usize, u64)>, Refusal>) -> bool
    ensures { result ≡ key_test answer }
{
    matches!(answer, Ok(Some((..))))
}

// How many calls hand out a key, from this reading on, up to the first that does not and at most so many.
fn keys_from(file: &[u8], plain: Plain, most: u64, key: &mut [u8]) -> u64
    ensures { PlainKeysTold most file.now (plain_is plain) key.old
        key.new result }
{
    let mut here = plain;
    for n in 0..most {
        let step = stream::next(file, here, key);
        if !is_key(step.answer) {
            return n;
        }
        here = step.reading;
    }
    most
}

// How many calls after a start with this table hand out a key, up to the first that does not and at most so many; none where the start is
// refused. The buffer holds what the last of them left there.
pub fn oracle_keys(
    file: &[u8],
    lower_kind: u64,
    lower: &[u8],
    upper_kind: u64,
    upper: &[u8],
    counts: &[u64],
    most: u64,
    key: &mut [u8],
) -> u64
    ensures { StartKeysTold most file.now
        (P.start_plain file.now (bound_is (kind_is lower_kind) lower.now)
        (bound_is (kind_is upper_kind) upper.now) counts.now)
        key.old key.new result }
{
    let from = bound_with(lower_kind, lower);
    let to = bound_with(upper_kind, upper);
    match stream::start(file, from, to, counts) {
        Err(_) => 0,
        Ok(plain) => keys_from(file, plain, most, key),
    }
}

// The same of a reading without the number. One loop for both would be over any type of readings with a step handed in, and its contract over any `Calls`: no
// plainer than a second loop.
fn bare_keys_from(file: &[u8], reading: Reading, most: u64, key: &mut [u8]) -> u64
    ensures { KeysTold most file.now (view_is reading) key.old
        key.new result }
{
    let mut here = reading;
    for n in 0..most {
        let step = stream_next::next(file, here, key);
        if !is_key(step.answer) {
            return n;
        }
        here = step.reading;
    }
    most
}

// As oracle_keys, by readings without the number, which take no table.
pub fn oracle_bare_keys(
    file: &[u8],
    lower_kind: u64,
    lower: &[u8],
    upper_kind: u64,
    upper: &[u8],
    most: u64,
    key: &mut [u8],
) -> u64
    ensures { BareKeysTold most file.now
        (R.start file.now (bound_is (kind_is lower_kind) lower.now)
        (bound_is (kind_is upper_kind) upper.now)) key.old key.new
        result }
{
    let from = bound_with(lower_kind, lower);
    let to = bound_with(upper_kind, upper);
    match stream_start::start(file, from, to) {
        Err(_) => 0,
        Ok(reading) => bare_keys_from(file, reading, most, key),
    }
}
