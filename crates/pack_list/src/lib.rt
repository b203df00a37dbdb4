// The list that is packed, judged before anything is written, and read: the number of keys, ends, values.
// A list is: the number of keys and the total of their bytes, an end for each key, a value for each key, the key bytes.
// A key is told by its number, since the list is lent as bytes: where its end, its value and its bytes stand is worked out of it.
#![tactic(auto)]

ghost use Rattle.std.specs.Prelude.{◌≡◌, ◌+◌, ◌*◌, ◌≤◌, ◌<◌, length};
ghost use Rattle.buffers.specs.Decide.{Decides};
ghost use Rattle.format.specs.Opening.{number_at};
ghost use Rattle.format.specs.Strings.{before_test};
ghost use Rattle.packing.specs.Lists.{count_in, total_in, end_at, begin_at, value_at, IsList};
ghost use Rattle.pack_list.specs.Judging.{EndsOk, Ascend, Sized};

use format::MAX_KEY;
use le_bytes::{read_u32_le, read_u64_le};

// The number of 32 bits at a place.
fn number_at(list: &[u8], at: usize) -> usize
    requires { at + 4 ≤ length list.now }
    ensures { (result ≡ number_at list.now at 4) × (result < 4294967296) }
{
    read_u32_le(&list[at..]) as usize
}

// How many keys the list says that it has.
pub fn key_count(list: &[u8]) -> usize
    requires { 8 ≤ length list.now }
    ensures { (result ≡ count_in list.now) × (result < 4294967296) }
{
    number_at(list, 0)
}

// How many bytes its keys have, as it says.
fn key_bytes(list: &[u8]) -> usize
    requires { 8 ≤ length list.now }
    ensures { (result ≡ total_in list.now) × (result < 4294967296) }
{
    number_at(list, 4)
}

// Where key i ends among the key bytes.
pub fn end_at(list: &[u8], i: usize) -> usize
    requires { 8 + 4 * i + 4 ≤ length list.now }
    ensures { (result ≡ end_at list.now i) × (result < 4294967296) }
{
    number_at(list, 8 + 4 * i)
}

// Where key i begins among the key bytes: at the end of the key before.
pub fn begin_at(list: &[u8], i: usize) -> usize
    requires { 8 + 4 * i ≤ length list.now }
    ensures { (result ≡ begin_at list.now i) × (result < 4294967296) }
{
    if i == 0 {
        return 0;
    }
    end_at(list, i - 1)
}

// The value of key i.
pub fn value_at(list: &[u8], i: usize) -> u64
    requires { 8 + 4 * count_in list.now + 8 * i + 8 ≤ length list.now }
    ensures { result ≡ value_at list.now i }
{
    let values = 8 + 4 * key_count(list);
    read_u64_le(&list[values + 8 * i..])
}

// Whether the string a comes before the string b.
#[tactic(auto, using(crate::proofs::KeyComparing::less_is_before))]
fn comes_before(a: &[u8], b: &[u8]) -> bool
    ensures { result ≡ before_test a.now b.now }
{
    a < b
}

// Whether no end is less than the one before, no key is too long, and the last end, 0 with no keys, is the total.
// n and total are the list's own, here and below: judge_list has read both, and gives them on.
// No `all`, here and below: tried over the range of the keys, and the proof did not close, since what the closure told of each key was not found.
fn ends_ok(list: &[u8], n: usize, total: usize) -> bool
    requires { (n < 4294967296) × (8 + 12 * n ≤ length list.now) }
    ensures { Decides result (EndsOk list.now n total) }
{
    let mut last = 0;
    for i in 0..n {
        let end = end_at(list, i);
        if end < last {
            return false;
        }
        if MAX_KEY < end - last {
            return false;
        }
        last = end;
    }
    last == total
}

// Whether each key comes before the next.
fn keys_ascend(list: &[u8], n: usize, total: usize) -> bool
    requires { Sized list.now n total × EndsOk list.now n total }
    ensures { Decides result (Ascend list.now n) }
{
    let keys = 8 + 12 * n;
    for i in 1..n {
        let from = begin_at(list, i - 1);
        let middle = end_at(list, i - 1);
        let to = end_at(list, i);
        if !comes_before(
            &list[keys + from..keys + middle],
            &list[keys + middle..keys + to],
        ) {
            return false;
        }
    }
    true
}

// Whether the bytes are a list: what LIST does not refuse.
pub fn judge_list(list: &[u8]) -> bool
    ensures { Decides result (IsList list.now) }
{
    if list.len() < 8 {
        return false;
    }
    let n = key_count(list);
    let total = key_bytes(list);
    if list.len() != 8 + 12 * n + total || !ends_ok(list, n, total) {
        return false;
    }
    keys_ascend(list, n, total)
}
