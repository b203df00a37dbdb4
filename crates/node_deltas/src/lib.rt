// The deltas of a node, judged: whether each leads to a right target, all at once by a bound of them or one after the other (docs/FORMAT.md, "A node").
// A part of a file is its place, size and count, and no slice: the definitions speak of places in the whole file.
// That first, F in document 01, is 16 at least is asked in three contracts, for a subtraction in two of the functions: a type that says it would be made by each
// caller, which has judged the node's place, of the number that it has, and be taken apart again here for each delta.
#![tactic(auto)]

ghost use Rattle.std.specs.Prelude.{◌≡◌, true, ◌+◌, ◌*◌, ◌≤◌, length, take, drop};
ghost use Rattle.format.specs.Bytes.{le};
ghost use Rattle.buffers.specs.Decide.{Decides};
ghost use Rattle.format.specs.Limits.{first_node};
ghost use Rattle.format.specs.Node.{numbers_down, TargetRight, TargetsRight};
ghost use Rattle.node_deltas.specs.Deltas.{AtMost};

use format::FIRST_NODE;
use le_bytes::{number_of, read_u32_le};

// Whether a delta leads from first to 0 or to a place from 16 to first - 1.
pub fn target_right(first: usize, delta: u64) -> bool
    requires { first_node ≤ first }
    ensures { Decides result (TargetRight first delta) }
{
    let d = delta as usize;
    // the delta that leads to 0 is first itself
    d <= first - FIRST_NODE || d == first
}

// Whether each of n deltas of size bytes, stored last first from place at on, leads to a right target.
// at, size and n, here and below, stand as in `numbers_down`, of which the contract speaks: the byte before the numbers and those behind them are read too,
// which a slice of the numbers alone does not have.
pub fn targets_right(file: &[u8], at: usize, size: usize, n: usize, first: usize) -> bool
    requires { (at + n * size ≤ length file.now) × (size ≤ 8) × (first_node ≤ first) }
    ensures { Decides result (TargetsRight first (numbers_down file.now at size n)) }
{
    near(file, at, size, n, first - FIRST_NODE) || targets_slow(file, at, size, n, first)
}

// The same, one delta after the other. Not by `all`: tried over `0..n`, the proof was left at its answer, that what holds of each place of the range holds of
// each of the numbers.
fn targets_slow(file: &[u8], at: usize, size: usize, n: usize, first: usize) -> bool
    requires { (at + n * size ≤ length file.now) × (size ≤ 8) × (first_node ≤ first) }
    ensures { Decides result (TargetsRight first (numbers_down file.now at size n)) }
{
    for i in 0..n {
        if !target_right(first, number_of(file, at, size, n, i)) {
            return false;
        }
    }
    true
}

// ---- a bound of all deltas

// Whether n numbers of 1 to 3 bytes from place at on are at most reach: by their size alone, or by
// the largest of them. `false` says nothing; numbers of other sizes are not looked at.
fn near(file: &[u8], at: usize, size: usize, n: usize, reach: usize) -> bool
    requires { at + n * size ≤ length file.now }
    ensures { result ≡ true → AtMost file.now at size n reach }
{
    match size {
        // the byte before the first delta is read too
        3 => at != 0 && most3(file, at, n) <= reach,
        2 => 65535 <= reach || most2(file, at, n) <= reach,
        1 => 255 <= reach || most1(file, at, n) <= reach,
        _ => false,
    }
}

// The number of 4 bytes from place p on.
fn load4(file: &[u8], p: usize) -> u32
    requires { p + 4 ≤ length file.now }
    ensures { result ≡ le (take 4 (drop p file.now)) }
{
    read_u32_le(&file[p..])
}

// A bound of n numbers of 3 bytes: each is read with the byte before it, which stands for less than
// one. Not by `chunks_exact`: the fourth of four is read to one byte past their twelve.
fn most3(file: &[u8], at: usize, n: usize) -> usize
    requires { (1 ≤ at) × (at + n * 3 ≤ length file.now) }
    ensures { AtMost file.now at 3 n result }
{
    let mut most: u32 = 0;
    let start = at - 1;
    // four at once, by two pairs that do not wait for each other
    for i in 0..n / 4 {
        let p = start + i * 12;
        let low = load4(file, p).max(load4(file, p + 3));
        let high = load4(file, p + 6).max(load4(file, p + 9));
        most = most.max(low.max(high));
    }
    // the fewer than four that are left
    for i in n / 4 * 4..n {
        most = most.max(load4(file, start + i * 3));
    }
    (most / 256) as usize
}

// A bound of n numbers of 2 bytes.
// Not by `chunks_exact`: the definition `AtMost` speaks of places in the whole file, and the loop has them.
fn most2(file: &[u8], at: usize, n: usize) -> usize
    requires { at + n * 2 ≤ length file.now }
    ensures { AtMost file.now at 2 n result }
{
    let mut most: u32 = 0;
    for i in 0..n {
        let p = at + i * 2;
        most = most.max(u32::from(file[p]) + u32::from(file[p + 1]) * 256);
    }
    most as usize
}

// A bound of n bytes.
fn most1(file: &[u8], at: usize, n: usize) -> usize
    requires { at + n * 1 ≤ length file.now }
    ensures { AtMost file.now at 1 n result }
{
    let mut most: u8 = 0;
    for d in &file[at..at + n] {
        most = most.max(*d);
    }
    most as usize
}
