// The inputs of a node and their index, judged: whether the inputs ascend, and whether each entry of the index is right (docs/FORMAT.md, "A node").
// A part of a file is its place, size and count, and no slice: the definitions speak of places in the whole file.
#![tactic(auto)]

ghost use Rattle.std.specs.Prelude.{◌≡◌, ◌&&◌, ◌+◌, ◌≤◌, ◌<◌, length, take, drop};
ghost use Rattle.buffers.specs.Decide.{Decides};
ghost use Rattle.format.specs.Node.{bytes_down, Ascending, Indexed};
ghost use Rattle.node_inputs.specs.Inputs.{Falls, Probed, below};

// ---- inputs

// Whether n inputs, stored last first from place at on, ascend strictly: whether the stored bytes
// fall, pair by pair. The pairs are tested in groups of 4, 8 or 16 that may overlap, so that none is
// left over.
// at and n, here and below, stand as in `bytes_down`, of which the contract speaks: the groups overlap, and the index stands behind the inputs.
pub fn ascends(file: &[u8], at: usize, n: usize) -> bool
    requires { at + n ≤ length file.now }
    ensures { Decides result (Ascending (bytes_down file.now at n)) }
{
    if n < 2 {
        return true;
    }
    let pairs = n - 1;
    if pairs < 4 {
        return falls(file, at, pairs);
    }
    if pairs < 8 {
        return falls(file, at, 4) & falls(file, at + pairs - 4, 4);
    }
    if pairs < 16 {
        return falls(file, at, 8) & falls(file, at + pairs - 8, 8);
    }
    let last = pairs - 16;
    let mut good = falls(file, at + last, 16);
    for j in (0..last).step_by(16) {
        good &= falls(file, at + j, 16);
    }
    good
}

// Whether each byte of some pairs from place at on is above the next. There is no way out of the
// loop, so that a fixed number of pairs is compared at once.
// Not by `windows`: the definition `Falls` speaks of places in the whole file, and the loop has them.
fn falls(file: &[u8], at: usize, pairs: usize) -> bool
    requires { at + pairs < length file.now }
    ensures { Decides result (Falls file.now at pairs) }
{
    let mut bad: u8 = 0;
    for j in 0..pairs {
        if file[at + j] <= file[at + j + 1] {
            bad = 1;
        }
    }
    bad == 0
}

// ---- the index

// Whether the entry of each input is its place, with no way out of the loop.
fn probes(file: &[u8], at: usize, n: usize, index: usize) -> bool
    requires { (at + n ≤ length file.now) × (index + 256 ≤ length file.now) }
    ensures { Decides result (Probed (bytes_down file.now at n)
        (take 256 (drop index file.now))) }
{
    // an entry is a byte, so no more than 256 inputs have one
    if 256 < n {
        return false;
    }
    let mut good = true;
    // the inputs stand last first: from at on, n - 1 down to 0; a place worked out of one that counts up took more instructions (docs/PERFORMANCE.md)
    let mut i = n;
    for b in &file[at..at + n] {
        i -= 1;
        if file[index + *b as usize] != i as u8 {
            good = false;
        }
    }
    good
}

// How many index entries are below n: in two halves, so that a byte holds each count.
fn count_below(file: &[u8], index: usize, n: usize) -> usize
    requires { index + 256 ≤ length file.now }
    ensures { result ≡ below n (take 256 (drop index file.now)) }
{
    // an entry is a byte
    let all_below = 256 <= n;
    if all_below {
        return 256;
    }
    let m = n as u8;
    below128(file, index, m) as usize + below128(file, index + 128, m) as usize
}

// How many of 128 bytes from place at on are below m, counted in a byte.
#[tactic(auto, unfolding(crate::specs::Inputs::below))]
fn below128(file: &[u8], at: usize, m: u8) -> u8
    requires { at + 128 ≤ length file.now }
    ensures { result ≡ below m (take 128 (drop at file.now)) }
{
    let mut count: u8 = 0;
    for entry in &file[at..at + 128] {
        if *entry < m {
            count += 1;
        }
    }
    count
}

// Whether the index is right: each input's entry is its place, and no other entry is below n.
fn index_right(file: &[u8], at: usize, n: usize, index: usize) -> bool
    requires { (at + n ≤ length file.now) × (index + 256 ≤ length file.now) }
    ensures { Decides result (Indexed (bytes_down file.now at n)
        (take 256 (drop index file.now))) }
{
    probes(file, at, n, index) && count_below(file, index, n) == n
}

// Whether the index that follows n inputs is right, where there is one.
pub fn entries_right(file: &[u8], at: usize, n: usize, index_len: usize) -> bool
    requires { (at + n + index_len ≤ length file.now)
        × (¬ (index_len ≡ 0) → index_len ≡ 256) }
    ensures { Decides result (¬ (index_len ≡ 0) → Indexed (bytes_down file.now at n)
        (take 256 (drop (at + n) file.now))) }
{
    if index_len == 0 {
        return true;
    }
    index_right(file, at, n, at + n)
}
