// Whether the node at an address is sound, by its shape: what its last bytes say of its parts (src/raw/node.rs, `Node::new`).
// Nothing outside the lent file is read, whatever the numbers are.
// A part of a file is its place, size and count, and no slice: the definitions speak of places in the whole file.
// That an address lies in the file is asked in five contracts, and `AtForm` in four. A type that says it would hold the file's bytes beside the address: each
// caller, which has the file as `fst`, would make one for each node that it enters, and each contract would need that the bytes are those of `fst`.
#![tactic(auto)]

ghost use Rattle.std.specs.Prelude.{◌≡◌, ◌+◌, ◌-◌, ◌*◌, ◌≤◌, ◌<◌, length, get_or};
ghost use Rattle.buffers.specs.Decide.{Decides};
ghost use Rattle.format.specs.Limits.{first_node, max_trans};
ghost use Rattle.format.specs.Node.{state_form, numbers_down, count_of, input_of, index_len, end_len, Useful, SoundAt, shape_of};
ghost use Rattle.format.specs.declared.State.TheVariants.{OneTransNext, OneTrans, AnyTrans};
ghost use Rattle.node_sound.specs.Shapes.{Head, shape_is, one_shape, AtForm, parts_at, deltas_from, inputs_from, PartsRight, Judged};

use common_inputs::common_input;
use format::{FIRST_NODE, FstRef, MAX_TRANS, State, TRANS_INDEX_THRESHOLD};
use le_bytes::number_of;
use node_deltas::{target_right, targets_right};
use node_inputs::{ascends, entries_right};

// What the last bytes of a node with any number of transitions say of its parts, judged or not.
#[derive(Clone, Copy)]
pub struct Shape {
    pub is_final: bool,
    pub ntrans: usize,
    pub tsize: usize,
    pub osize: usize,
    // the bytes of the final output, of the index, and of the whole node
    pub end_len: usize,
    pub index_len: usize,
    pub size: usize,
}

// What the last bytes of a node with one transition, with its output and its delta, say of its parts, judged or not.
#[derive(Clone, Copy)]
pub struct One {
    pub tsize: usize,
    pub osize: usize,
    // the bytes of the whole node
    pub size: usize,
}

// What is read of a sound node with any number of transitions: where its parts stand in the file, and how many bytes each has.
#[derive(Clone, Copy)]
pub struct Parts {
    pub is_final: bool,
    // its first byte, F in document 01
    pub first: usize,
    // where the outputs start; deltas, inputs and index follow them
    pub outputs: usize,
    pub ntrans: usize,
    pub tsize: usize,
    pub osize: usize,
    pub index_len: usize,
}

impl Shape {
    // The parts of the node at addr that has this shape.
    pub fn parts(self, addr: usize) -> Parts
        requires { (self.size ≤ addr) × (self.end_len < self.size)
            × (self.end_len ≡ end_len self.is_final self.osize) }
        ensures { result ≡ parts_at (shape_is self) addr }
    {
        let first = addr - self.size + 1;
        Parts {
            is_final: self.is_final,
            first,
            outputs: first + self.end_len,
            ntrans: self.ntrans,
            tsize: self.tsize,
            osize: self.osize,
            index_len: self.index_len,
        }
    }
}

impl One {
    // The first byte of the node at addr that has this shape, F in document 01: the output starts there, and the delta follows it.
    // This and the two below stand inline in each caller, as `one_shape` does.
    #[inline(always)]
    pub fn first(self, addr: usize) -> usize
        requires { (0 < self.size) × (self.size ≤ addr) }
        ensures { result ≡ addr + 1 - self.size }
    {
        addr - self.size + 1
    }

    // The output, where the node starts at first.
    #[inline(always)]
    pub fn output(self, file: &[u8], first: usize) -> u64
        requires { (first + self.osize ≤ length file.now) × (self.osize ≤ 8) }
        ensures { result ≡ get_or (numbers_down file.now first self.osize 1) 0 0 }
    {
        number_of(file, first, self.osize, 1, 0)
    }

    // The delta, where the node starts at first.
    #[inline(always)]
    pub fn delta(self, file: &[u8], first: usize) -> u64
        requires { (first + self.osize + self.tsize ≤ length file.now) × (self.tsize ≤ 8) }
        ensures { result ≡ get_or (numbers_down file.now (first + self.osize) self.tsize 1) 0 0 }
    {
        number_of(file, first + self.osize, self.tsize, 1, 0)
    }
}

impl Parts {
    // Where the deltas start. Here and below the place must fit a usize, which it does in a file.
    pub fn deltas(self) -> usize
        requires { deltas_from self < 18446744073709551616 }
        ensures { result ≡ deltas_from self }
    {
        self.outputs + self.ntrans * self.osize
    }

    // Where the inputs start.
    pub fn inputs(self) -> usize
        requires { inputs_from self < 18446744073709551616 }
        ensures { result ≡ inputs_from self }
    {
        self.deltas() + self.ntrans * self.tsize
    }
}

// ---- the state byte and the byte below it

// Whether the state byte itself lies from 16 to the root, and in the file.
// It stands inline in each caller, and so does `one_shape`: both are a few instructions of each step of a lookup.
#[inline(always)]
pub fn at_form(fst: FstRef<'_>, addr: usize) -> bool
    ensures { Decides result (AtForm fst.entry.bytes.now fst.entry.root addr) }
{
    FIRST_NODE <= addr && addr <= fst.root && addr < fst.bytes.len()
}

// How many bytes the state takes, with the count or the input below it where the low six bits are 0.
pub fn head_len(file: &[u8], addr: usize) -> usize
    requires { addr < length file.now }
    ensures { Head file.now addr result }
{
    if file[addr] % 64 == 0 { 2 } else { 1 }
}

// The input of a node with one transition: a common one, or the byte below the state.
pub fn input_of(file: &[u8], addr: usize) -> u8
    requires { (1 ≤ addr) × (addr < length file.now) }
    ensures { result ≡ input_of file.now addr }
{
    let low = file[addr] % 64;
    if low == 0 {
        file[addr - 1]
    } else {
        common_input(low)
    }
}

// ---- the shape

// The bytes of the index, which versions 2 and 3 have with more than 32 transitions.
#[tactic(auto, unfolding(format::specs::Node::index_len))]
fn index_len_of(version: u64, n: usize) -> usize
    ensures { (result ≡ index_len version n) × (result ≤ 256) }
{
    if 2 <= version && TRANS_INDEX_THRESHOLD < n {
        256
    } else {
        0
    }
}

// How many transitions, from the low six bits of the state or from the count byte.
fn ntrans_of(file: &[u8], addr: usize) -> usize
    requires { (1 ≤ addr) × (addr < length file.now) }
    ensures { (result ≡ count_of file.now addr) × (result ≤ max_trans) }
{
    let low = file[addr] as usize % 64;
    if low != 0 {
        return low;
    }
    let count = file[addr - 1] as usize;
    // 1 stands for 256: one transition is never written here
    if count == 1 { MAX_TRANS } else { count }
}

// The bytes of the final output.
fn end_len_of(is_final: bool, osize: usize) -> usize
    ensures { (result ≡ end_len is_final osize) × (result ≤ osize) }
{
    if is_final { osize } else { 0 }
}

// The shape of a node with any number of transitions.
pub fn shape_of(file: &[u8], version: u64, addr: usize) -> Shape
    requires { (2 ≤ addr) × (addr < length file.now) × (state_form (get_or file.now addr 0) ≡ AnyTrans) }
    ensures { (shape_is result ≡ shape_of file.now version addr)
        × (result.end_len ≡ end_len result.is_final result.osize) }
{
    let is_final = 64 <= file[addr];
    let len = head_len(file, addr);
    let ntrans = ntrans_of(file, addr);
    let sizes = file[addr - len] as usize;
    let tsize = sizes / 16;
    let osize = sizes % 16;
    let end_len = end_len_of(is_final, osize);
    let index_len = index_len_of(version, ntrans);
    // final output, outputs, deltas, inputs, index, sizes byte, then the count byte and the state
    let size = end_len + ntrans * osize + ntrans * tsize + ntrans + index_len + 1 + len;
    Shape {
        is_final,
        ntrans,
        tsize,
        osize,
        end_len,
        index_len,
        size,
    }
}

// The shape of a node with one transition, with its output and its delta.
#[inline(always)]
pub fn one_shape(fst: FstRef<'_>, addr: usize) -> One
    requires { (2 ≤ addr) × (addr < length fst.bytes.now) × (state_form (get_or fst.bytes.now addr 0) ≡ OneTrans) }
    ensures { (one_shape result.tsize result.osize result.size ≡ shape_of fst.entry.bytes.now fst.entry.version addr)
        × (result.osize + result.tsize + 2 ≤ result.size) × (result.size ≤ 33) }
{
    let len = head_len(fst.bytes, addr);
    let sizes = fst.bytes[addr - len] as usize;
    let tsize = sizes / 16;
    let osize = sizes % 16;
    // output, delta, sizes byte, then the input byte where there is one and the state
    let size = osize + tsize + 1 + len;
    One { tsize, osize, size }
}

// ---- the conditions of document 01

// Sizes are at most 8, and a delta has at least 1 byte if there is a transition.
pub fn sizes_right(n: usize, tsize: usize, osize: usize) -> bool
    ensures { Decides result ((tsize ≤ 8) × (osize ≤ 8) × (0 < n → 0 < tsize)) }
{
    tsize <= 8 && osize <= 8 && (n == 0 || 0 < tsize)
}

// Whether a node is final, has a transition, or is the root.
#[tactic(auto, unfolding(format::specs::Node::Useful))]
pub fn useful(is_final: bool, n: usize, addr: usize, root: usize) -> bool
    ensures { Decides result (Useful is_final n addr root) }
{
    is_final || 0 < n || addr == root
}

// Whether the inputs ascend, each delta leads to a right target, and the index is right: what takes
// time of a node with any number of transitions.
// It stands inline in `any_parts`, since a call would write the parts to memory first.
#[inline(always)]
pub fn parts_right(file: &[u8], parts: Parts) -> bool
    requires { (inputs_from parts + parts.ntrans + parts.index_len ≤ length file.now)
        × (parts.tsize ≤ 8) × (first_node ≤ parts.first)
        × (¬ (parts.index_len ≡ 0) → parts.index_len ≡ 256) }
    ensures { Decides result (PartsRight file.now parts) }
{
    let inputs = parts.inputs();
    ascends(file, inputs, parts.ntrans)
        && targets_right(file, parts.deltas(), parts.tsize, parts.ntrans, parts.first)
        && entries_right(file, inputs, parts.ntrans, parts.index_len)
}

// ---- judging

// The parts of a node with any number of transitions, or none where it is not sound (node.rs, `StateAnyTrans`).
// It stands inline in each caller: called, unproved, it took 8 to 9 percent more instructions in a lookup by key.
#[inline(always)]
pub fn any_parts(fst: FstRef<'_>, addr: usize) -> Option<Parts>
    requires { AtForm fst.bytes.now fst.root addr × (state_form (get_or fst.bytes.now addr 0) ≡ AnyTrans) }
    ensures { Judged fst.entry.bytes.now fst.entry.version fst.entry.root addr result }
{
    let shape = shape_of(fst.bytes, fst.version, addr);
    // the first byte, addr + 1 - size, is 16 at least
    if addr - 15 < shape.size
        || !sizes_right(shape.ntrans, shape.tsize, shape.osize)
        || !useful(shape.is_final, shape.ntrans, addr, fst.root)
    {
        return None;
    }
    let parts = shape.parts(addr);
    let right = parts_right(fst.bytes, parts);
    if right { Some(parts) } else { None }
}

// Whether a node with any number of transitions is sound.
fn any_sound(fst: FstRef<'_>, addr: usize) -> bool
    requires { AtForm fst.bytes.now fst.root addr × (state_form (get_or fst.bytes.now addr 0) ≡ AnyTrans) }
    ensures { Decides result (SoundAt fst.entry.bytes.now fst.entry.version fst.entry.root addr) }
{
    any_parts(fst, addr).is_some()
}

// Whether a node with one transition, with its output and its delta, is sound (node.rs,
// `StateOneTrans`).
pub fn one_sound(fst: FstRef<'_>, addr: usize) -> bool
    requires { AtForm fst.bytes.now fst.root addr × (state_form (get_or fst.bytes.now addr 0) ≡ OneTrans) }
    ensures { Decides result (SoundAt fst.entry.bytes.now fst.entry.version fst.entry.root addr) }
{
    let one = one_shape(fst, addr);
    // the first byte, addr + 1 - size, is 16 at least
    if !sizes_right(1, one.tsize, one.osize) || addr - 15 < one.size {
        return false;
    }
    let first = one.first(addr);
    let delta = one.delta(fst.bytes, first);
    target_right(first, delta)
}

// Whether a node with one transition to the node just below it is sound (node.rs,
// `StateOneTransNext`).
pub fn next_sound(fst: FstRef<'_>, addr: usize) -> bool
    requires { AtForm fst.bytes.now fst.root addr × (state_form (get_or fst.bytes.now addr 0) ≡ OneTransNext) }
    ensures { Decides result (SoundAt fst.entry.bytes.now fst.entry.version fst.entry.root addr) }
{
    let len = head_len(fst.bytes, addr);
    // the target, addr - len, is 16 at least
    len <= addr - FIRST_NODE
}

// Whether the node at addr is sound, in a file of this version and root.
pub fn is_sound(fst: FstRef<'_>, addr: usize) -> bool
    ensures { Decides result (SoundAt fst.entry.bytes.now fst.entry.version fst.entry.root addr) }
{
    if !at_form(fst, addr) {
        return false;
    }
    match State::from(fst.bytes[addr]) {
        State::AnyTrans => any_sound(fst, addr),
        State::OneTrans => one_sound(fst, addr),
        State::OneTransNext => next_sound(fst, addr),
    }
}
