// A node, judged and read (src/raw/node.rs: `Node::new`, `transition`, `find_input`).
// `node_at` judges the node at an address in one pass and answers its numbers, or `Unsound`. The other functions read
// a node that it answered, out of the same file. Nothing outside the lent file is read, whatever the numbers are.
// A node's numbers do not hold its file's bytes: a caller has these already, in most places in a `FstRef`, and goes on to other nodes in them, and a node that
// held the bytes too would need, in each contract, that they are that file's. What reads a node is lent the bytes and asks that it was judged in them
// (`Readable`). node_view's view of a node has the file and the node's address, and no numbers.
// That the node is sound is asked in four contracts, and that a place is below the node's count in five: a type that says it would hold the file or the node,
// and each contract would need that it is the one that is lent.
#![tactic(auto)]

ghost use Rattle.std.specs.Prelude.{Ok, Err, ◌≡◌, ◌+◌, ◌≤◌, ◌<◌, length, get_or, [], ◌∷◌};
ghost use Rattle.format.specs.Node.{state_form, bytes_down, Ascending, SoundAt, target_of, transition_at, find_input};
ghost use Rattle.node.specs.Read.{Searchable, node_parts, empty_node, Judges, transitions_in, node_inputs, node_deltas, Readable, Finds, search_is};
ghost use Rattle.format.specs.declared.State.TheVariants.{OneTransNext, OneTrans, AnyTrans};
ghost use Rattle.format.specs.declared.Refusal.TheVariants as R;

use format::{FstRef, Refusal, State, Transition};
use le_bytes::{number_of, unpack_uint};
use node_sound::{Parts, head_len, input_of, is_sound, one_shape, shape_of};

// The numbers of a sound node, for the functions below.
// It has the fields of `Parts` and no `Parts`: what the crates above read of a node would be no plainer as `m.parts.ntrans`. `parts` makes one where a place is
// worked out.
#[derive(Clone, Copy)]
pub struct Node {
    // how it is stored
    pub state: State,
    // its first byte, F in document 01
    pub first: usize,
    // beside `final_output`, which is 0 where the node is not final, as in the Rust and in document 01's record
    pub is_final: bool,
    // how many transitions
    pub ntrans: usize,
    // the bytes of a delta and of an output
    pub tsize: usize,
    pub osize: usize,
    // the bytes of the index: 256 or 0
    pub index_len: usize,
    // what a key that ends here adds to its value
    pub final_output: u64,
    // the input of a node with one transition, and 0 where `state` is `AnyTrans`. It is no part of a `State`, which the state byte alone tells, and no
    // `Option`, which would say again what `state` says: `Readable` would need that the two agree. To be read when it is asked, it would need the address
    pub input: u8,
    // where the outputs start; deltas, inputs and index follow them
    pub outputs: usize,
}

impl Node {
    // Where its parts stand, which answers where its deltas start, and its inputs where it has any number of transitions.
    #[inline(always)]
    fn parts(self) -> Parts
        ensures { result ≡ node_parts self }
    {
        Parts {
            is_final: self.is_final,
            first: self.first,
            outputs: self.outputs,
            ntrans: self.ntrans,
            tsize: self.tsize,
            osize: self.osize,
            index_len: self.index_len,
        }
    }
}

// That a node is not sound: `Refusal::Node` to those who asked.
#[derive(Clone, Copy, PartialEq, Eq)]
pub struct Unsound;

impl From<Unsound> for Refusal {
    ghost from_gives = { λ _ why. why ≡ R.Node };

    fn from(_: Unsound) -> Refusal {
        Refusal::Node
    }
}

// ---- the numbers of a sound node

// A node with any number of transitions.
pub fn any_node(fst: FstRef<'_>, addr: usize) -> Node
    requires { SoundAt fst.bytes.now fst.version fst.root addr × (state_form (get_or fst.bytes.now addr 0) ≡ AnyTrans) }
    ensures { Judges fst.entry.bytes.now fst.entry.version fst.entry.root addr (Ok result)
        × (result.state ≡ AnyTrans) }
{
    let shape = shape_of(fst.bytes, fst.version, addr);
    let parts = shape.parts(addr);
    let final_output = unpack_uint(&fst.bytes[parts.first..], shape.end_len);
    Node {
        state: State::AnyTrans,
        first: parts.first,
        is_final: parts.is_final,
        ntrans: parts.ntrans,
        tsize: parts.tsize,
        osize: parts.osize,
        index_len: parts.index_len,
        final_output,
        input: 0,
        outputs: parts.outputs,
    }
}

// A node with one transition.
pub fn one_node(fst: FstRef<'_>, addr: usize) -> Node
    requires { SoundAt fst.bytes.now fst.version fst.root addr × (state_form (get_or fst.bytes.now addr 0) ≡ OneTrans) }
    ensures { Judges fst.entry.bytes.now fst.entry.version fst.entry.root addr (Ok result)
        × (result.state ≡ OneTrans) }
{
    let one = one_shape(fst, addr);
    let first = one.first(addr);
    let input = input_of(fst.bytes, addr);
    Node {
        state: State::OneTrans,
        first,
        is_final: false,
        ntrans: 1,
        tsize: one.tsize,
        osize: one.osize,
        index_len: 0,
        final_output: 0,
        input,
        outputs: first,
    }
}

// A node with one transition to the node just below it.
pub fn next_node(fst: FstRef<'_>, addr: usize) -> Node
    requires { SoundAt fst.bytes.now fst.version fst.root addr × (state_form (get_or fst.bytes.now addr 0) ≡ OneTransNext) }
    ensures { Judges fst.entry.bytes.now fst.entry.version fst.entry.root addr (Ok result)
        × (result.state ≡ OneTransNext) }
{
    let first = addr + 1 - head_len(fst.bytes, addr);
    let input = input_of(fst.bytes, addr);
    Node {
        state: State::OneTransNext,
        first,
        is_final: false,
        ntrans: 1,
        tsize: 0,
        osize: 0,
        index_len: 0,
        final_output: 0,
        input,
        outputs: first,
    }
}

// The numbers of the sound node at addr, for those who judged it by `is_sound`, which answers a bool and no numbers.
// It stands inline in each caller, so that no node is written to memory and copied from there: a start along a long key took 1.6 times as long where it
// is called.
#[inline(always)]
pub fn node_of(fst: FstRef<'_>, addr: usize) -> Node
    requires { SoundAt fst.bytes.now fst.version fst.root addr }
    ensures { Judges fst.entry.bytes.now fst.entry.version fst.entry.root addr (Ok result)
        × (result.state ≡ state_form (get_or fst.entry.bytes.now addr 0)) }
{
    match State::from(fst.bytes[addr]) {
        State::AnyTrans => any_node(fst, addr),
        State::OneTrans => one_node(fst, addr),
        State::OneTransNext => next_node(fst, addr),
    }
}

// Address 0 of a file that has bytes: a final node with no transitions, output 0 and no bytes.
fn empty_final() -> Node
    ensures { result ≡ empty_node }
{
    Node {
        state: State::AnyTrans,
        first: 0,
        is_final: true,
        ntrans: 0,
        tsize: 0,
        osize: 0,
        index_len: 0,
        final_output: 0,
        input: 0,
        outputs: 0,
    }
}

// The node at addr, in a file of this version and root: exactly `node_at`, for every file, version, root and address.
pub fn node_at(fst: FstRef<'_>, addr: usize) -> Result<Node, Unsound>
    ensures { Judges fst.entry.bytes.now fst.entry.version fst.entry.root addr result }
{
    if addr == 0 {
        // a file without bytes has no node
        let has_bytes = 0 < fst.bytes.len();
        if has_bytes {
            return Ok(empty_final());
        }
        return Err(Unsound);
    }
    if is_sound(fst, addr) {
        return Ok(node_of(fst, addr));
    }
    Err(Unsound)
}

// ---- reading a node that was judged

// The input of transition i.
pub fn input(file: &[u8], node: Node, i: usize) -> u8
    requires { Readable file.now node × (i < node.ntrans) }
    ensures { result ≡ (transition_at (transitions_in file.now node) i).inp }
{
    let n = node.ntrans;
    match node.state {
        State::AnyTrans => file[node.parts().inputs() + (n - 1 - i)],
        State::OneTrans | State::OneTransNext => node.input,
    }
}

// The output of transition i.
pub fn output(file: &[u8], node: Node, i: usize) -> u64
    requires { Readable file.now node × (i < node.ntrans) }
    ensures { result ≡ (transition_at (transitions_in file.now node) i).out }
{
    number_of(file, node.outputs, node.osize, node.ntrans, i)
}

// The delta of transition i, from the node's first byte down to its target.
fn delta(file: &[u8], node: Node, i: usize) -> u64
    requires { Readable file.now node × (i < node.ntrans) }
    ensures { result ≡ get_or (node_deltas file.now node) i 0 }
{
    match node.state {
        State::AnyTrans | State::OneTrans => number_of(
            file,
            node.parts().deltas(),
            node.tsize,
            node.ntrans,
            i,
        ),
        // the node just below ends one byte before this one starts
        State::OneTransNext => 1,
    }
}

// The address that a right delta leads to.
// It stands inline in each caller: it is one of each step of a lookup.
#[inline(always)]
pub fn target_of(first: usize, delta: u64) -> usize
    requires { delta ≤ first }
    ensures { result ≡ target_of first delta }
{
    let d = delta as usize;
    // delta 0 is target 0
    if d == 0 { 0 } else { first - d }
}

// The address that transition i leads to.
pub fn transition_addr(file: &[u8], node: Node, i: usize) -> usize
    requires { Readable file.now node × (i < node.ntrans) }
    ensures { result ≡ (transition_at (transitions_in file.now node) i).addr }
{
    let d = delta(file, node, i);
    target_of(node.first, d)
}

// Transition i.
pub fn transition(file: &[u8], node: Node, i: usize) -> Transition
    requires { Readable file.now node × (i < node.ntrans) }
    ensures { result ≡ transition_at (transitions_in file.now node) i }
{
    let inp = input(file, node, i);
    let out = output(file, node, i);
    let addr = transition_addr(file, node, i);
    Transition { inp, out, addr }
}

// The place of b among ascending inputs that stand last first: those above b stand first.
fn seek(inputs: &[u8], b: u8) -> Result<usize, usize>
    requires { Ascending (bytes_down inputs.now 0 (length inputs.now)) }
    ensures { Finds (bytes_down inputs.now 0 (length inputs.now)) b result }
{
    // a byte holds the count: fewer than 256 bytes are above b
    let mut over: u8 = 0;
    for input in inputs {
        if b < *input {
            over += 1;
        }
    }
    let n = inputs.len();
    let p = over as usize;
    if p < n && inputs[p] == b {
        return Ok(n - 1 - p);
    }
    Err(n - p)
}

// The place of b among n inputs from place at on, or of the first above it. An entry of the index, if
// there is one, is the place of its byte where it is below the count, and otherwise says only that
// the byte is absent. at and n stand as in `bytes_down`, of which the contract speaks: the index stands behind the inputs.
pub fn find_in(file: &[u8], at: usize, n: usize, index_len: usize, b: u8) -> Result<usize, usize>
    requires { Searchable file.now at n index_len }
    ensures { Finds (bytes_down file.now at n) b result }
{
    if index_len != 0 {
        let e = usize::from(file[at + n + (b as usize)]);
        let is_place = e < n;
        if is_place {
            return Ok(e);
        }
    }
    seek(&file[at..at + n], b)
}

// The place of b in a node with any number of transitions.
fn find_any(file: &[u8], node: Node, b: u8) -> Result<usize, usize>
    requires { Readable file.now node × (node.state ≡ AnyTrans) }
    ensures { Finds (node_inputs file.now node) b result }
{
    find_in(file, node.parts().inputs(), node.ntrans, node.index_len, b)
}

// The place of the first input above b where there is one, and it is another.
pub fn place_beside(input: u8, b: u8) -> usize
    requires { ¬ (input ≡ b) }
    ensures { Finds (input ∷ []) b (Err result) }
{
    if input < b { 1 } else { 0 }
}

// The place of b where there is one transition.
fn find_one(input: u8, b: u8) -> Result<usize, usize>
    ensures { Finds (input ∷ []) b result }
{
    if input == b {
        return Ok(0);
    }
    Err(place_beside(input, b))
}

// The place of the input b, or `Err` with that of the first greater one, as `binary_search` of a slice answers.
pub fn find_input(file: &[u8], node: Node, b: u8) -> Result<usize, usize>
    requires { Readable file.now node }
    ensures { search_is result ≡ find_input (transitions_in file.now node) b }
{
    match node.state {
        State::AnyTrans => find_any(file, node, b),
        State::OneTrans | State::OneTransNext => find_one(node.input, b),
    }
}
