// The packer: a node record, written into a lent buffer in the layout of version 3.
// A caller gives the record and the node's first byte F, and gets the number of bytes, or a refusal.
// Ports `Node::compile` of src/raw/node.rs, and the `compile` of its three states.
#![tactic(auto)]

ghost use Rattle.std.specs.Prelude.{◌≡◌, cond, not, ◌&&◌, map, ℕ, ◌+◌, ◌^◌, ◌≤◌, ◌<◌, eqb, ltb, length, get_or};
ghost use Rattle.buffers.specs.Decide.{Decides};
ghost use Rattle.format.specs.Limits.{first_node, max_trans};
ghost use Rattle.format.specs.Bytes.{pack_size, largest};
ghost use Rattle.format.specs.Node.{end_len, index_len};
ghost use Rattle.format.specs.Packed.{TargetsOk, RecordOk, delta_of, stored_numbers};
ghost use Rattle.format.specs.Packed.{output_size, delta_size, sizes_of, packed, last_addr};
ghost use Rattle.format.specs.CommonInputs.{common_idx};
ghost use Rattle.node_compile.specs.Compile.{builder_is, Compiles};
ghost use Rattle.node_compile.specs.One.{one_bytes};
ghost use Rattle.node_compile.specs.Parts.{Code, form_bits, state_for, one_for, any_in, any_bytes, RecordFits, AnyFits, any_len, Fitted};
ghost use Rattle.buffers.specs.Put.{PutAt};

use common_inputs::common_idx;
use format::{FIRST_NODE, MAX_LEN, MAX_TRANS, Refusal, State, TRANS_INDEX_THRESHOLD};
use le_bytes::{pack_size, pack_uint_in};
use node_parts::{put_bytes, put_head, put_index};
use node_record::{BuilderNode, inputs_ascend, targets_ok};

// ---- RECORD

// Says that a record's numbers have the ranges of their types. A proof knows it of a parameter, and of a struct's fields by this call.
fn are_numbers(final_output: u64, inputs: &[u8], outputs: &[u64])
    ensures { (final_output < 2 ^ 64)
        × ((i : ℕ) → get_or inputs.now i 0 < 256)
        × ((i : ℕ) → get_or outputs.now i 0 < 2 ^ 64) }
{}

// Whether RECORD has nothing to refuse.
fn record_ok(node: BuilderNode<'_>, first: usize) -> bool
    ensures { Decides result (RecordOk first (builder_is node.entry)) }
{
    let n = node.inputs.len();
    n <= MAX_TRANS
        && node.outputs.len() == n
        && node.targets.len() == n
        && FIRST_NODE <= first
        && first <= MAX_LEN
        && inputs_ascend(node.inputs)
        && targets_ok(node.targets, first)
        && (node.is_final || node.final_output == 0)
}

// ---- sizes

// The largest of the numbers, 0 for none.
fn largest_of(numbers: &[u64]) -> u64
    ensures { result ≡ largest numbers.now }
{
    let mut most: u64 = 0;
    for n in numbers {
        most = most.max(*n);
    }
    most
}

// How far a target lies before F; 0 for target 0.
pub fn delta_of(first: usize, target: usize) -> u64
    requires { target ≤ first }
    ensures { result ≡ delta_of first target }
{
    if target == 0 {
        return 0;
    }
    (first - target) as u64
}

// The largest of the targets' deltas, 0 for none. It differs from `largest_of` by `delta_of` alone, as `put_deltas` does from `put_numbers`: one
// function of both would take a function of a target, and its contract would have to say what that one asks and answers.
// What is asked of the targets, here and below, is asked with F, which no type has beside them. That F is from 16 on is asked where a function needs
// it: F is a place in the new file, which a caller goes on from by a node's length, and a type for it would be made anew at each node.
fn largest_delta(first: usize, targets: &[usize]) -> u64
    requires { TargetsOk first targets.now }
    ensures { result ≡ largest (map (delta_of first) targets.now) }
{
    let mut most: u64 = 0;
    for target in targets {
        most = most.max(delta_of(first, *target));
    }
    most
}

// The bytes that each output takes where n is the largest: none where all are 0.
#[tactic(auto, unfolding(format::specs::Packed::output_size))]
pub fn output_size(n: u64) -> usize
    ensures { result ≡ output_size n }
{
    if n == 0 {
        return 0;
    }
    pack_size(n) as usize
}

// The bytes that each delta takes: none where there is no transition.
fn delta_size(first: usize, targets: &[usize]) -> usize
    requires { TargetsOk first targets.now }
    ensures { result ≡ delta_size (map (delta_of first) targets.now) }
{
    if targets.is_empty() {
        return 0;
    }
    pack_size(largest_delta(first, targets)) as usize
}

// The delta size in the high four bits, the output size in the low four.
fn sizes_byte(tsize: usize, osize: usize) -> u8
    requires { (tsize ≤ 8) × (osize ≤ 8) }
    ensures { result ≡ sizes_of tsize osize }
{
    (tsize * 16 + osize) as u8
}

// ---- the parts, written

// Writes each number in size bytes, last first, from place at on; returns the place past them.
// p is moved by hand: `chunks_exact_mut` takes no size of 0, which outputs have where all are 0.
fn put_numbers(out: &mut [u8], at: usize, numbers: &[u64], size: usize) -> usize
    requires { at + length (stored_numbers size numbers.now) ≤ length out.old }
    ensures { PutAt out.old at (stored_numbers size numbers.now)
        out.new result }
{
    let mut p = at;
    for i in (0..numbers.len()).rev() {
        pack_uint_in(out, p, numbers[i], size);
        p += size;
    }
    p
}

// Writes the delta of each target in size bytes, last first, from place at on; returns the place past them. By places, as `put_numbers` and node_parts's
// `put_bytes`, which says why.
fn put_deltas(out: &mut [u8], at: usize, targets: &[usize], first: usize, size: usize) -> usize
    requires { (at + length (stored_numbers size (map (delta_of first) targets.now)) ≤ length
        out.old)
        × TargetsOk first targets.now }
    ensures { PutAt out.old at
        (stored_numbers size (map (delta_of first) targets.now))
        out.new result }
{
    let mut p = at;
    for i in (0..targets.len()).rev() {
        pack_uint_in(out, p, delta_of(first, targets[i]), size);
        p += size;
    }
    p
}

// ---- the end of a node with one transition

// The top two bits of the state byte of a node in this form that is not final.
fn form_bits(state: State) -> u8
    ensures { (result ≡ form_bits state) × (result ≤ 192) }
{
    match state {
        State::OneTransNext => 192,
        State::OneTrans => 128,
        State::AnyTrans => 0,
    }
}

// What the state byte keeps of the input: idx, its place among the frequent inputs from 1 on, or 0 where the input has a byte of its own
// before it.
#[derive(Clone, Copy)]
pub struct Kept {
    pub idx: u8,
    pub input: u8,
    pub ghost six_bits: { idx < 64 },
}

impl Kept {
    // What is kept of an input.
    pub fn of(input: u8) -> Kept
        ensures { Code input result.idx result.input × (result.input ≡ input) }
    {
        Kept {
            idx: common_idx(input),
            input,
        }
    }

    // The bytes of the state, and of the input where it has its own.
    fn state_len(self) -> usize
        ensures { (result ≡ length (state_for 0 self.idx 0)) × (result ≤ 2) }
    {
        if self.idx == 0 { 2 } else { 1 }
    }

    // Writes the state byte of a node in this form, and the input before it where it has its own; returns the place past them.
    fn put_state(self, out: &mut [u8], at: usize, state: State) -> usize
        requires { at + length (state_for (form_bits state) self.idx self.input) ≤ length out.old }
        ensures { PutAt out.old at (state_for (form_bits state) self.idx self.input) out.new result }
    {
        let form = form_bits(state);
        if self.idx == 0 {
            out[at] = self.input;
            out[at + 1] = form;
            return at + 2;
        }
        out[at] = form + self.idx;
        at + 1
    }
}

// ---- a node with one transition

// Writes a node of the form 10 with an output of osize bytes and a delta of tsize bytes; returns its length.
fn put_one(out: &mut [u8], kept: Kept, output: u64, osize: usize, delta: u64, tsize: usize) -> usize
    requires { (length (one_for kept.idx kept.input output delta) ≤ length out.old)
        × (osize ≡ output_size output)
        × (tsize ≡ pack_size delta) }
    ensures { PutAt out.old 0 (one_for kept.idx kept.input output delta) out.new
        result }
{
    pack_uint_in(out, 0, output, osize);
    pack_uint_in(out, osize, delta, tsize);
    out[osize + tsize] = sizes_byte(tsize, osize);
    kept.put_state(out, osize + tsize + 1, State::OneTrans)
}

// The bytes of a node with one transition that is not final, by what its state byte keeps of the input.
pub fn one_len(kept: Kept, output: u64, target: usize, first: usize) -> usize
    requires { (first_node ≤ first) × (target ≤ first) }
    ensures { result ≡ length (one_bytes first kept.idx kept.input output target) }
{
    let head = kept.state_len();
    if leads_next(first, target, output) {
        return head;
    }
    let delta = delta_of(first, target);
    let osize = output_size(output);
    let tsize = usize::from(pack_size(delta));
    osize + tsize + 1 + head
}

// Writes such a node, which has room; returns its length.
pub fn pack_one(kept: Kept, output: u64, target: usize, first: usize, out: &mut [u8]) -> usize
    requires { (first_node ≤ first) × (target ≤ first)
        × (length (one_bytes first kept.idx kept.input output target) ≤ length out.old) }
    ensures { PutAt out.old 0 (one_bytes first kept.idx kept.input output target)
        out.new result }
{
    if leads_next(first, target, output) {
        return kept.put_state(out, 0, State::OneTransNext);
    }
    let delta = delta_of(first, target);
    let osize = output_size(output);
    let tsize = usize::from(pack_size(delta));
    put_one(out, kept, output, osize, delta, tsize)
}

// Packs a node with one transition that is not final.
fn compile_one(
    first: usize,
    input: u8,
    output: u64,
    target: usize,
    out: &mut [u8],
) -> Result<usize, Refusal>
    requires { (first_node ≤ first) × (target ≤ first) }
    ensures { Fitted (one_bytes first (common_idx input) input output target) out.old
        out.new result }
{
    let kept = Kept::of(input);
    let len = one_len(kept, output, target, first);
    if out.len() < len {
        return Err(Refusal::Space);
    }
    pack_one(kept, output, target, first, out);
    Ok(len)
}

// ---- a node with any number of transitions

// The bytes of the final output. node_sound's `end_len_of` has this body, and its lengths of the index and of the head have others: they go by the
// version, and by bytes that are not written yet here. A crate below both would hold this one `if`.
fn end_len(is_final: bool, osize: usize) -> usize
    ensures { result ≡ end_len is_final osize }
{
    if is_final { osize } else { 0 }
}

// The bytes of the index.
#[tactic(auto, unfolding(format::specs::Node::index_len))]
fn index_len(n: usize) -> usize
    ensures { result ≡ index_len 3 n }
{
    if TRANS_INDEX_THRESHOLD < n { 256 } else { 0 }
}

// The bytes of the count, where it has its own, and of the state.
fn head_len(n: usize) -> usize
    ensures { result ≡ cond (ltb 0 n && ltb n 64) 1 2 }
{
    if 0 < n && n < 64 { 1 } else { 2 }
}

// The bytes of a node of the forms 00 and 01.
pub fn any_len(is_final: bool, n: usize, osize: usize, tsize: usize) -> usize
    requires { (n ≤ max_trans) × (osize ≤ 8) × (tsize ≤ 8) }
    ensures { result ≡ any_len is_final n osize tsize }
{
    end_len(is_final, osize) + n * osize + n * tsize + n + index_len(n) + 1 + head_len(n)
}

// Writes a node of the forms 00 and 01 with outputs of osize bytes and deltas of tsize bytes; returns
// its length.
fn put_any(out: &mut [u8], node: BuilderNode<'_>, first: usize, osize: usize, tsize: usize) -> usize
    requires { AnyFits first (builder_is node) osize tsize (length out.old) }
    ensures { PutAt out.old 0 (any_in first (builder_is node.entry) osize tsize)
        out.new result }
{
    let end = end_len(node.is_final, osize);
    pack_uint_in(out, 0, node.final_output, end);
    let deltas_at = put_numbers(out, end, node.outputs, osize);
    let inputs_at = put_deltas(out, deltas_at, node.targets, first, tsize);
    let index_at = put_bytes(out, inputs_at, node.inputs);
    let sizes_at = put_index(out, index_at, node.inputs);
    out[sizes_at] = sizes_byte(tsize, osize);
    put_head(out, sizes_at + 1, node.is_final, node.inputs.len())
}

// Packs a node of the forms 00 and 01: any number of transitions, final or not.
fn compile_any(node: BuilderNode<'_>, first: usize, out: &mut [u8]) -> Result<usize, Refusal>
    requires { RecordFits first (builder_is node) }
    ensures { Fitted (any_bytes first (builder_is node.entry)) out.old out.new
        result }
{
    let osize = output_size(node.final_output.max(largest_of(node.outputs)));
    let tsize = delta_size(first, node.targets);
    let len = any_len(node.is_final, node.inputs.len(), osize, tsize);
    if out.len() < len {
        return Err(Refusal::Space);
    }
    put_any(out, node, first, osize, tsize);
    Ok(len)
}

// ---- the packer

// Final, with no transitions and output 0.
pub fn packs_to_nothing(is_final: bool, n: usize, final_output: u64) -> bool
    ensures { result ≡ (is_final && (eqb n 0 && eqb final_output 0)) }
{
    is_final && (n == 0 && final_output == 0)
}

// One transition, and not final.
pub fn has_one(is_final: bool, n: usize) -> bool
    ensures { result ≡ (not is_final && eqb n 1) }
{
    !is_final && n == 1
}

// The address that the packer was left with by the node before: F - 1, or 1 where there is none.
fn last_addr(first: usize) -> usize
    requires { first_node ≤ first }
    ensures { result ≡ last_addr first }
{
    if first == FIRST_NODE {
        return 1;
    }
    first - 1
}

// To the node before, with output 0.
fn leads_next(first: usize, target: usize, output: u64) -> bool
    requires { first_node ≤ first }
    ensures { result ≡ (eqb target (last_addr first) && eqb output 0) }
{
    target == last_addr(first) && output == 0
}

// Packs a record that RECORD would not refuse but for its limit on F: a list is packed past that limit while
// its output has room.
pub fn compile_record(node: BuilderNode<'_>, first: usize, out: &mut [u8]) -> Result<usize, Refusal>
    requires { RecordFits first (builder_is node) }
    ensures { Fitted (packed first (builder_is node.entry)) out.old out.new
        result }
{
    let n = node.inputs.len();
    if packs_to_nothing(node.is_final, n, node.final_output) {
        return Ok(0);
    }
    if has_one(node.is_final, n) {
        return compile_one(first, node.inputs[0], node.outputs[0], node.targets[0], out);
    }
    compile_any(node, first, out)
}

// Packs the node record, whose first byte is to stand at first, into out: Ok(n) is that it takes n bytes, which stand at out's front.
// A refusal leaves out as it was: RECORD where it is no record, and SPACE where out is too short.
// The record that is final with no transitions and output 0 packs to no bytes: it is address 0.
pub fn compile(node: BuilderNode<'_>, first: usize, out: &mut [u8]) -> Result<usize, Refusal>
    ensures { Compiles (builder_is node.entry) first out.old out.new result }
{
    if !record_ok(node, first) {
        return Err(Refusal::Record);
    }
    are_numbers(node.final_output, node.inputs, node.outputs);
    compile_record(node, first, out)
}
