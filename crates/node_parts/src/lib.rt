// The parts of a node with any number of transitions that have no numbers: inputs, index, count and state, written into a lent buffer for
// the packer.
#![tactic(auto)]

ghost use Rattle.std.specs.Prelude.{◌≡◌, cond, ◌+◌, ◌≤◌, eqb, length};
ghost use Rattle.format.specs.Limits.{max_trans};
ghost use Rattle.format.specs.Node.{Ascending};
ghost use Rattle.format.specs.Packed.{stored_bytes, index_of, index_bytes, final_flag, head_of};
ghost use Rattle.buffers.specs.Put.{PutAt};

use format::{MAX_TRANS, TRANS_INDEX_THRESHOLD};

// Writes the bytes, last first, from place at on; returns the place past them.
pub fn put_bytes(out: &mut [u8], at: usize, bytes: &[u8]) -> usize
    requires { at + length (stored_bytes bytes.now) ≤ length out.old }
    ensures { PutAt out.old at (stored_bytes bytes.now)
        out.new result }
{
    // by places, of which p goes up where i goes down: tried with `bytes.iter().rev()`, and the proof did not carry over, since the loop has no place
    // then, of which its invariant speaks, but what is left of a reversed iterator
    let mut p = at;
    // byte by byte: the library's copy would have the C library call memmove, where it cannot see the two apart
    for i in (0..bytes.len()).rev() {
        out[p] = bytes[i];
        p += 1;
    }
    p
}

// The place of each byte among the inputs, and 255 for a byte that is none of them.
fn index_of(inputs: &[u8]) -> [u8; 256]
    requires { (length inputs.now ≤ max_trans) × Ascending inputs.now }
    ensures { result ≡ index_of inputs.now }
{
    let mut index: [u8; 256] = [255; 256];
    for (i, input) in inputs.iter().enumerate() {
        index[*input as usize] = i as u8;
    }
    index
}

// Writes the index of a node with more than 32 transitions from place at on; returns the place past
// it.
pub fn put_index(out: &mut [u8], at: usize, inputs: &[u8]) -> usize
    requires { (at + length (index_bytes inputs.now) ≤ length out.old)
        × (length inputs.now ≤ max_trans)
        × Ascending inputs.now }
    ensures { PutAt out.old at (index_bytes inputs.now)
        out.new result }
{
    if TRANS_INDEX_THRESHOLD < inputs.len() {
        let end = at + 256;
        out[at..end].copy_from_slice(&index_of(inputs));
        return end;
    }
    at
}

// 64 for a final node.
fn flag_of(is_final: bool) -> u8
    ensures { result ≡ final_flag is_final }
{
    if is_final { 64 } else { 0 }
}

// The count byte: 1 stands for 256, since a count of 1 is always in the state byte.
fn count_byte(n: usize) -> u8
    requires { n ≤ max_trans }
    ensures { result ≡ cond (eqb n max_trans) 1 n }
{
    if n == MAX_TRANS { 1 } else { n as u8 }
}

// Writes the state byte, and the count byte before it where it is not 1 to 63; returns the place
// past them. at and n say where the head is to stand and how many transitions the node has: neither is how much of out is in use.
pub fn put_head(out: &mut [u8], at: usize, is_final: bool, n: usize) -> usize
    requires { (at + length (head_of is_final n) ≤ length out.old) × (n ≤ max_trans) }
    ensures { PutAt out.old at (head_of is_final n) out.new result }
{
    let flag = flag_of(is_final);
    if 0 < n && n < 64 {
        out[at] = flag + n as u8;
        return at + 1;
    }
    out[at] = count_byte(n);
    out[at + 1] = flag;
    at + 2
}
