// How long a node of a version 1 file is when it is packed with its targets replaced by the table's entries: from its largest output and
// its largest new delta, in one pass over its transitions. The node is sound, so it is read by its form and not judged.
// A node and the bytes that it was read in go as two values: `node`'s readers take them so, and one value of both would be taken apart at each call.
// What is asked of a node (`Sizable`) speaks of F too, and F is another one at each node, so it is asked at the call and not promised by a type.
// A node's transitions are gone through by their places, as in admission_node: there is no slice of them.
#![tactic(auto)]

ghost use Rattle.std.specs.Prelude.{◌≡◌, ◌<◌, length};
ghost use Rattle.format.specs.Node.{SoundAt, transition_at};
ghost use Rattle.format.specs.Packed.{packed};
ghost use Rattle.format.specs.View.{fst_is};
ghost use Rattle.node.specs.Read.{meaning, transitions_in, Readable};
ghost use Rattle.converting.specs.Converting.{record_by};
ghost use Rattle.convert_size.specs.Sizes.{entry_in, Mosts, Sizable, OneKept, SizableAt, SizedAt};

use convert_one::kept_of;
use format::{FstRef, State};
use le_bytes::pack_size;
use node::Node;
use node_compile::{Kept, any_len, delta_of, has_one, one_len, output_size, packs_to_nothing};

// The largest output of a node, its final output included, and its largest delta.
#[derive(Clone, Copy)]
pub struct Most {
    pub output: u64,
    pub delta: u64,
}

// Where a target went.
pub fn new_target(moved: &[u64], to: usize) -> usize
    requires { to < length moved.now }
    ensures { result ≡ entry_in moved.now to }
{
    moved[to] as usize
}

// ---- a node with one transition

// What the first transition of a node adds, and where its target went.
#[derive(Clone, Copy)]
pub struct Moved {
    pub output: u64,
    pub target: usize,
}

// The first transition of a node, its target replaced by the table's entry.
pub fn first_moved(file: &[u8], node: Node, moved: &[u64]) -> Moved
    requires { Readable file.now node × (0 < node.ntrans)
        × ((transition_at (transitions_in file.now node) 0).addr < length moved.now) }
    ensures { (result.output ≡ (transition_at (transitions_in file.now node) 0).out)
        × (result.target ≡ entry_in moved.now (transition_at (transitions_in file.now node) 0).addr) }
{
    Moved {
        output: node::output(file, node, 0),
        target: new_target(moved, node::transition_addr(file, node, 0)),
    }
}

// The packed length of a node with one transition that is not final.
fn len_single(file: &[u8], node: Node, kept: Kept, first: usize, moved: &[u64]) -> usize
    requires { Readable file.now node × OneKept (meaning file.now node) kept.idx kept.input
        × Sizable (meaning file.now node) first moved.now }
    ensures { result ≡ length
        (packed first (record_by (entry_in moved.now) (meaning file.now node))) }
{
    let arc = first_moved(file, node, moved);
    one_len(kept, arc.output, arc.target, first)
}

// ---- a node with any number of transitions

// The largest output and the largest new delta, in one pass.
fn most_of(file: &[u8], node: Node, first: usize, moved: &[u64]) -> Most
    requires { Readable file.now node × Sizable (meaning file.now node) first moved.now }
    ensures { Mosts (meaning file.now node) first moved.now result }
{
    let mut output: u64 = 0;
    let mut delta: u64 = 0;
    // the last transition first: those from i on have been seen
    for i in (0..node.ntrans).rev() {
        let to = node::transition_addr(file, node, i);
        let out = node::output(file, node, i);
        let target = new_target(moved, to);
        output = out.max(output);
        delta = delta_of(first, target).max(delta);
    }
    Most {
        output: node.final_output.max(output),
        delta,
    }
}

// The packed length of a node that is stored in the forms 00 and 01, and is packed in another where it has one transition and is not
// final.
fn len_any(file: &[u8], node: Node, first: usize, moved: &[u64]) -> usize
    requires { Readable file.now node × Sizable (meaning file.now node) first moved.now }
    ensures { result ≡ length
        (packed first (record_by (entry_in moved.now) (meaning file.now node))) }
{
    let n = node.ntrans;
    let is_final = node.is_final;
    if packs_to_nothing(is_final, n, node.final_output) {
        return 0;
    }
    if has_one(is_final, n) {
        let kept = Kept::of(node::input(file, node, 0));
        return len_single(file, node, kept, first, moved);
    }
    let most = most_of(file, node, first, moved);
    // where there is no transition no delta is stored, and none is counted
    let tsize = usize::from(pack_size(most.delta));
    any_len(is_final, n, output_size(most.output), tsize)
}

// ---- any node

// The packed length of the sound node at a; a node that becomes address 0 has none.
pub fn len_at(fst: FstRef<'_>, a: usize, first: usize, moved: &[u64]) -> usize
    requires { SoundAt fst.bytes.now fst.version fst.root a
        × SizableAt (fst_is fst) a first moved.now }
    ensures { SizedAt (fst_is fst.entry) a first moved.now result }
{
    let file = fst.bytes;
    let node = node::node_of(fst, a);
    match node.state {
        State::AnyTrans => len_any(file, node, first, moved),
        State::OneTrans | State::OneTransNext => {
            len_single(file, node, kept_of(file, a), first, moved)
        }
    }
}
