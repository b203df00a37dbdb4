// What the second pass of a conversion does at one node of a version 1 file: it is packed as document 01 says, each target replaced by the
// table's entry. The node is sound, so it is read by its form and not judged.
// A node and the bytes that it was read in go as two values, and what is asked of a node stands at the call, as convert_size says; so do the places of
// its transitions.
#![tactic(auto)]

ghost use Rattle.std.specs.Prelude.{◌≡◌, ◌<◌, length};
ghost use Rattle.format.specs.Packed.{packed};
ghost use Rattle.format.specs.View.{fst_is};
ghost use Rattle.node.specs.Read.{meaning, transitions_in, Readable};
ghost use Rattle.converting.specs.Converting.{record_by};
ghost use Rattle.format.specs.Node.{SoundAt};
ghost use Rattle.convert_size.specs.Sizes.{entry_in, OneKept};
ghost use Rattle.convert_node.specs.Packs.{Gatherable, Gathered, Packable, PackedFront, PackableAt, PackedAt, no_record};

use convert_one::kept_of;
use convert_size::{first_moved, new_target};
use format::{FstRef, State};
use node::Node;
use node_compile::{Kept, pack_one};
use node_record::BuilderNode;

// Room for the record of any node: the inputs, the outputs and the new targets of its transitions, each at the front of its array. There is no
// heap, so each has room for 256; how many there are is the node's count, which `pack` has beside them, and it makes slices of that length.
#[derive(Drop)]
pub struct Buffers {
    pub inputs: [u8; 256],
    pub outputs: [u64; 256],
    pub targets: [usize; 256],
}

impl Buffers {
    // Nothing is gathered yet.
    pub fn new() -> Buffers
        ensures { result ≡ no_record }
    {
        Buffers {
            inputs: [0; 256],
            outputs: [0; 256],
            targets: [0; 256],
        }
    }

    // Gathers the transitions of a node, each target replaced by the table's entry.
    fn gather(&mut self, file: &[u8], node: Node, moved: &[u64])
        requires { Readable file.now node × Gatherable (transitions_in file.now node) (length moved.now) }
        ensures { Gathered (transitions_in file.now node) moved.now
            self.new.inputs self.new.outputs self.new.targets }
    {
        let n = node.ntrans;
        for i in 0..n {
            let t = node::transition(file, node, i);
            let to = t.addr;
            self.inputs[i] = t.inp;
            self.outputs[i] = t.out;
            self.targets[i] = new_target(moved, to);
        }
    }
}

// Packs a node whose first byte is to stand at first, to the front of out; returns its length. Its record is gathered first.
fn pack(
    file: &[u8],
    node: Node,
    first: usize,
    moved: &[u64],
    buffers: &mut Buffers,
    out: &mut [u8],
) -> usize
    requires { Readable file.now node × Packable (meaning file.now node) first moved.now (length out.old) }
    ensures { PackedFront
        (packed first (record_by (entry_in moved.now) (meaning file.now node)))
        out.old out.new result }
{
    let n = node.ntrans;
    buffers.gather(file, node, moved);
    let record = BuilderNode {
        is_final: node.is_final,
        final_output: node.final_output,
        inputs: &buffers.inputs[..n],
        outputs: &buffers.outputs[..n],
        targets: &buffers.targets[..n],
    };
    match node_compile::compile_record(record, first, out) {
        Ok(len) => len,
        // it is not refused: there is room
        Err(_) => 0,
    }
}

// The same of a node with one transition that is not final. Nothing is gathered.
fn pack_single(
    file: &[u8],
    node: Node,
    kept: Kept,
    first: usize,
    moved: &[u64],
    out: &mut [u8],
) -> usize
    requires { Readable file.now node × OneKept (meaning file.now node) kept.idx kept.input
        × Packable (meaning file.now node) first moved.now (length out.old) }
    ensures { PackedFront
        (packed first (record_by (entry_in moved.now) (meaning file.now node)))
        out.old out.new result }
{
    let arc = first_moved(file, node, moved);
    pack_one(kept, arc.output, arc.target, first, out)
}

// The same of the sound node at a, by its form.
pub fn pack_at(
    fst: FstRef<'_>,
    a: usize,
    first: usize,
    moved: &[u64],
    buffers: &mut Buffers,
    out: &mut [u8],
) -> usize
    requires { SoundAt fst.bytes.now fst.version fst.root a
        × PackableAt (fst_is fst) a first moved.now (length out.old) }
    ensures { PackedAt (fst_is fst.entry) a first moved.now
        out.old out.new result }
{
    let file = fst.bytes;
    let node = node::node_of(fst, a);
    match node.state {
        State::AnyTrans => pack(file, node, first, moved, buffers, out),
        State::OneTrans | State::OneTransNext => {
            pack_single(file, node, kept_of(file, a), first, moved, out)
        }
    }
}
