// The node layer as functions on numbers and slices, for the comparison with the Rust (oracle/README.md).
// Nothing is asked of a caller: each function answers on every input, and its contract says the answer and what the
// lent buffer holds afterwards. A slice is passed as its pointer and then its length.
// Each function takes what the comparison lends, one by one, as the C interface does.
#![tactic(auto)]

ghost use Rattle.std.specs.Prelude.{◌≡◌, length, get_or};
ghost use Rattle.format.specs.Bytes.{pack_size};
ghost use Rattle.format.specs.CommonInputs.{common_inputs, common_inputs_inv, common_idx};
ghost use Rattle.format.specs.Node.{node_at};
ghost use Rattle.format.specs.Packed.{packing};
ghost use Rattle.node_compile.specs.Compile.{builder_with};
ghost use Rattle.oracle_node.specs.NodeTells.{unpacked, is_set, PackingTold, NodeTold, TransitionTold, found_as};

use format::FstRef;
use node_record::BuilderNode;
use node_view::{Node, transition_at};
use oracle_numbers::{number, put};

// What the place of the first greater input is added to, where an input is absent: no place is as large.
const ABSENT: u64 = 256;

// An unsound node, where another answer is a place or ABSENT and a place.
const UNSOUND: u64 = 513;

// ---- stored numbers (src/bytes.rs)

// How many bytes the packer gives n.
#[unsafe(no_mangle)]
pub extern "C" fn oracle_pack_size(n: u64) -> u8
    ensures { result ≡ pack_size n }
{
    le_bytes::pack_size(n)
}

// The number of the first nbytes bytes of slice, or 0 where they are more than 8 or more than it has.
#[tactic(auto, unfolding(crate::specs::NodeTells::unpacked))]
#[unsafe(no_mangle)]
pub extern "C" fn oracle_unpack_uint(slice: &[u8], nbytes: usize) -> u64
    ensures { result ≡ unpacked slice.now nbytes }
{
    if 8 < nbytes {
        return 0;
    }
    if slice.len() < nbytes {
        return 0;
    }
    le_bytes::unpack_uint(slice, nbytes)
}

// ---- inputs by frequency (src/raw/common_inputs.rs)

// The place of the byte i in the order of frequency.
#[unsafe(no_mangle)]
pub extern "C" fn oracle_common_inputs(i: u8) -> u8
    ensures { result ≡ get_or common_inputs i 0 }
{
    common_inputs::common_inputs_at(i)
}

// The byte at place i in the order of frequency.
#[unsafe(no_mangle)]
pub extern "C" fn oracle_common_inputs_inv(i: u8) -> u8
    ensures { result ≡ get_or common_inputs_inv i 0 }
{
    common_inputs::common_inputs_inv_at(i)
}

// What the state byte keeps of the input i.
#[unsafe(no_mangle)]
pub extern "C" fn oracle_common_idx(i: u8) -> u8
    ensures { result ≡ common_idx i }
{
    common_inputs::common_idx(i)
}

// ---- nodes (src/raw/node.rs)

// Packs a node record for F, here `first`, into out: the number of its bytes, which stand at the front of out; or
// 2^32 plus the refusal, out as it was. Any number but 0 is final.
#[unsafe(no_mangle)]
pub extern "C" fn oracle_compile(
    is_final: u8,
    final_output: u64,
    inputs: &[u8],
    outputs: &[u64],
    targets: &[usize],
    first: usize,
    out: &mut [u8],
) -> u64
    ensures { PackingTold (packing first
        (builder_with (is_set is_final) final_output inputs.now outputs.now
        targets.now) (length out.old)) out.old out.new
        result }
{
    let node = BuilderNode {
        is_final: is_final != 0,
        final_output,
        inputs,
        outputs,
        targets,
    };
    number(node_compile::compile(node, first, out))
}

// 1 for a sound node, with F, final (0 or 1), final output and the number of transitions at the front of out where it
// has four places; 0 for an unsound one. The rest of out stays.
#[unsafe(no_mangle)]
pub extern "C" fn oracle_node(
    file: &[u8],
    version: u64,
    root: usize,
    addr: usize,
    out: &mut [u64],
) -> u64
    ensures { NodeTold (node_at file.now version root addr) out.old
        out.new result }
{
    let fst = FstRef {
        bytes: file,
        version,
        root,
    };
    let Ok(n) = Node::new(fst, addr).judged() else {
        return 0;
    };
    let is_final = u64::from(n.is_final);
    put(
        out,
        &[n.first as u64, is_final, n.final_output, n.ntrans as u64],
    );
    1
}

// 1, with input, output and target of transition i at the front of out, where the node is sound, has a transition i and
// out has three places; else 0. The rest of out stays.
#[unsafe(no_mangle)]
pub extern "C" fn oracle_transition(
    file: &[u8],
    version: u64,
    root: usize,
    addr: usize,
    i: usize,
    out: &mut [u64],
) -> u64
    ensures { TransitionTold (node_at file.now version root addr) i
        out.old out.new result }
{
    let fst = FstRef {
        bytes: file,
        version,
        root,
    };
    let Some(t) = transition_at(fst, addr, i) else {
        return 0;
    };
    if out.len() < 3 {
        return 0;
    }
    put(out, &[t.inp as u64, t.out, t.addr as u64]);
    1
}

// The place of the input b among the node's transitions; 256 and the place of the first greater input where it is absent;
// 513 for an unsound node.
#[unsafe(no_mangle)]
pub extern "C" fn oracle_find_input(
    file: &[u8],
    version: u64,
    root: usize,
    addr: usize,
    b: u8,
) -> u64
    ensures { result ≡ found_as (node_at file.now version root addr) b }
{
    let fst = FstRef {
        bytes: file,
        version,
        root,
    };
    match Node::new(fst, addr).find_input(b) {
        Ok(Ok(i)) => i as u64,
        Ok(Err(p)) => ABSENT + (p as u64),
        Err(_) => UNSOUND,
    }
}
