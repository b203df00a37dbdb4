// The marks of a conversion: the nodes that are laid out have an entry other than 0 in the depths' table, so that they can be visited in
// ascending order. Each says how far above it the next one lies, so that no address between is asked.
// What is asked of an address or a node stands where it is needed: a type that says it would hold the file and the table, and would be made anew at
// each node, since the table is written between two.
#![tactic(auto)]

ghost use Rattle.std.specs.Prelude.{◌≡◌, ◌≤◌};
ghost use Rattle.format.specs.Node.{SoundAt};
ghost use Rattle.format.specs.Paths.{node_in};
ghost use Rattle.format.specs.View.{fst_is};
ghost use Rattle.converting.specs.Converting.{vanishes};
ghost use Rattle.convert_marks.specs.Marks.{FirstIs, Markable, ChainMarkable, MarksChain, MarksNodes};

use format::{FIRST_NODE, FstRef};
use node_compile::packs_to_nothing;

// Whether the node at a becomes address 0: it is final, has no transition, and adds nothing.
fn becomes_zero(fst: FstRef<'_>, a: usize) -> bool
    ensures { result ≡ vanishes (node_in (fst_is fst.entry) a) }
{
    match node::node_at(fst, a) {
        Ok(m) => packs_to_nothing(m.is_final, m.ntrans, m.final_output),
        Err(_) => false,
    }
}

// The first byte of the sound node at a.
fn first_of(fst: FstRef<'_>, a: usize) -> usize
    requires { SoundAt fst.bytes.now fst.version fst.root a }
    ensures { FirstIs (fst_is fst.entry) a result }
{
    node::node_of(fst, a).first
}

// A distance that fits an entry, or 1.
fn hop_of(up: usize) -> u16
    requires { 1 ≤ up }
    ensures { (1 ≤ result) × (result ≤ up) }
{
    u16::try_from(up).unwrap_or(1)
}

// The mark of a node: how far above it the next one lies, or 1, which is never too far. A node that no path from the root reaches has no entry
// from admission, and gets a mark all the same.
fn mark_of(entry: u16, up: usize) -> u16
    requires { 1 ≤ up }
    ensures { (1 ≤ result) × (result ≤ up) }
{
    if entry == 0 { 1 } else { hop_of(up) }
}

// Marks the nodes of the chain from the root down.
fn mark_chain(fst: FstRef<'_>, depths: &mut [u16])
    requires { ChainMarkable (fst_is fst) depths.old }
    ensures { MarksChain (fst_is fst.entry) depths.old
        depths.new }
{
    let mut a = fst.root;
    let mut up = 1;
    // not by `for`: it follows the chain from node to node, and counts nothing
    loop {
        depths[a] = mark_of(depths[a], up);
        let first = first_of(fst, a);
        if first == FIRST_NODE {
            return;
        }
        let low = first - 1;
        up = a - low;
        a = low;
    }
}

// Marks the nodes that are laid out: all of the chain, and none where the root becomes address 0.
pub fn mark(fst: FstRef<'_>, depths: &mut [u16])
    requires { Markable (fst_is fst) depths.old }
    ensures { MarksNodes (fst_is fst.entry) depths.old
        depths.new }
{
    if becomes_zero(fst, fst.root) {
        depths[..fst.bytes.len()].fill(0);
        return;
    }
    mark_chain(fst, depths);
}
