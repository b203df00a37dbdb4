// Equal nodes shared through a table of cells: a record's hash, and whether a stored node is the record.
// Ports `Registry::hash` of src/raw/registry.rs and the comparison of `RegistryCache::entry`, which here reads the node back.
#![tactic(auto)]

ghost use Rattle.std.specs.Prelude.{◌≡◌, ◌-◌, length};
ghost use Rattle.format.specs.Node.{transitions_of, node_at};
ghost use Rattle.node.specs.Read.{transitions_in, Readable};
ghost use Rattle.node_compile.specs.Compile.{builder_is};
ghost use Rattle.packing.specs.Registry.{fnv_step, hash_of, same_transitions, same_node};
ghost use Rattle.registry.specs.Matching.{Paired, cell_of, matches_in, chosen};

use format::FstRef;
use node::Node;
use node_record::BuilderNode;
use pack_cell::{Cell, NONE_ADDRESS};

// ---- the hash

// One step of FNV-1a over words: the prime is 2^40 + 435.
#[tactic(auto, unfolding(packing::specs::Registry::fnv_step))]
fn fnv_step(h: u64, x: u64) -> u64
    ensures { result ≡ fnv_step h x }
{
    (h ^ x).wrapping_mul(1099511628211)
}

// One transition more.
fn hash_transition(h: u64, inp: u8, out: u64, addr: usize) -> u64
    ensures { result ≡ fnv_step (fnv_step (fnv_step h inp) out) addr }
{
    fnv_step(fnv_step(fnv_step(h, u64::from(inp)), out), addr as u64)
}

// The record's hash. That the three lists are as long as each other (`Paired`) is asked here and below, and not promised by `BuilderNode`:
// node_compile's `compile` takes records where they are not, and refuses them.
pub fn hash(node: BuilderNode<'_>) -> u64
    requires { Paired (builder_is node) }
    ensures { result ≡ hash_of (builder_is node.entry) }
{
    let seed = fnv_step(14695981039346656037, u64::from(node.is_final));
    let mut h = fnv_step(seed, node.final_output);
    for (i, inp) in node.inputs.iter().enumerate() {
        h = hash_transition(h, *inp, node.outputs[i], node.targets[i]);
    }
    h
}

// ---- the comparison

// Whether the transitions of a judged node are those of the record. No derived equality, here and below: one side lies in the file, the other in three slices.
fn same_transitions(file: &[u8], stored: Node, node: BuilderNode<'_>) -> bool
    requires { Readable file.now stored × Paired (builder_is node) }
    ensures { result ≡ same_transitions (transitions_in file.now stored)
        (transitions_of node.entry.inputs.now node.entry.outputs.now node.entry.targets.now) }
{
    node.inputs.len() == stored.ntrans
        && (0..stored.ntrans).all(|i| {
            let t = node::transition(file, stored, i);
            (t.inp, t.out, t.addr) == (node.inputs[i], node.outputs[i], node.targets[i])
        })
}

// Whether the node that is stored at addr among the nodes so far is the record. The file is 16 bytes and the nodes,
// so its last byte is the last node's.
pub fn same_node(file: &[u8], addr: usize, node: BuilderNode<'_>) -> bool
    requires { Paired (builder_is node) }
    ensures { result ≡ same_node (node_at file.now 2 (length file.now - 1) addr)
        (builder_is node.entry) }
{
    let judged = node::node_at(
        FstRef {
            bytes: file,
            version: 2,
            root: file.len().saturating_sub(1),
        },
        addr,
    );
    match judged {
        Ok(stored) => {
            stored.is_final == node.is_final
                && (stored.final_output == node.final_output
                    && same_transitions(file, stored, node))
        }
        Err(_) => false,
    }
}

// ---- the cells of a row

// What a row's two cells say of a record.
#[derive(Clone, Copy)]
pub enum Choice {
    First,
    Second,
    // it is not there
    Write,
}

// Whether the cell has the record, whose own hash is given. Another hash is enough to tell that it has not; an
// equal one is not enough, so the node is read back.
fn matches(file: &[u8], cell: Cell, own_hash: u64, node: BuilderNode<'_>) -> bool
    requires { Paired (builder_is node) × (own_hash ≡ hash_of (builder_is node)) }
    ensures { result ≡ matches_in file.now (builder_is node.entry) (cell_of cell) }
{
    cell.addr != NONE_ADDRESS && cell.hash == own_hash && same_node(file, cell.addr as usize, node)
}

// Which of a row's two cells has the record: the first is asked first.
pub fn choose(
    file: &[u8],
    first: Cell,
    second: Cell,
    own_hash: u64,
    node: BuilderNode<'_>,
) -> Choice
    requires { Paired (builder_is node) × (own_hash ≡ hash_of (builder_is node)) }
    ensures { result ≡ chosen (matches_in file.now (builder_is node.entry) (cell_of first))
        (matches_in file.now (builder_is node.entry) (cell_of second)) }
{
    if matches(file, first, own_hash, node) {
        return Choice::First;
    }
    if matches(file, second, own_hash, node) {
        return Choice::Second;
    }
    Choice::Write
}
