// The number of keys from one node, by the entries of its targets in the table of keys (document 02, N11).
// A node's transitions are gone through by their places, as in admission_node: there is no slice of them.
#![tactic(auto)]

ghost use Rattle.std.specs.Prelude.{◌≡◌, ◌≤◌, ◌<◌, length};
ghost use Rattle.format.specs.Node.{SoundAt};
ghost use Rattle.format.specs.Tables.{one, keys_at};
ghost use Rattle.format.specs.View.{fst_is};
ghost use Rattle.node.specs.Read.{transitions_in, Readable};
ghost use Rattle.admission_node.specs.Entries.{total_as};
ghost use Rattle.counting_node.specs.CountNodes.{added_to, keys_by, Inside, CountedAt};

use format::{FstRef, State};
use node::Node;

// The key that ends at a node.
fn own_key(is_final: bool) -> u64
    ensures { result ≡ one is_final }
{
    u64::from(is_final)
}

// The keys from a target; address 0 has no entry and counts one.
fn child_keys(counts: &[u64], t: usize) -> u64
    requires { t < length counts.now }
    ensures { result ≡ keys_at counts.now t }
{
    if t == 0 { 1 } else { counts[t] }
}

// A total and x more, or None where that passes the limit.
fn added(t: Option<u64>, x: u64) -> Option<u64>
    ensures { result ≡ added_to t x }
{
    t?.checked_add(x)
}

// The keys from a node, by the entries of its targets, in one pass over its transitions.
fn count_any(file: &[u8], node: Node, counts: &[u64]) -> Option<u64>
    requires { Readable file.now node
        × Inside counts.now (transitions_in file.now node) }
    ensures { result ≡ total_as (keys_by counts.now node.is_final
        (transitions_in file.now node)) }
{
    let n = node.ntrans;
    let mut total = Some(own_key(node.is_final));
    for i in 0..n {
        let t = node::transition_addr(file, node, i);
        let k = child_keys(counts, t);
        total = added(total, k);
    }
    total
}

// The same of a node with one transition. Tried, unproved: where `count_any` takes these too, a count of the keys of words takes 6.5 percent more
// instructions, those of its admission included, and 5 percent more time; a count is made in an admission's place, and held to docs/PERFORMANCE.md's
// aim for that, which words miss by more then.
fn count_one(file: &[u8], node: Node, counts: &[u64]) -> Option<u64>
    requires { Readable file.now node × (node.ntrans ≡ 1)
        × Inside counts.now (transitions_in file.now node) }
    ensures { result ≡ total_as (keys_by counts.now node.is_final
        (transitions_in file.now node)) }
{
    let t = node::transition_addr(file, node, 0);
    let k = child_keys(counts, t);
    added(Some(own_key(node.is_final)), k)
}

// The same of the sound node at the address a.
// The node's form is asked here. Tried, unproved: with the node made by `node_of` a count of the keys of words takes 7 percent longer, and misses
// the same aim by more.
pub fn count_at(fst: FstRef<'_>, a: usize, counts: &[u64]) -> Option<u64>
    requires { SoundAt fst.bytes.now fst.version fst.root a
        × (length fst.bytes.now ≤ length counts.now) }
    ensures { CountedAt (fst_is fst.entry)
        counts.now a result }
{
    match State::from(fst.bytes[a]) {
        State::AnyTrans => count_any(fst.bytes, node::any_node(fst, a), counts),
        State::OneTrans => count_one(fst.bytes, node::one_node(fst, a), counts),
        State::OneTransNext => count_one(fst.bytes, node::next_node(fst, a), counts),
    }
}
