// The keys that come before a string, by a table of the keys from each node (document 02, N11): the walk along the string adds up those from the
// smaller inputs at each node. On any file, admitted or not, and with any table. The Rust has nothing of it.
// A byte is looked for at an address of the file, which is no node before it is judged.
#![tactic(auto)]

ghost use Rattle.std.specs.Prelude.{◌≡◌, ◌&&◌, List, [], ℕ, ◌+◌, ◌≤◌, length, take};
ghost use Rattle.format.specs.declared.Transition.{Transition};
ghost use Rattle.format.specs.Tables.{one, sum_of, keys_at};
ghost use Rattle.format.specs.View.{fst_is};
ghost use Rattle.node.specs.Read.{transitions_in, Readable};
ghost use Rattle.plain.specs.Numbers as N;
ghost use Rattle.plain.specs.Numbers.{up_to};
ghost use Rattle.stream_upto.specs.Counts.{HasEntry, HasEntries, total_as, added_to, turn_of, walked_as};

use format::{FstRef, Refusal};
use node::{Node, Unsound};

// A total is a number of keys, or None where it passes 2^64 - 1. None is kept and not answered: a node further on is refused before it.

// A total and n more, or None where that passes the limit.
fn added(t: Option<u64>, n: u64) -> Option<u64>
    ensures { result ≡ added_to t n }
{
    t?.checked_add(n)
}

// The keys from the node at a by the table; address 0 counts one key and has no entry.
pub fn keys_at(counts: &[u64], a: usize) -> u64
    requires { HasEntry counts.now a }
    ensures { result ≡ keys_at counts.now a }
{
    if a == 0 { 1 } else { counts[a] }
}

// 1 for the key that ends at a node, where the node is final and that key counts.
fn own_key(counts_too: bool, is_final: bool) -> u64
    ensures { result ≡ one (counts_too && is_final) }
{
    u64::from(counts_too && is_final)
}

// The total with the keys from the targets of the first p transitions.
fn below(file: &[u8], node: Node, p: usize, counts: &[u64], total: Option<u64>) -> Option<u64>
    requires { Readable file.now node × (p ≤ node.ntrans)
        × HasEntries counts.now (transitions_in file.now node) }
    ensures { (n : ℕ) → total ≡ total_as n
        → result ≡ total_as (n + sum_of (λ (t : Transition). keys_at counts.now t.addr)
        (take p (transitions_in file.now node))) }
{
    let mut sum = total;
    // by place: the transitions stand in the file, and are read by their place there
    for i in 0..p {
        let t = node::transition_addr(file, node, i);
        let k = keys_at(counts, t);
        sum = added(sum, k);
    }
    sum
}

// The byte b looked for at the node at addr, which is judged first: where it leads, if it does, and the total. The place of b, found or not, is the number
// of smaller inputs.
fn turn(
    fst: FstRef<'_>,
    addr: usize,
    b: u8,
    counts: &[u64],
    total: Option<u64>,
) -> Result<(Option<usize>, Option<u64>), Unsound>
    requires { length fst.bytes.now ≤ length counts.now }
    ensures { (n : ℕ) → total ≡ total_as n
        → result ≡ turn_of (fst_is fst.entry) counts.now addr b n }
{
    let m = node::node_at(fst, addr)?;
    // a key that begins the string and ends here comes before it
    let kept = added(total, own_key(true, m.is_final));
    let found = node::find_input(fst.bytes, m, b);
    match found {
        Err(p) => Ok((None, below(fst.bytes, m, p, counts, kept))),
        Ok(p) => {
            let target = node::transition_addr(fst.bytes, m, p);
            let sum = below(fst.bytes, m, p, counts, kept);
            Ok((Some(target), sum))
        }
    }
}

// Where the string ends: its last node is judged too, and its own key counts where own says so.
fn at_end(
    fst: FstRef<'_>,
    addr: usize,
    own: bool,
    total: Option<u64>,
) -> Result<Option<u64>, Refusal>
    ensures { (c : List ℕ) (n : ℕ) → total ≡ total_as n
        → result ≡ walked_as (N.plus n
        (up_to (fst_is fst.entry) c own addr [])) }
{
    let last = node::node_at(fst, addr)?;
    let k = own_key(own, last.is_final);
    Ok(added(total, k))
}

// The keys that come before the string x, and x itself if own; NODE for the first node on its way that is not sound, the last included.
pub fn up_to(fst: FstRef<'_>, own: bool, x: &[u8], counts: &[u64]) -> Result<Option<u64>, Refusal>
    requires { length fst.bytes.now ≤ length counts.now }
    ensures { result ≡ walked_as (up_to (fst_is fst.entry)
        counts.now own fst.entry.root x.now) }
{
    let mut addr = fst.root;
    let mut total = Some(0);
    for b in x {
        let (target, sum) = turn(fst, addr, *b, counts, total)?;
        let Some(next) = target else {
            return Ok(sum);
        };
        addr = next;
        total = sum;
    }
    at_end(fst, addr, own, total)
}
