// The two passes of a conversion over the marked nodes, in ascending order of addresses. The sizes of a node's deltas depend on where its
// targets went, which lie below it: so the first pass works out each new address, and nothing is written before all are known.
// depths, sums, out and table are slices and no struct, as convert says: `lay_out` takes depths and sums, `write_out` those and out, and
// `put_table` sums and table.
#![tactic(auto)]

ghost use Rattle.std.specs.Prelude.{◌≡◌, ◌++◌, ◌+◌, ◌≤◌, length, drop};
ghost use Rattle.format.specs.Limits.{max_len};
ghost use Rattle.format.specs.View.{fst_is};
ghost use Rattle.buffers.specs.Put.{PutAt};
ghost use Rattle.admission_node.specs.Entries.{Kept};
ghost use Rattle.convert_layout.specs.Layout.{laid_to, addr_of, Zeros, Layable, Lays, Writable, Narrow};

use admission_node::marked_from;
use convert_node::{Buffers, pack_at};
use convert_size::len_at;
use format::{FIRST_NODE, FstRef, are_bytes};

// Key count and root, after the nodes.
pub const TRAILER: usize = 16;

// The address of a node of len bytes from next on; a node of no bytes is address 0. 4619 is the largest length of a packed node.
fn addr_of(next: usize, len: usize) -> u64
    requires { next + len ≤ max_len + 4619 }
    ensures { result ≡ addr_of next len }
{
    if len == 0 { 0 } else { (next + len - 1) as u64 }
}

// The new address of each marked node, in the sums' table, which is cleared. A mark says how far above its node the next one lies.
// Answers the place past the nodes of the new file, or None where that file passes the limit.
fn lay_marked(fst: FstRef<'_>, limit: usize, depths: &[u16], sums: &mut [u64]) -> Option<usize>
    requires { Layable (fst_is fst) depths.now sums.old limit
        × Zeros (length fst.bytes.now) sums.old }
    ensures kept { Kept (length fst.entry.bytes.now) sums.old sums.new }
    ensures lays { Lays (fst_is fst.entry) depths.now
        sums.new limit result }
{
    are_bytes(fst.bytes);
    let n = fst.bytes.len();
    let mut next = FIRST_NODE;
    let mut a = marked_from(depths, 0, n);
    // not by `for`: a step is as many addresses as the mark says
    while a < n {
        if limit < next + TRAILER {
            return None;
        }
        let len = len_at(fst, a, next, sums);
        sums[a] = addr_of(next, len);
        next += len;
        a = marked_from(depths, a + usize::from(depths[a]), n);
    }
    if limit < next + TRAILER {
        return None;
    }
    Some(next)
}

// The new address of each marked node, in the sums' table; 0 at every other entry of the file. Answers the place past the nodes of the new
// file, or None where that file passes the limit.
pub fn lay_out(fst: FstRef<'_>, limit: usize, depths: &[u16], sums: &mut [u64]) -> Option<usize>
    requires { Layable (fst_is fst) depths.now sums.old limit }
    ensures kept { Kept (length fst.entry.bytes.now) sums.old sums.new }
    ensures lays { Lays (fst_is fst.entry) depths.now
        sums.new limit result }
{
    sums[..fst.bytes.len()].fill(0);
    lay_marked(fst, limit, depths, sums)
}

// Writes the marked nodes one after the other from place 16 on; returns the place past them.
pub fn write_out(fst: FstRef<'_>, depths: &[u16], sums: &[u64], out: &mut [u8]) -> usize
    requires { Writable (fst_is fst) depths.now sums.now out.old }
    ensures { PutAt out.old 16
        (laid_to (fst_is fst.entry) depths.now (length fst.entry.bytes.now)).nodes
        out.new result }
{
    are_bytes(fst.bytes);
    let mut buffers = Buffers::new();
    let n = fst.bytes.len();
    let mut next = FIRST_NODE;
    let mut a = marked_from(depths, 0, n);
    // not by `for`, as in `lay_marked`. No function has both loops: that one also writes the sums that it reads, and ends where the limit is passed. A
    // closure's contract would have to say, for each of the two, what the passes before a marked node have left in their table.
    while a < n {
        next += pack_at(fst, a, next, sums, &mut buffers, &mut out[next..]);
        a = marked_from(depths, a + usize::from(depths[a]), n);
    }
    next
}

// The new addresses, in 32 bits, to the front of the lent table.
pub fn put_table(sums: &[u64], table: &mut [u32])
    requires { Narrow (length sums.now) sums.now table.old }
    ensures { table.new ≡ sums.now ++ drop (length sums.now) table.old }
{
    for (i, sum) in sums.iter().enumerate() {
        table[i] = *sum as u32;
    }
}
