// The table of keys (document 02, N11): the number of keys from each reached node, at its address. The file is admitted first. Then
// one pass in ascending order of addresses works out each node's number from those of its targets, which lie below it. A node is reached
// where admission left an entry in the depths.
// depths, sums and counts are slices and no struct: `admit` takes the first two, `fill` reads the first and writes the third, and `count_at` reads
// the third alone. One value of the three, made of those that the C caller lends, would be taken apart at each of these calls.
#![tactic(auto)]

ghost use Rattle.std.specs.Prelude.{◌≤◌, length};
ghost use Rattle.format.specs.View.{fst_is};
ghost use Rattle.admission.specs.Outcome.{Opens};
ghost use Rattle.counting.specs.CountPasses.{ZerosTo, Countable, Passed, Leaves};
ghost use Rattle.counting.specs.CountOutcomes.{CountOutcome};

use admission_node::marked_from;
use counting_node::count_at;
use format::{FstRef, Refusal};

// Zeros from an address on, up to the next one that has an entry in the depths; answers that, or n, which is the file's length. Either table
// may be longer.
fn zeros_to(depths: &[u16], from: usize, n: usize, counts: &mut [u64]) -> usize
    requires { (from ≤ n) × (n ≤ length depths.now) × (n ≤ length counts.old) }
    ensures { ZerosTo depths.now n from counts.old
        counts.new result }
{
    let to = marked_from(depths, from, n);
    counts[from..to].fill(0);
    to
}

// Fills the table, in ascending order of addresses, or refuses at the first node with more keys than an entry holds.
fn fill(fst: FstRef<'_>, depths: &[u16], counts: &mut [u64]) -> Result<(), Refusal>
    requires { Countable (fst_is fst) depths.now counts.old }
    ensures { Passed (fst_is fst.entry) depths.now
        counts.old counts.new result }
{
    let n = fst.bytes.len();
    let mut a = zeros_to(depths, 0, n, counts);
    // not by `for`: `zeros_to` says where the next node lies
    while a < n {
        let keys = count_at(fst, a, counts).ok_or(Refusal::Count)?;
        counts[a] = keys;
        a = zeros_to(depths, a + 1, n, counts);
    }
    Ok(())
}

// Fills the table of an admitted file; where a number does not fit, zeros over the file's length.
fn count_nodes(fst: FstRef<'_>, depths: &[u16], counts: &mut [u64]) -> Result<(), Refusal>
    requires { Countable (fst_is fst) depths.now counts.old }
    ensures { Leaves (fst_is fst.entry) depths.now
        counts.old counts.new result }
{
    let n = fst.bytes.len();
    let filled = fill(fst, depths, counts);
    if filled.is_err() {
        counts[..n].fill(0);
    }
    filled
}

// Admits a file that opens, with this version and root, and fills the table.
fn count_opened(
    fst: FstRef<'_>,
    depths: &mut [u16],
    sums: &mut [u64],
    counts: &mut [u64],
) -> Result<(), Refusal>
    requires { Opens fst.bytes.now fst.version fst.root }
    ensures { CountOutcome fst.entry.bytes.now depths.old sums.old
        counts.old depths.new sums.new counts.new result }
{
    // the third table is judged with the other two, before any node
    let short = counts.len() < fst.bytes.len();
    if short {
        return Err(Refusal::Space);
    }
    admission::admit(fst.bytes, depths, sums)?;
    count_nodes(fst, depths, counts)
}

// Admits a file, fills admission's two tables and then the third with the number of keys from each reached node, or refuses it: opening's
// refusals, then SPACE, then NODE, DEEP and SUM of admission, then COUNT, where a reached node has more than 2^64 - 1 keys.
pub fn count_keys(
    file: &[u8],
    depths: &mut [u16],
    sums: &mut [u64],
    counts: &mut [u64],
) -> Result<(), Refusal>
    ensures { CountOutcome file.now depths.old sums.old
        counts.old depths.new sums.new counts.new result }
{
    let m = fst::open(file)?;
    count_opened(m.over(file), depths, sums, counts)
}
