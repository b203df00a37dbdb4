// Admission (document 01, "An admitted file"): the whole file is judged once, so that lookups and readings of it refuse nothing.
// A pass from the root down judges each node of the chain, once, and marks what it leads to (`admission_walk`). Then a pass in ascending
// order of addresses works out the longest path and the largest sum of each reached node from those of its targets (`admission_fill`).
// There is no recursion, and no memory but the two lent tables.
// depths and sums are two slices and no struct, as admission_node says: the pass down takes the depths alone.
#![tactic(auto)]

ghost use Rattle.std.specs.Prelude.{◌≡◌, ◌++◌, ◌≤◌, length, drop, replicate};
ghost use Rattle.format.specs.View.{fst_is};
ghost use Rattle.admission.specs.Outcome.{Cleared, Judges, Opens, Outcome};

use admission_fill::fill;
use admission_walk::walk;
use format::{FstRef, Refusal};

// Judges all nodes, with both tables at zero over the file; root 0 has no chain.
fn judge(fst: FstRef<'_>, depths: &mut [u16], sums: &mut [u64]) -> Result<(), Refusal>
    requires { Cleared fst.bytes.now depths.old sums.old fst.root }
    ensures { Judges (fst_is fst.entry) depths.old
        sums.old depths.new sums.new result }
{
    if fst.root == 0 {
        return Ok(());
    }
    walk(fst, depths)?;
    // address 0 may have a mark, and is no node of the chain
    depths[0] = 0;
    fill(fst, depths, sums)
}

// Zeros over a file's length in both tables, before its nodes are judged and after a refusal.
// n is the file's length, and either table may be longer: what lies past it stays.
fn wipe(depths: &mut [u16], sums: &mut [u64], n: usize)
    requires { (n ≤ length depths.old) × (n ≤ length sums.old) }
    ensures { (depths.new ≡ replicate n 0 ++ drop n depths.old)
        × (sums.new ≡ replicate n 0 ++ drop n sums.old) }
{
    depths[..n].fill(0);
    sums[..n].fill(0);
}

// Admits a file that opens, with this version and root.
fn admit_opened(fst: FstRef<'_>, depths: &mut [u16], sums: &mut [u64]) -> Result<(), Refusal>
    requires { Opens fst.bytes.now fst.version fst.root }
    ensures { Outcome fst.entry.bytes.now depths.old sums.old
        depths.new sums.new result }
{
    let n = fst.bytes.len();
    if depths.len() < n || sums.len() < n {
        return Err(Refusal::Space);
    }
    wipe(depths, sums, n);
    let judged = judge(fst, depths, sums);
    if judged.is_err() {
        wipe(depths, sums, n);
    }
    judged
}

// Admits a file and fills the two tables, or refuses it: opening's refusals, then SPACE, then NODE, decided over the whole file, then
// DEEP and SUM, each decided over all nodes that a path from the root reaches.
pub fn admit(file: &[u8], depths: &mut [u16], sums: &mut [u64]) -> Result<(), Refusal>
    ensures { Outcome file.now depths.old sums.old
        depths.new sums.new result }
{
    let m = fst::open(file)?;
    admit_opened(m.over(file), depths, sums)
}
