// The pass of admission in ascending order of addresses: it works out the longest path and the largest sum of each reached node from those of
// its targets, which lie below it. It goes from node to node by the links that the pass down left, once no mark is left elsewhere.
// depths and sums are two slices and no struct, as admission_node says: the pass before this one takes the depths alone.
#![tactic(auto)]

ghost use Rattle.std.specs.Prelude.{◌≡◌, cond, ◌+◌, length};
ghost use Rattle.format.specs.View.{fst_is};
ghost use Rattle.admission_node.specs.Entries.{FirstMarked};
ghost use Rattle.admission_fill.specs.Fills.{NoneLost, NextOf, Fillable, Filled};
ghost use Rattle.format.specs.Limits.{DEEP, SUM};

use admission_node::{clamped, entry_of, marked_from, or_deep, or_over, survey_at};
use format::{FstRef, Refusal, are_bytes};

// What the two flags say once all nodes are passed: DEEP is decided over all reached nodes, and SUM after it.
fn told_by(deep: bool, heavy: bool) -> Result<(), Refusal>
    ensures { result ≡ cond deep (Err DEEP) (cond heavy (Err SUM) (Ok tt)) }
{
    if deep {
        Err(Refusal::Deep)
    } else if heavy {
        Err(Refusal::Sum)
    } else {
        Ok(())
    }
}

// Whether no mark is left at an address that is none of the chain, where some node would lead. There is no way out of the loop, so that several are compared
// at once.
fn none_lost(depths: &[u16]) -> bool
    ensures { NoneLost depths.now (length depths.now) result }
{
    let mut lost: u16 = 0;
    for mark in depths {
        if *mark == 1 || *mark == 2 {
            lost = 1;
        }
    }
    lost == 0
}

// The node of the chain above the one at a, which has this link, or n, the file's length, where there is none. A link of 0 says nothing.
fn next_of(depths: &[u16], a: usize, link: usize, n: usize) -> usize
    requires { NextOf depths.now a link n }
    ensures { FirstMarked depths.now (a + 1) n result }
{
    if link == 0 {
        return marked_from(depths, a + 1, n);
    }
    a + link
}

// Fills both tables at the marks, in ascending order of addresses, or says the first of document 01's refusals that holds over the whole
// file. The sums' entries are zeros at entry.
pub fn fill(fst: FstRef<'_>, depths: &mut [u16], sums: &mut [u64]) -> Result<(), Refusal>
    requires { Fillable (fst_is fst) depths.old sums.old }
    ensures { Filled (fst_is fst.entry) depths.old
        sums.old depths.new sums.new result }
{
    are_bytes(fst.bytes);
    let n = fst.bytes.len();
    if !none_lost(&depths[..n]) {
        return Err(Refusal::Node);
    }
    let mut deep = false;
    let mut heavy = false;
    let mut a = marked_from(depths, 0, n);
    // by the links: both tables are read below a, at the targets of the node there, before they are written at it
    while a < n {
        let entry = depths[a];
        let s = survey_at(fst, a, entry % 8, depths, sums);
        let d = s.depth;
        let t = s.total;
        deep = or_deep(deep, d);
        heavy = or_over(heavy, t);
        depths[a] = clamped(d);
        sums[a] = entry_of(t);
        a = next_of(depths, a, (entry / 8) as usize, n);
    }
    told_by(deep, heavy)
}
