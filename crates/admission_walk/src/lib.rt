// The pass of admission from the root down: it judges each node of the chain, once, and marks what it leads to: by 2 where a path from the root
// reaches the node, else by 1. All that leads to a node lies above it, so its own mark is there before the pass is.
// In the entry of a node that is passed stands also how far above it the next node of the chain stands, by which the pass up goes from node to node.
// depths is a slice as the C caller lends it, and the sums are not needed here: admission_node says why there is no struct of both.
#![tactic(auto)]

ghost use Rattle.std.specs.Prelude.{◌≡◌, ◌+◌, ◌*◌, ◌≤◌, ◌<◌, length};
ghost use Rattle.format.specs.View.{fst_is};
ghost use Rattle.admission_node.specs.Entries.{Kept};
ghost use Rattle.admission_walk.specs.Walks.{LinkOf, Walkable, Walked};

use admission_node::{HIT, UNUSED, USED, enter, mark_of};
use format::{FIRST_NODE, FstRef};
use node::Unsound;

// The link of a node, by how far above it the next node of the chain stands: 0 where that does not fit, which no sound node has.
fn link_of(gap: usize) -> u16
    ensures { LinkOf gap result }
{
    if gap < 8192 { gap as u16 } else { 0 }
}

// The entry of a node that is passed, by the mark that it gives and its link.
fn passed(mark: u16, link: u16) -> u16
    requires { (1 ≤ mark) × (mark ≤ 2) × (link < 8192) }
    ensures { result ≡ mark + 2 + link * 8 }
{
    let own = if mark == HIT { USED } else { UNUSED };
    own + link * 8
}

// Judges the chain from the root down, and marks it and what it leads to, or says that it breaks at a node that is not sound.
pub fn walk(fst: FstRef<'_>, depths: &mut [u16]) -> Result<(), Unsound>
    requires { Walkable (fst_is fst) depths.old }
    ensures kept { Kept (length fst.entry.bytes.now) depths.old
        depths.new }
    ensures walked { Walked (fst_is fst.entry)
        depths.new result }
{
    let mut a = fst.root;
    // no node of the chain stands above the root
    let mut link: u16 = 0;
    depths[fst.root] = HIT;
    // not by `for`: it follows the chain from node to node, and counts nothing
    loop {
        let mark = mark_of(depths[a]);
        let Ok(first) = enter(fst, a, mark, depths) else {
            return Err(Unsound);
        };
        depths[a] = passed(mark, link);
        let ends = first == FIRST_NODE;
        if ends {
            return Ok(());
        }
        let next = first - 1;
        link = link_of(a - next);
        a = next;
    }
}
