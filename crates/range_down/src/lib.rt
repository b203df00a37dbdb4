// The descent of a range, from a level that has a transition left down to the next key, on a stack that the next descent goes on with. A node is
// judged once, as it is entered, and read by its address after that: a turn is no `stream_descend::follow`, which reads a node that is kept, and answers
// the next one to be kept.
#![tactic(auto)]

ghost use Rattle.std.specs.Prelude.{◌+◌, ◌<◌, drop, get_or};
ghost use Rattle.format.specs.Limits.{max_levels};
ghost use Rattle.format.specs.View.{fst_is};
ghost use Rattle.reading.specs.Reading as R;
ghost use Rattle.stream_start.specs.Views.{bound_of};
ghost use Rattle.range_bound.specs.Besides.{Beside};
ghost use Rattle.range_node.specs.Entries.{Leads, SoundTo};
ghost use Rattle.range_down.specs.Downs.{down_from, DescendsOn};

use format::{FstRef, MAX_KEY, Refusal, are_bytes};
use range_bound::Standing;
use range_node::{meet, take};
use std::ops::Bound;
use stream_levels::Stack;

// The next key of a range: the level where it ends, its value, and how many of its leading bytes agree with the upper bound.
#[derive(Clone, Copy)]
pub struct Next {
    pub level: usize,
    pub value: u64,
    pub same: usize,
}

// From the level at top down to the next key by each level's next transition. Every level up to top is that of a judged node, and so is every level
// that is written here. The key up to top stands to the upper bound as standing says. `Ok(None)`: the key that is next passes the bound.
pub fn descend(
    fst: FstRef<'_>,
    top: usize,
    stack: &mut Stack,
    upper: Bound<&[u8]>,
    mut standing: Standing,
) -> Result<Option<Next>, Refusal>
    requires top_lt_max_levels { (top < max_levels) × (fst.root < 4294967296)
        × SoundTo (fst_is fst) stack.old.addrs (top + 1)
        × Leads (fst_is fst) (get_or stack.old.addrs top 0) (get_or stack.old.trans top 0)
        × Beside (bound_of upper) (R.bound_bytes (bound_of upper))
        (drop 1 stack.old.inps) top standing.same standing.over }
    ensures { DescendsOn (fst_is fst.entry)
        (bound_of upper.entry) (R.bound_bytes (bound_of upper.entry))
        (down_from (fst_is fst.entry)
        (bound_of upper.entry) stack.old.addrs
        stack.old.inps stack.old.trans stack.old.outs top) stack.new.addrs
        stack.new.inps stack.new.trans stack.new.outs result }
{
    are_bytes(fst.bytes);
    // a reading has at most 256 levels
    for k in top..MAX_KEY {
        let addr = stack.addrs[k] as usize;
        let i = stack.trans[k] as usize;
        let edge = take(fst, addr, i);
        let sum = stack.outs[k].checked_add(edge.out).ok_or(Refusal::Sum)?;
        let target = edge.addr;
        let ending = meet(fst, target)?;
        let inp = edge.inp;
        let Some(same) = standing.follow(inp, k, upper) else {
            return Ok(None);
        };
        standing.same = same;
        stack.trans[k] = (i + 1) as u16;
        let next = k + 1;
        // not by `Stack::put`, which promises the levels as a list: what is asked of the next turn speaks of each address by its place (SoundTo)
        stack.addrs[next] = target as u32;
        stack.inps[next] = inp;
        stack.trans[next] = 0;
        stack.outs[next] = sum;
        if let Some(end) = ending {
            let value = sum.checked_add(end).ok_or(Refusal::Sum)?;
            return Ok(Some(Next {
                level: next,
                value,
                same,
            }));
        }
    }
    Err(Refusal::Deep)
}
