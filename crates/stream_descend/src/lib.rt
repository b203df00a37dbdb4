// The descent of a reading: from a level that has a transition left down to the next key.
// The total is a number of its own and no field of the stack: a range goes down the same stack and counts no transitions.
#![tactic(auto)]

ghost use Rattle.std.specs.Prelude.{◌≡◌, ◌<◌, get_or};
ghost use Rattle.format.specs.Limits.{max_path, max_levels};
ghost use Rattle.node.specs.Read.{meaning};
ghost use Rattle.reading.specs.Reading as R;
ghost use Rattle.stream_start.specs.Views.{bound_of, level_at, stack_of};
ghost use Rattle.stream_pop.specs.Pops.{Ready};
ghost use Rattle.stream_descend.specs.Descent.{Follows, Descends, down_from};

use format::{FstRef, MAX_KEY, Refusal, are_bytes};
use node::Node;
use std::ops::Bound;
use stream_bounds::exceeded;
use stream_levels::Stack;

// What a walk comes to, and how many transitions were followed by then: the place of the level where a key ends and the key's value, or none where the
// upper bound is passed or no level is left.
#[derive(Clone, Copy)]
pub struct Followed {
    pub found: Option<(usize, u64)>,
    pub total: u64,
}

// The total, with one transition more.
pub fn counted(total: u64) -> u64
    ensures { result ≡ R.counted total }
{
    total.saturating_add(1)
}

// The next transition of level k, whose node is judged: SUM for the running sum, NODE for the target; then the target's level is written.
#[inline(always)]
pub fn follow(fst: FstRef<'_>, k: usize, node: Node, stack: &mut Stack) -> Result<Node, Refusal>
    requires room { (k < max_path) × (fst.root < 4294967296) }
    requires ready { Ready fst.bytes.now fst.version fst.root (get_or stack.old.addrs k 0) (get_or stack.old.trans k 0) node }
    ensures { Follows fst.entry.bytes.now fst.entry.version fst.entry.root k
        (level_at k stack.old.addrs stack.old.inps stack.old.trans
        stack.old.outs) (meaning fst.entry.bytes.now node)
        (stack_of k stack.old) stack.new.addrs stack.new.inps stack.new.trans
        stack.new.outs result }
{
    are_bytes(fst.bytes);
    stack.are_arrays();
    let i = usize::from(stack.trans[k]);
    let out = node::output(fst.bytes, node, i);
    let sum = stack.outs[k].checked_add(out).ok_or(Refusal::Sum)?;
    let target = node::transition_addr(fst.bytes, node, i);
    let n = node::node_at(fst, target)?;
    let inp = node::input(fst.bytes, node, i);
    stack.trans[k] = (i + 1) as u16;
    stack.put(k + 1, target as u32, inp, 0, sum);
    Ok(n)
}

// From the level at top, whose node is judged, down to the next key by each level's next transition. A node is judged once: as it is
// entered.
pub fn descend(
    fst: FstRef<'_>,
    top: usize,
    node: Node,
    total: u64,
    stack: &mut Stack,
    upper: Bound<&[u8]>,
) -> Result<Followed, Refusal>
    requires top_lt_max_levels { (top < max_levels) × (fst.root < 4294967296) × Ready fst.bytes.now fst.version fst.root
        (get_or stack.old.addrs top 0) (get_or stack.old.trans top 0) node }
    ensures { Descends (down_from fst.entry.bytes.now fst.entry.version fst.entry.root
        (bound_of upper.entry) stack.old.addrs
        stack.old.inps stack.old.trans stack.old.outs top node total)
        stack.new.addrs stack.new.inps stack.new.trans stack.new.outs result }
{
    stack.are_arrays();
    let mut m = node;
    let mut t = total;
    // a reading has at most 256 levels
    for k in top..MAX_KEY {
        let n = follow(fst, k, m, stack)?;
        let next = k + 1;
        t = counted(t);
        if exceeded(upper, &stack.inps[1..=next]) {
            return Ok(Followed {
                found: None,
                total: t,
            });
        }
        if n.is_final {
            let value = stack.outs[next]
                .checked_add(n.final_output)
                .ok_or(Refusal::Sum)?;
            return Ok(Followed {
                found: Some((next, value)),
                total: t,
            });
        }
        m = n;
    }
    Err(Refusal::Deep)
}
