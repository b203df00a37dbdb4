// The descent of a reading by pattern: from a level that can go on down to a key that fits, or to a level that cannot go on.
// The total is a number of its own and no field of the stack: a range goes down the same stack and counts no transitions.
#![tactic(auto)]

ghost use Rattle.std.specs.Prelude.{◌≡◌, true, ◌∷◌, ◌≤◌, ◌<◌, take, drop, get_or};
ghost use Rattle.format.specs.Limits.{max_path, max_levels};
ghost use Rattle.format.specs.View.{fst_is};
ghost use Rattle.stream_start.specs.Views.{bound_of, level_at, stack_of};
ghost use Rattle.stream_pop.specs.Pops.{Ready};
ghost use Rattle.pattern.specs.Pattern.{start_test};
ghost use Rattle.patterned_fit.specs.Positions.{positions_is, held_is};
ghost use Rattle.patterned_descend.specs.Descents.{DescendsBy};

use format::{FstRef, MAX_KEY, Refusal};
use node::Node;
use patterned_fit::Pattern;
use std::ops::Bound;
use stream_bounds::exceeded;
use stream_descend::{Followed, counted, follow};
use stream_levels::Stack;

// What a descent comes to: what a walk comes to, a key or the upper bound; or how many levels are left below a level that cannot go on, with the
// total, so that the walk goes on from them.
#[derive(Clone, Copy)]
pub enum Down {
    Done(Followed),
    Stuck(usize, u64),
}

// From the level at top, which can go on and whose node is judged, down by each level's next transition: to a key that fits, or to a level
// that cannot go on. A node is judged once: as it is entered.
pub fn descend_by(
    fst: FstRef<'_>,
    top: usize,
    node: Node,
    total: u64,
    stack: &mut Stack,
    upper: Bound<&[u8]>,
    pattern: &Pattern,
) -> Result<Down, Refusal>
    requires positions { pattern.now.len ≤ max_path }
    requires top_lt_max_levels { (top < max_levels) × (fst.root < 4294967296) × Ready fst.bytes.now fst.version fst.root
        (get_or stack.old.addrs top 0) (get_or stack.old.trans top 0) node }
    requires inps_value { start_test (positions_is pattern.now.len pattern.now.positions) pattern.now.rest (take top (drop 1 stack.old.inps))
        ≡ true }
    ensures { DescendsBy (fst_is fst.entry)
        (held_is pattern.now)
        (bound_of upper.entry)
        (level_at top stack.old.addrs stack.old.inps stack.old.trans
        stack.old.outs ∷ stack_of top stack.old) total stack.new.addrs stack.new.inps
        stack.new.trans stack.new.outs result }
{
    stack.are_arrays();
    let mut m = node;
    let mut t = total;
    // a reading has at most 256 levels
    for k in top..MAX_KEY {
        let n = follow(fst, k, m, stack)?;
        let next = k + 1;
        let b = stack.inps[next];
        let fit = pattern.fit_after(k, b);
        t = counted(t);
        if exceeded(upper, &stack.inps[1..=next]) {
            return Ok(Down::Done(Followed {
                found: None,
                total: t,
            }));
        }
        if pattern.is_key(n.is_final, next, fit) {
            let value = stack.outs[next]
                .checked_add(n.final_output)
                .ok_or(Refusal::Sum)?;
            return Ok(Down::Done(Followed {
                found: Some((next, value)),
                total: t,
            }));
        }
        if !pattern.live(0, n.ntrans, next, fit) {
            return Ok(Down::Stuck(next, t));
        }
        m = n;
    }
    Err(Refusal::Deep)
}
