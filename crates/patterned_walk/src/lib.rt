// The walk of a reading by pattern: levels are popped down to one that can go on, and transitions are followed from there, until a key fits,
// the upper bound is passed or no level is left. A call may follow any number of transitions.
// The number of levels stands beside the stack: a walk knows it only at its end.
#![tactic(auto)]

ghost use Rattle.std.specs.Prelude.{◌≤◌, ◌<◌};
ghost use Rattle.format.specs.Limits.{max_path, max_levels};
ghost use Rattle.format.specs.View.{fst_is};
ghost use Rattle.stream_start.specs.Views.{view_is, stack_of};
ghost use Rattle.pattern.specs.Pattern.{walk_by};
ghost use Rattle.patterned_fit.specs.Positions.{held_is};
ghost use Rattle.patterned_walk.specs.Walks.{PopsBy, WalksBy};

use format::{FstRef, Refusal};
use node::{Node, Unsound};
use patterned_descend::{Down, descend_by};
use patterned_fit::Pattern;
use stream_descend::Followed;
use stream_levels::Stack;
use stream_start::Reading;

// The highest of the first levels that can go on, with its node, if one can: it has a transition left, and its bytes fit the pattern's start. Each level that
// is looked at is judged, as a reading can be made by hand.
// The loop is that of stream_pop's `highest` with another test: one function with the test as a closure would promise in words of that closure, and each of the
// two would still state its own promise over it.
fn pop_by(
    fst: FstRef<'_>,
    stack: &Stack,
    levels: usize,
    fit: usize,
    pattern: &Pattern,
) -> Result<Option<(usize, Node)>, Unsound>
    requires { levels ≤ max_levels }
    ensures { PopsBy fst.entry.bytes.now fst.entry.version fst.entry.root pattern.now.len pattern.now.rest stack.now.addrs
        stack.now.trans levels fit result }
{
    // by place: it is what is answered, and two arrays are read at it
    for top in (0..levels).rev() {
        let m = node::node_at(fst, stack.addrs[top] as usize)?;
        if pattern.live(usize::from(stack.trans[top]), m.ntrans, top, fit) {
            return Ok(Some((top, m)));
        }
    }
    Ok(None)
}

// The walk of a reading over a copy of its stack, from its first levels on: NODE for each level that is looked at, and for each transition that is
// followed DEEP, SUM for the running sum, NODE for its target, the upper bound, and SUM with the final output where the key fits.
pub fn walk_by(
    fst: FstRef<'_>,
    reading: &Reading,
    stack: &mut Stack,
    pattern: &Pattern,
) -> Result<Followed, Refusal>
    requires levels_le_max_levels { (reading.now.levels ≤ max_levels) × (fst.root < 4294967296) × (pattern.now.len ≤ max_path)
        × (reading.now.bound_len ≤ max_path) }
    ensures { WalksBy (walk_by (fst_is fst.entry) (held_is pattern.now) (view_is reading.now).bound
        (stack_of reading.now.levels stack.old) reading.now.total) stack.new.addrs stack.new.inps stack.new.trans
        stack.new.outs result }
{
    stack.are_arrays();
    let mut n = reading.levels;
    let mut t = reading.total;
    let mut fit = pattern.fit_of(stack, reading.levels);
    // a `while`: where a descent cannot go on, the walk goes on from the levels that it left
    while 0 < n {
        let Some((top, m)) = pop_by(fst, stack, n, fit, pattern)? else {
            return Ok(Followed {
                found: None,
                total: t,
            });
        };
        match descend_by(fst, top, m, t, stack, reading.upper(), pattern)? {
            Down::Done(followed) => return Ok(followed),
            // the bytes of the levels that are left fit the pattern's start
            Down::Stuck(k, total) => {
                n = k;
                t = total;
                fit = k;
            }
        }
    }
    Ok(Followed {
        found: None,
        total: t,
    })
}
