// One key more of a range, on the levels in the caller's own stack: what a call of next does where no empty key is pending, with nothing passed by
// value but a few words. Every level is that of a judged node, so none is judged again. A refusal ends the range, so nothing is restored.
// The number of levels stands beside the stack: a walk knows it only at its end.
#![tactic(auto)]

ghost use Rattle.std.specs.Prelude.{ℕ, ◌-◌, ◌≤◌, ◌<◌, drop};
ghost use Rattle.format.specs.Limits.{max_levels};
ghost use Rattle.format.specs.View.{fst_is};
ghost use Rattle.reading.specs.Reading as R;
ghost use Rattle.stream_start.specs.Views.{bound_of, stack_of};
ghost use Rattle.range_bound.specs.Besides.{Beside};
ghost use Rattle.range_node.specs.Entries.{SoundTo};
ghost use Rattle.range_turn.specs.Turns.{Tops, Turned};

use format::{FstRef, Refusal};
use range_bound::Standing;
use range_down::{Next, descend};
use range_node::count_of;
use std::ops::Bound;
use stream_levels::Stack;

// The place of the highest of the first levels that has a transition left, if one has.
fn highest(fst: FstRef<'_>, stack: &Stack, levels: usize) -> Option<usize>
    requires { (levels ≤ max_levels) × SoundTo (fst_is fst) stack.now.addrs levels }
    ensures { Tops (fst_is fst.entry) stack.now.addrs
        stack.now.trans levels result }
{
    // by place: it is what is answered, and two arrays are read at it
    for top in (0..levels).rev() {
        let count = count_of(fst, stack.addrs[top] as usize);
        if (stack.trans[top] as usize) < count {
            return Some(top);
        }
    }
    None
}

// One step of the first levels to the next key: its bytes are the inputs after the first. The key of the levels given stands to the upper bound as standing
// says. `Ok(None)`: no key is left, or the next one passes the bound.
pub fn step_on(
    fst: FstRef<'_>,
    levels: usize,
    stack: &mut Stack,
    upper: Bound<&[u8]>,
    standing: Standing,
) -> Result<Option<Next>, Refusal>
    requires levels_le_max_levels { (levels ≤ max_levels) × (fst.root < 4294967296)
        × SoundTo (fst_is fst) stack.old.addrs levels
        × Beside (bound_of upper) (R.bound_bytes (bound_of upper))
        (drop 1 stack.old.inps) (levels - 1) standing.same standing.over }
    ensures { (len n t : ℕ) → Turned (fst_is fst.entry) len
        (bound_of upper.entry) (R.bound_bytes (bound_of upper.entry)) n t
        (stack_of levels stack.old) stack.new.addrs stack.new.inps stack.new.trans
        stack.new.outs result }
{
    let Some(top) = highest(fst, stack, levels) else {
        return Ok(None);
    };
    descend(fst, top, stack, upper, standing.cut(top))
}
