// The levels of a reading popped: the highest that has a transition left.
// The number of levels stands beside the stack: a walk knows it only at its end.
#![tactic(auto)]

ghost use Rattle.std.specs.Prelude.{◌≤◌};
ghost use Rattle.format.specs.Limits.{max_levels};
ghost use Rattle.stream_pop.specs.Pops.{Pops};

use format::FstRef;
use node::{Node, Unsound};
use stream_levels::Stack;

// The place of the highest of the first levels that has a transition left, with its node, if one has. Each level that is looked at is judged, as a reading
// can be made by hand.
pub fn highest(
    fst: FstRef<'_>,
    stack: &Stack,
    levels: usize,
) -> Result<Option<(usize, Node)>, Unsound>
    requires { levels ≤ max_levels }
    ensures { Pops fst.entry.bytes.now fst.entry.version fst.entry.root stack.now.addrs stack.now.trans
        levels result }
{
    // by place: it is what is answered, and two arrays are read at it
    for top in (0..levels).rev() {
        let m = node::node_at(fst, stack.addrs[top] as usize)?;
        if usize::from(stack.trans[top]) < m.ntrans {
            return Ok(Some((top, m)));
        }
    }
    Ok(None)
}
