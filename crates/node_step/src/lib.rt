// One step of a lookup by key: a node is judged as it is entered, and one transition is followed from it.
// No `Node` is made between the two: a lookup through one took more instructions (docs/PERFORMANCE.md, "What was tried and left").
// Each step takes the file, a node's address and what is looked for, and its way is by the form of the node there. The file and the address are no struct, as
// node_view's `Node` is one: a lookup keeps its one file, and would make such a struct for each node that it enters, to be taken apart at once.
#![tactic(auto)]

ghost use Rattle.std.specs.Prelude.{◌≡◌, get_or};
ghost use Rattle.format.specs.Node.{state_form};
ghost use Rattle.format.specs.declared.State.TheVariants.{AnyTrans};
ghost use Rattle.format.specs.View.{fst_is};
ghost use Rattle.format.specs.Paths.{node_in};
ghost use Rattle.node_sound.specs.Shapes.{AtForm};
ghost use Rattle.node_way.specs.Ways.{step_of};

use format::FstRef;
use node::Unsound;
use node_sound::{any_parts, at_form, next_sound, one_sound};
use node_way::{Step, any_way, next_way, one_way};

// A node with any number of transitions: its parts, where it is sound, go on to `any_way`.
fn any_step(fst: FstRef<'_>, addr: usize, b: u8) -> Step
    requires { AtForm fst.bytes.now fst.root addr × (state_form (get_or fst.bytes.now addr 0) ≡ AnyTrans) }
    ensures { result ≡ step_of (node_in (fst_is fst.entry) addr) b }
{
    let parts = any_parts(fst, addr).ok_or(Unsound)?;
    Ok(any_way(fst.bytes, parts, b))
}

// Judges the node at addr and follows b from it: what `node_at`, `find_input`, `output` and
// `transition_addr` say together.
#[tactic(auto, using(node_way::specs::FormLaws::node_elsewhere, format::specs::Laws::NodeLaws::node_at_unsound, node_way::specs::StepOfLaws::step_blank, node_way::specs::StepOfLaws::step_empty))]
pub fn step_at(fst: FstRef<'_>, addr: usize, b: u8) -> Step
    ensures { result ≡ step_of (node_in (fst_is fst.entry) addr) b }
{
    if addr == 0 {
        // a file without bytes has no node
        if fst.bytes.len() == 0 {
            return Err(Unsound);
        }
        return Ok(Err(0));
    }
    if !at_form(fst, addr) {
        return Err(Unsound);
    }
    // by the ranges that `State::from` tells: with a match on a `State` a lookup takes 3 to 4 percent more instructions (callgrind, 2,000 lookups of each
    // kind), and misses of words miss docs/PERFORMANCE.md's aim, 1.20 of the Rust's time, by more
    match fst.bytes[addr] {
        0..=127 => any_step(fst, addr, b),
        128..=191 if one_sound(fst, addr) => Ok(one_way(fst, addr, b)),
        192..=255 if next_sound(fst, addr) => Ok(next_way(fst, addr, b)),
        _ => Err(Unsound),
    }
}
