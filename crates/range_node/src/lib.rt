// A node on the way of a range: what is judged as it is entered, and what is read of it later, by its address, with no node kept between the two.
#![tactic(auto)]

ghost use Rattle.std.specs.Prelude.{◌≡◌, get_or};
ghost use Rattle.format.specs.declared.State.TheVariants.{AnyTrans};
ghost use Rattle.format.specs.Node.{state_form};
ghost use Rattle.format.specs.Paths.{node_in};
ghost use Rattle.format.specs.View.{fst_is};
ghost use Rattle.node_sound.specs.Shapes.{AtForm};
ghost use Rattle.range_node.specs.Entries.{met_of, Entered, Leads, CountsAt, TakesAt};

use format::{FstRef, State, Transition};
use node::Unsound;
use node_sound::{any_parts, at_form, next_sound, one_sound};

// A node with any number of transitions, as it is entered: only such a node can be final. Where it is sound its numbers are read beside its parts, and both
// stand inline here, so that what its last bytes say is worked out once.
fn any_ending(fst: FstRef<'_>, addr: usize) -> Result<Option<u64>, Unsound>
    requires { AtForm fst.bytes.now fst.root addr × (state_form (get_or fst.bytes.now addr 0) ≡ AnyTrans) }
    ensures { result ≡ met_of (node_in (fst_is fst.entry) addr) }
{
    any_parts(fst, addr).ok_or(Unsound)?;
    let m = node::any_node(fst, addr);
    Ok(m.is_final.then_some(m.final_output))
}

// Judges the node at addr, as it is entered: whether a key ends there, with what that adds to its value. By the node's form: tried, unproved, with `is_sound` and
// then the node's numbers a range of words or part numbers takes 12 percent more instructions.
pub fn meet(fst: FstRef<'_>, addr: usize) -> Result<Option<u64>, Unsound>
    ensures { result ≡ met_of (node_in (fst_is fst.entry) addr) }
{
    if addr == 0 {
        // a file without bytes has no node
        if 0 < fst.bytes.len() {
            return Ok(Some(0));
        }
        return Err(Unsound);
    }
    if !at_form(fst, addr) {
        return Err(Unsound);
    }
    let sound = match State::from(fst.bytes[addr]) {
        State::AnyTrans => return any_ending(fst, addr),
        State::OneTrans => one_sound(fst, addr),
        State::OneTransNext => next_sound(fst, addr),
    };
    if sound { Ok(None) } else { Err(Unsound) }
}

// How many transitions a node has that was judged before.
pub fn count_of(fst: FstRef<'_>, addr: usize) -> usize
    requires { Entered (fst_is fst) addr }
    ensures { CountsAt (fst_is fst.entry) addr result }
{
    if addr == 0 {
        return 0;
    }
    node::node_of(fst, addr).ntrans
}

// Transition i of a node that was judged before and has it.
// The node's form is asked here: tried, with the node made by `node_of` a range of words takes 14 to 18 percent longer.
pub fn take(fst: FstRef<'_>, addr: usize, i: usize) -> Transition
    requires { Leads (fst_is fst) addr i }
    ensures { TakesAt (fst_is fst.entry) addr i result }
{
    match State::from(fst.bytes[addr]) {
        State::AnyTrans => node::transition(fst.bytes, node::any_node(fst, addr), i),
        State::OneTrans => node::transition(fst.bytes, node::one_node(fst, addr), i),
        State::OneTransNext => node::transition(fst.bytes, node::next_node(fst, addr), i),
    }
}
