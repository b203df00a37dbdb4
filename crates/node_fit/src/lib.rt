// One step of a lookup by value: a node is judged as it is entered, and the transition that fits what is left is followed from it.
// No `Node` is made between the two: lookups by value through one took longer (docs/PERFORMANCE.md, "With a node by value").
// Each step takes the file, a node's address and what is left, and its way is by the form of the node there. The file and the address are no struct, as
// node_view's `Node` is one: a search keeps its one file, and would make such a struct for each node that it enters, to be taken apart at once.
#![tactic(auto)]

ghost use Rattle.std.specs.Prelude.{◌≡◌, get_or};
ghost use Rattle.format.specs.Node.{state_form};
ghost use Rattle.format.specs.declared.State.TheVariants.{AnyTrans};
ghost use Rattle.format.specs.View.{fst_is};
ghost use Rattle.format.specs.Paths.{node_in};
ghost use Rattle.node_sound.specs.Shapes.{AtForm};
ghost use Rattle.node_choice.specs.Choices.{fit_of};

use format::{FstRef, State};
use node::Unsound;
use node_choice::{Choice, Fit, any_choice, ends, next_choice, one_choice};
use node_sound::{any_parts, at_form, next_sound, one_sound};

// A node with any number of transitions: its parts, where it is sound, go on to `any_choice`.
fn any_fit(fst: FstRef<'_>, addr: usize, left: u64) -> Fit
    requires { AtForm fst.bytes.now fst.root addr × (state_form (get_or fst.bytes.now addr 0) ≡ AnyTrans) }
    ensures { result ≡ fit_of (node_in (fst_is fst.entry) addr) left }
{
    let parts = any_parts(fst, addr).ok_or(Unsound)?;
    if ends(left, parts.is_final) {
        return Ok(Choice::Ends);
    }
    Ok(any_choice(fst.bytes, parts, left))
}

// Judges the node at addr and follows the transition from it that fits what is left: what `node_at`, `input`, `output` and
// `transition_addr` say together.
#[tactic(auto, using(node_way::specs::FormLaws::node_elsewhere, format::specs::Laws::NodeLaws::node_at_unsound, node_choice::specs::FitOfLaws::fit_blank, node_choice::specs::FitOfLaws::fit_empty_ends, node_choice::specs::FitOfLaws::fit_empty_none))]
pub fn fit_at(fst: FstRef<'_>, addr: usize, left: u64) -> Fit
    ensures { result ≡ fit_of (node_in (fst_is fst.entry) addr) left }
{
    if addr == 0 {
        // a file without bytes has no node
        if fst.bytes.len() == 0 {
            return Err(Unsound);
        }
        // address 0 is final, and has no transition
        if left == 0 {
            return Ok(Choice::Ends);
        }
        return Ok(Choice::Absent);
    }
    if !at_form(fst, addr) {
        return Err(Unsound);
    }
    match State::from(fst.bytes[addr]) {
        State::AnyTrans => any_fit(fst, addr, left),
        State::OneTrans if one_sound(fst, addr) => Ok(one_choice(fst, addr, left)),
        State::OneTransNext if next_sound(fst, addr) => Ok(next_choice(fst, addr, left)),
        _ => Err(Unsound),
    }
}
