// Where an input leads from a sound node: the part of a step of a lookup by key that comes after the judging.
// The numbers of a node with any number of transitions are one value, `Parts`. Those of a node with one transition are read where they are used.
// fst and addr are no struct, as node_view's `Node` is one: a lookup keeps its one file and goes from address to address, so it would make such a struct for
// each node that it enters, and each function would take it apart again.
#![tactic(auto)]

ghost use Rattle.std.specs.Prelude.{Ok, ◌≡◌, ◌≤◌, ◌<◌, length, get_or};
ghost use Rattle.format.specs.Node.{state_form, SoundAt, numbers_down};
ghost use Rattle.format.specs.declared.State.TheVariants.{OneTransNext, OneTrans};
ghost use Rattle.format.specs.View.{fst_is};
ghost use Rattle.format.specs.Paths.{node_in};
ghost use Rattle.node_sound.specs.Shapes.{deltas_from, inputs_from};
ghost use Rattle.node.specs.Read.{transitions_in, Readable};
ghost use Rattle.node_way.specs.Ways.{any_node, way_at, PlaceRight, way_in, step_of};

use format::FstRef;
use le_bytes::number_of;
use node::{Unsound, find_in, place_beside, target_of};
use node_sound::{Parts, head_len, input_of, one_shape};

// Where an input leads from a sound node: the output and the target of its transition, or nowhere, and
// then the place of the first greater input.
pub type Way = Result<(u64, usize), usize>;

// One step of a lookup by key: what a node that is judged as it is entered says of an input.
pub type Step = Result<Way, Unsound>;

// Where finding an input leads in a node with these parts: by the output and the delta at its place, or nowhere.
fn way_at(file: &[u8], parts: Parts, found: Result<usize, usize>) -> Way
    requires { (inputs_from parts ≤ length file.now) × (parts.osize ≤ 8) × (parts.tsize ≤ 8)
        × PlaceRight parts.first (numbers_down file.now (deltas_from parts) parts.tsize parts.ntrans) parts.ntrans found }
    ensures { result ≡ way_at parts.first (numbers_down file.now parts.outputs parts.osize parts.ntrans)
        (numbers_down file.now (deltas_from parts) parts.tsize parts.ntrans) found }
{
    let i = found?;
    let out = number_of(file, parts.outputs, parts.osize, parts.ntrans, i);
    let delta = number_of(file, parts.deltas(), parts.tsize, parts.ntrans, i);
    Ok((out, target_of(parts.first, delta)))
}

// Where b leads from a node with these parts.
pub fn any_way(file: &[u8], parts: Parts, b: u8) -> Way
    requires { Readable file.now (any_node parts) }
    ensures { result ≡ way_in (transitions_in file.now (any_node parts)) b }
{
    let found = find_in(file, parts.inputs(), parts.ntrans, parts.index_len, b);
    way_at(file, parts, found)
}

// Where b leads from a sound node with one transition.
pub fn one_way(fst: FstRef<'_>, addr: usize, b: u8) -> Way
    requires { SoundAt fst.bytes.now fst.version fst.root addr × (state_form (get_or fst.bytes.now addr 0) ≡ OneTrans) }
    ensures { Ok result ≡ step_of (node_in (fst_is fst.entry) addr) b }
{
    let one = one_shape(fst, addr);
    let first = one.first(addr);
    let input = input_of(fst.bytes, addr);
    if input != b {
        return Err(place_beside(input, b));
    }
    let out = one.output(fst.bytes, first);
    let delta = one.delta(fst.bytes, first);
    Ok((out, target_of(first, delta)))
}

// Where b leads from a sound node with one transition to the node just below it.
pub fn next_way(fst: FstRef<'_>, addr: usize, b: u8) -> Way
    requires { SoundAt fst.bytes.now fst.version fst.root addr × (state_form (get_or fst.bytes.now addr 0) ≡ OneTransNext) }
    ensures { Ok result ≡ step_of (node_in (fst_is fst.entry) addr) b }
{
    let len = head_len(fst.bytes, addr);
    let input = input_of(fst.bytes, addr);
    if input != b {
        return Err(place_beside(input, b));
    }
    Ok((0, addr - len))
}
