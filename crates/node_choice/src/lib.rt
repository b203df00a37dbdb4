// Which transition of a sound node fits a value that is left: the part of a step of a lookup by value that comes after the judging.
// The numbers of a node with any number of transitions are one value, `Parts`. Those of a node with one transition are read where they are used.
// fst and addr are no struct, as node_view's `Node` is one: a search keeps its one file and goes from address to address, so it would make such a struct for
// each node that it enters, and each function would take it apart again.
#![tactic(auto)]

ghost use Rattle.std.specs.Prelude.{Ok, ◌≡◌, ◌&&◌, ◌+◌, ◌*◌, ◌≤◌, ◌<◌, eqb, length, get_or};
ghost use Rattle.format.specs.Node.{state_form, numbers_down, SoundAt};
ghost use Rattle.format.specs.declared.State.TheVariants.{OneTransNext, OneTrans};
ghost use Rattle.format.specs.View.{fst_is};
ghost use Rattle.format.specs.Paths.{node_in};
ghost use Rattle.node.specs.Read.{transitions_in, Readable};
ghost use Rattle.node_way.specs.Ways.{any_node};
ghost use Rattle.node_choice.specs.Choices.{Leading, fitting_in, fit_of};

use format::{FstRef, Transition};
use le_bytes::number_of;
use node::{Unsound, target_of};
use node_sound::{Parts, head_len, input_of, one_shape};

// What a sound node says of a value that is left.
#[derive(Clone, Copy)]
pub enum Choice {
    // nothing is left, and the node is final
    Ends,
    // the last of the leading transitions whose output is not above what is left
    To(Transition),
    // no transition fits
    Absent,
}

// One step of a lookup by value: what a node that is judged as it is entered says of a value that is left.
pub type Fit = Result<Choice, Unsound>;

// How many of the leading numbers of n are not above what is left.
// at, size and n stand as in `numbers_down`, of which the contract speaks: `number_of` reads 8 bytes at once, and a slice of the numbers alone would not have
// them at its end.
fn fitting(file: &[u8], at: usize, size: usize, n: usize, left: u64) -> usize
    requires { (at + n * size ≤ length file.now) × (size ≤ 8) }
    ensures leading { Leading (numbers_down file.now at size n) left result }
    ensures within { result ≤ n }
{
    (0..n)
        .find(|i| left < number_of(file, at, size, n, *i))
        .unwrap_or(n)
}

// The transition that fits what is left, of a node with these parts.
pub fn any_choice(file: &[u8], parts: Parts, left: u64) -> Choice
    requires { Readable file.now (any_node parts) }
    ensures { result ≡ fitting_in (transitions_in file.now (any_node parts)) left }
{
    let n = parts.ntrans;
    let count = fitting(file, parts.outputs, parts.osize, n, left);
    if count == 0 {
        return Choice::Absent;
    }
    let last = count - 1;
    let inp = file[parts.inputs() + (n - 1 - last)];
    let out = number_of(file, parts.outputs, parts.osize, n, last);
    let delta = number_of(file, parts.deltas(), parts.tsize, n, last);
    let addr = target_of(parts.first, delta);
    Choice::To(Transition { inp, out, addr })
}

// Whether the search ends at a node: nothing is left, and it is final.
pub fn ends(left: u64, is_final: bool) -> bool
    ensures { result ≡ (eqb left 0 && is_final) }
{
    left == 0 && is_final
}

// The one transition of a sound node, where its output is not above what is left.
pub fn one_choice(fst: FstRef<'_>, addr: usize, left: u64) -> Choice
    requires { SoundAt fst.bytes.now fst.version fst.root addr × (state_form (get_or fst.bytes.now addr 0) ≡ OneTrans) }
    ensures { Ok result ≡ fit_of (node_in (fst_is fst.entry) addr) left }
{
    let one = one_shape(fst, addr);
    let first = one.first(addr);
    let inp = input_of(fst.bytes, addr);
    let out = one.output(fst.bytes, first);
    if left < out {
        return Choice::Absent;
    }
    let delta = one.delta(fst.bytes, first);
    let addr = target_of(first, delta);
    Choice::To(Transition { inp, out, addr })
}

// The one transition of a sound node to the node just below it: its output is 0, so it always fits.
pub fn next_choice(fst: FstRef<'_>, addr: usize, left: u64) -> Choice
    requires { SoundAt fst.bytes.now fst.version fst.root addr × (state_form (get_or fst.bytes.now addr 0) ≡ OneTransNext) }
    ensures { Ok result ≡ fit_of (node_in (fst_is fst.entry) addr) left }
{
    let len = head_len(fst.bytes, addr);
    let inp = input_of(fst.bytes, addr);
    Choice::To(Transition {
        inp,
        out: 0,
        addr: addr - len,
    })
}
