// What the state byte of a node with one transition that conversion packs keeps of the input: it is taken from the old state byte where that keeps
// it, so that neither table of inputs is read for it. And how many bytes such a node takes.
#![tactic(auto)]

ghost use Rattle.std.specs.Prelude.{◌≡◌, ◌-◌, ◌≤◌, ◌<◌, length, get_or};
ghost use Rattle.format.specs.Limits.{first_node};
ghost use Rattle.format.specs.Node.{input_of};
ghost use Rattle.node_compile.specs.Parts.{Code};
ghost use Rattle.node_compile.specs.One.{one_bytes};

use node_compile::Kept;

// What the state byte of the packed node keeps of the input of the node with one transition at a.
pub fn kept_of(file: &[u8], a: usize) -> Kept
    requires { (1 ≤ a) × (a < length file.now) }
    ensures { Code (input_of file.now a) result.idx result.input
        × (result.input ≡ get_or file.now (a - 1) 0) }
{
    let input = file[a - 1];
    let low = file[a] % 64;
    if low == 0 {
        // a frequent input may stand in a byte of its own
        return Kept::of(input);
    }
    Kept { idx: low, input }
}

// How many bytes a node with one transition takes at first, by what its state byte keeps of the input, which may be any number here: only whether it is
// 0 decides, and so whether the input has a byte of its own.
pub fn one_len(idx: u8, output: u64, target: usize, first: usize) -> usize
    requires { (first_node ≤ first) × (target ≤ first) }
    ensures { result ≡ length (one_bytes first idx 0 output target) }
{
    if idx == 0 {
        let rare = Kept { idx: 0, input: 0 };
        return node_compile::one_len(rare, output, target, first);
    }
    let common = Kept { idx: 1, input: 0 };
    node_compile::one_len(common, output, target, first)
}
