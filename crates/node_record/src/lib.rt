// A node record as the packer takes it, and what RECORD asks of its inputs and targets: the inputs ascend, and each target is 0 or from 16 to F - 1.
#![tactic(auto)]

ghost use Rattle.buffers.specs.Decide.{Decides};
ghost use Rattle.format.specs.Node.{Ascending};
ghost use Rattle.format.specs.Packed.{TargetOk, TargetsOk};

use format::FIRST_NODE;

// A node to be packed, by the name of src/raw/build.rs. The transition at place i takes inputs[i], adds outputs[i] and leads to targets[i]:
// three lists, since the packer's callers keep each in a table of its own.
#[derive(Clone, Copy)]
pub struct BuilderNode<'b> {
    // whether a key ends here
    pub is_final: bool,
    // what such a key's value has more: beside `is_final`, as in document 01's record
    pub final_output: u64,
    pub inputs: &'b [u8],
    pub outputs: &'b [u64],
    pub targets: &'b [usize],
}

// Whether the inputs ascend strictly.
#[tactic(auto, unfolding(format::specs::Node::Ascending))]
pub fn inputs_ascend(inputs: &[u8]) -> bool
    ensures { Decides result (Ascending inputs.now) }
{
    inputs.windows(2).all(|pair| pair[0] < pair[1])
}

// Whether a target is 0 or from 16 to F - 1.
#[tactic(auto, unfolding(format::specs::Packed::TargetOk))]
fn target_ok(target: usize, first: usize) -> bool
    ensures { Decides result (TargetOk first target) }
{
    target == 0 || (FIRST_NODE <= target && target < first)
}

// Whether every target is 0 or from 16 to F - 1.
#[tactic(auto, unfolding(format::specs::Packed::TargetsOk))]
pub fn targets_ok(targets: &[usize], first: usize) -> bool
    ensures { Decides result (TargetsOk first targets.now) }
{
    targets.iter().all(|target| target_ok(*target, first))
}
