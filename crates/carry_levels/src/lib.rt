// The levels of a reading in another file (document 02, N8): each level's node is judged in both files and compared, and its new address is found.
// No bound is walked again: the levels' own bytes say the path.
// That the root is below 2^32 is asked in each contract and is no fact of a type: a type that said it would ask more of who makes an FstRef by hand.
#![tactic(auto)]

ghost use Rattle.std.specs.Prelude.{◌≡◌, ◌≤◌, ◌<◌, ◌+◌, eqb, length};
ghost use Rattle.format.specs.Limits.{max_levels};
ghost use Rattle.format.specs.View.{fst_is};
ghost use Rattle.node.specs.Read.{Readable};
ghost use Rattle.carry_levels.specs.Settling.{Settles, FirstCarried, LevelCarried, WalkedTo, LevelsCarried};

use format::{FstRef, LEVELS, Refusal};
use node::Node;
use stream_start::Reading;

// The level that stands at addr of the new file, where its old node has ntrans transitions: NODE, then CARRY where the node there has another number
// of them, or where the running value is not the same.
fn settle(new: FstRef<'_>, addr: usize, ntrans: usize, same: bool) -> Result<(u32, Node), Refusal>
    requires { new.root < 4294967296 }
    ensures { Settles new.entry.bytes.now new.entry.version new.entry.root addr ntrans same result }
{
    let m = node::node_at(new, addr)?;
    let as_many = m.ntrans == ntrans;
    if as_many && same {
        let to = addr as u32;
        return Ok((to, m));
    }
    Err(Refusal::Carry)
}

// Whether sum and output come to out. A sum past 64 bits is another value.
fn comes_to(sum: u64, output: u64, out: u64) -> bool
    ensures { result ≡ eqb (sum + output) out }
{
    sum <= out && out - sum == output
}

// The first level, whose old address is addr and whose running value is out: it stands at the root of the new file, with the running value 0.
fn first_level(
    old: FstRef<'_>,
    new: FstRef<'_>,
    addr: usize,
    out: u64,
) -> Result<(u32, Node), Refusal>
    requires { new.root < 4294967296 }
    ensures { FirstCarried (fst_is old.entry)
        new.entry.bytes.now new.entry.version new.entry.root addr out result }
{
    let m = node::node_at(old, addr)?;
    settle(new, new.root, m.ntrans, 0 == out)
}

// The level over one whose new node is below and whose running value is sum, with its old address, the byte that led to it and its running value:
// NODE in the old file first, then CARRY where the new file lacks the byte.
fn next_level(
    old: FstRef<'_>,
    new: FstRef<'_>,
    addr: usize,
    inp: u8,
    out: u64,
    below: Node,
    sum: u64,
) -> Result<(u32, Node), Refusal>
    requires { (new.root < 4294967296) × Readable new.bytes.now below }
    ensures { LevelCarried (fst_is old.entry)
        new.entry.bytes.now new.entry.version new.entry.root addr inp out below sum result }
{
    let m = node::node_at(old, addr)?;
    let Ok(p) = node::find_input(new.bytes, below, inp) else {
        return Err(Refusal::Carry);
    };
    let to = node::transition_addr(new.bytes, below, p);
    let output = node::output(new.bytes, below, p);
    settle(new, to, m.ntrans, comes_to(sum, output, out))
}

// The levels of a reading from the second on, where the first one's new node is first; their new addresses go to moved.
fn other_levels(
    old: FstRef<'_>,
    new: FstRef<'_>,
    reading: &Reading,
    first: Node,
    moved: &mut [u32; LEVELS],
) -> Result<(), Refusal>
    requires root_bound { (new.root < 4294967296) × (0 < reading.now.levels) × (reading.now.levels ≤ max_levels)
        × (length moved.old ≡ max_levels) }
    requires walked_to { WalkedTo (fst_is old) new.bytes.now new.version new.root 1
        reading.now.stack.addrs reading.now.stack.inps reading.now.stack.outs moved.old first }
    ensures { LevelsCarried (fst_is old.entry)
        (fst_is new.entry) reading.now.levels reading.now.stack.addrs reading.now.stack.inps
        reading.now.stack.outs moved.new result }
{
    let mut below = first;
    let stack = &reading.stack;
    // by place: three arrays are read at it, one of them at the place below too, and a fourth is written
    for k in 1..reading.levels {
        let addr = stack.addrs[k] as usize;
        let sum = stack.outs[k - 1];
        let (to, m) = next_level(old, new, addr, stack.inps[k], stack.outs[k], below, sum)?;
        moved[k] = to;
        below = m;
    }
    Ok(())
}

// The levels of a reading, from the first up: their new addresses go to moved. A reading at its end has none.
pub fn carry_levels(
    old: FstRef<'_>,
    new: FstRef<'_>,
    reading: &Reading,
    moved: &mut [u32; LEVELS],
) -> Result<(), Refusal>
    requires { (new.root < 4294967296) × (reading.now.levels ≤ max_levels) × (length moved.old ≡ max_levels) }
    ensures { LevelsCarried (fst_is old.entry)
        (fst_is new.entry) reading.now.levels reading.now.stack.addrs reading.now.stack.inps
        reading.now.stack.outs moved.new result }
{
    if reading.levels == 0 {
        return Ok(());
    }
    let addr = reading.stack.addrs[0] as usize;
    let (to, first) = first_level(old, new, addr, reading.stack.outs[0])?;
    moved[0] = to;
    other_levels(old, new, reading, first, moved)
}
