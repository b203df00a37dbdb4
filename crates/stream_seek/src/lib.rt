// The walk of a start along its lower bound (src/raw/mod.rs: `seek_min`), in a file that opens, admitted or not: the levels are written to a stack that the
// caller lends, so that a start can make a reading of them and a range can go on from them where they stand.
// A byte is looked for at an address of the file, which is no node before it is judged.
#![tactic(auto)]

ghost use Rattle.std.specs.Prelude.{◌≡◌, [], ◌≤◌, ◌<◌, length};
ghost use Rattle.format.specs.Limits.{max_path, max_levels};
ghost use Rattle.format.specs.View.{fst_is};
ghost use Rattle.reading.specs.Reading as R;
ghost use Rattle.stream_seek.specs.Seeks.{enter_of, place_in, SoughtAs};

use format::{FstRef, Refusal, are_bytes};
use node::Unsound;
use stream_levels::Stack;

// Where a byte was found at a node: the place of its transition, with the target and the output.
#[derive(Clone, Copy)]
struct Hit {
    place: u16,
    target: u32,
    output: u64,
}

// The byte b looked for at the node at addr, which is judged first; `Ok(Err(place))`: the byte is absent, and place is that of the first greater input.
fn enter(fst: FstRef<'_>, addr: usize, b: u8) -> Result<Result<Hit, u16>, Unsound>
    requires { fst.root < 4294967296 }
    ensures { (result ≡ enter_of (fst_is fst.entry) addr b)
        × (place_in result ≤ max_levels) }
{
    are_bytes(fst.bytes);
    let m = node::node_at(fst, addr)?;
    let found = node::find_input(fst.bytes, m, b);
    match found {
        Err(p) => Ok(Err(p as u16)),
        Ok(p) => Ok(Ok(Hit {
            place: p as u16,
            target: node::transition_addr(fst.bytes, m, p) as u32,
            output: node::output(fst.bytes, m, p),
        })),
    }
}

// Follows the lower bound from the root of a file that opens, and writes the levels. Each node is judged as it is entered, the last
// included, and then the running sum up to it.
pub fn seek(
    fst: FstRef<'_>,
    lower: &[u8],
    inclusive: bool,
    stack: &mut Stack,
) -> Result<usize, Refusal>
    requires { (fst.root < 4294967296) × (length lower.now ≤ max_path) }
    ensures { SoughtAs (R.seek (fst_is fst.entry) inclusive fst.entry.root 0 0
        [] lower.now) result stack.new.addrs stack.new.inps stack.new.trans
        stack.new.outs }
{
    stack.are_arrays();
    let mut addr = fst.root as u32;
    let mut inp: u8 = 0;
    let mut sum: u64 = 0;
    for (k, b) in lower.iter().enumerate() {
        match enter(fst, addr as usize, *b)? {
            Err(place) => {
                stack.put(k, addr, inp, place, sum);
                return Ok(k + 1);
            }
            Ok(hit) => {
                let Some(more) = sum.checked_add(hit.output) else {
                    return Err(fst::past_sum(fst, hit.target as usize));
                };
                stack.put(k, addr, inp, hit.place + 1, sum);
                addr = hit.target;
                inp = *b;
                sum = more;
            }
        }
    }
    let k = lower.len();
    node::node_at(fst, addr as usize)?;
    Ok(stack.last_levels(k, inclusive, addr, inp, sum))
}
