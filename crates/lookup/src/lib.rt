// A value for a key (src/raw/mod.rs: `get`), on any file, admitted or not. A key for a value is in `lookup_key`.
// Each node is judged once, as it is entered; the last is entered too.
#![tactic(auto)]

ghost use Rattle.std.specs.Prelude.{◌≡◌, []};
ghost use Rattle.format.specs.Lookup as L;
ghost use Rattle.format.specs.Lookup.{get_from};
ghost use Rattle.lookup.specs.Answers.{answer_is};
ghost use Rattle.format.specs.View.{fst_is};

use format::{FstRef, Refusal};

// The answer where the key ends at the node at last, with this running sum.
fn at_end(fst: FstRef<'_>, last: usize, sum: u64) -> Result<Option<u64>, Refusal>
    ensures { answer_is result ≡ get_from (fst_is fst.entry) [] last sum }
{
    let m = node::node_at(fst, last)?;
    if !m.is_final {
        return Ok(None);
    }
    let value = sum.checked_add(m.final_output).ok_or(Refusal::Sum)?;
    Ok(Some(value))
}

// Follows the key from the root of a file that opens.
fn get_from(fst: FstRef<'_>, key: &[u8]) -> Result<Option<u64>, Refusal>
    ensures { answer_is result ≡ get_from (fst_is fst.entry)
        key.now fst.entry.root 0 }
{
    let mut addr = fst.root;
    let mut sum: u64 = 0;
    for &b in key {
        let way = node_step::step_at(fst, addr, b)?;
        let Ok((out, target)) = way else {
            return Ok(None);
        };
        addr = target;
        let Some(total) = sum.checked_add(out) else {
            return Err(fst::past_sum(fst, addr));
        };
        sum = total;
    }
    at_end(fst, addr, sum)
}

// The value of a key of any length. Opening's refusals; then for each node as it is entered, the last included, NODE for the node and
// SUM for the running sum up to it; at the end SUM with the final output.
pub fn get(file: &[u8], key: &[u8]) -> Result<Option<u64>, Refusal>
    ensures { answer_is result ≡ L.get file.now key.now }
{
    let m = fst::open(file)?;
    // version 0 is a file without bytes, which has no node to enter
    if m.version == 0 {
        return Ok(None);
    }
    get_from(m.over(file), key)
}
