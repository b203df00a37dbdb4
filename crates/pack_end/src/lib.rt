// The end of packing, once no node is to be finished: the ends of the file are written, or it is refused and the output is zeros.
// limit, list and output are two functions' alone: no struct is made for them.
#![tactic(auto)]

ghost use Rattle.pack_end.specs.Ending.{EndAsked, Ends, Finishes};

use format::Refusal;
use pack_intern::Placed;

// Writes the ends of the file, where the root is placed, and answers the length of the file, or says why there is none.
fn ends(
    limit: usize,
    list: &[u8],
    output: &mut [u8],
    placed: Result<Placed, Refusal>,
) -> Result<usize, Refusal>
    requires { EndAsked list.now output.old placed }
    ensures { Ends limit list.now output.old placed output.new result }
{
    let root = placed?;
    let next = root.next;
    if output.len() - next < 16 {
        return Err(Refusal::Space);
    }
    if limit < next + 16 {
        return Err(Refusal::Large);
    }
    let n = pack_list::key_count(list);
    pack_blank::write_ends(output, n as u64, root.addr as u64, next);
    Ok(next + 16)
}

// The answer, once no node is to be finished: the ends of the file are written and its length is answered, or the output is zeros.
pub fn finish(
    limit: usize,
    list: &[u8],
    output: &mut [u8],
    placed: Result<Placed, Refusal>,
) -> Result<usize, Refusal>
    requires { EndAsked list.now output.old placed }
    ensures { Finishes limit list.now output.old placed output.new result }
{
    let answer = ends(limit, list, output, placed);
    if answer.is_err() {
        output.fill(0);
    }
    answer
}
