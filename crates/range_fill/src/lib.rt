// The loop of a range: the keys after the levels in the caller's stack, each in a row of 256 bytes with its value beside it.
// rows and values are two slices and no struct: the C caller lends two, a row is written by a function that takes the rows alone, and the definitions speak of
// each, so that a struct would only be taken apart again.
// The number of levels stands beside the stack: a walk knows it only at its end.
// How many keys are asked for is a number of its own, and no length of rows or values.
#![tactic(auto)]

ghost use Rattle.std.specs.Prelude.{◌≡◌, ◌*◌, ◌≤◌, length};
ghost use Rattle.std.proofs.Math.Option.{none};
ghost use Rattle.paging.specs.Paging as P;
ghost use Rattle.reading.specs.Reading as R;
ghost use Rattle.stream_start.specs.Views.{bound_of, stack_of};
ghost use Rattle.range_fill.specs.RangedRows.{Ready, view_from, refused_range};
ghost use Rattle.range_fill.specs.FillLaws.{FilledFrom};

use format::{FstRef, Refusal};
use range_bound::{Standing, stand};
use range_rows::{ROW, put_row};
use range_turn::step_on;
use std::ops::Bound;
use stream_levels::Stack;

// How a range that is not refused stopped: no key is left; or as many were handed out as asked for.
#[derive(Clone, Copy)]
pub enum Stop {
    End,
    More,
}

// What a range gives back: how many rows and values were written, and how it stopped or why it refuses. A refusal of next stands beside the rows before
// it, so the two are no Result.
#[derive(Clone, Copy)]
pub struct Ranged {
    pub count: usize,
    pub stop: Result<Stop, Refusal>,
}

// A range that is refused before any key.
pub fn refused(why: Refusal) -> Ranged
    ensures { result ≡ refused_range why }
{
    Ranged {
        count: 0,
        stop: Err(why),
    }
}

// The keys after the levels of the stack, from row `first` on up to `most`, with nothing pending. The stack is lent on to each step, so a key costs no copy
// of a reading, and each level is that of a node that was judged as it was entered. A refusal stands beside the keys before it.
pub fn fill(
    fst: FstRef<'_>,
    levels: usize,
    stack: &mut Stack,
    upper: Bound<&[u8]>,
    first: usize,
    most: usize,
    rows: &mut [u8],
    values: &mut [u64],
) -> Ranged
    requires most_in_bounds { (P.row_len * most ≤ length rows.old) × (most ≤ length values.old) }
    requires ready { Ready fst.bytes.now fst.version fst.root levels stack.old.addrs (bound_of upper) }
    ensures { FilledFrom fst.entry.bytes.now (view_from (length fst.entry.bytes.now)
        (bound_of upper.entry) (length (R.bound_bytes (bound_of upper.entry))) none
        (stack_of levels stack.old)) first most rows.old rows.new
        values.old values.new result }
{
    let mut height = levels;
    let mut standing = stand(stack, levels.saturating_sub(1), upper);
    // by place: where the range ends, it is what is answered
    for count in first..most {
        match step_on(fst, height, stack, upper, standing) {
            Ok(None) => {
                return Ranged {
                    count,
                    stop: Ok(Stop::End),
                };
            }
            Err(why) => {
                return Ranged {
                    count,
                    stop: Err(why),
                };
            }
            Ok(Some(next)) => {
                // a key that is handed out does not pass the bound
                standing = Standing {
                    same: next.same,
                    over: false,
                };
                put_row(&stack.inps[1..=next.level], count * ROW, rows);
                values[count] = next.value;
                height = next.level + 1;
            }
        }
    }
    Ranged {
        count: most,
        stop: Ok(Stop::More), // as many as asked for
    }
}
