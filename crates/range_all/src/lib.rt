// The keys of a range after its start: a pending empty key first, then the loop.
// rows and values are two slices and no struct: the C caller lends two, a row is written by a function that takes the rows alone, and the definitions speak of
// each, so that a struct would only be taken apart again.
// The number of levels stands beside the stack: a walk knows it only at its end.
// How many keys are asked for is a number of its own, and no length of rows or values.
#![tactic(auto)]

ghost use Rattle.std.specs.Prelude.{◌*◌, ◌≤◌, length};
ghost use Rattle.reading.specs.Reading as R;
ghost use Rattle.paging.specs.Paging as P;
ghost use Rattle.stream_start.specs.Views.{bound_of, empty_is, stack_of};
ghost use Rattle.range_fill.specs.RangedRows.{Ready, view_from, RangedBy};

use format::FstRef;
use range_fill::{Ranged, Stop, fill};
use range_rows::put_row;
use std::ops::Bound;
use stream_bounds::exceeded;
use stream_levels::Stack;

// The keys after the levels of the stack, up to `most`: a pending empty key comes first, or ends the range where it passes the upper bound.
pub fn fill_all(
    fst: FstRef<'_>,
    levels: usize,
    stack: &mut Stack,
    upper: Bound<&[u8]>,
    empty: Option<u64>,
    most: usize,
    rows: &mut [u8],
    values: &mut [u64],
) -> Ranged
    requires most_in_bounds { (P.row_len * most ≤ length rows.old) × (most ≤ length values.old) }
    requires ready { Ready fst.bytes.now fst.version fst.root levels stack.old.addrs (bound_of upper) }
    ensures { RangedBy (P.fold fst.entry.bytes.now (view_from (length fst.entry.bytes.now)
        (bound_of upper.entry) (length (R.bound_bytes (bound_of upper.entry))) (empty_is empty)
        (stack_of levels stack.old)) most) rows.old rows.new values.old
        values.new result }
{
    if most == 0 {
        return Ranged {
            count: 0,
            stop: Ok(Stop::More),
        };
    }
    match empty {
        None => fill(fst, levels, stack, upper, 0, most, rows, values),
        Some(value) => {
            if exceeded(upper, &[]) {
                return Ranged {
                    count: 0,
                    stop: Ok(Stop::End),
                };
            }
            put_row(&[], 0, rows);
            values[0] = value;
            fill(fst, levels, stack, upper, 1, most, rows, values)
        }
    }
}
