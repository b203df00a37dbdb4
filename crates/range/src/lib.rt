// A range in one call (src/raw/mod.rs: `range`, `ge` to `lt`, and the loop of `next` over it): up to so many keys between two bounds, each in a row of
// 256 bytes with its value beside it, on any file, admitted or not.
// rows and values are two slices and no struct: the C caller lends two, a row is written by a function that takes the rows alone, and the definitions speak of
// each, so that a struct would only be taken apart again.
// The two bounds are two values and no struct: the start is made with the lower, and the loop goes up to the upper, so that a struct would be taken apart
// at once, as C hands them apart.
// How many keys are asked for is a number of its own, and no length of rows or values.
#![tactic(auto)]

ghost use Rattle.std.specs.Prelude.{◌≡◌, true, ◌*◌, ◌≤◌, length};
ghost use Rattle.reading.specs.Reading as R;
ghost use Rattle.paging.specs.Paging as P;
ghost use Rattle.stream_start.specs.Views.{bound_of};
ghost use Rattle.range_fill.specs.RangedRows.{OpensAs, RangedBy};

use format::{FstRef, Refusal};
use range_all::fill_all;
use range_fill::{Ranged, refused};
use range_rows::has_room;
use std::ops::Bound;
use stream_levels::Stack;
use stream_start::{bounds_right, pending_at, start_levels};

// The walk, where the file opens, the bounds are short and the buffers have room. The start's levels are written to a stack of its own and read on there.
fn range_from(
    fst: FstRef<'_>,
    lower: Bound<&[u8]>,
    upper: Bound<&[u8]>,
    most: usize,
    rows: &mut [u8],
    values: &mut [u64],
) -> Ranged
    requires most_in_bounds { (P.row_len * most ≤ length rows.old) × (most ≤ length values.old) }
    requires opens_as { OpensAs fst.bytes.now fst.version fst.root
        × (R.bounds_test (bound_of lower) (bound_of upper) ≡ true) }
    ensures { RangedBy (P.page_from fst.entry.bytes.now most (R.start fst.entry.bytes.now
        (bound_of lower.entry) (bound_of upper.entry)))
        rows.old rows.new values.old values.new result }
{
    let empty = pending_at(fst, lower);
    let mut stack = Stack::new();
    match start_levels(fst, lower, &mut stack) {
        Err(why) => refused(why),
        Ok(levels) => fill_all(fst, levels, &mut stack, upper, empty, most, rows, values),
    }
}

// Up to `most` keys between the bounds, the least first: row i is the bytes from 256 * i on, a key's length and its bytes, and values has its value at
// i. Opening's refusals, BOUND, SPACE where rows or values have no room for `most`, then the walk: the start's other refusals and those of next. What was
// found before a refusal of next is handed out beside it. Every other byte of rows, and every other value, stays as given.
pub fn range(
    file: &[u8],
    lower: Bound<&[u8]>,
    upper: Bound<&[u8]>,
    most: usize,
    rows: &mut [u8],
    values: &mut [u64],
) -> Ranged
    ensures { RangedBy (P.range file.now
        (bound_of lower.entry) (bound_of upper.entry) most
        (length rows.old) (length values.old)) rows.old
        rows.new values.old values.new result }
{
    match fst::open(file) {
        Err(why) => refused(why),
        Ok(m) => {
            if !bounds_right(lower, upper) {
                return refused(Refusal::Bound);
            }
            if !has_room(most, rows.len(), values.len()) {
                return refused(Refusal::Space);
            }
            range_from(m.over(file), lower, upper, most, rows, values)
        }
    }
}
