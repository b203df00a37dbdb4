// A page by pattern in one call (src/raw/mod.rs: `search` with an automaton for the pattern, and the loop of `next_with` over it): up to so many keys
// between two bounds that fit, each in a row of 256 bytes with its value beside it, on any file, admitted or not.
// rows and values are two slices and no struct: the C caller lends two, a row is written by a function that takes the rows alone, and the definitions speak of
// each, so that a struct would only be taken apart again.
// The pattern is given as the C caller has it, positions and whether any rest may follow.
// The two bounds are two values and no struct, as `patterned::start` takes them, which makes its walk with the lower and keeps the upper in the reading.
// How many keys are asked for is a number of its own, and no length of rows or values.
#![tactic(auto)]

ghost use Rattle.std.specs.Prelude.{◌*◌, ◌≤◌, length};
ghost use Rattle.paging.specs.Paging as P;
ghost use Rattle.pattern.specs.Pattern.{start_by};
ghost use Rattle.finding.specs.Finding as F;
ghost use Rattle.stream_start.specs.Views.{bound_of};
ghost use Rattle.patterned_held.specs.HeldPatterns.{given_is};
ghost use Rattle.range_fill.specs.RangedRows.{RangedBy};

use find_fill::fill;
use format::{MAX_KEY, Refusal};
use patterned::start;
use range_fill::{Ranged, refused};
use range_rows::has_room;
use std::ops::Bound;
use stream_start::bounds_right;

// The walk, where the buffers have room.
fn find_from(
    file: &[u8],
    positions: &[u16],
    rest: bool,
    lower: Bound<&[u8]>,
    upper: Bound<&[u8]>,
    most: usize,
    rows: &mut [u8],
    values: &mut [u64],
) -> Ranged
    requires { (P.row_len * most ≤ length rows.old) × (most ≤ length values.old) }
    ensures { RangedBy (F.page_by file.now (given_is positions.now rest)
        most (start_by file.now (given_is positions.now rest)
        (bound_of lower.entry) (bound_of upper.entry)))
        rows.old rows.new values.old values.new result }
{
    match start(file, positions, rest, lower, upper) {
        Err(why) => refused(why),
        Ok(patterned) => fill(file, patterned, most, rows, values),
    }
}

// Up to `most` keys between the bounds that fit the positions, with any rest behind them or none, the least first: rows and values as `range` writes
// them. Opening's refusals, PATTERN for over 255 positions, BOUND, SPACE where rows or values have no room for `most`, then the walk: the start's other
// refusals and those of next. What was found before a refusal of next is handed out beside it. Every other byte of rows, and every other value, stays
// as given.
pub fn find(
    file: &[u8],
    positions: &[u16],
    rest: bool,
    lower: Bound<&[u8]>,
    upper: Bound<&[u8]>,
    most: usize,
    rows: &mut [u8],
    values: &mut [u64],
) -> Ranged
    ensures { RangedBy (F.find file.now (given_is positions.now rest)
        (bound_of lower.entry) (bound_of upper.entry) most
        (length rows.old) (length values.old)) rows.old
        rows.new values.old values.new result }
{
    if let Err(why) = fst::open(file) {
        return refused(why);
    }
    if MAX_KEY < positions.len() {
        return refused(Refusal::Pattern);
    }
    if !bounds_right(lower, upper) {
        return refused(Refusal::Bound);
    }
    if !has_room(most, rows.len(), values.len()) {
        return refused(Refusal::Space);
    }
    find_from(file, positions, rest, lower, upper, most, rows, values)
}
