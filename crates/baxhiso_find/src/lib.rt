// The page by pattern for the C caller. include/baxhiso.h declares it; results and conventions are those of crate `baxhiso`.
// A slice is passed as its pointer and then its length. No function asks anything of its arguments' values.
// Each function takes what the C caller lends, one by one: the C interface.
#![tactic(auto)]

ghost use Rattle.std.specs.Prelude.{length};
ghost use Rattle.finding.specs.Finding as F;
ghost use Rattle.stream_start.specs.Views.{bound_is};
ghost use Rattle.stream_arrays.specs.Arrays.{kind_is};
ghost use Rattle.patterned_held.specs.HeldPatterns.{given_is};
ghost use Rattle.baxhiso_readings.specs.Readings.{RangeLeaves};
ghost use Rattle.baxhiso_find.specs.FindArguments.{rest_is};

use baxhiso_results::stopped;
use stream_arrays::bound_with;

// Up to `most` keys between two bounds that fit a pattern, the least first, each in a row of 256 bytes with its value beside it, and how many. A position
// below 256 is its byte, any other number any byte; any rest may follow unless `rest` is 0.
pub fn fst_find_rows(
    file: &[u8],
    positions: &[u16],
    rest: u64,
    lower_kind: u64,
    lower: &[u8],
    upper_kind: u64,
    upper: &[u8],
    most: usize,
    rows: &mut [u8],
    values: &mut [u64],
    count: &mut usize,
) -> i32
    ensures { RangeLeaves (F.find file.now
        (given_is positions.now (rest_is rest))
        (bound_is (kind_is lower_kind) lower.now)
        (bound_is (kind_is upper_kind) upper.now) most (length rows.old)
        (length values.old)) rows.old rows.new
        values.old values.new count.new result }
{
    let from = bound_with(lower_kind, lower);
    let to = bound_with(upper_kind, upper);
    let any_rest = 0 < rest;
    let found = find::find(file, positions, any_rest, from, to, most, rows, values);
    *count = found.count;
    stopped(found.stop)
}
