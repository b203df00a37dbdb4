// What C links of crate `baxhiso_find` (include/baxhiso.h): a page by pattern. Its function calls the one of the same name there, and states its
// contract again. A slice is passed as its pointer and then its length. The function asks nothing of its arguments' values.
// Each function takes what the C caller lends, one by one: the C interface.
#![tactic(auto)]

ghost use Rattle.std.specs.Prelude.{length};
ghost use Rattle.finding.specs.Finding as F;
ghost use Rattle.stream_start.specs.Views.{bound_is};
ghost use Rattle.stream_arrays.specs.Arrays.{kind_is};
ghost use Rattle.patterned_held.specs.HeldPatterns.{given_is};
ghost use Rattle.baxhiso_readings.specs.Readings.{RangeLeaves};
ghost use Rattle.baxhiso_find.specs.FindArguments.{rest_is};

// Up to `most` keys between two bounds that fit a pattern, the least first, each in a row of 256 bytes with its value beside it, and how many. A position
// below 256 is its byte, any other number any byte; any rest may follow unless `rest` is 0.
#[unsafe(no_mangle)]
pub extern "C" fn fst_find_rows(
    file: &[u8],
    positions: &[u16],
    rest: u64,
    lower_kind: u64,
    lower: &[u8],
    upper_kind: u64,
    upper: &[u8],
    most: usize,
    rows: &mut [u8],
    values: &mut [u64],
    count: &mut usize,
) -> i32
    ensures { RangeLeaves (F.find file.now
        (given_is positions.now (rest_is rest))
        (bound_is (kind_is lower_kind) lower.now)
        (bound_is (kind_is upper_kind) upper.now) most (length rows.old)
        (length values.old)) rows.old rows.new
        values.old values.new count.new result }
{
    baxhiso_find::fst_find_rows(
        file, positions, rest, lower_kind, lower, upper_kind, upper, most, rows, values, count,
    )
}
