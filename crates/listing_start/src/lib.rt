// The beginning of a listing: a file is admitted, its keys are counted and its unbounded reading begun.
// depths, sums and counts are slices and no struct: `count_keys` takes the three one by one, and `stream::start` takes counts alone, so that one value
// of them would be taken apart at both calls.
#![tactic(auto)]

ghost use Rattle.listing_start.specs.Begun.{Begins};

use format::Refusal;
use std::ops::Bound;
use stream::Plain;

// The longest file that is listed.
pub const LARGEST: usize = 4_096;

// Begins the listing of a file: LARGE over 4,096 bytes, then the refusals of counting its keys; else the unbounded reading. The tables are
// counting's.
pub fn begin(
    file: &[u8],
    depths: &mut [u16],
    sums: &mut [u64],
    counts: &mut [u64],
) -> Result<Plain, Refusal>
    ensures { Begins file.now depths.old sums.old
        counts.old depths.new sums.new counts.new result }
{
    if LARGEST < file.len() {
        return Err(Refusal::Large);
    }
    counting::count_keys(file, depths, sums, counts)?;
    stream::start(file, Bound::Unbounded, Bound::Unbounded, counts)
}
