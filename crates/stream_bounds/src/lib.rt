// What a call of next tests first, whether the reading can go on, and what it tests of each key, the upper bound.
#![tactic(auto)]

ghost use Rattle.std.specs.Prelude.{◌≡◌};
ghost use Rattle.reading.specs.Reading as R;
ghost use Rattle.stream_start.specs.Views.{bound_of};
ghost use Rattle.stream_bounds.specs.State.{state_right};

use format::{LEVELS, MAX_KEY};
use std::ops::Bound;
use stream_start::Reading;

// Whether a key passes the upper bound (`Bound::exceeded_by`).
pub fn exceeded(upper: Bound<&[u8]>, key: &[u8]) -> bool
    ensures { result ≡ R.passes_test (bound_of upper.entry) key.now }
{
    match upper {
        Bound::Unbounded => false,
        Bound::Included(bytes) => key > bytes,
        Bound::Excluded(bytes) => key >= bytes,
    }
}

// Whether a reading can go on: at most 256 levels, a held bound of at most 255 bytes, and the length of the file that is lent.
pub fn state_right(reading: &Reading, len: usize) -> bool
    ensures { result ≡ state_right reading.now.levels reading.now.bound_len reading.now.len len }
{
    reading.levels <= LEVELS && reading.bound_len <= MAX_KEY && reading.len == len
}
