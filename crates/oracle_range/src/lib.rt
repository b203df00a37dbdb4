// A range as a function on numbers and slices, for the comparison with the Rust (oracle/README.md). Nothing is asked of a caller: it answers on every
// input, and its contract says the answer and what the lent buffers hold afterwards. A slice is passed as its pointer and then its length, an array
// as its pointer.
// Each function takes what the comparison lends, one by one, as the C interface does.
#![tactic(auto)]

ghost use Rattle.std.specs.Prelude.{◌≡◌, length};
ghost use Rattle.paging.specs.Paging as P;
ghost use Rattle.stream_start.specs.Views.{bound_is};
ghost use Rattle.stream_arrays.specs.Arrays.{kind_is};
ghost use Rattle.oracle_range.specs.RangeTold.{stop_told, RangeTold};

use format::Refusal;
use oracle_numbers::{END, MORE, REFUSED};
use range_fill::Stop;
use stream_arrays::bound_with;

// Why a range stopped, as a number. No `From`: the type of the stop, and that of its refusal, are of other crates.
fn stop_number(stop: Result<Stop, Refusal>) -> u64
    ensures { result ≡ stop_told stop }
{
    match stop {
        Ok(Stop::End) => END,
        Ok(Stop::More) => MORE,
        Err(why) => REFUSED + u64::from(u8::from(why)),
    }
}

// 1000 where the range ended, 1001 where more may come, or 2000 plus the refusal; count has the number of rows that were written.
#[unsafe(no_mangle)]
pub extern "C" fn oracle_range(
    file: &[u8],
    lower_kind: u64,
    lower: &[u8],
    upper_kind: u64,
    upper: &[u8],
    most: usize,
    rows: &mut [u8],
    values: &mut [u64],
    count: &mut [u64; 1],
) -> u64
    ensures { RangeTold (P.range file.now
        (bound_is (kind_is lower_kind) lower.now)
        (bound_is (kind_is upper_kind) upper.now) most (length rows.old)
        (length values.old)) rows.old rows.new values.old
        values.new count.new result }
{
    let ranged = range::range(
        file,
        bound_with(lower_kind, lower),
        bound_with(upper_kind, upper),
        most,
        rows,
        values,
    );
    *count = [ranged.count as u64];
    stop_number(ranged.stop)
}
