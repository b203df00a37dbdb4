// The keys of a reading by pattern, each in a row of 256 bytes with its value beside it: the loop of `find`.
// rows and values are two slices and no struct: the C caller lends two, a row is written by a function that takes the rows alone, and the definitions speak of
// each, so that a struct would only be taken apart again.
// How many keys are asked for is a number of its own, and no length of rows or values.
#![tactic(auto)]

ghost use Rattle.std.specs.Prelude.{◌*◌, ◌≤◌, length};
ghost use Rattle.paging.specs.Paging as P;
ghost use Rattle.finding.specs.Finding as F;
ghost use Rattle.stream_start.specs.Views.{view_is};
ghost use Rattle.patterned_held.specs.HeldPatterns.{held_is};
ghost use Rattle.range_fill.specs.RangedRows.{RangedBy};

use format::MAX_KEY;
use patterned::{Patterned, next};
use range_fill::{Ranged, Stop};
use range_rows::{ROW, put_row};

// The keys of a reading by pattern, up to `most`. A refusal stands beside the keys before it.
pub fn fill(
    file: &[u8],
    first: Patterned,
    most: usize,
    rows: &mut [u8],
    values: &mut [u64],
) -> Ranged
    requires { (P.row_len * most ≤ length rows.old) × (most ≤ length values.old) }
    ensures { RangedBy (F.fold_by file.now (held_is first.pattern)
        (view_is first.reading) most) rows.old rows.new
        values.old values.new result }
{
    let mut key = [0u8; MAX_KEY];
    let mut here = first;
    // by place: where the keys end, it is what is answered
    for count in 0..most {
        let step = next(file, here, &mut key);
        let answer = step.answer;
        here = step.reading;
        match answer {
            Ok(None) => {
                return Ranged {
                    count,
                    stop: Ok(Stop::End),
                };
            }
            Err(why) => {
                return Ranged {
                    count,
                    stop: Err(why),
                };
            }
            Ok(Some((n, value))) => {
                put_row(&key[..n], count * ROW, rows);
                values[count] = value;
            }
        }
    }
    Ranged {
        count: most,
        stop: Ok(Stop::More), // as many as asked for
    }
}
