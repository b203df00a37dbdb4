// The results of readings and ranges for the C caller: 0 for a key, -2 for the end of a reading, -3 for a page that is full, else the number of a
// refusal.
#![tactic(auto)]

ghost use Rattle.std.specs.Prelude.{◌≡◌};
ghost use Rattle.baxhiso_results.specs.Results.{AnswerLeaves, stop_of};

use baxhiso::{OK, code};
use format::Refusal;
use range_fill::Stop;

const END: i32 = -2;

const MORE: i32 = -3;

// An answer of a reading as a result. A key's length and value are written on 0 only.
pub fn answered(
    answer: Result<Option<(usize, u64)>, Refusal>,
    len: &mut usize,
    value: &mut u64,
) -> i32
    ensures { AnswerLeaves answer len.old len.new value.old
        value.new result }
{
    match answer {
        Ok(Some((length, output))) => {
            *len = length;
            *value = output;
            OK
        }
        Ok(None) => END,
        Err(why) => code(why),
    }
}

// Why a range stopped, as a result.
pub fn stopped(stop: Result<Stop, Refusal>) -> i32
    ensures { result ≡ stop_of stop }
{
    match stop {
        Ok(Stop::End) => END,
        Ok(Stop::More) => MORE,
        Err(why) => code(why),
    }
}
