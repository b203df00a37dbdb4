// What a call of next judges first, what it gives back, and the end of a reading.
#![tactic(auto)]

ghost use Rattle.std.specs.Prelude.{◌≡◌, ◌<◌, List, ℕ, Err};
ghost use Rattle.format.specs.Limits.{max_levels};
ghost use Rattle.stream_start.specs.Views.{view_is};
ghost use Rattle.stream_step.specs.Judged.{judging, judged_is};
ghost use Rattle.stream_step.specs.Stepped.{Stepped};
ghost use Rattle.stream_step.specs.Steps.{placed_at, ended_at, found_at};

use format::{FstRef, Refusal};
use stream_bounds::state_right;
use stream_levels::Stack;
use stream_start::Reading;

// What a call of next gives back: a key's length and value, none where no key is left, or why it refuses; and the reading after it, of whatever kind.
// The answer stands beside the reading, and the two are no Result: a caller may go on with the reading that is given back, after a refusal too.
#[derive(Clone, Copy)]
pub struct Step<R> {
    pub answer: Result<Option<(usize, u64)>, Refusal>,
    pub reading: R,
}

impl<R> Step<R> {
    // A refusal, with the reading as it was.
    pub fn refused(reading: R, why: Refusal) -> Step<R>
        ensures { (result.answer ≡ Err why) × (result.reading ≡ reading) }
    {
        Step {
            answer: Err(why),
            reading,
        }
    }
}

// What a call of next judges first: opening's refusals, then STATE for a reading that cannot go on with this file.
pub fn judge<'f>(file: &'f [u8], reading: &Reading) -> Result<FstRef<'f>, Refusal>
    ensures { judged_is result ≡ judging file.now (view_is reading.now) }
{
    let m = fst::open(file)?;
    if !state_right(reading, file.len()) {
        return Err(Refusal::State);
    }
    Ok(m.over(file))
}

// The reading with this many levels, this total and nothing pending.
pub fn placed(reading: Reading, levels: usize, total: u64) -> Reading
    ensures { result ≡ placed_at reading levels total }
{
    Reading {
        empty_output: None,
        total,
        levels,
        ..reading
    }
}

// The end: no level is left, so that every later call ends too.
pub fn ended(reading: Reading, total: u64) -> Step<Reading>
    ensures { (buf : List ℕ) → Stepped (ended_at (view_is reading) total) buf buf result }
{
    Step {
        answer: Ok(None),
        reading: placed(reading, 0, total),
    }
}

// A key of k bytes: the reading behind it, whose levels are the first k + 1 of this stack.
#[inline(always)]
pub fn found(reading: Reading, stack: Stack, k: usize, value: u64, total: u64) -> Step<Reading>
    requires { k < max_levels }
    ensures { result ≡ found_at reading stack k value total }
{
    Step {
        answer: Ok(Some((k, value))),
        reading: Reading {
            empty_output: None,
            total,
            levels: k + 1,
            stack,
            ..reading
        },
    }
}
