// A call of next on a reading and a pattern: what it tests, in its order.
#![tactic(auto)]

ghost use Rattle.std.specs.Prelude.{length};
ghost use Rattle.stream_start.specs.Views.{view_is};
ghost use Rattle.stream_step.specs.Stepped.{Stepped};
ghost use Rattle.pattern.specs.Pattern.{next_by};
ghost use Rattle.patterned_held.specs.HeldPatterns.{held_is};

use format::{MAX_KEY, Refusal};
use patterned_held::Pattern;
use patterned_pending::{pending, walk};
use stream_start::Reading;
use stream_step::{Step, judge};

// A call of next on a reading and a pattern.
pub fn step(file: &[u8], reading: Reading, pattern: Pattern, key: &mut [u8]) -> Step<Reading>
    ensures { Stepped (next_by file.now (held_is pattern) (view_is reading)
        (length key.old)) key.old key.new result }
{
    let fst = match judge(file, &reading) {
        Ok(fst) => fst,
        Err(why) => return Step::refused(reading, why),
    };
    let too_many = MAX_KEY < pattern.len;
    if too_many {
        return Step::refused(reading, Refusal::Pattern);
    }
    if key.len() < MAX_KEY {
        return Step::refused(reading, Refusal::Space);
    }
    match reading.empty_output {
        Some(value) => pending(fst, reading, value, pattern, key),
        None => walk(fst, reading, pattern, key),
    }
}
