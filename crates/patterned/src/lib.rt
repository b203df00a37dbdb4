// Readings by pattern (src/raw/mod.rs: `next_with` with an automaton for the pattern): the keys between two bounds that fit, on any file, admitted
// or not, and from any reading, also one that no start gave.
// A start is given its pattern as the C caller has it, positions and whether any rest may follow.
// The two bounds are two values and no struct: a start hands them on to stream_start's, which makes its walk with the lower and keeps the upper.
#![tactic(auto)]

ghost use Rattle.std.specs.Prelude.{◌<◌, length};
ghost use Rattle.stream_start.specs.Views.{bound_of, view_is};
ghost use Rattle.pattern.specs.Pattern.{start_by, next_by};
ghost use Rattle.patterned_held.specs.HeldPatterns.{held_is, given_is};
ghost use Rattle.patterned.specs.Patterns.{StartedBy, SteppedBy};

use format::{MAX_KEY, Refusal};
use patterned_held::{Pattern, hold};
use patterned_step::step;
use std::ops::Bound;
use stream_start::Reading;
use stream_step::Step;

// A reading by pattern, passed by value. Its own type, so that a request for a plain reading cannot be handed one.
#[derive(Clone, Copy)]
pub struct Patterned {
    pub reading: Reading,
    pub pattern: Pattern,
}

// ---- start

// A reading of the keys between two bounds that fit the positions, with any rest behind them or none. Opening's refusals, then PATTERN for over 255
// positions, then all else as a start without one: the pattern does not touch the walk along the lower bound.
pub fn start(
    file: &[u8],
    positions: &[u16],
    rest: bool,
    lower: Bound<&[u8]>,
    upper: Bound<&[u8]>,
) -> Result<Patterned, Refusal>
    ensures { StartedBy (start_by file.now (given_is positions.now rest)
        (bound_of lower.entry) (bound_of upper.entry))
        (given_is positions.now rest) result }
{
    let too_many = MAX_KEY < positions.len();
    if too_many {
        fst::open(file)?;
        return Err(Refusal::Pattern);
    }
    let reading = stream_start::start(file, lower, upper)?;
    Ok(Patterned {
        reading,
        pattern: hold(positions, rest),
    })
}

// ---- next

// The next key between the bounds that fits. Opening's refusals, then STATE, then PATTERN for over 255 held positions, then SPACE for a buffer under
// 255; a pending empty key is handed out, ends the reading or is dropped; then NODE for each level that is looked at, and for each transition that is
// followed DEEP, SUM for the running sum, NODE for its target, the upper bound, and SUM with the final output where the key fits. The buffer is
// written only where a key is found: the key from its first byte on. After a refusal the reading is the one given. A call may follow any number of
// transitions.
pub fn next(file: &[u8], patterned: Patterned, key: &mut [u8]) -> Step<Patterned>
    ensures { SteppedBy (next_by file.now (held_is patterned.pattern)
        (view_is patterned.reading) (length key.old)) patterned.pattern
        key.old key.new result }
{
    let stepped = step(file, patterned.reading, patterned.pattern, key);
    Step {
        answer: stepped.answer,
        reading: Patterned {
            reading: stepped.reading,
            ..patterned
        },
    }
}
