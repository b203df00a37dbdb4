// A call of next by pattern once its tests are passed: the walk to the next key that fits, and a pending empty key before it.
#![tactic(auto)]

ghost use Rattle.std.proofs.Math.Option.{some};
ghost use Rattle.std.specs.Prelude.{◌≤◌, ◌<◌, length};
ghost use Rattle.format.specs.Limits.{max_path, max_levels};
ghost use Rattle.format.specs.View.{fst_is};
ghost use Rattle.stream_start.specs.Views.{view_is};
ghost use Rattle.stream_step.specs.Stepped.{Stepped};
ghost use Rattle.pattern.specs.Pattern.{pending_by};
ghost use Rattle.patterned_held.specs.HeldPatterns.{held_is};
ghost use Rattle.patterned_pending.specs.PendingWalks.{walk_of};

use format::FstRef;
use patterned_held::Pattern;
use patterned_walk::walk_by;
use stream_bounds::exceeded;
use stream_start::Reading;
use stream_step::{Step, ended, found, placed};

// The walk, where no empty key is pending or it is dropped. The levels are copied, so that a refusal gives the reading back as it was.
pub fn walk(fst: FstRef<'_>, reading: Reading, pattern: Pattern, key: &mut [u8]) -> Step<Reading>
    requires { (reading.levels ≤ max_levels) × (reading.bound_len ≤ max_path)
        × (fst.root < 4294967296) × (max_path ≤ length key.old) × (pattern.len ≤ max_path) }
    ensures { Stepped (walk_of (fst_is fst.entry) (held_is pattern)
        (view_is reading)) key.old key.new result }
{
    let mut stack = reading.stack;
    let walked = match walk_by(fst, &reading, &mut stack, &pattern) {
        Ok(walked) => walked,
        Err(why) => return Step::refused(reading, why),
    };
    let Some((k, value)) = walked.found else {
        return ended(reading, walked.total);
    };
    key[..k].copy_from_slice(&stack.inps[1..k + 1]);
    found(reading, stack, k, value, walked.total)
}

// The pending empty key: the end where it passes the upper bound; else it is handed out where it fits, or dropped, and the same call walks on.
pub fn pending(
    fst: FstRef<'_>,
    reading: Reading,
    value: u64,
    pattern: Pattern,
    key: &mut [u8],
) -> Step<Reading>
    requires { (reading.levels ≤ max_levels) × (reading.bound_len ≤ max_path)
        × (fst.root < 4294967296) × (max_path ≤ length key.old) × (pattern.len ≤ max_path) }
    ensures { Stepped (pending_by (fst_is fst.entry) (held_is pattern)
        (view_is reading) (some value)) key.old key.new result }
{
    if exceeded(reading.upper(), &[]) {
        return ended(reading, reading.total);
    }
    let fits = pattern.len == 0;
    if fits {
        return Step {
            answer: Ok(Some((0, value))),
            reading: placed(reading, reading.levels, reading.total),
        };
    }
    walk(fst, reading, pattern, key)
}
