// The next key of a reading (src/raw/mod.rs: `next_with` with `AlwaysMatch`), on any file, admitted or not, and from any reading, also one
// that no start gave.
#![tactic(auto)]

ghost use Rattle.std.specs.Prelude.{◌≡◌, List, ℕ, ◌≤◌, ◌<◌, length, take, Ok};
ghost use Rattle.std.proofs.Math.Option.{Option, none, some};
ghost use Rattle.format.specs.Limits.{max_path, max_levels};
ghost use Rattle.format.specs.Paths.{Fst};
ghost use Rattle.format.specs.View.{fst_is};
ghost use Rattle.reading.specs.Reading as R;
ghost use Rattle.stream_start.specs.Views.{view_is, bound_of, bound_is, stack_of};
ghost use Rattle.stream_step.specs.Stepped.{Stepped};
ghost use Rattle.stream_next.specs.Going.{view_with, GoneBy, step_of};

use format::{FstRef, MAX_KEY, Refusal};
use std::ops::Bound;
use stream_bounds::exceeded;
use stream_descend::{Followed, descend};
use stream_levels::Stack;
use stream_pop::highest;
use stream_start::Reading;
use stream_step::{Step, judge};

// The pending empty key, or the end where that key passes the upper bound.
fn pending(reading: &mut Reading, value: u64) -> Option<(usize, u64)>
    requires { reading.old.bound_len ≤ max_path }
    ensures { (f : Fst) (buf : List ℕ) → Stepped (R.walk f (view_is reading.old) (some value))
        buf buf (step_of reading.old reading.new (Ok result)) }
{
    reading.empty_output = None;
    if exceeded(reading.upper(), &[]) {
        reading.levels = 0;
        return None;
    }
    Some((0, value))
}

// A bound of this kind with the first so many of these bytes.
fn upper_of<'b>(kind: Bound<()>, bytes: &'b [u8; MAX_KEY], n: usize) -> Bound<&'b [u8]>
    requires { n ≤ max_path }
    ensures { bound_of result ≡ bound_is kind (take n bytes.now) }
{
    let front = &bytes[..n];
    kind.map(|()| front)
}

// The walk, where no empty key is pending, over these levels of the stack. Its levels are those after the key where one is found, and else of no
// meaning. The place of the level where a key ends is the key's length.
fn walk(
    fst: FstRef<'_>,
    levels: usize,
    total: u64,
    upper: Bound<&[u8]>,
    stack: &mut Stack,
    key: &mut [u8],
) -> Result<Followed, Refusal>
    requires { (levels ≤ max_levels) × (fst.root < 4294967296) × (max_path ≤ length key.old) }
    ensures { (len n : ℕ) (e : Option ℕ) → GoneBy (R.walk (fst_is fst.entry)
        (view_with len (bound_of upper.entry) n e total (stack_of levels stack.old)) none)
        (view_with len (bound_of upper.entry) n e total (stack_of levels stack.old)) key.old key.new
        stack.new.addrs stack.new.inps stack.new.trans stack.new.outs result }
{
    let Some((top, node)) = highest(fst, stack, levels)? else {
        return Ok(Followed { found: None, total });
    };
    let followed = descend(fst, top, node, total, stack, upper)?;
    if let Some((k, _)) = followed.found {
        // out of a copy: between two lent buffers this is compiled to a call of `memmove`, and the library for C may call `memcpy` and `memset` alone
        let inps = stack.inps;
        buffers::copy_front(&inps[1..], k, key);
    }
    Ok(followed)
}

// One call of next on a reading that stays where it is: the key's length and its value, or none at the end. After a refusal the reading carries no
// meaning, so a caller that goes on after one keeps a copy, as `next` does.
pub fn turn(
    file: &[u8],
    reading: &mut Reading,
    key: &mut [u8],
) -> Result<Option<(usize, u64)>, Refusal>
    ensures { Stepped (R.next file.now (view_is reading.old) (length key.old)) key.old key.new
        (step_of reading.old reading.new result) }
{
    let fst = judge(file, reading)?;
    let short = key.len() < MAX_KEY;
    if short {
        return Err(Refusal::Space);
    }
    if let Some(value) = reading.empty_output {
        return Ok(pending(reading, value));
    }
    // not by `Reading::upper`, which would hold the whole reading while the walk writes its stack
    let upper = upper_of(reading.kind, &reading.bound, reading.bound_len);
    let walked = walk(
        fst,
        reading.levels,
        reading.total,
        upper,
        &mut reading.stack,
        key,
    )?;
    reading.total = walked.total;
    reading.levels = match walked.found {
        Some((k, _)) => k + 1,
        None => 0,
    };
    Ok(walked.found)
}

// The next key between the bounds. Opening's refusals, then STATE, then SPACE for a buffer under 255; a pending empty key is handed out, or
// ends the reading, before any node is judged; then NODE for each level that is looked at, and for each transition that is followed DEEP,
// SUM for the running sum, NODE for its target, the upper bound, and SUM with the final output. The buffer is written only where a key is
// found: the key from its first byte on. After a refusal the reading is the one given.
// It stands inline in each caller, where a reading that is handed on and taken back is copied less often.
#[inline(always)]
pub fn next(file: &[u8], reading: Reading, key: &mut [u8]) -> Step<Reading>
    ensures { Stepped (R.next file.now (view_is reading)
        (length key.old)) key.old key.new result }
{
    let mut after = reading;
    match turn(file, &mut after, key) {
        Err(why) => Step::refused(reading, why),
        Ok(found) => Step {
            answer: Ok(found),
            reading: after,
        },
    }
}
