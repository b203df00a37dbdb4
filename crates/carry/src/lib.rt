// A reading carried to another file (document 02, N8), so that it goes on there where it stood. Any two files, any reading, also one that no start gave.
// What the request promises of the keys to come it promises for a file's conversion alone: on any other file the walk may pass and the keys differ.
#![tactic(auto)]

ghost use Rattle.std.specs.Prelude.{◌≡◌, true, ◌≤◌, ◌<◌, length};
ghost use Rattle.format.specs.Limits.{max_levels};
ghost use Rattle.format.specs.View.{fst_is};
ghost use Rattle.stream_start.specs.Views.{view_is, stack_of};
ghost use Rattle.stream.specs.Plains.{plain_is};
ghost use Rattle.patterned_held.specs.HeldPatterns.{held_is};
ghost use Rattle.carrying.specs.Carry as C;
ghost use Rattle.carry.specs.Carries.{carried_is, carried_plain_is, PatternedCarried};

use carry_levels::carry_levels;
use format::{FstRef, LEVELS, MAX_KEY, Refusal};
use patterned::Patterned;
use stream::Plain;
use stream_bounds::state_right;
use stream_levels::Stack;
use stream_start::Reading;

// Between two files that open, a reading that a next on the old one takes: at its new addresses, with the new file's length; all else is copied.
fn carry_opened(old: FstRef<'_>, new: FstRef<'_>, reading: Reading) -> Result<Reading, Refusal>
    requires { (new.root < 4294967296) × (reading.levels ≤ max_levels) }
    ensures { carried_is result ≡ C.after_levels (length new.entry.bytes.now) (view_is reading)
        (C.carry_levels (fst_is old.entry) (fst_is new.entry) (stack_of reading.levels reading.stack)) }
{
    let mut addrs = [0u32; LEVELS];
    carry_levels(old, new, &reading, &mut addrs)?;
    Ok(Reading {
        len: new.bytes.len(),
        stack: Stack {
            addrs,
            ..reading.stack
        },
        ..reading
    })
}

// The old file's refusals, the new file's, STATE as a next on the old file judges it, PATTERN where a pattern does not fit, then the levels.
fn carry_reading(old: &[u8], new: &[u8], reading: Reading, fits: bool) -> Result<Reading, Refusal>
    ensures { carried_is result ≡ C.carry_with fits old.now new.now (view_is reading) }
{
    let m = fst::open(old)?;
    let q = fst::open(new)?;
    if !state_right(&reading, old.len()) {
        return Err(Refusal::State);
    }
    if !fits {
        return Err(Refusal::Pattern);
    }
    carry_opened(m.over(old), q.over(new), reading)
}

// A plain reading of the old file as a reading of the new one, at the same place. Opening's refusals of the old file, then of the new one, then STATE
// by the old file, then level by level, from the first: NODE in the old file, CARRY where the new file lacks the byte that led to the level, NODE in
// the new file, CARRY for another transition count or another running value. Neither bound is walked again. The number of keys to come, the total,
// the next places, the upper bound and the pending empty key are copied.
pub fn carry(old: &[u8], new: &[u8], plain: Plain) -> Result<Plain, Refusal>
    ensures { carried_plain_is result ≡ C.carry_plain old.now new.now
        (plain_is plain) }
{
    let reading = carry_reading(old, new, plain.reading, true)?;
    Ok(Plain { reading, ..plain })
}

// The same of a reading by pattern, with PATTERN, after STATE, for over 255 held positions. The pattern stays as it is.
pub fn carry_by(old: &[u8], new: &[u8], patterned: Patterned) -> Result<Patterned, Refusal>
    ensures { PatternedCarried (C.carry_by old.now new.now
        (held_is patterned.pattern) (view_is patterned.reading)) patterned result }
{
    let fits = patterned.pattern.len <= MAX_KEY;
    let reading = carry_reading(old, new, patterned.reading, fits)?;
    Ok(Patterned {
        reading,
        ..patterned
    })
}
