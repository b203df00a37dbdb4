// A reading of a page, which stays where it stands: its start, its step to the next key, and the bytes of its key. Every level is that of a node that this
// page has judged, so none is judged again (range_turn), and no step copies a reading.
// The two bounds are two values and no pair: the start walks along the lower one, and each step is made up to the upper one.
#![tactic(auto)]

ghost use Rattle.std.specs.Prelude.{◌≡◌, ◌<◌, ℕ};
ghost use Rattle.format.specs.Limits.{max_path};
ghost use Rattle.reading.specs.Reading as R;
ghost use Rattle.stream_start.specs.Views.{bound_of};
ghost use Rattle.ops_live.specs.Lives.{no_live, Fit, view_from, BeginsAs, OverAs, TurnTold, StepGave, KeyPut};

use format::{FstRef, LEVELS, Refusal};
use ops_keys::{KEYS, Place};
use range_bound::{Standing, stand};
use range_turn::step_on;
use std::ops::Bound;
use stream_bounds::exceeded;
use stream_levels::Stack;
use stream_start::{bounds_right, pending_at, start_levels};

// A reading of a page: the version and the root of its file, the pending empty key's value, the number of keys to come, how its key stands to the upper
// bound, and its levels. The file and the upper bound are lent to each step, and no transition is counted.
#[derive(Clone, Copy)]
pub struct Live {
    pub version: u64,
    pub root: usize,
    pub empty: Option<u64>,
    pub keys: u64,
    pub standing: Standing,
    pub levels: usize,
    pub stack: Stack,
}

// How no key stands to a bound.
const NOWHERE: Standing = Standing {
    same: 0,
    over: false,
};

// A reading that is still to be started.
pub fn no_live() -> Live
    ensures { result ≡ no_live }
{
    Live {
        version: 0,
        root: 0,
        empty: None,
        keys: 0,
        standing: NOWHERE,
        levels: 0,
        stack: Stack::new(),
    }
}

impl Live {
    // Starts a reading here, with as many keys to come as a number can say. Opening's refusals, BOUND, and those of the walk along the lower bound.
    pub fn begin(
        &mut self,
        file: &[u8],
        lower: Bound<&[u8]>,
        upper: Bound<&[u8]>,
    ) -> Result<(), Refusal>
        ensures { BeginsAs file.now (bound_of upper.entry) self.new
            (R.start file.now (bound_of lower.entry) (bound_of upper.entry)) result }
    {
        let m = fst::open(file)?;
        if !bounds_right(lower, upper) {
            return Err(Refusal::Bound);
        }
        let fst = m.over(file);
        let levels = start_levels(fst, lower, &mut self.stack)?;
        self.version = fst.version;
        self.root = fst.root;
        self.empty = pending_at(fst, lower);
        self.keys = u64::MAX;
        self.levels = levels;
        self.standing = stand(&self.stack, levels.saturating_sub(1), upper);
        Ok(())
    }

    // The reading is over: no level is left, and nothing is pending.
    fn end(&mut self)
        ensures { OverAs self.old self.new }
    {
        self.empty = None;
        self.standing = NOWHERE;
        self.levels = 0;
    }

    // The value of the next key, whatever the number of keys to come says.
    fn turn(&mut self, file: &[u8], upper: Bound<&[u8]>) -> Result<Option<u64>, Refusal>
        requires { Fit file.now (bound_of upper) self.old }
        ensures { (t : ℕ) → TurnTold file.now (bound_of upper.entry) t self.old self.new result }
    {
        if let Some(value) = self.empty {
            if exceeded(upper, &[]) {
                self.end();
                return Ok(None);
            }
            self.empty = None; // handed out once
            return Ok(Some(value));
        }
        let fst = FstRef {
            bytes: file,
            version: self.version,
            root: self.root,
        };
        let Some(next) = step_on(fst, self.levels, &mut self.stack, upper, self.standing)? else {
            self.end();
            return Ok(None);
        };
        self.standing = Standing {
            same: next.same,
            over: false,
        };
        self.levels = next.level + 1;
        Ok(Some(next.value))
    }

    // The value of the next key, and none at the end. NODE, DEEP and SUM as a call of next answers them, and STATE for a key where no key is to come. A key
    // lowers the number of keys to come by one. A refusal ends the page, so nothing is restored.
    pub fn step(&mut self, file: &[u8], upper: Bound<&[u8]>) -> Result<Option<u64>, Refusal>
        requires { Fit file.now (bound_of upper) self.old }
        ensures { (t : ℕ) → StepGave file.now (bound_of upper.entry) t self.old self.new result }
    {
        let Some(value) = self.turn(file, upper)? else {
            return Ok(None);
        };
        if self.keys == 0 {
            return Err(Refusal::State);
        }
        self.keys -= 1;
        Ok(Some(value))
    }

    // Puts the bytes of the key among the eight, as number i. The other keys stay as they are.
    pub fn put_key(&self, i: usize, keys: &mut [u8; KEYS]) -> Place
        requires { i < 8 }
        ensures { KeyPut self.now i keys.old keys.new result }
    {
        let from = i * LEVELS;
        keys[from..from + LEVELS].copy_from_slice(&self.stack.inps);
        Place {
            at: i,
            levels: self.levels,
        }
    }
}
