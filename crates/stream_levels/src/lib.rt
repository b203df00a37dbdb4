// The levels of a walk: the writing of one, and the last of a walk along a lower bound (src/raw/mod.rs: `StreamState`, the stack, `seek_min`).
#![tactic(auto)]

ghost use Rattle.std.specs.Prelude.{◌≡◌, ◌-◌, ◌<◌, get_or};
ghost use Rattle.format.specs.Limits.{max_levels};
ghost use Rattle.reading.specs.Reading as R;
ghost use Rattle.stream_levels.specs.Stacks.{Arrays, stack_of, no_levels, LevelPut, LevelsEnd};

use format::LEVELS;

// The levels, the first at place 0. How many of them are in use is a number of its own: a walk knows it only at its end. Four arrays, as the C caller holds
// a reading's levels; an array of levels would take 16 bytes a level in the place of 15, on the stack of each call that has a reading.
#[derive(Clone, Copy)]
pub struct Stack {
    // the node's address
    pub addrs: [u32; LEVELS],
    // the byte that led there, 0 at the first level
    pub inps: [u8; LEVELS],
    // the next transition
    pub trans: [u16; LEVELS],
    // the sum of the outputs up to the node
    pub outs: [u64; LEVELS],
}

impl Stack {
    // No levels.
    pub fn new() -> Stack
        ensures { result ≡ no_levels }
    {
        Stack {
            addrs: [0; LEVELS],
            inps: [0; LEVELS],
            trans: [0; LEVELS],
            outs: [0; LEVELS],
        }
    }

    // The four arrays have the lengths that their types say.
    pub fn are_arrays(&self)
        ensures { Arrays self.now.addrs self.now.inps self.now.trans self.now.outs }
    {}

    // Writes level k.
    pub fn put(&mut self, k: usize, addr: u32, inp: u8, place: u16, out: u64)
        requires { k < max_levels }
        ensures { LevelPut k (R.level_with addr inp place out) (stack_of k self.old)
            self.new.addrs self.new.inps self.new.trans self.new.outs }
    {
        self.addrs[k] = addr;
        self.inps[k] = inp;
        self.trans[k] = place;
        self.outs[k] = out;
    }

    // Where the bound ends, k levels below the node at addr: the level of that node is written, or for a bound that is included the last
    // level goes back to the transition that led there. The answer is the number of levels.
    pub fn last_levels(&mut self, k: usize, inclusive: bool, addr: u32, inp: u8, out: u64) -> usize
        requires { (k < max_levels) × (0 < k → 0 < get_or self.old.trans (k - 1) 0) }
        ensures { LevelsEnd result (R.last_levels inclusive (R.level_with addr inp 0 out)
            (stack_of k self.old)) self.new.addrs self.new.inps self.new.trans self.new.outs }
    {
        if inclusive && 0 < k {
            self.trans[k - 1] -= 1;
            return k;
        }
        self.put(k, addr, inp, 0, out);
        k + 1
    }
}
