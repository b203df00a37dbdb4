// How much of a key fits a pattern: the tests of a reading by pattern.
// That at most 255 positions are stated is asked where they are read: a pattern made by hand may state more, and a call refuses it.
#![tactic(auto)]

ghost use Rattle.std.specs.Prelude.{◌≡◌, cond, ◌&&◌, suc, ◌-◌, ◌≤◌, ◌<◌, ltb, take, drop};
ghost use Rattle.format.specs.Limits.{max_path, max_levels};
ghost use Rattle.pattern.specs.Pattern.{at_test};
ghost use Rattle.pattern.specs.FitCount.{fit_count, place_test, goes_on, key_fits};
ghost use Rattle.patterned_fit.specs.Positions.{position_is, positions_is};

use format::MAX_KEY;
use stream_levels::Stack;

// A pattern, passed by value. A position below 256 is its byte, any other number is any byte, so that no position can be wrong. Entries past the
// pattern's length carry no meaning: a length stands beside the array, since there is no heap for a list, and C lends the room for 255 positions.
#[derive(Clone, Copy)]
pub struct Pattern {
    pub len: usize,
    // whether any rest may follow the positions
    pub rest: bool,
    pub positions: [u16; MAX_KEY],
}

// Whether a byte fits a position: below 256 a position is its byte, and any other number is any byte.
fn fits_at(position: u16, b: u8) -> bool
    ensures { result ≡ at_test (position_is position) b }
{
    256 <= position || position == u16::from(b)
}

impl Pattern {
    // Whether the byte b fits at place i; past the positions any byte does.
    fn fits_place(&self, i: usize, b: u8) -> bool
        requires { self.now.len ≤ max_path }
        ensures { result ≡ place_test (positions_is self.now.len self.now.positions) i b }
    {
        if i < self.len {
            return fits_at(self.positions[i], b);
        }
        true
    }

    // How many of the k inputs after the first fit their positions, up to the first that does not.
    fn count_of(&self, stack: &Stack, k: usize) -> usize
        requires { (k < max_levels) × (self.now.len ≤ max_path) }
        ensures { result ≡ fit_count (positions_is self.now.len self.now.positions)
            (take k (drop 1 stack.now.inps)) }
    {
        for (i, b) in stack.inps[1..=k].iter().enumerate() {
            if !self.fits_place(i, *b) {
                return i;
            }
        }
        k
    }

    // The same of the key of a reading's first levels: the inputs of all but the first level.
    pub fn fit_of(&self, stack: &Stack, levels: usize) -> usize
        requires { (levels ≤ max_levels) × (self.now.len ≤ max_path) }
        ensures { result ≡ fit_count (positions_is self.now.len self.now.positions)
            (take (levels - 1) (drop 1 stack.now.inps)) }
    {
        if levels == 0 {
            return 0;
        }
        self.count_of(stack, levels - 1)
    }

    // The number of a key of k bytes that all fit, after the byte b is put behind it.
    pub fn fit_after(&self, k: usize, b: u8) -> usize
        requires { (self.now.len ≤ max_path) × (k < max_path) }
        ensures { result ≡ cond (place_test (positions_is self.now.len self.now.positions) k b) (suc k)
            k }
    {
        if self.fits_place(k, b) {
            return k + 1;
        }
        k
    }

    // Whether a level with k bytes, of which fit do, can go on: one byte past the whole pattern is still followed.
    fn goes_on(&self, k: usize, fit: usize) -> bool
        ensures { result ≡ goes_on fit self.now.len self.now.rest k }
    {
        k <= fit && (k <= self.len || self.rest)
    }

    // Whether a level is left by its next transition: it has one, and its bytes fit the pattern's start.
    pub fn live(&self, place: usize, ntrans: usize, k: usize, fit: usize) -> bool
        ensures { result ≡ (ltb place ntrans && goes_on fit self.now.len self.now.rest k) }
    {
        place < ntrans && self.goes_on(k, fit)
    }

    // Whether a key is handed out: its node is final, and it fits.
    pub fn is_key(&self, is_final: bool, k: usize, fit: usize) -> bool
        ensures { result ≡ (is_final && key_fits fit self.now.len self.now.rest k) }
    {
        is_final && self.len <= k && self.goes_on(k, fit)
    }
}
