// How the keys of a range stand to its upper bound, by one byte for each transition: how many leading bytes agree with the bound, and on which side of it
// the first byte that does not.
#![tactic(auto)]

ghost use Rattle.std.specs.Prelude.{List, ℕ, ◌+◌, ◌<◌, length, drop, set};
ghost use Rattle.format.specs.Limits.{max_levels};
ghost use Rattle.reading.specs.Reading as R;
ghost use Rattle.stream_start.specs.Views.{bound_of};
ghost use Rattle.range_bound.specs.Besides.{end_at, SideOf, Beside, Followed, CutTo};

use std::cmp::Ordering;
use std::ops::Bound;
use stream_levels::Stack;

// Where a key lies whose bytes before the last agree with the bound: below it, with all that it begins; along it; or past it, with all that it begins.
// No `Ordering`: a key along the bound need not be equal to it, and a byte equal to the bound's last one is past it where the bound is excluded.
#[derive(Clone, Copy)]
pub enum Side {
    Below,
    Along,
    Past,
}

// How many leading bytes of a key agree with the bound, and whether the key is past it where it has more.
#[derive(Clone, Copy)]
pub struct Standing {
    pub same: usize,
    pub over: bool,
}

// A byte x after k bytes that agree with those of a bound, which is excluded or not.
fn against(x: u8, k: usize, bound: &[u8], excluded: bool) -> Side
    ensures { SideOf (end_at excluded bound.now) bound.now k x result }
{
    let Some(y) = bound.get(k) else {
        return Side::Past;
    };
    match x.cmp(y) {
        Ordering::Less => Side::Below,
        Ordering::Greater => Side::Past,
        Ordering::Equal => {
            // the bound's own key
            if k + 1 == bound.len() && excluded {
                return Side::Past;
            }
            Side::Along
        }
    }
}

// A byte x after k bytes that agree with a bound.
fn side_of(x: u8, k: usize, upper: Bound<&[u8]>) -> Side
    ensures { SideOf (bound_of upper.entry) (R.bound_bytes (bound_of upper.entry)) k x result }
{
    match upper {
        Bound::Unbounded => Side::Below,
        Bound::Included(bytes) => against(x, k, bytes, false),
        Bound::Excluded(bytes) => against(x, k, bytes, true),
    }
}

impl Standing {
    // After one byte more, x, behind k bytes: how many leading bytes agree now, or none where the key passes the bound. No byte before x is
    // looked at again.
    pub fn follow(self, x: u8, k: usize, upper: Bound<&[u8]>) -> Option<usize>
        requires { k < max_levels }
        ensures { (is : List ℕ) → k + 1 < length is
            → Beside (bound_of upper.entry) (R.bound_bytes (bound_of upper.entry)) (drop 1 is) k self.same self.over
            → Followed (bound_of upper.entry) (R.bound_bytes (bound_of upper.entry))
            (drop 1 (set is (k + 1) x)) (k + 1) self.over result }
    {
        if self.same < k {
            if self.over {
                return None;
            }
            return Some(self.same);
        }
        match side_of(x, k, upper) {
            Side::Below => Some(self.same),
            Side::Along => Some(k + 1),
            Side::Past => None,
        }
    }

    // Once only the first `top` bytes of the key are left.
    pub fn cut(self, top: usize) -> Standing
        ensures { CutTo self.same self.over top result.same result.over }
    {
        if self.same < top {
            return self;
        }
        Standing {
            same: top,
            over: false,
        }
    }
}

// How the key of the k inputs after the first stands to a bound.
pub fn stand(stack: &Stack, k: usize, upper: Bound<&[u8]>) -> Standing
    requires { k < max_levels }
    ensures { Beside (bound_of upper.entry) (R.bound_bytes (bound_of upper.entry))
        (drop 1 stack.now.inps) k result.same result.over }
{
    for (i, x) in stack.inps[1..=k].iter().enumerate() {
        match side_of(*x, i, upper) {
            Side::Below => {
                return Standing {
                    same: i,
                    over: false,
                };
            }
            Side::Past => {
                return Standing {
                    same: i,
                    over: true,
                };
            }
            Side::Along => {}
        }
    }
    Standing {
        same: k,
        over: false,
    }
}
