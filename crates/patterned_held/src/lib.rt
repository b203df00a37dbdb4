// A pattern as a reading holds it, and how a start's positions are held.
#![tactic(auto)]

ghost use Rattle.std.specs.Prelude.{◌≡◌, ◌≤◌, length};
ghost use Rattle.format.specs.Limits.{max_path};
ghost use Rattle.patterned_held.specs.HeldPatterns.{held_is, given_is};

use format::MAX_KEY;
pub use patterned_fit::Pattern;

// The given positions, held.
pub fn hold(positions: &[u16], rest: bool) -> Pattern
    requires { length positions.now ≤ max_path }
    ensures { held_is result ≡ given_is positions.now rest }
{
    let mut held = [0u16; MAX_KEY];
    let len = positions.len();
    held[..len].copy_from_slice(positions);
    Pattern {
        len,
        rest,
        positions: held,
    }
}
