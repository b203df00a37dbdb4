// The steps of a round of a page: each reading whose key is used up goes on where it stands, and what is seen of it stands beside it.
// The readings in use are the first count of eight: fixed memory.
#![tactic(auto)]

ghost use Rattle.std.specs.Prelude.{◌≡◌, map, ◌≤◌};
ghost use Rattle.stream_start.specs.Views.{bound_of};
ghost use Rattle.ops_lives.specs.LiveRounds.{slot_after, Living, LivesStepped};

use format::Refusal;
use ops_keys::KEYS;
use ops_live::Live;
use ops_round::Slot;
use ops_seen::{Seen, is_used};
use std::ops::Bound;

// What an answer makes of a reading's slot.
fn slot_after(came: Option<u64>) -> Slot
    ensures { result ≡ slot_after came }
{
    match came {
        Some(value) => Slot::Holds(value),
        None => Slot::Ended,
    }
}

// Steps the first count readings, in file order, each whose key is used up. Whether one was stepped; the first refusal ends it.
pub fn step_lives(
    files: [&[u8]; 8],
    count: usize,
    upper: Bound<&[u8]>,
    lives: &mut [Live; 8],
    keys: &mut [u8; KEYS],
    seen: &mut [Seen; 8],
) -> Result<bool, Refusal>
    requires { (count ≤ 8) × Living (map (λ f. f.now) files) count (bound_of upper) lives.old }
    ensures { LivesStepped (map (λ f. f.now) files.entry) count (bound_of upper.entry)
        lives.old keys.old seen.old lives.new keys.new seen.new result }
{
    let mut moved = false;
    // by index: i is the number of the key's row too, and four arrays zipped, cut at count and numbered would say the same in more words
    for i in 0..count {
        // a held key has at most 256 levels, since its reading is one of this page
        if is_used(seen[i]) {
            let came = lives[i].step(files[i], upper)?;
            let key = lives[i].put_key(i, keys); // of the key that came
            let slot = slot_after(came);
            seen[i] = Seen { key, slot };
            moved = true;
        }
    }
    Ok(moved)
}
