// The starts of a page of items: a reading for each file, between two bounds that all files share, still to be stepped.
// The two bounds are two values and no pair: C lends them one by one, and a start takes them so, since it walks along the lower one and keeps the upper one.
// The readings in use are the first count of eight: fixed memory. What is seen of them stands beside them, and the bytes of their keys.
#![tactic(auto)]

ghost use Rattle.std.specs.Prelude.{◌≡◌, map, ◌≤◌, take};
ghost use Rattle.ops_paging.specs.ItemPaging as P;
ghost use Rattle.stream_start.specs.Views.{bound_of};
ghost use Rattle.ops_starts.specs.StartedCards.{StartsBy};

use format::Refusal;
use ops_keys::KEYS;
use ops_live::Live;
use ops_round::Slot;
use ops_seen::Seen;
use std::ops::Bound;

// Starts a reading of each of the first count files. The first refusal in file order ends it: opening's refusals, BOUND, and those of the walk along the
// lower bound.
pub fn starts(
    files: [&[u8]; 8],
    count: usize,
    lower: Bound<&[u8]>,
    upper: Bound<&[u8]>,
    lives: &mut [Live; 8],
    keys: &mut [u8; KEYS],
    seen: &mut [Seen; 8],
) -> Result<(), Refusal>
    requires { count ≤ 8 }
    ensures { StartsBy (map (λ f. f.now) files.entry) count (bound_of upper.entry)
        (P.start_all (bound_of lower.entry) (bound_of upper.entry)
        (take count (map (λ f. f.now) files.entry))) lives.new keys.new seen.new result }
{
    // by index: i is the number of the key's row too, and four arrays zipped, cut at count and numbered would say the same in more words
    for i in 0..count {
        lives[i].begin(files[i], lower, upper)?;
        let key = lives[i].put_key(i, keys);
        seen[i] = Seen {
            key,
            slot: Slot::Used,
        };
    }
    Ok(())
}
