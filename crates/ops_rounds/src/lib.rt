// The rounds of a call of an operation: steps, and what they come to, until there is an item, the end or a refusal. The cards stay where the caller has them.
// The cards in use are the first count of eight: fixed memory.
#![tactic(auto)]

ghost use Rattle.std.specs.Prelude.{◌≡◌, false, ◌||◌, map, ◌≤◌, ◌<◌, leb};
ghost use Rattle.format.specs.Limits.{max_path};
ghost use Rattle.ops_spec.specs.OpsFuelLaws.{rounds_by};
ghost use Rattle.ops_round.specs.Cards.{cards_is};
ghost use Rattle.ops_decide.specs.Verdicts.{op_is};
ghost use Rattle.ops_rounds.specs.Turns.{called_with, CalledBy};

use format::{MAX_KEY, Refusal};
use ops_decide::{Op, Verdict, decide};
use ops_keys::{Head, KEYS, head_at};
use ops_pairs::Pairs;
use ops_round::Card;
use ops_seen::{deal, see};
use ops_turn::step_cards;

// Whether a round may be decided: a reading was stepped in this call, before this round or in it, or the buffer has room for every key.
fn has_room(before: bool, stepped: bool, space: usize) -> bool
    ensures { result ≡ ((before || stepped) || leb max_path space) }
{
    if before {
        return true;
    }
    if stepped {
        return true;
    }
    MAX_KEY <= space
}

// The rounds of a call: each steps the cards whose keys are used up, and decides. The item's key and values, and none at the end. SPACE where no reading was
// stepped in this call and the buffer is too short for some key. After a refusal the cards carry no meaning.
pub fn rounds(
    files: [&[u8]; 8],
    op: Op,
    count: usize,
    cards: &mut [Card; 8],
    space: usize,
) -> Result<Option<(Head, Pairs)>, Refusal>
    requires { (0 < count) × (count ≤ 8) }
    ensures { CalledBy (map (λ f. f.now) files.entry) count cards.old (rounds_by (op_is op) space false
        (cards_is (map (λ f. f.now) files.entry) count cards.old))
        (called_with cards.new result) }
{
    let mut keys = [0u8; KEYS];
    let mut seen = see(count, cards, &mut keys);
    let mut moved = false;
    // by `loop`: a turn is a round, and nothing counts them
    loop {
        let stepped = step_cards(files, count, cards, &mut keys, &mut seen, space)?;
        if !has_room(moved, stepped, space) {
            return Err(Refusal::Space);
        }
        let verdict = decide(op, &keys, &mut seen[..count]);
        match verdict {
            Verdict::NoMore => {
                deal(count, cards, &seen);
                return Ok(None);
            }
            Verdict::This(place, pairs) => {
                let key = head_at(&keys, place);
                deal(count, cards, &seen); // its key used up
                return Ok(Some((key, pairs)));
            }
            Verdict::Another => {
                moved = true;
                continue;
            }
        }
    }
}
