// The cards' part in a round, where what is seen of the cards stands beside them: the reading is the card's, the slot is the one that is seen.
// The cards in use are the first count of eight: fixed memory.
#![tactic(auto)]

ghost use Rattle.std.specs.Prelude.{◌≡◌, map, ◌<◌, ◌≤◌};
ghost use Rattle.ops_turn.specs.Parts.{slot_after, SeenStepped, CardsStepped};

use format::Refusal;
use ops_keys::{KEYS, put_bytes};
use ops_round::{Card, Slot, step_used};
use ops_seen::{Seen, is_long, is_used};
use stream::Plain;

// A card after its step, with what is seen of it.
#[derive(Clone, Copy)]
pub struct SeenStep {
    pub card: Card,
    pub seen: Seen,
}

// What an answer makes of a card's slot.
fn slot_after(came: Option<(usize, u64)>) -> Slot
    ensures { result ≡ slot_after came }
{
    match came {
        Some((_, value)) => Slot::Holds(value),
        None => Slot::Ended,
    }
}

// The step of card number i, whose key is used up, for a caller whose buffer has so many bytes. The bytes of its key are put among the eight; a refusal
// leaves these as they were.
pub fn step_seen(
    file: &[u8],
    reading: Plain,
    i: usize,
    keys: &mut [u8; KEYS],
    space: usize,
) -> Result<SeenStep, Refusal>
    requires { i < 8 }
    ensures { SeenStepped file.now space reading i keys.old
        keys.new result }
{
    let step = step_used(file, reading, space);
    let plain = step.reading;
    let came = step.answer?;
    let slot = slot_after(came);
    let key = put_bytes(plain, i, keys);
    Ok(SeenStep {
        card: Card {
            reading: plain,
            slot,
        },
        seen: Seen { key, slot },
    })
}

// The steps of a round: of the first count cards, in file order, each whose key is used up is stepped, and STATE is answered for a held key of over 256
// levels. Whether a reading was stepped; a refusal leaves the cards before it stepped.
pub fn step_cards(
    files: [&[u8]; 8],
    count: usize,
    cards: &mut [Card; 8],
    keys: &mut [u8; KEYS],
    seen: &mut [Seen; 8],
    space: usize,
) -> Result<bool, Refusal>
    requires { count ≤ 8 }
    ensures { CardsStepped (map (λ f. f.now) files.entry) space count cards.old keys.old seen.old
        cards.new keys.new seen.new result }
{
    let mut moved = false;
    // by index: i is the number of the key's row too, and three arrays zipped, cut at count and numbered would say the same in more words
    for i in 0..count {
        if is_used(seen[i]) {
            let step = step_seen(files[i], cards[i].reading, i, keys, space)?;
            cards[i] = step.card;
            seen[i] = step.seen;
            moved = true;
        } else if is_long(seen[i]) {
            return Err(Refusal::State);
        }
    }
    Ok(moved)
}
