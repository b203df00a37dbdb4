// What a round sees of the cards: where their keys stand, and their slots. The readings, which are large, do not go through the functions that decide, and
// the bytes of the keys are lent to them.
// The cards in use are the first count of eight, passed whole by value: fixed memory. The functions that decide are lent what is seen of those in use alone.
#![tactic(auto)]

ghost use Rattle.std.specs.Prelude.{◌≡◌, ◌≤◌, ◌<◌};
ghost use Rattle.ops_seen.specs.Sights.{SeenOf, AllSeen, AllDealt, UsedTest, LongTest};

use format::LEVELS;
use ops_keys::{KEYS, Place, put_bytes};
use ops_round::{Card, Slot};

// What is seen of a card, passed by value. The key is that of its reading in every slot, since the proof of a round speaks of the place of each card's key.
#[derive(Clone, Copy)]
pub struct Seen {
    pub key: Place,
    pub slot: Slot,
}

// What is seen of card number i, its key put among the eight.
pub fn show(card: Card, i: usize, keys: &mut [u8; KEYS]) -> Seen
    requires { i < 8 }
    ensures { SeenOf card i keys.old keys.new result }
{
    let key = put_bytes(card.reading, i, keys);
    Seen {
        key,
        slot: card.slot,
    }
}

// What is seen of the first count cards.
pub fn see(count: usize, cards: &[Card; 8], keys: &mut [u8; KEYS]) -> [Seen; 8]
    requires { count ≤ 8 }
    ensures { AllSeen count cards.now keys.new result }
{
    let blank = Seen {
        key: Place { at: 0, levels: 0 },
        slot: Slot::Used,
    };
    let mut seen = [blank; 8];
    for (i, card) in cards[..count].iter().enumerate() {
        seen[i] = show(*card, i, keys);
    }
    seen
}

// Whether the key of a card is used up.
pub fn is_used(seen: Seen) -> bool
    ensures { UsedTest seen result }
{
    matches!(seen.slot, Slot::Used)
}

// Whether a card holds a key of over 256 levels.
pub fn is_long(seen: Seen) -> bool
    ensures { LongTest seen result }
{
    matches!(seen.slot, Slot::Holds(_)) && LEVELS < seen.key.levels
}

// Gives the first count cards the slots that are seen of them. The cards stay where they stand: a card is 4 KB.
pub fn deal(count: usize, cards: &mut [Card; 8], seen: &[Seen; 8])
    requires { count ≤ 8 }
    ensures { AllDealt count cards.old seen.now cards.new }
{
    // by index: two arrays zipped and cut at count would say the same in more words
    for i in 0..count {
        cards[i].slot = seen[i].slot;
    }
}
