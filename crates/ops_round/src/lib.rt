// The cards of an operation over several files (src/raw/ops.rs: `StreamHeap`), and the step of a reading whose key is used up. In specs/ the steps of a
// round: every such reading is stepped once, in file order.
#![tactic(auto)]

ghost use Rattle.std.specs.Prelude.{◌≡◌};
ghost use Rattle.plain.specs.Plain as P;
ghost use Rattle.stream.specs.Plains.{plain_is, CallGave};
ghost use Rattle.ops_round.specs.Cards.{used_card};

use format::MAX_KEY;
use stream::Plain;
use stream_step::Step;

// Whether a card's key is used up, whether it holds the key of its reading's levels, with that key's value, or whether its reading has ended.
#[derive(Clone, Copy)]
pub enum Slot {
    Used,
    Holds(u64),
    Ended,
}

// A reading in an operation, passed by value. The key that it holds is the key of its reading's levels, which is not stored twice.
#[derive(Clone, Copy)]
pub struct Card {
    pub reading: Plain,
    pub slot: Slot,
}

// The card of a reading that is still to be stepped. No `From`: it says which of the three slots the card has.
pub fn unstepped(reading: Plain) -> Card
    ensures { result ≡ used_card reading }
{
    Card {
        reading,
        slot: Slot::Used,
    }
}

// One call of next on a reading, for a caller whose buffer has so many bytes. The key is written beside that buffer, which stays as it is.
pub fn step_used(file: &[u8], reading: Plain, space: usize) -> Step<Plain>
    ensures { CallGave (P.next_plain file.now (plain_is reading) space) result }
{
    let room = MAX_KEY <= space;
    if room {
        let mut key = [0u8; MAX_KEY];
        return stream::next(file, reading, &mut key);
    }
    let mut key = [0u8; 1];
    stream::next(file, reading, &mut key)
}
