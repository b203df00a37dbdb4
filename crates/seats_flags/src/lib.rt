// What the flags of eight seats in arrays say: whether they can be right, and whose turn it is. `seats_turn` answers the same of seats that are one value;
// here the C caller lends the flags, and no reading is copied for them.
#![tactic(auto)]

ghost use Rattle.std.specs.Prelude.{◌≤◌};
ghost use Rattle.seats_arrays.specs.SeatArrays.{RightTold, TurnTold};

use seats_turn::{LAST_SEAT, SEATS};

// Whether the seat served last is one of the eight, and every waiting seat has a reading, whatever the readings are.
pub fn seats_right(last: usize, taken: [u8; 8], waiting: [u8; 8]) -> bool
    ensures { RightTold last taken waiting result }
{
    last <= LAST_SEAT
        && taken
            .iter()
            .zip(waiting.iter())
            .all(|(has, waits)| *waits == 0 || *has != 0)
}

// The first seat that waits after the one served last, around the eight, whoever has a reading.
pub fn turn_of(last: usize, waiting: [u8; 8]) -> Option<usize>
    requires { last ≤ 7 }
    ensures { TurnTold last waiting result }
{
    // by a loop: std's `find` over these places would have to ask again, of each, that it is below eight
    for looked in 0..SEATS {
        let i = (last + 1 + looked) % SEATS;
        if waiting[i] != 0 {
            return Some(i);
        }
    }
    None
}
