// Eight seats on one index (document 02, N13): what is held for them, whether it is right, whose turn it is, and one seat put in its place.
#![tactic(auto)]

ghost use Rattle.std.specs.Prelude.{◌≡◌, ◌≤◌, ◌<◌};
ghost use Rattle.turns.specs.Turns as T;
ghost use Rattle.seats_turn.specs.SeatViews.{seat_is, seats_is, turn_is, no_seats, put_seat};

use stream::Plain;

// How many seats there are.
pub const SEATS: usize = 8;
// The number of the last of them.
pub const LAST_SEAT: usize = 7;

// A seat: its reading, where it has one, and whether it has raised a request.
#[derive(Clone, Copy)]
pub struct Seat {
    pub reading: Option<Plain>,
    pub waiting: bool,
}

// The eight seats and the number of the one that was served last. There is no heap: a call takes them by value and answers them as they are after it.
#[derive(Clone, Copy)]
pub struct Seats {
    pub last: usize,
    pub seats: [Seat; SEATS],
}

// No seat has a reading, and the first turn is seat 0's.
pub fn no_seats() -> Seats
    ensures { result ≡ no_seats }
{
    let empty = Seat {
        reading: None,
        waiting: false,
    };
    Seats {
        last: LAST_SEAT,
        seats: [empty; SEATS],
    }
}

// Whether the seat served last is one of the eight, and every waiting seat has a reading.
pub fn seats_right(seats: Seats) -> bool
    ensures { result ≡ T.right_test (seats_is seats) }
{
    seats.last <= LAST_SEAT
        && seats
            .seats
            .iter()
            .all(|seat| seat.reading.is_some() || !seat.waiting)
}

// Whose turn it is: the first seat that waits after the one served last, around the eight, or nobody's.
pub fn turn_of(seats: Seats) -> Option<usize>
    requires { seats.last ≤ 7 }
    ensures { turn_is result ≡ T.turn (seats_is seats) }
{
    // by a loop: std's `find` over these places would have to ask again, of each, that it is below eight
    for looked in 0..SEATS {
        let i = (seats.last + 1 + looked) % SEATS;
        if seats.seats[i].waiting {
            return Some(i);
        }
    }
    None
}

// One seat put in its place, and the seat served last.
pub fn put_seat(seats: Seats, last: usize, number: usize, seat: Seat) -> Seats
    requires { number < 8 }
    ensures { seats_is result ≡ put_seat (seats_is seats) last number (seat_is seat) }
{
    let mut all = seats.seats;
    all[number] = seat;
    Seats { last, seats: all }
}
