// Eight seats on one index (document 02, N13). Each seat holds a plain reading of its own and may raise a request; each dispatch serves one waiting
// seat with one call of its reading, in turn after the seat served last.
// A refused dispatch changes nothing, the turn neither: a seat whose reading is refused again and again, one of another file say, keeps its turn and
// holds the others up. The remedy is to seat another reading there.
#![tactic(auto)]

ghost use Rattle.std.specs.Prelude.{◌≡◌, true, ◌≤◌, length};
ghost use Rattle.std.proofs.Math.Option.{some};
ghost use Rattle.turns.specs.Turns as T;
ghost use Rattle.stream.specs.Plains.{plain_is};
ghost use Rattle.seats_turn.specs.SeatViews.{seats_is};
ghost use Rattle.seats.specs.SeatCalls.{changed_is, DispatchTold};

use format::Refusal;
use seats_turn::{LAST_SEAT, Seats};
use stream::Plain;

// What a dispatch answers: the seat served, with the length of its key in the buffer and its value; the seat served, whose reading is at its end;
// or that nobody waits.
#[derive(Clone, Copy)]
pub enum Served {
    Key(usize, usize, u64),
    End(usize),
    Nobody,
}

// What a dispatch gives back: its answer, and the seats after it.
#[derive(Clone, Copy)]
pub struct Dispatched {
    pub served: Served,
    pub seats: Seats,
}

// No seat has a reading, and the first turn is seat 0's.
pub fn new() -> Seats
    ensures { seats_is result ≡ T.new }
{
    seats_turn::no_seats()
}

// The seat holds this reading from now on, also where it held another; its request stays as it was. SEAT for a number over 7 and for seats that are
// not right.
pub fn seat(seats: Seats, number: usize, reading: Plain) -> Result<Seats, Refusal>
    ensures { changed_is result ≡ T.seat (seats_is seats) number (plain_is reading) }
{
    if LAST_SEAT < number || !seats_turn::seats_right(seats) {
        return Err(Refusal::Seat);
    }
    let waiting = seats.seats[number].waiting;
    let placed = seats_turn::Seat {
        reading: Some(reading),
        waiting,
    };
    Ok(seats_turn::put_seat(seats, seats.last, number, placed))
}

// The seat waits; raising again changes nothing. SEAT for a number over 7, for seats that are not right, and for a seat without a reading.
pub fn raise(seats: Seats, number: usize) -> Result<Seats, Refusal>
    ensures { changed_is result ≡ T.raise (seats_is seats) number }
{
    if LAST_SEAT < number || !seats_turn::seats_right(seats) {
        return Err(Refusal::Seat);
    }
    let reading = seats.seats[number].reading;
    if reading.is_none() {
        return Err(Refusal::Seat);
    }
    let waits = seats_turn::Seat {
        reading,
        waiting: true,
    };
    Ok(seats_turn::put_seat(seats, seats.last, number, waits))
}

// The seats after one was served: it holds the reading that its call gave back and waits no more, and the next turn begins after it.
fn kept(seats: Seats, number: usize, reading: Plain) -> Seats
    requires { number ≤ 7 }
    ensures { seats_is result ≡ T.kept (seats_is seats) number (plain_is reading) }
{
    let done = seats_turn::Seat {
        reading: Some(reading),
        waiting: false,
    };
    seats_turn::put_seat(seats, number, number, done)
}

// One call of the reading of the seat whose turn it is.
fn serve(file: &[u8], seats: Seats, number: usize, key: &mut [u8]) -> Result<Dispatched, Refusal>
    requires { (T.right_test (seats_is seats) ≡ true) × (T.turn (seats_is seats) ≡ some number) }
    ensures { DispatchTold (T.dispatch file.now (seats_is seats)
        (length key.old)) (seats_is seats) key.old key.new result }
{
    let Some(reading) = seats.seats[number].reading else {
        return Err(Refusal::Seat);
    };
    let step = stream::next(file, reading, key);
    let found = step.answer?;
    let served = match found {
        Some((n, value)) => Served::Key(number, n, value),
        None => Served::End(number),
    };
    Ok(Dispatched {
        served,
        seats: kept(seats, number, step.reading),
    })
}

// Serves the first waiting seat after the one served last with one call of its reading. SEAT for seats that are not right, whichever seat is at
// fault; with nobody waiting neither the file nor the buffer is judged; else the refusals of stream::next for that seat's reading. The buffer is
// written only where a key is handed out.
pub fn dispatch(file: &[u8], seats: Seats, key: &mut [u8]) -> Result<Dispatched, Refusal>
    ensures { DispatchTold (T.dispatch file.now (seats_is seats)
        (length key.old)) (seats_is seats) key.old key.new result }
{
    if !seats_turn::seats_right(seats) {
        return Err(Refusal::Seat);
    }
    match seats_turn::turn_of(seats) {
        None => Ok(Dispatched {
            served: Served::Nobody,
            seats,
        }),
        Some(number) => serve(file, seats, number, key),
    }
}
