// A whole list of events on eight seats as one function on numbers and slices, for the comparison with the Rust (oracle/README.md; crate oracle_seats
// exports it), so that no eight readings are passed. Nothing is asked of a caller, and nothing is promised of the answers but that there are some:
// what they are is promised of the calls of crate seats that are made here. A slice is passed as its pointer and then its length.
//
// An event is eight numbers: what it is, a seat's number, which file (0 the first, any other number the second), the kinds of a lower and of an upper
// bound, and three places in `bounds`: the lower bound stands from the first to the second, the upper from there to the third.
//     0  seat a reading started with these bounds at this number
//     1  raise this number
//     2  dispatch with that file, and a buffer of 255 bytes less this number
//     3  a made state: the seat served last has this number
//     4  a made state: this seat is taken, and waits, where the fourth number and the fifth are not 0
//
// An answer is four numbers: a key's length, or 1000 for the end, 1001 for nobody, 1002 for a change that was made, 2000 plus a refusal, 3000 plus the
// refusal of a start, or 4000 for an event that is none; the seat; the value; and the total of that seat's reading. The key stands in a row of 255
// bytes.
// `run_events` takes each thing that the comparison lends as a parameter of its own, as the C interface does, and makes one value (`Lent`) of them, which
// the functions that it calls take.
#![tactic(auto)]

use format::Refusal;
use oracle_numbers::{DONE, END, NO_OPERATION, NOT_STARTED, REFUSED};
use seats::{Dispatched, Served};
use seats_turn::{LAST_SEAT, Seat, Seats};
use std::ops::Bound;
use stream::Plain;
use stream_arrays::bound_with;

// The bytes of a row, room for the longest key.
const ROW: usize = 255;

// A dispatch served nobody, where another answers a key's length.
const NOBODY: u64 = 1_001;

// A file that the comparison lends, and its table of keys.
#[derive(Clone, Copy)]
struct Tabled<'l> {
    file: &'l [u8],
    table: &'l [u64],
}

// What the comparison lends to every event: the two files, and the bytes of the bounds.
#[derive(Clone, Copy)]
struct Lent<'l> {
    first: Tabled<'l>,
    second: Tabled<'l>,
    bounds: &'l [u8],
}

// An event: a start of a seat with two bounds, a raise of a seat, a dispatch with a key buffer that is so much shorter, or a made state, of the seat that
// is served last or of a seat that is taken or waits.
#[derive(Clone, Copy)]
enum Event<'l> {
    Start(usize, Bound<&'l [u8]>, Bound<&'l [u8]>),
    Raise(usize),
    Dispatch(usize),
    Last(usize),
    Made {
        number: usize,
        taken: bool,
        waiting: bool,
    },
}

// What an event answers but for the total, and the seats after it.
#[derive(Clone, Copy)]
struct Ran {
    told: [u64; 3],
    seats: Seats,
}

// The total of the reading that a seat has or had last, 0 for a number that no seat has.
fn total_of(readings: &[Plain; 8], number: usize) -> u64 {
    if LAST_SEAT < number {
        return 0;
    }
    readings[number].reading.total
}

// The readings that the seats have, or had last: a made state may take a reading away and give it back.
fn keep(readings: &mut [Plain; 8], seats: Seats) {
    for (reading, seat) in readings.iter_mut().zip(seats.seats) {
        if let Some(plain) = seat.reading {
            *reading = plain;
        }
    }
}

// An answer about a seat.
fn told(code: u64, number: usize, value: u64, seats: Seats) -> Ran {
    Ran {
        told: [code, number as u64, value],
        seats,
    }
}

// What seating and raising answered, on the seats before.
fn changed(answer: Result<Seats, Refusal>, number: usize, seats: Seats) -> Ran {
    match answer {
        Ok(after) => told(DONE, number, 0, after),
        Err(why) => told(REFUSED + u64::from(u8::from(why)), number, 0, seats),
    }
}

// A reading between these bounds, seated.
fn seat_started(
    lent: Tabled<'_>,
    number: usize,
    lower: Bound<&[u8]>,
    upper: Bound<&[u8]>,
    seats: Seats,
) -> Ran {
    match stream::start(lent.file, lower, upper, lent.table) {
        Err(why) => told(NOT_STARTED + u64::from(u8::from(why)), number, 0, seats),
        Ok(plain) => changed(seats::seat(seats, number, plain), number, seats),
    }
}

// What a dispatch answered.
fn served(dispatch: Dispatched) -> Ran {
    let after = dispatch.seats;
    match dispatch.served {
        Served::Key(number, n, value) => told(n as u64, number, value, after),
        Served::End(number) => told(END, number, 0, after),
        Served::Nobody => told(NOBODY, 0, 0, after),
    }
}

// A dispatch.
fn dispatched(file: &[u8], seats: Seats, key: &mut [u8]) -> Ran {
    match seats::dispatch(file, seats, key) {
        Ok(dispatch) => served(dispatch),
        Err(why) => told(REFUSED + u64::from(u8::from(why)), 0, 0, seats),
    }
}

// A dispatch with a buffer that is so much shorter.
fn dispatched_in(file: &[u8], less: usize, seats: Seats, key: &mut [u8]) -> Ran {
    if key.len() < less {
        return told(NO_OPERATION, 0, 0, seats);
    }
    dispatched(file, seats, &mut key[less..])
}

// A made state of one seat: taken, it has the reading that it had last.
fn flagged(number: usize, taken: bool, waiting: bool, seats: Seats, readings: &[Plain; 8]) -> Ran {
    if LAST_SEAT < number {
        return told(NO_OPERATION, number, 0, seats);
    }
    let last = readings[number];
    let made = Seat {
        reading: taken.then_some(last),
        waiting,
    };
    let after = seats_turn::put_seat(seats, seats.last, number, made);
    told(DONE, number, 0, after)
}

// The event of eight numbers; none where the first is no event, or the bytes have no such places.
fn event_of<'l>(numbers: [u64; 8], bounds: &'l [u8]) -> Option<Event<'l>> {
    let number = numbers[1] as usize;
    let from = numbers[5] as usize;
    let middle = numbers[6] as usize;
    let to = numbers[7] as usize;
    match numbers[0] {
        0 => Some(Event::Start(
            number,
            bound_with(numbers[3], bounds.get(from..middle)?),
            bound_with(numbers[4], bounds.get(middle..to)?),
        )),
        1 => Some(Event::Raise(number)),
        2 => Some(Event::Dispatch(number)),
        3 => Some(Event::Last(number)),
        4 => Some(Event::Made {
            number,
            taken: numbers[3] != 0,
            waiting: numbers[4] != 0,
        }),
        _ => None,
    }
}

// One event, with the file that it names.
fn run_event(
    lent: Lent<'_>,
    numbers: [u64; 8],
    seats: Seats,
    readings: &[Plain; 8],
    key: &mut [u8],
) -> Ran {
    let Some(event) = event_of(numbers, lent.bounds) else {
        return told(NO_OPERATION, numbers[1] as usize, 0, seats);
    };
    let named = if numbers[2] == 0 {
        lent.first
    } else {
        lent.second
    };
    match event {
        Event::Start(number, lower, upper) => seat_started(named, number, lower, upper, seats),
        Event::Raise(number) => changed(seats::raise(seats, number), number, seats),
        Event::Dispatch(less) => dispatched_in(named.file, less, seats, key),
        Event::Last(last) => told(DONE, last, 0, Seats { last, ..seats }),
        Event::Made {
            number,
            taken,
            waiting,
        } => flagged(number, taken, waiting, seats, readings),
    }
}

// Runs the events one after the other from no readings, as far as there is room for answers and rows; how many were run.
pub fn run_events(
    file: &[u8],
    table: &[u64],
    other: &[u8],
    other_table: &[u64],
    bounds: &[u8],
    events: &[[u64; 8]],
    answers: &mut [[u64; 4]],
    rows: &mut [u8],
) -> u64 {
    let count = events.len().min(answers.len()).min(rows.len() / ROW);
    let lent = Lent {
        first: Tabled { file, table },
        second: Tabled {
            file: other,
            table: other_table,
        },
        bounds,
    };
    let mut seats = seats::new();
    let mut readings = [stream::no_plain(); 8];
    // by index: the events, the answers and the rows zipped are no chain that the borrow checker covers
    for i in 0..count {
        let at = i * ROW;
        let row = &mut rows[at..at + ROW];
        let after = run_event(lent, events[i], seats, &readings, row);
        seats = after.seats;
        keep(&mut readings, seats);
        let [code, number, value] = after.told;
        answers[i] = [code, number, value, total_of(&readings, number as usize)];
    }
    count as u64
}
