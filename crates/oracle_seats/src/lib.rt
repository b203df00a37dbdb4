// A whole list of events on eight seats, exported for the comparison with the Rust (oracle/README.md): crate oracle_seats_run has
// it, and says what the numbers are. Here it is one call, since what is exported is proved a second time as its library is built. A slice is passed
// as its pointer and then its length.
// Each function takes what the comparison lends, one by one, as the C interface does.
#![tactic(auto)]

// Runs the events one after the other from no readings, as far as there is room for answers and rows; how many were run.
#[unsafe(no_mangle)]
pub extern "C" fn oracle_seats(
    file: &[u8],
    table: &[u64],
    other: &[u8],
    other_table: &[u64],
    bounds: &[u8],
    events: &[[u64; 8]],
    answers: &mut [[u64; 4]],
    rows: &mut [u8],
) -> u64 {
    oracle_seats_run::run_events(
        file,
        table,
        other,
        other_table,
        bounds,
        events,
        answers,
        rows,
    )
}
