// A whole list of operations on one reading and its marks, exported for the comparison with the Rust (oracle/README.md): crate oracle_marks_run has
// it, and says what the numbers are. Here it is one call, since what is exported is proved a second time as its library is built. A slice is passed
// as its pointer and then its length.
// Each function takes what the comparison lends, one by one, as the C interface does.
#![tactic(auto)]

// Runs the operations one after the other from no reading and no marks, as far as there is room for answers and rows; how many were run.
#[unsafe(no_mangle)]
pub extern "C" fn oracle_marks(
    file: &[u8],
    table: &[u64],
    other: &[u8],
    other_table: &[u64],
    by: u64,
    positions: &[u16],
    rest: u64,
    bytes: &[u8],
    operations: &[[u64; 10]],
    answers: &mut [[u64; 6]],
    rows: &mut [u8],
) -> u64 {
    oracle_marks_run::run_operations(
        file,
        table,
        other,
        other_table,
        by,
        positions,
        rest,
        bytes,
        operations,
        answers,
        rows,
    )
}
