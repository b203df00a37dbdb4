// A whole operation over several files in one call, on numbers and slices, for the comparison with the Rust (oracle/README.md): so the readings of eight
// files need not cross the border. The work is that of `ops_whole::whole`: only the export stands here. A slice is passed as its pointer and then its
// length, an array as its pointer.
// Each function takes what the comparison lends, one by one, as the C interface does.
#![tactic(auto)]

// As `ops_whole::whole`.
#[unsafe(no_mangle)]
pub extern "C" fn oracle_ops(
    op: u64,
    count: usize,
    blob: &[u8],
    tables: &[u64],
    ends: &[u64; 8],
    stated: &[u64; 32],
    bounds: &[u8],
    rows: &mut [u8],
    numbers: &mut [u64],
    followed: &mut [u64; 8],
) -> u64 {
    ops_whole::whole(
        op, count, blob, tables, ends, stated, bounds, rows, numbers, followed,
    )
}
