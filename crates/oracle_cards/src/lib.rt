// One call of an operation over several files, from cards that stand in arrays, for the comparison with the model (oracle/README.md): so cards that no
// begin gave can be handed in. The work is that of `ops_made::made_item`: only the export stands here. A slice is passed as its pointer and then its
// length, an array as its pointer.
// Each function takes what the comparison lends, one by one, as the C interface does.
#![tactic(auto)]

// As `ops_made::made_item`.
#[unsafe(no_mangle)]
pub extern "C" fn oracle_next_item<'a>(
    op: u64,
    count: usize,
    a: &'a [u8],
    b: &'a [u8],
    c: &'a [u8],
    d: &'a [u8],
    e: &'a [u8],
    f: &'a [u8],
    g: &'a [u8],
    h: &'a [u8],
    slots: &mut [u8; 8],
    values: &mut [u64; 8],
    heads: &mut [[u64; 7]; 8],
    bounds: &mut [[u8; 255]; 8],
    addrs: &mut [[u32; 256]; 8],
    inps: &mut [[u8; 256]; 8],
    trans: &mut [[u16; 256]; 8],
    outs: &mut [[u64; 256]; 8],
    keys: &mut [u64; 8],
    key: &mut [u8],
    pairs: &mut usize,
    pair_files: &mut [u8; 8],
    pair_values: &mut [u64; 8],
) -> u64 {
    ops_made::made_item(
        op,
        count,
        a,
        b,
        c,
        d,
        e,
        f,
        g,
        h,
        slots,
        values,
        heads,
        bounds,
        addrs,
        inps,
        trans,
        outs,
        keys,
        key,
        pairs,
        pair_files,
        pair_values,
    )
}
