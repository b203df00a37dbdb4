// Conversion as a function on numbers and slices, for the comparison with the Rust (oracle/README.md).
// Nothing is asked of a caller: the limit has 32 bits, and so is none above document 02's. A slice is passed as its pointer and then its
// length.
// Each function takes what the comparison lends, one by one, as the C interface does.
#![tactic(auto)]

ghost use Rattle.oracle_convert.specs.ConvertTells.{ConvertTold};

use oracle_numbers::number;

// The length of the new file, or 2^32 plus the refusal.
#[unsafe(no_mangle)]
pub extern "C" fn oracle_convert(
    file: &[u8],
    limit: u32,
    depths: &mut [u16],
    sums: &mut [u64],
    out: &mut [u8],
    table: &mut [u32],
) -> u64
    ensures { ConvertTold limit file.now depths.old
        sums.old out.old table.old depths.new
        sums.new out.new table.new result }
{
    number(convert::convert_within(file, limit as usize, depths, sums, out, table))
}
