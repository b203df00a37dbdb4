// Packing of a list as a function on numbers and slices, for the comparison with the Rust (oracle/README.md).
// Nothing is asked of a caller: the limit has 32 bits, and so is none above document 02's. A slice is passed as its pointer and then its
// length.
// Each function takes what the comparison lends, one by one, as the C interface does.
#![tactic(auto)]

ghost use Rattle.std.specs.Prelude.{length};
ghost use Rattle.packing.specs.Packing.{pack_answer};
ghost use Rattle.pack_blank.specs.PackBlank.{tables_test};
ghost use Rattle.oracle_pack.specs.PackTells.{PackTold};

use oracle_numbers::number;
use pack_cell::Cell;

// The length of the file, or 2^32 plus the refusal.
#[unsafe(no_mangle)]
pub extern "C" fn oracle_pack(
    limit: u32,
    list: &[u8],
    output: &mut [u8],
    cells: &mut [Cell],
    inputs: &mut [u8],
    leasts: &mut [u64],
    targets: &mut [usize],
) -> u64
    ensures { PackTold
        (pack_answer limit list.now (tables_test (length inputs.old) (length leasts.old) (length targets.old))
        (length cells.old) (length output.old))
        output.new cells.new inputs.new leasts.new targets.new result }
{
    number(pack::pack_within(limit as usize, list, output, cells, inputs, leasts, targets))
}
