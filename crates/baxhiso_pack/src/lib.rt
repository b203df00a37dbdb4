// The function that packs a list for the C caller. include/baxhiso.h declares it; results and conventions are those of crate `baxhiso`.
// A slice is passed as its pointer and then its length. The function asks nothing of its arguments' values.
// Each function takes what the C caller lends, one by one: the C interface.
#![tactic(auto)]

ghost use Rattle.std.specs.Prelude.{length};
ghost use Rattle.format.specs.Limits.{max_len};
ghost use Rattle.packing.specs.Packing.{pack_answer};
ghost use Rattle.pack_blank.specs.PackBlank.{tables_test};
ghost use Rattle.baxhiso_pack.specs.PackFiles.{PackLeaves};

use baxhiso::length_told;
use pack_cell::Cell;

// Packs a list of keys and values into a file. On 0 the file stands from the output's first byte on, zeros behind it, and its length is written; on a
// refusal output and working tables are zeros, every cell is empty, and the length stays as given.
pub fn fst_pack(
    list: &[u8],
    out: &mut [u8],
    cells: &mut [Cell],
    inputs: &mut [u8],
    leasts: &mut [u64],
    targets: &mut [usize],
    len: &mut usize,
) -> i32
    ensures { PackLeaves
        (pack_answer max_len list.now (tables_test (length inputs.old) (length leasts.old) (length targets.old))
        (length cells.old) (length out.old)) out.new
        cells.new inputs.new leasts.new targets.new
        len.old len.new result }
{
    let answer = pack::pack(list, out, cells, inputs, leasts, targets);
    length_told(answer, len)
}
