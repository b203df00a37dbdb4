// The function that converts a file for the C caller. include/baxhiso.h declares it; results and conventions are those of crate `baxhiso`.
// A slice is passed as its pointer and then its length. The function asks nothing of its arguments' values.
// Each function takes what the C caller lends, one by one: the C interface.
#![tactic(auto)]

ghost use Rattle.baxhiso_files.specs.Files.{ConvertLeaves};

use baxhiso::length_told;

// Converts a version 1 file to version 2. On 0 the new file stands from the output's first byte on, and its length is written; on a
// refusal output, table and length stay as given.
pub fn fst_convert(
    file: &[u8],
    depths: &mut [u16],
    sums: &mut [u64],
    out: &mut [u8],
    table: &mut [u32],
    len: &mut usize,
) -> i32
    ensures { ConvertLeaves file.now depths.old sums.old
        out.old table.old depths.new sums.new
        out.new table.new len.old len.new result }
{
    let answer = convert::convert(file, depths, sums, out, table);
    length_told(answer, len)
}
