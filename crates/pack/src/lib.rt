// A list of keys and values packed into a file of version 2. The caller lends the output, the cells and the working tables.
// inputs, leasts and targets are slices and no struct: the C caller lends them one by one.
#![tactic(auto)]

ghost use Rattle.std.specs.Prelude.{length};
ghost use Rattle.format.specs.Limits.{max_len};
ghost use Rattle.packing.specs.Packing.{pack_answer};
ghost use Rattle.pack_blank.specs.PackBlank.{tables_test};
ghost use Rattle.pack.specs.PackList.{PacksBy};

use format::{MAX_LEN, Refusal};
use pack_cell::{Cell, empty_cells};
use pack_cells::run;
use pack_end::finish;

// Packs the list, where the file may have up to limit bytes. Answers the length of the file, which stands at the output's front; where it
// refuses, by LIST, SPACE or LARGE, the output is zeros and every cell empty.
pub fn pack_within(
    limit: usize,
    list: &[u8],
    output: &mut [u8],
    cells: &mut [Cell],
    inputs: &mut [u8],
    leasts: &mut [u64],
    targets: &mut [usize],
) -> Result<usize, Refusal>
    ensures { PacksBy
        (pack_answer limit list.now (tables_test (length inputs.old) (length leasts.old) (length targets.old))
        (length cells.old) (length output.old))
        output.new cells.new inputs.new leasts.new targets.new result }
{
    output.fill(0);
    empty_cells(cells);
    let root = run(list, output, cells, inputs, leasts, targets);
    let answer = finish(limit, list, output, root);
    inputs.fill(0);
    leasts.fill(0);
    targets.fill(0);
    if answer.is_err() {
        empty_cells(cells);
    }
    answer
}

// Packs the list, where the file may have as many bytes as any. Answers as `pack_within` does.
pub fn pack(
    list: &[u8],
    output: &mut [u8],
    cells: &mut [Cell],
    inputs: &mut [u8],
    leasts: &mut [u64],
    targets: &mut [usize],
) -> Result<usize, Refusal>
    ensures { PacksBy
        (pack_answer max_len list.now (tables_test (length inputs.old) (length leasts.old) (length targets.old))
        (length cells.old) (length output.old))
        output.new cells.new inputs.new leasts.new targets.new result }
{
    pack_within(MAX_LEN, list, output, cells, inputs, leasts, targets)
}
