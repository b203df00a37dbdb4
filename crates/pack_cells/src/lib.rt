// The nodes of a list packed over the table of cells as a slice of structs: the two cells of a row are taken, a step is made, and two cells are stored.
// The three working tables are lent one by one, by the C caller: here they become one struct with the open nodes.
#![tactic(auto)]

ghost use Rattle.std.specs.Prelude.{◌≡◌, length, replicate};
ghost use Rattle.pack_blank.specs.PackBlank.{tables_test};
ghost use Rattle.pack_cell.specs.Cells.{empty};
ghost use Rattle.pack_step.specs.Standing.{Ended};

use format::Refusal;
use pack_cell::{Cell, put_row};
use pack_close::{Open, Tables};
use pack_intern::Placed;
use pack_step::Turn;

// Places every node, and answers where the root is, or refuses, in an output of zeros with empty cells.
pub fn run(
    list: &[u8],
    output: &mut [u8],
    cells: &mut [Cell],
    inputs: &mut [u8],
    leasts: &mut [u64],
    targets: &mut [usize],
) -> Result<Placed, Refusal>
    requires { (output.old ≡ replicate (length output.old) 0) × (cells.old ≡ replicate (length cells.old) empty) }
    ensures { Ended list.now (tables_test (length inputs.old) (length leasts.old) (length targets.old))
        (length cells.old) (length output.old) output.new cells.new result }
{
    let mut tables = Tables {
        inputs,
        leasts,
        targets,
        nodes: Open::new(),
    };
    let mut turn = pack_step::begin(list, output.len(), cells.len(), &mut tables)?;
    // No `for`: how many nodes there are to finish is known only when the root is placed.
    loop {
        let due = match turn {
            Turn::Next(due) => due,
            Turn::Done(root) => return Ok(root),
        };
        let i = due.row;
        let mut row = [cells[i], cells[i + 1]];
        let next = pack_step::step(list, cells.len(), output, &mut row, due, &mut tables);
        put_row(cells, i, row);
        turn = next?;
    }
}
