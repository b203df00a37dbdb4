// Packing that stops at each finished node: a turn says which row of cells the next node wants, and a step is lent that row.
// So whoever has the table of cells takes two of them, makes a step, and puts two back.
// output and row are lent for one step, and no struct keeps them: what goes on to the next step is the `Due` and the tables.
#![tactic(auto)]

ghost use Rattle.std.specs.Prelude.{◌≡◌, List, ℕ, length, replicate};
ghost use Rattle.pack_cell.specs.Cells.{empty};
ghost use Rattle.pack_close.specs.OpenNodes.{no_open, tables_in, tables_of};
ghost use Rattle.pack_blank.specs.PackBlank.{tables_test};
ghost use Rattle.pack_step.specs.Standing.{Judged, Standing, StepAsked, Steps};

use format::{FIRST_NODE, Refusal};
use pack_ahead::Way;
use pack_cell::Cell;
use pack_close::Tables;
use pack_intern::Placed;
use pack_node::Due;

// Where packing stands between two nodes.
#[derive(Clone, Copy)]
pub enum Turn {
    // a node is still to be finished
    Next(Due),
    // every node has its place, and this is the root's
    Done(Placed),
}

// ---- the start

// LIST or SPACE, as they are judged before the run.
fn judged(list: &[u8], room: usize, cells: usize, tables: &Tables<'_>) -> Result<(), Refusal>
    ensures { Judged list.now
        (tables_test (length tables.now.inputs.now) (length tables.now.leasts.now) (length tables.now.targets.now)) cells room result }
{
    if !pack_list::judge_list(list) {
        return Err(Refusal::List);
    }
    if !pack_blank::tables_fit(tables) || cells < 2 || room < 32 {
        return Err(Refusal::Space);
    }
    Ok(())
}

// Judges the list and what is lent, and opens keys until a node has to be finished.
pub fn begin(
    list: &[u8],
    room: usize,
    cells: usize,
    tables: &mut Tables<'_>,
) -> Result<Turn, Refusal>
    requires { tables.old.nodes ≡ no_open }
    ensures { ((out : List ℕ) (table : List Cell) → out ≡ replicate room 0 → table ≡ replicate cells empty → Standing list.now
        (tables_test (length tables.old.inputs.now) (length tables.old.leasts.now) (length tables.old.targets.now)) cells room out table
        (tables_in tables.new) result)
        × (tables_in tables.new ≡ tables_of tables.old.inputs.now tables.old.leasts.now tables.old.targets.now tables.new.nodes) }
{
    judged(list, room, cells, tables)?;
    let start = Way {
        depth: 0,
        to: 0,
        keys: 0,
    };
    let way = pack_ahead::ahead(list, start, &mut tables.nodes);
    let d = way.depth;
    let row = pack_ahead::row_next(cells, d, tables);
    Ok(Turn::Next(Due {
        next: FIRST_NODE,
        way,
        row,
    }))
}

// ---- a step

// Finishes the node that is due, whose row has these two cells, and opens keys until the next has to be finished, or places the root.
// Refuses by SPACE where the output has no room.
pub fn step(
    list: &[u8],
    cells: usize,
    output: &mut [u8],
    row: &mut [Cell; 2],
    due: Due,
    tables: &mut Tables<'_>,
) -> Result<Turn, Refusal>
    requires { StepAsked list.now cells output.old row.old (tables_in tables.old) due }
    ensures { Steps list.now cells output.old row.old (tables_in tables.old) due
        output.new row.new (tables_in tables.new) result }
{
    let first = due.next;
    let way = due.way;
    if way.depth == 0 {
        let at = tables
            .finish_row(output, row, first, 0, 0)
            .ok_or(Refusal::Space)?;
        return Ok(Turn::Done(at));
    }
    let made = pack_node::node_in_row(list, cells, output, row, first, way, tables);
    Ok(Turn::Next(made.ok_or(Refusal::Space)?))
}
