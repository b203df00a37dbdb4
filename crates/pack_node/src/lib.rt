// A node that is not the root, finished in the two cells of its row, and then keys opened until the next node has to be finished.
// output, row and first are no struct: the next node gets another row and another first, which a `Due` tells.
#![tactic(auto)]

ghost use Rattle.pack_close.specs.OpenNodes.{tables_in};
ghost use Rattle.pack_node.specs.NodeSteps.{NodeAsked, NodeSteps};

use pack_ahead::Way;
use pack_cell::Cell;
use pack_close::Tables;

// A node to be finished: the deepest of the open nodes.
#[derive(Clone, Copy)]
pub struct Due {
    // the place past the nodes
    pub next: usize,
    // the open nodes
    pub way: Way,
    // the first cell of its row
    pub row: usize,
}

// Finishes the deepest node, which is not the root and whose row has these two cells, and opens keys until the next has to be finished.
// Answers the next, or nothing where the output has no room.
pub fn node_in_row(
    list: &[u8],
    cells: usize,
    output: &mut [u8],
    row: &mut [Cell; 2],
    first: usize,
    way: Way,
    tables: &mut Tables<'_>,
) -> Option<Due>
    requires { NodeAsked list.now cells output.old row.old (tables_in tables.old) first way }
    ensures { NodeSteps list.now cells output.old row.old (tables_in tables.old) first way
        output.new row.new (tables_in tables.new) result }
{
    let e = way.depth - 1;
    let next = tables.close_one(output, row, first, e)?;
    let from = Way { depth: e, ..way };
    let on = pack_ahead::ahead(list, from, &mut tables.nodes);
    let d = on.depth;
    let next_row = pack_ahead::row_next(cells, d, tables);
    Some(Due {
        next,
        way: on,
        row: next_row,
    })
}
