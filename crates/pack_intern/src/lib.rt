// One record interned: its address among the nodes so far, found through the cells or written after them.
// A cell is an address and a hash, a row two cells, as in `RegistryCache` of src/raw/registry.rs.
// output, cells and first are three parameters and no struct: they are together for one node. The next node is lent another row of cells, and between
// two nodes first alone goes on, in a pack_node `Due`.
#![tactic(auto)]

ghost use Rattle.std.specs.Prelude.{◌≡◌, ◌+◌, ◌*◌, ◌/◌, ◌%◌, ◌≤◌, ◌<◌};
ghost use Rattle.node_compile.specs.Compile.{builder_is};
ghost use Rattle.node_compile.specs.Parts.{RecordFits};
ghost use Rattle.packing.specs.Registry.{intern};
ghost use Rattle.pack_intern.specs.Interning.{build_is, Ready, Writable, write_of, InternIs};

use node_record::BuilderNode;
use pack_cell::{Cell, promote, put_row};
use registry::Choice;

// Where a record is. There is none where it would have to be written, and the output has no room.
#[derive(Clone, Copy)]
pub struct Placed {
    // its address
    pub addr: usize,
    // the place past the nodes
    pub next: usize,
}

// The first cell of the row of a hash, with so many cells.
pub fn row_of(own_hash: u64, n: usize) -> usize
    requires { 2 ≤ n }
    ensures { (result ≡ 2 * (own_hash % (n / 2))) × (result + 1 < n) }
{
    2 * (own_hash as usize % (n / 2))
}

// Writes the record after the nodes; its cell goes first in its row, which begins at i.
fn write_node(
    output: &mut [u8],
    cells: &mut [Cell],
    first: usize,
    i: usize,
    own_hash: u64,
    node: BuilderNode<'_>,
) -> Option<Placed>
    requires { Writable output.old first cells.old i own_hash (builder_is node) }
    ensures { InternIs (write_of (build_is output.old first cells.old) (builder_is node.entry))
        first output.new cells.new result }
{
    let len = node_compile::compile_record(node, first, &mut output[first..]).ok()?;
    let next = first + len;
    let old = cells[i];
    let addr = next - 1;
    let own = Cell {
        addr: addr as u64,
        hash: own_hash,
    };
    put_row(cells, i, [own, old]);
    Some(Placed { addr, next })
}

// The record's address: 0 for the record that packs to nothing, the address of an equal node in its row, or its own after it is
// written.
pub fn intern(
    output: &mut [u8],
    cells: &mut [Cell],
    first: usize,
    node: BuilderNode<'_>,
) -> Option<Placed>
    requires { Ready output.old first cells.old × RecordFits first (builder_is node) }
    ensures { InternIs (intern (build_is output.old first cells.old) (builder_is node.entry))
        first output.new cells.new result }
{
    if node_compile::packs_to_nothing(node.is_final, node.inputs.len(), node.final_output) {
        return Some(Placed {
            addr: 0,
            next: first,
        });
    }
    let own_hash = registry::hash(node);
    let i = row_of(own_hash, cells.len());
    let one = cells[i];
    let two = cells[i + 1];
    match registry::choose(&output[..first], one, two, own_hash, node) {
        Choice::First => Some(Placed {
            addr: one.addr as usize,
            next: first,
        }),
        // the cell that matched goes first
        Choice::Second => {
            promote(cells, i);
            Some(Placed {
                addr: two.addr as usize,
                next: first,
            })
        }
        Choice::Write => write_node(output, cells, first, i, own_hash, node),
    }
}
