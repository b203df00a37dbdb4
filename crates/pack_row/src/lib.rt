// The row of cells that is a node's own, found before the node is finished.
// That finishing it there alone is finishing it in the whole table is said in specs/.
#![tactic(auto)]

ghost use Rattle.std.specs.Prelude.{◌≡◌, ◌+◌, ◌*◌, ◌/◌, ◌%◌, ◌<◌};
ghost use Rattle.packing.specs.Registry.{hash_of};
ghost use Rattle.pack_close.specs.Closing.{node_from};
ghost use Rattle.pack_close.specs.OpenNodes.{tables_in};
ghost use Rattle.pack_row.specs.Row.{RowGiven};

use node_record::BuilderNode;
use pack_close::Tables;

// The first cell of the row of the node at depth d, with its outputs counted from base.
pub fn row_at(cells: usize, d: usize, base: u64, tables: &Tables<'_>) -> usize
    requires { RowGiven cells d base (tables_in tables.now) }
    ensures { (result ≡ 2 * (hash_of (node_from (tables_in tables.now) d base) % (cells / 2))) × (result + 1 < cells) }
{
    let final_output = pack_finish::final_out(tables.nodes.finals[d], tables.nodes.values[d], base);
    let node = tables.node(d, final_output);
    let n = node.outputs.len();
    let mut outs: [u64; 256] = [0; 256];
    outs[..n].copy_from_slice(node.outputs);
    pack_finish::subtract(&mut outs[..n], base);
    let own_hash = registry::hash(BuilderNode {
        outputs: &outs[..n],
        ..node
    });
    pack_intern::row_of(own_hash, cells)
}
