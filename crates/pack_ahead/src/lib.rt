// Keys opened until a node has to be finished, and the row of that node. No output and no cell is touched.
// Each function that reads the list asks `IsList`. A type of judged lists would not say less: it would be made anew of the bytes in each step, which is
// lent them by itself, and `IsList` would be asked there.
#![tactic(auto)]

ghost use Rattle.std.specs.Prelude.{◌≡◌, List, ℕ, ◌+◌, ◌*◌, ◌/◌, ◌%◌, ◌≤◌, ◌<◌, length};
ghost use Rattle.packing.specs.Lists.{IsList, count_in, key_at};
ghost use Rattle.packing.specs.Registry.{hash_of};
ghost use Rattle.pack_close.specs.Closing.{RowsFit};
ghost use Rattle.pack_close.specs.OpenNodes.{tables_of, tables_in};
ghost use Rattle.pack_ahead.specs.Ahead.{LeavesAt, OpensKey, Started, GoesAhead, RowAsked, base_next, row_next};

use pack_close::{Open, Tables};

// The open nodes between two finished ones.
#[derive(Clone, Copy)]
pub struct Way {
    // the depth of the deepest open node
    pub depth: usize,
    // the depth down to which nodes are finished before the next key is opened
    pub to: usize,
    // how many keys have been opened
    pub keys: usize,
}

// The bytes of key i.
fn key_at(list: &[u8], i: usize) -> &[u8]
    requires { IsList list.now × (i < count_in list.now) }
    ensures { result.now ≡ key_at list.now i }
{
    let keys = 8 + 12 * pack_list::key_count(list);
    let from = keys + pack_list::begin_at(list, i);
    let to = keys + pack_list::end_at(list, i);
    &list[from..to]
}

// The depth at which key i leaves the open nodes, the deepest of which is at depth k; 0 after the last key.
fn leaves_at(list: &[u8], i: usize, nodes: &Open, k: usize) -> usize
    requires { IsList list.now × (k < 256) }
    ensures { LeavesAt list.now nodes.now.led k i result }
{
    if i < pack_list::key_count(list) {
        return pack_insert::common(key_at(list, i), nodes, k);
    }
    0
}

// Opens key i below depth m, where it leaves the open nodes.
fn open_one(list: &[u8], i: usize, m: usize, nodes: &mut Open) -> Way
    requires { IsList list.now × (i < count_in list.now) × (m ≤ length (key_at list.now i)) }
    ensures { (inputs leasts targets : List ℕ) → OpensKey list.now i m
        (tables_of inputs leasts targets nodes.old) (tables_of inputs leasts targets nodes.new) result }
{
    let key = key_at(list, i);
    let value = pack_list::value_at(list, i);
    pack_insert::open_key(key, m, value, nodes);
    let depth = key.len();
    let more = i + 1;
    let leaves = leaves_at(list, more, nodes, depth);
    Way {
        depth,
        to: leaves,
        keys: more,
    }
}

// Opens keys as long as every node that is not on the next one is finished.
pub fn ahead(list: &[u8], way: Way, nodes: &mut Open) -> Way
    requires { IsList list.now × Started list.now nodes.old way }
    ensures { GoesAhead list.now nodes.old way nodes.new result }
{
    let n = pack_list::key_count(list);
    let mut way = way;
    for i in way.keys..n {
        let finishes = way.to < way.depth;
        if finishes {
            return way;
        }
        way = open_one(list, i, way.to, nodes);
    }
    way
}

// ---- the row of the node to be finished

// The number from which the outputs of the node at depth d are counted: 0 for the root, otherwise its least value.
fn base_at(d: usize, tables: &Tables<'_>) -> u64
    requires { RowsFit (tables_in tables.now) d }
    ensures { result ≡ base_next (tables_in tables.now) d }
{
    let at_root = d == 0;
    if at_root {
        return 0;
    }
    tables.least(d)
}

// The first cell of the row of the node at depth d, with so many cells.
pub fn row_next(cells: usize, d: usize, tables: &Tables<'_>) -> usize
    requires { RowAsked cells d (tables_in tables.now) }
    ensures { (result ≡ 2 * (hash_of (row_next (tables_in tables.now) d) % (cells / 2))) × (result + 1 < cells) }
{
    let base = base_at(d, tables);
    pack_row::row_at(cells, d, base, tables)
}
