// The table of cells as a slice of structs, an address and a hash each: the two cells of a row stored or exchanged, all emptied.
#![tactic(auto)]

ghost use Rattle.std.specs.Prelude.{◌≡◌, ◌+◌, ◌<◌, length, set, replicate};
ghost use Rattle.pack_cell.specs.Cells.{empty, at};

// The address of an empty cell: no node's.
pub const NONE_ADDRESS: u64 = 1;

// Two words for a C caller: functions for C are lent a table of them.
#[repr(C)]
#[derive(Clone, Copy)]
pub struct Cell {
    // the address of a node, or NONE_ADDRESS when the cell is empty
    pub addr: u64,
    // the hash of that node
    pub hash: u64,
}

// Stores the two cells of the row that begins at i.
pub fn put_row(cells: &mut [Cell], i: usize, row: [Cell; 2])
    requires { i + 1 < length cells.old }
    ensures { cells.new ≡ set (set cells.old i (at row 0)) (i + 1) (at row 1) }
{
    cells[i] = row[0];
    cells[i + 1] = row[1];
}

// The two cells of the row that begins at i change places.
pub fn promote(cells: &mut [Cell], i: usize)
    requires { i + 1 < length cells.old }
    ensures { cells.new ≡ set (set cells.old i (at cells.old (i + 1))) (i + 1) (at cells.old i) }
{
    cells.swap(i, i + 1);
}

// An empty cell.
fn empty_cell() -> Cell
    ensures { result ≡ empty }
{
    Cell {
        addr: NONE_ADDRESS,
        hash: 0,
    }
}

// Every cell empty.
pub fn empty_cells(cells: &mut [Cell])
    ensures { cells.new ≡ replicate (length cells.old) empty }
{
    cells.fill(empty_cell());
}
