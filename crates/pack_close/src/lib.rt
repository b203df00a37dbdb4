// Open nodes finished, deepest first: each becomes a transition of the node above it, along the byte that led to it and with the least
// value below it.
// output, cells and first are three parameters and no struct: they are together for one node. The next node is lent another row of cells, and between
// two nodes first alone goes on, in a pack_node `Due`.
#![tactic(auto)]

ghost use Rattle.std.specs.Prelude.{◌≡◌, ℕ, ◌+◌, ◌*◌, ◌≤◌, ◌<◌, length, get_or};
ghost use Rattle.packing_rows.specs.WorkTableLaws.{with_entry};
ghost use Rattle.node_compile.specs.Compile.{builder_is};
ghost use Rattle.pack_intern.specs.Interning.{build_is};
ghost use Rattle.pack_close.specs.Closing.{Closable, RowsFit, node_at, least_in, CanFinish, RowFinished, StepIs};
ghost use Rattle.pack_close.specs.OpenNodes.{no_open, tables_in};

use format::are_bytes;
use node_record::BuilderNode;
use pack_cell::Cell;
use pack_intern::Placed;
use std::ops::Range;

// The open nodes, by depth. Four arrays: a call of fst_pack takes less than 1,000 bytes under the 8,192 of stack that include/baxhiso.h tells C
// (FST_STACK_PACK), and an array of structs would take 1,536 more, 24 bytes a depth in the place of 18; values as Options would take 1,792 more.
#[derive(Clone, Copy)]
pub struct Open {
    // how many finished transitions each has
    pub counts: [usize; 256],
    // the byte that led to it
    pub led: [u8; 256],
    // whether a key ends there
    pub finals: [bool; 256],
    // and the value of that key
    pub values: [u64; 256],
}

impl Open {
    // No transitions, no bytes and no keys.
    pub fn new() -> Open
        ensures { result ≡ no_open }
    {
        Open {
            counts: [0; 256],
            led: [0; 256],
            finals: [false; 256],
            values: [0; 256],
        }
    }
}

// The working tables, three slices that the caller lends, and the open nodes. Row d of each slice, 256 entries from 256 d on, has the
// finished transitions of the open node at depth d.
#[derive(Drop)]
pub struct Tables<'t> {
    // the byte of each transition
    pub inputs: &'t mut [u8],
    // the least value below it
    pub leasts: &'t mut [u64],
    // and the address that it leads to
    pub targets: &'t mut [usize],
    // what is kept of each open node beside them
    pub nodes: Open,
}

impl Tables<'_> {
    // ---- one node

    // The places of the row of the node at depth d: as many as its finished transitions.
    fn row(&self, d: usize) -> Range<usize>
        requires { (d < 256) × (get_or self.now.nodes.counts d 0 ≤ 256) }
        ensures { (result.start ≡ 256 * d) × (result.end ≡ 256 * d + get_or self.now.nodes.counts d 0) }
    {
        let at = 256 * d;
        at..at + self.nodes.counts[d]
    }

    // The record of the node at depth d as its row stands, with this final output.
    pub fn node(&self, d: usize, final_output: u64) -> BuilderNode<'_>
        requires { RowsFit (tables_in self.now) d }
        ensures { builder_is result ≡ node_at (tables_in self.now) d final_output }
    {
        let row = self.row(d);
        BuilderNode {
            is_final: self.nodes.finals[d],
            final_output,
            inputs: &self.inputs[row.start..row.end],
            outputs: &self.leasts[row.start..row.end],
            targets: &self.targets[row.start..row.end],
        }
    }

    // Says that the inputs are bytes. A proof knows it of a parameter, and of a slice in a struct by this call.
    fn are_bytes(&self)
        ensures { (i : ℕ) → get_or self.now.inputs.now i 0 < 256 }
    {
        are_bytes(self.inputs);
    }

    // The least value of the keys at the node at depth d.
    pub fn least(&self, d: usize) -> u64
        requires { RowsFit (tables_in self.now) d }
        ensures { result ≡ least_in (tables_in self.now) d }
    {
        let row = self.row(d);
        let value = self.nodes.values[d];
        pack_finish::least_in(
            self.nodes.finals[d],
            value,
            &self.leasts[row.start..row.end],
        )
    }

    // Interns the record of the node at depth d, with its outputs counted from base.
    pub fn finish_row(
        &mut self,
        output: &mut [u8],
        cells: &mut [Cell],
        first: usize,
        d: usize,
        base: u64,
    ) -> Option<Placed>
        requires { CanFinish output.old first cells.old (tables_in self.old) d base }
        ensures { RowFinished output.old first cells.old (tables_in self.old) d base
            output.new cells.new (tables_in self.new) result }
    {
        let row = self.row(d);
        pack_finish::subtract(&mut self.leasts[row.start..row.end], base);
        let final_output = pack_finish::final_out(self.nodes.finals[d], self.nodes.values[d], base);
        let node = self.node(d, final_output);
        pack_intern::intern(output, cells, first, node)
    }

    // Adds a transition at the end of row e.
    fn add_arc(&mut self, e: usize, input: u8, least: u64, addr: usize)
        requires { (e < 256) × (get_or self.old.nodes.counts e 0 < 256) × (65536 ≤ length self.old.inputs.now)
            × (65536 ≤ length self.old.leasts.now) × (65536 ≤ length self.old.targets.now) }
        ensures { tables_in self.new ≡ with_entry (tables_in self.old) e input least addr }
    {
        let n = self.nodes.counts[e];
        let at = 256 * e + n;
        self.inputs[at] = input;
        self.leasts[at] = least;
        self.targets[at] = addr;
        self.nodes.counts[e] = n + 1;
    }

    // Finishes the node at depth e + 1, the deepest, and adds its transition to the node at depth e. Answers the place past the nodes, or
    // nothing where the output has no room.
    pub fn close_one(
        &mut self,
        output: &mut [u8],
        cells: &mut [Cell],
        first: usize,
        e: usize,
    ) -> Option<usize>
        requires { Closable output.old first cells.old (tables_in self.old) (e + 1) }
        ensures { StepIs (build_is output.old first cells.old) first (tables_in self.old)
            e output.new cells.new (tables_in self.new) result
            × (self.new.nodes.led ≡ self.old.nodes.led) }
    {
        self.are_bytes();
        let d = e + 1;
        let base = self.least(d);
        let placed = self.finish_row(output, cells, first, d, base)?;
        let input = self.nodes.led[d];
        self.add_arc(e, input, base, placed.addr);
        Some(placed.next)
    }
}
