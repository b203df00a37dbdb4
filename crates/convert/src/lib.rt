// Old cards brought to version 2 (document 02, N7). The file is admitted first. Nothing may be written before the length of the new file is
// known, which depends on every new address; these are worked out in the sums' table, over the nodes that are marked in the depths' table,
// and a second admission restores both: admission leaves the same tables every time.
// depths, sums, out and table are slices and no struct: `mark` takes depths, `lay_out` depths and sums, `write_file` depths, sums and out, and
// `put_table` sums and table. One value of the four, made of those that the C caller lends, would be taken apart at each of these calls.
// Beside fst goes its count: a `FstRef` has what nodes are read by, and the count is only written again.
// The limit has 32 bits, so that no file is let past the largest length; `convert_within` takes a usize, as its callers have it.
#![tactic(auto)]

ghost use Rattle.std.specs.Prelude.{◌≤◌};
ghost use Rattle.format.specs.Limits.{max_len};
ghost use Rattle.format.specs.View.{fst_is};
ghost use Rattle.admission.specs.Outcome.{Outcome};
ghost use Rattle.convert.specs.Convert.{Marked, Says, OldFile, OldConverted, AgainConverted, Finishable, Finished, Converts};

use admission::admit;
use convert_layout::{TRAILER, lay_out, put_table};
use convert_marks::mark;
use convert_write::write_file;
use format::{FstRef, MAX_LEN, Refusal};

// Writes the new file, whose nodes end before next, and the table, where both have room.
fn finish(
    fst: FstRef<'_>,
    count: u64,
    next: usize,
    depths: &[u16],
    sums: &[u64],
    out: &mut [u8],
    table: &mut [u32],
) -> Result<usize, Refusal>
    requires { Finishable (fst_is fst) depths.now sums.now next }
    ensures { Finished (fst_is fst.entry) count depths.now
        sums.now out.old table.old out.new
        table.new result }
{
    let len = next + TRAILER;
    let entries = fst.bytes.len();
    if out.len() < len || table.len() < entries {
        return Err(Refusal::Space);
    }
    write_file(fst, count, depths, sums, out);
    put_table(&sums[..entries], table);
    Ok(len)
}

// Converts an admitted version 1 file; the two work tables are left as they were used.
fn convert_old(
    fst: FstRef<'_>,
    count: u64,
    limit: u32,
    depths: &mut [u16],
    sums: &mut [u64],
    out: &mut [u8],
    table: &mut [u32],
) -> Result<usize, Refusal>
    requires { OldFile (fst_is fst) count depths.old sums.old }
    ensures { OldConverted limit fst.entry.bytes.now depths.old
        sums.old out.old table.old depths.new
        sums.new out.new table.new result }
{
    mark(fst, depths);
    let next = lay_out(fst, limit as usize, depths, sums).ok_or(Refusal::Large)?;
    finish(fst, count, next, depths, sums, out, table)
}

// Restores both work tables: admission fills them as it did before.
fn restore(file: &[u8], depths: &mut [u16], sums: &mut [u64]) -> Result<(), Refusal>
    ensures { Outcome file.now depths.old sums.old
        depths.new sums.new result }
{
    admission::admit(file, depths, sums)
}

// Converts an admitted file that says this version, count and root, and restores the two work tables.
fn convert_opened(
    fst: FstRef<'_>,
    count: u64,
    limit: u32,
    depths: &mut [u16],
    sums: &mut [u64],
    out: &mut [u8],
    table: &mut [u32],
) -> Result<usize, Refusal>
    requires { Marked fst.bytes.now depths.old sums.old × Says fst.bytes.now fst.version count fst.root }
    ensures { AgainConverted limit fst.entry.bytes.now depths.old
        sums.old out.old table.old depths.new
        sums.new out.new table.new result }
{
    let other_version = fst.version != 1;
    if other_version {
        return Err(Refusal::Edition);
    }
    let done = convert_old(fst, count, limit, depths, sums, out, table);
    // it was admitted before, so it is again
    let _ = restore(fst.bytes, depths, sums);
    done
}

// The same of an admitted file.
fn convert_admitted(
    file: &[u8],
    limit: u32,
    depths: &mut [u16],
    sums: &mut [u64],
    out: &mut [u8],
    table: &mut [u32],
) -> Result<usize, Refusal>
    requires { Marked file.now depths.old sums.old }
    ensures { AgainConverted limit file.now depths.old
        sums.old out.old table.old depths.new
        sums.new out.new table.new result }
{
    // it opens: it is admitted
    let m = fst::open(file)?;
    convert_opened(m.over(file), m.len, limit, depths, sums, out, table)
}

// Converts a file, where the new one may have limit bytes.
pub fn convert_within(
    file: &[u8],
    limit: usize,
    depths: &mut [u16],
    sums: &mut [u64],
    out: &mut [u8],
    table: &mut [u32],
) -> Result<usize, Refusal>
    requires { limit ≤ max_len }
    ensures { Converts limit file.now depths.old sums.old
        out.old table.old depths.new sums.new
        out.new table.new result }
{
    admit(file, depths, sums)?;
    convert_admitted(file, limit as u32, depths, sums, out, table)
}

// Converts a version 1 file to version 2: admission's refusals, then EDITION, LARGE, SPACE. Depths and sums are admission's, and are left
// as it leaves them; out gets the new file, and table each node's new address at its old one.
pub fn convert(
    file: &[u8],
    depths: &mut [u16],
    sums: &mut [u64],
    out: &mut [u8],
    table: &mut [u32],
) -> Result<usize, Refusal>
    ensures { Converts max_len file.now depths.old
        sums.old out.old table.old depths.new
        sums.new out.new table.new result }
{
    convert_within(file, MAX_LEN, depths, sums, out, table)
}
