// A new file, written: header, nodes, key count and root.
// depths, sums and out are slices and no struct, as convert says: the table is not written here.
#![tactic(auto)]

ghost use Rattle.std.specs.Prelude.{◌≡◌, ◌≤◌, length, get_or};
ghost use Rattle.format.specs.View.{fst_is};
ghost use Rattle.buffers.specs.Put.{put};
ghost use Rattle.convert_layout.specs.Layout.{laid_to};
ghost use Rattle.convert_write.specs.Written.{header_of, file_of, FileWritable};

use convert_layout::write_out;
use format::FstRef;
use le_bytes::pack_uint_in;

// The version of a converted file.
const NEW: u64 = 2;

// The header: the new version, and the type as it stands in the file.
fn write_header(file: &[u8], out: &mut [u8])
    requires { (16 ≤ length file.now) × (16 ≤ length out.old) }
    ensures { out.new ≡ put out.old 0 (header_of file.now) }
{
    pack_uint_in(out, 0, NEW, 8);
    out[8..16].copy_from_slice(&file[8..16]);
}

// The whole file; the rest of out stays.
pub fn write_file(fst: FstRef<'_>, count: u64, depths: &[u16], sums: &[u64], out: &mut [u8])
    requires { FileWritable (fst_is fst) depths.now sums.now out.old }
    ensures { out.new ≡ put out.old 0
        (file_of fst.entry.bytes.now
        (laid_to (fst_is fst.entry) depths.now (length fst.entry.bytes.now)).nodes
        count (get_or sums.now fst.entry.root 0)) }
{
    write_header(fst.bytes, out);
    let end = write_out(fst, depths, sums, out);
    pack_uint_in(out, end, count, 8);
    let at = end + 8;
    pack_uint_in(out, at, sums[fst.root], 8);
}
