// What packing a list answers, whether its working tables have their sizes, and the ends of a file. Its laws are of the answer (specs/).
#![tactic(auto)]

ghost use Rattle.std.specs.Prelude.{◌≡◌, ◌+◌, ◌≤◌, length};
ghost use Rattle.pack_blank.specs.PackBlank.{tables_test, trailed};

use le_bytes::pack_uint_in;
use pack_close::Tables;

// The entries of each working table: 256 for each of 256 depths.
pub const TABLE: usize = 65536;

// Whether every working table has its size.
pub fn tables_fit(tables: &Tables<'_>) -> bool
    ensures { result ≡ tables_test (length tables.now.inputs.now) (length tables.now.leasts.now) (length tables.now.targets.now) }
{
    TABLE <= tables.inputs.len() && (TABLE <= tables.leasts.len() && TABLE <= tables.targets.len())
}

// Writes the version, and after the nodes the number of keys and the root's address.
pub fn write_ends(output: &mut [u8], count: u64, root: u64, next: usize)
    requires { (16 ≤ next) × (next + 16 ≤ length output.old) }
    ensures { output.new ≡ trailed output.old count root next }
{
    pack_uint_in(output, 0, 2, 8);
    pack_uint_in(output, next, count, 8);
    let at = next + 8;
    pack_uint_in(output, at, root, 8);
}
