// The function over several files for the C caller. include/baxhiso.h declares it; results and conventions are those of crate `baxhiso`.
// A slice is passed as its pointer and then its length. Nothing is asked of the arguments' values.
// Each function takes what the C caller lends, one by one: the C interface.
#![tactic(auto)]

ghost use Rattle.std.specs.Prelude.{[], ◌∷◌, length};
ghost use Rattle.ops_paging.specs.ItemPaging as P;
ghost use Rattle.ops_decide.specs.Verdicts.{op_is};
ghost use Rattle.stream_start.specs.Views.{bound_is};
ghost use Rattle.stream_arrays.specs.Arrays.{kind_is};
ghost use Rattle.baxhiso_ops.specs.Items.{op_of, ItemsLeaves};

use baxhiso_results::stopped;
use ops_decide::op_of;
use stream_arrays::bound_with;

// Up to `most` items of an operation over the first count of eight files, the least key first, and how many.
pub fn fst_items_rows<'a>(
    op: u64,
    count: usize,
    a: &'a [u8],
    b: &'a [u8],
    c: &'a [u8],
    d: &'a [u8],
    e: &'a [u8],
    f: &'a [u8],
    g: &'a [u8],
    h: &'a [u8],
    lower_kind: u64,
    lower: &[u8],
    upper_kind: u64,
    upper: &[u8],
    most: usize,
    rows: &mut [u8],
    counts: &mut [u8],
    numbers: &mut [u8],
    values: &mut [u64],
    found: &mut usize,
) -> i32
    ensures { ItemsLeaves (P.items (op_is (op_of op)) count
        (a.now ∷ b.now ∷ c.now ∷ d.now ∷ e.now ∷ f.now ∷ g.now ∷ h.now ∷ [])
        (bound_is (kind_is lower_kind) lower.now)
        (bound_is (kind_is upper_kind) upper.now) most
        (length rows.old) (length counts.old)
        (length numbers.old) (length values.old))
        rows.old rows.new counts.old counts.new
        numbers.old numbers.new values.old values.new
        found.new result }
{
    let operation = op_of(op);
    let from = bound_with(lower_kind, lower);
    let to = bound_with(upper_kind, upper);
    let files = [a, b, c, d, e, f, g, h];
    let paged = ops_page::items(
        operation, count, files, from, to, most, rows, counts, numbers, values,
    );
    *found = paged.count;
    let stop = paged.stop;
    stopped(stop)
}
