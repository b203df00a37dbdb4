// What C links of crate `baxhiso_ops` (include/baxhiso.h): a page of items of several files. Its function calls the one of the same name there, and
// states its contract again. A slice is passed as its pointer and then its length. The function asks nothing of its arguments' values.
// Each function takes what the C caller lends, one by one: the C interface.
#![tactic(auto)]

ghost use Rattle.std.specs.Prelude.{[], ◌∷◌, length};
ghost use Rattle.ops_paging.specs.ItemPaging as P;
ghost use Rattle.ops_decide.specs.Verdicts.{op_is};
ghost use Rattle.stream_start.specs.Views.{bound_is};
ghost use Rattle.stream_arrays.specs.Arrays.{kind_is};
ghost use Rattle.baxhiso_ops.specs.Items.{op_of, ItemsLeaves};

// Up to `most` items of an operation over the first count of eight files, the least key first, and how many.
#[unsafe(no_mangle)]
pub extern "C" fn fst_items_rows<'a>(
    op: u64,
    count: usize,
    a: &'a [u8],
    b: &'a [u8],
    c: &'a [u8],
    d: &'a [u8],
    e: &'a [u8],
    f: &'a [u8],
    g: &'a [u8],
    h: &'a [u8],
    lower_kind: u64,
    lower: &[u8],
    upper_kind: u64,
    upper: &[u8],
    most: usize,
    rows: &mut [u8],
    counts: &mut [u8],
    numbers: &mut [u8],
    values: &mut [u64],
    found: &mut usize,
) -> i32
    ensures { ItemsLeaves (P.items (op_is (op_of op)) count
        (a.now ∷ b.now ∷ c.now ∷ d.now ∷ e.now ∷ f.now ∷ g.now ∷ h.now ∷ [])
        (bound_is (kind_is lower_kind) lower.now)
        (bound_is (kind_is upper_kind) upper.now) most
        (length rows.old) (length counts.old)
        (length numbers.old) (length values.old))
        rows.old rows.new counts.old counts.new
        numbers.old numbers.new values.old values.new
        found.new result }
{
    baxhiso_ops::fst_items_rows(
        op, count, a, b, c, d, e, f, g, h, lower_kind, lower, upper_kind, upper, most, rows,
        counts, numbers, values, found,
    )
}
