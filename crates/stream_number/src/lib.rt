// The number of keys between two bounds, as a start works it out from a table of the keys from each node (document 02, N11): those that do
// not pass the upper bound, less those that do not meet the lower. On any file, admitted or not, and with any table; no key is visited. The
// Rust has nothing of it.
// The two bounds are two values and no struct: of the upper and of the lower another number is worked out, and only `crosses` looks at both, as the
// definitions do, which take one after the other.
#![tactic(auto)]

ghost use Rattle.std.specs.Prelude.{◌≡◌, ℕ, ◌≤◌, ◌<◌, length};
ghost use Rattle.format.specs.View.{fst_is};
ghost use Rattle.plain.specs.Numbers as N;
ghost use Rattle.plain.specs.Numbers.{Tally, comes_to};
ghost use Rattle.stream_start.specs.Views.{bound_of};
ghost use Rattle.stream_upto.specs.Counts.{total_as, walked_as};
ghost use Rattle.stream_number.specs.Totals.{TableLent, tally_is, difference_is};

use format::{FstRef, Refusal};
use std::ops::Bound;
use stream_start::bytes_of;
use stream_upto::{keys_at, up_to};

// ---- totals

// The keys within the upper bound less those before the lower: None where either passes 2^64 - 1, or fewer are within than before.
fn difference(within: Option<u64>, before: Option<u64>) -> Option<u64>
    ensures { (m n : ℕ) → within ≡ total_as m → before ≡ total_as n
        → difference_is result ≡ N.less (comes_to m) (comes_to n) }
{
    within?.checked_sub(before?)
}

// The same of two walks: a refusal on the way comes first, and COUNT where there is no difference.
fn less(
    within: Result<Option<u64>, Refusal>,
    before: Result<Option<u64>, Refusal>,
) -> Result<u64, Refusal>
    ensures { (s t : Tally) → within ≡ walked_as s → before ≡ walked_as t
        → tally_is result ≡ N.less s t }
{
    difference(within?, before?).ok_or(Refusal::Count)
}

// ---- the keys between two bounds

// Whether no string lies between two bounds, since the lower's bytes are greater, or equal with either excluded.
fn crosses(lower: Bound<&[u8]>, upper: Bound<&[u8]>) -> bool
    ensures { result ≡ N.crosses (bound_of lower.entry)
        (bound_of upper.entry) }
{
    match (lower, upper) {
        (Bound::Unbounded, _) | (_, Bound::Unbounded) => false,
        (Bound::Included(low), Bound::Included(high)) => high < low,
        _ => bytes_of(upper) <= bytes_of(lower),
    }
}

// The keys that do not pass the upper bound; without one those of the whole file, the root's entry.
fn within(fst: FstRef<'_>, upper: Bound<&[u8]>, counts: &[u64]) -> Result<Option<u64>, Refusal>
    requires { (length fst.bytes.now ≤ length counts.now) × (fst.root < length counts.now) }
    ensures { result ≡ walked_as (N.within (fst_is fst.entry)
        counts.now (bound_of upper.entry)) }
{
    match upper {
        Bound::Unbounded => Ok(Some(keys_at(counts, fst.root))),
        Bound::Included(bytes) => up_to(fst, true, bytes, counts),
        Bound::Excluded(bytes) => up_to(fst, false, bytes, counts),
    }
}

// The keys that do not meet the lower bound; without one there are none.
fn below_lower(fst: FstRef<'_>, lower: Bound<&[u8]>, counts: &[u64]) -> Result<Option<u64>, Refusal>
    requires { length fst.bytes.now ≤ length counts.now }
    ensures { result ≡ walked_as (N.below_lower (fst_is fst.entry)
        counts.now (bound_of lower.entry)) }
{
    match lower {
        Bound::Unbounded => Ok(Some(0)),
        Bound::Included(bytes) => up_to(fst, false, bytes, counts),
        Bound::Excluded(bytes) => up_to(fst, true, bytes, counts),
    }
}

// The number of keys between two bounds of a file that opens: 0 where it has no bytes or the bounds cross, and then nothing is read; NODE
// for a node on the upper bound's way, then on the lower's; COUNT where the table's numbers are too large, or do not go together.
pub fn number(
    fst: FstRef<'_>,
    lower: Bound<&[u8]>,
    upper: Bound<&[u8]>,
    counts: &[u64],
) -> Result<u64, Refusal>
    requires { TableLent fst.bytes.now fst.root counts.now }
    ensures { tally_is result ≡ N.number (fst_is fst.entry)
        counts.now (bound_of lower.entry)
        (bound_of upper.entry) }
{
    if fst.bytes.is_empty() {
        return Ok(0);
    }
    if crosses(lower, upper) {
        return Ok(0);
    }
    let w = within(fst, upper, counts);
    let b = below_lower(fst, lower, counts);
    less(w, b)
}
