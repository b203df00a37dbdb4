// The start of a reading (src/raw/mod.rs: `StreamBuilder`, `seek_min`), on any file, admitted or not; and the reading itself, which next takes
// and gives back (crate stream_next).
// The two bounds are two values and no struct, since each goes its own way: the walk is made along the lower, and the upper is kept in the reading. Only
// `bounds_right` asks the same of both, and C hands them one by one. Std's `RangeBounds` would be a type parameter of each start, with `has_bounds` as a premise.
// An FstRef may have any version and root, since node_at answers for each. What needs those of a file that opens asks for them: BlankTold of the version,
// and that the root is below 2^32 where levels are made.
#![tactic(auto)]

ghost use Rattle.std.specs.Prelude.{◌≡◌, ◌≤◌, ◌<◌, length, take, []};
ghost use Rattle.format.specs.Limits.{max_path};
ghost use Rattle.format.specs.Paths.{node_in};
ghost use Rattle.format.specs.View.{fst_is};
ghost use Rattle.reading.specs.Reading as R;
ghost use Rattle.stream_seek.specs.Seeks.{SoughtAs};
ghost use Rattle.stream_start.specs.Views.{bound_of, bound_is, empty_is, started_is, no_reading};
ghost use Rattle.stream_start.specs.Starts.{pending_if, pending_from, walk_from, start_from, BlankTold};

use format::{FstRef, MAX_KEY, Refusal};
use std::ops::Bound;
use stream_levels::Stack;
use stream_seek::seek;

// A reading, passed by value. Entries past the last level, and bytes past the bound's length, carry no meaning.
#[derive(Clone, Copy)]
pub struct Reading {
    // the length of the file that it reads
    pub len: usize,
    // the upper bound: its kind, its length and its bytes. A reading is handed about by value, so it holds the bytes itself
    pub kind: Bound<()>,
    pub bound_len: usize,
    pub bound: [u8; MAX_KEY],
    // the value of the empty key, where that key is still to be handed out
    pub empty_output: Option<u64>,
    // how many transitions were followed, up to 2^64 - 1
    pub total: u64,
    // how many levels the Rust's stack has, and the levels
    pub levels: usize,
    pub stack: Stack,
}

impl Reading {
    // The upper bound.
    pub fn upper(&self) -> Bound<&[u8]>
        requires { self.now.bound_len ≤ max_path }
        ensures { bound_of result ≡ bound_is self.now.kind (take self.now.bound_len self.now.bound) }
    {
        let bytes = &self.bound[..self.bound_len];
        self.kind.map(|()| bytes)
    }
}

// ---- a bound

// The bytes of a bound: none where it is unbounded.
pub fn bytes_of<'b>(bound: Bound<&'b [u8]>) -> &'b [u8]
    ensures { result.now ≡ R.bound_bytes (bound_of bound.entry) }
{
    match bound {
        Bound::Included(bytes) | Bound::Excluded(bytes) => bytes,
        Bound::Unbounded => &[],
    }
}

// How many bytes a bound has.
pub fn len_of(bound: Bound<&[u8]>) -> usize
    ensures { result ≡ length (R.bound_bytes (bound_of bound.entry)) }
{
    bytes_of(bound).len()
}

// Whether both bounds have at most 255 bytes.
pub fn bounds_right(lower: Bound<&[u8]>, upper: Bound<&[u8]>) -> bool
    ensures { result ≡ R.bounds_test (bound_of lower.entry) (bound_of upper.entry) }
{
    len_of(lower) <= MAX_KEY && len_of(upper) <= MAX_KEY
}

// The kind of a bound, without its bytes.
fn kind_of(bound: Bound<&[u8]>) -> Bound<()>
    ensures { bound_is result (R.bound_bytes (bound_of bound.entry)) ≡ bound_of bound.entry }
{
    bound.map(|_| ())
}

// Whether a key equal to the lower bound is handed out.
fn is_inclusive(bound: Bound<&[u8]>) -> bool
    ensures { result ≡ R.is_inclusive (bound_of bound.entry) }
{
    !matches!(bound, Bound::Excluded(_))
}

// Whether the empty key meets a lower bound.
fn meets_empty(bound: Bound<&[u8]>) -> bool
    ensures { result ≡ R.meets_test (bound_of bound.entry) [] }
{
    match bound {
        Bound::Included(bytes) => bytes.is_empty(),
        Bound::Excluded(_) => false,
        Bound::Unbounded => true,
    }
}

// ---- start

// The value of the empty key, where it is held and meets the lower bound.
fn empty_output(fst: FstRef<'_>, meets: bool) -> Option<u64>
    ensures { empty_is result ≡ pending_if meets (node_in (fst_is fst.entry) fst.entry.root) }
{
    if !meets {
        return None;
    }
    let m = node::node_at(fst, fst.root).ok()?;
    m.is_final.then_some(m.final_output)
}

// A reading without levels, of no file.
pub fn no_reading() -> Reading
    ensures { result ≡ no_reading }
{
    Reading {
        len: 0,
        kind: Bound::Unbounded,
        bound_len: 0,
        bound: [0; MAX_KEY],
        empty_output: None,
        total: 0,
        levels: 0,
        stack: Stack::new(),
    }
}

// The empty key that is pending at a start on a file that opens.
pub fn pending_at(fst: FstRef<'_>, lower: Bound<&[u8]>) -> Option<u64>
    requires { BlankTold fst.bytes.now fst.version }
    ensures { empty_is result ≡ pending_from (fst_is fst.entry) (bound_of lower.entry) }
{
    // version 0 is a file without bytes
    if fst.version == 0 {
        return None;
    }
    empty_output(fst, meets_empty(lower))
}

// The levels of a start on a file that opens, written to a stack: none in a file without bytes, since there is no node to enter, and in any other those of
// the walk along the lower bound. The answer is how many there are.
pub fn start_levels(
    fst: FstRef<'_>,
    lower: Bound<&[u8]>,
    stack: &mut Stack,
) -> Result<usize, Refusal>
    requires { (fst.root < 4294967296) × BlankTold fst.bytes.now fst.version
        × (length (R.bound_bytes (bound_of lower)) ≤ max_path) }
    ensures { SoughtAs (walk_from (fst_is fst.entry) (bound_of lower.entry)) result
        stack.new.addrs stack.new.inps stack.new.trans stack.new.outs }
{
    stack.are_arrays();
    if fst.version == 0 {
        return Ok(0);
    }
    seek(fst, bytes_of(lower), is_inclusive(lower), stack)
}

// The reading that a start gives with this upper bound and this pending empty key.
fn reading_from(
    fst: FstRef<'_>,
    lower: Bound<&[u8]>,
    upper: Bound<&[u8]>,
    empty_output: Option<u64>,
) -> Result<Reading, Refusal>
    requires root_bound { (fst.root < 4294967296) × BlankTold fst.bytes.now fst.version }
    requires bounds_short { (length (R.bound_bytes (bound_of lower)) ≤ max_path)
        × (length (R.bound_bytes (bound_of upper)) ≤ max_path) }
    ensures { started_is result ≡ R.started_at fst.entry.bytes.now (bound_of upper.entry)
        (empty_is empty_output) (walk_from (fst_is fst.entry) (bound_of lower.entry)) }
{
    let mut stack = Stack::new();
    let levels = start_levels(fst, lower, &mut stack)?;
    let bytes = bytes_of(upper);
    let mut bound = [0u8; MAX_KEY];
    bound[..bytes.len()].copy_from_slice(bytes);
    Ok(Reading {
        len: fst.bytes.len(),
        kind: kind_of(upper),
        bound_len: bytes.len(),
        bound,
        empty_output,
        total: 0,
        levels,
        stack,
    })
}

// A start on a file that opens.
fn start_from(fst: FstRef<'_>, lower: Bound<&[u8]>, upper: Bound<&[u8]>) -> Result<Reading, Refusal>
    requires { (fst.root < 4294967296) × BlankTold fst.bytes.now fst.version }
    ensures { started_is result ≡ start_from (fst_is fst.entry) (bound_of lower.entry) (bound_of upper.entry) }
{
    if !bounds_right(lower, upper) {
        return Err(Refusal::Bound);
    }
    reading_from(fst, lower, upper, pending_at(fst, lower))
}

// A reading of the keys between two bounds. Opening's refusals, then BOUND for a bound over 255 bytes. A file without bytes gives a
// reading with no level. On any other the walk goes along the lower bound, and each node, the last included, is judged as it is entered:
// NODE for the node, then SUM for the running sum up to it.
pub fn start(file: &[u8], lower: Bound<&[u8]>, upper: Bound<&[u8]>) -> Result<Reading, Refusal>
    ensures { started_is result ≡ R.start file.now (bound_of lower.entry) (bound_of upper.entry) }
{
    let m = fst::open(file)?;
    start_from(m.over(file), lower, upper)
}
