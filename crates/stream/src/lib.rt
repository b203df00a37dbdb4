// Plain readings (document 02, N11): a reading with the number of keys still to come. A start works the number out from a table of keys, without
// visiting them, and each key that a call hands out lowers it by one.
// The two bounds are two values and no struct: a start hands them on one after the other, to the walk that is made with the lower and to the number of keys.
#![tactic(auto)]

ghost use Rattle.std.specs.Prelude.{◌<◌, ◌≡◌, length};
ghost use Rattle.format.specs.Limits.{max_path};
ghost use Rattle.format.specs.View.{fst_is};
ghost use Rattle.reading.specs.Reading as R;
ghost use Rattle.plain.specs.Numbers as N;
ghost use Rattle.plain.specs.Plain as P;
ghost use Rattle.stream_start.specs.Views.{bound_of};
ghost use Rattle.stream_number.specs.Totals.{TableLent};
ghost use Rattle.stream_next.specs.Going.{step_of};
ghost use Rattle.stream.specs.Plains.{plain_is, begun_is, no_plain, CallGave, PlainStepped};

use format::{FstRef, MAX_KEY, Refusal};
use std::ops::Bound;
use stream_start::{Reading, bounds_right};
use stream_step::Step;

// A plain reading, passed by value.
#[derive(Clone, Copy)]
pub struct Plain {
    pub reading: Reading,
    // the number of keys to come
    pub keys: u64,
}

// A plain reading without levels, of no file, with no key to come.
pub fn no_plain() -> Plain
    ensures { result ≡ no_plain }
{
    Plain {
        reading: stream_start::no_reading(),
        keys: 0,
    }
}

// ---- start

// The reading of a file that opens, with the number of its keys to come; bounds and table are judged.
fn numbered(
    fst: FstRef<'_>,
    lower: Bound<&[u8]>,
    upper: Bound<&[u8]>,
    counts: &[u64],
) -> Result<Plain, Refusal>
    requires { TableLent fst.bytes.now fst.root counts.now }
    ensures { begun_is result ≡ P.then_number (R.start fst.entry.bytes.now
        (bound_of lower.entry) (bound_of upper.entry)) (N.number (fst_is fst.entry) counts.now
        (bound_of lower.entry) (bound_of upper.entry)) }
{
    let reading = stream_start::start(fst.bytes, lower, upper)?;
    let keys = stream_number::number(fst, lower, upper, counts)?;
    Ok(Plain { reading, keys })
}

// A plain reading of the keys between two bounds. Opening's refusals, BOUND, SPACE for a table with fewer entries than the file has bytes, then the
// refusals of the walk along the lower bound (stream_start::start), NODE along the upper bound, and COUNT for a table whose numbers are too
// large or do not go together. The table is only read.
pub fn start(
    file: &[u8],
    lower: Bound<&[u8]>,
    upper: Bound<&[u8]>,
    counts: &[u64],
) -> Result<Plain, Refusal>
    ensures { begun_is result ≡ P.start_plain file.now
        (bound_of lower.entry) (bound_of upper.entry) counts.now }
{
    let m = fst::open(file)?;
    if !bounds_right(lower, upper) {
        return Err(Refusal::Bound);
    }
    let short = counts.len() < file.len();
    if short {
        return Err(Refusal::Space);
    }
    numbered(m.over(file), lower, upper, counts)
}

// ---- next

// A call where the number says that none is to come: a key that came would be too many. It is written beside the caller's buffer, so that the buffer
// stays as it is.
fn turn_of_none(file: &[u8], plain: &mut Plain) -> Result<Option<(usize, u64)>, Refusal>
    requires { plain.old.keys ≡ 0 }
    ensures { CallGave (P.next_plain file.now (plain_is plain.old) max_path)
        (step_of plain.old plain.new result) }
{
    let mut key = [0u8; MAX_KEY];
    match stream_next::turn(file, &mut plain.reading, &mut key)? {
        Some(_) => Err(Refusal::State),
        None => Ok(None),
    }
}

// One call of next on a plain reading that stays where it is: the key's length and its value, or none at the end. After a refusal the reading carries no
// meaning, so a caller that goes on after one keeps a copy, as `next` does.
pub fn turn(file: &[u8], plain: &mut Plain, key: &mut [u8]) -> Result<Option<(usize, u64)>, Refusal>
    ensures { PlainStepped (P.next_plain file.now (plain_is plain.old) (length key.old))
        key.old key.new (step_of plain.old plain.new result) }
{
    if plain.keys == 0 && MAX_KEY <= key.len() {
        return turn_of_none(file, plain);
    }
    let found = stream_next::turn(file, &mut plain.reading, key)?;
    if let Some(_) = found {
        plain.keys -= 1;
    }
    Ok(found)
}

// The next key between the bounds, with the answers of stream_next::next, and STATE, as the last thing judged, for a key where the number says that
// none is to come. A key lowers the number by one; "end" and a refusal leave it. The buffer is written only where a key is handed out.
// It stands inline in each caller, as stream_next::next does.
#[inline(always)]
pub fn next(file: &[u8], plain: Plain, key: &mut [u8]) -> Step<Plain>
    ensures { PlainStepped (P.next_plain file.now (plain_is plain)
        (length key.old)) key.old key.new result }
{
    let mut after = plain;
    match turn(file, &mut after, key) {
        Err(why) => Step::refused(plain, why),
        Ok(found) => Step {
            answer: Ok(found),
            reading: after,
        },
    }
}
