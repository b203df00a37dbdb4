// The values of a key with the numbers of their files, in order of value and then of file number (src/raw/ops.rs: `IndexedValue`): at most eight.
#![tactic(auto)]

ghost use Rattle.std.specs.Prelude.{◌≡◌, ◌||◌, List, [], ◌<◌};
ghost use Rattle.ops_spec.specs.Ops as O;
ghost use Rattle.ops_spec.specs.Ops.{Indexed, indexed};
ghost use Rattle.ops_pairs.specs.Pairs.{PairsAre};

// So many values with the numbers of their files, passed by value. There is no heap, so that there is room for eight, of which the first count are in use;
// the rest is 0. Two arrays and no array of pairs: each is copied whole into its own slice of those that the C caller lends.
#[derive(Clone, Copy)]
pub struct Pairs {
    pub count: usize,
    pub values: [u64; 8],
    pub files: [u8; 8],
}

// None.
pub fn none() -> Pairs
    ensures { PairsAre [] result }
{
    Pairs {
        count: 0,
        values: [0; 8],
        files: [0; 8],
    }
}

// Whether a value goes before another one, or a place for it was found already.
fn goes_before(found: bool, value: u64, file: u8, other: u64, beside: u8) -> bool
    ensures { result ≡ (found || O.sooner (indexed value file) (indexed other beside)) }
{
    found || (value, file) < (other, beside)
}

// A value more: from its place on, each is moved up by one.
pub fn insert(pairs: Pairs, value: u64, file: u8) -> Pairs
    requires { pairs.count < 8 }
    ensures { (ps : List Indexed) → PairsAre ps pairs → PairsAre
        (O.insert (indexed value file) ps) result }
{
    let n = pairs.count;
    let mut values = pairs.values;
    let mut files = pairs.files;
    let mut v = value;
    let mut f = file;
    let mut found = false;
    // by index: tried with both `iter_mut` zipped and swaps, and the proof did not carry over, since such a loop has neither place j nor the two arrays;
    // std's `copy_within` would be a call of `memmove`, which the library for C may not make
    for j in 0..n {
        let other = values[j];
        let beside = files[j];
        if goes_before(found, v, f, other, beside) {
            values[j] = v;
            files[j] = f;
            v = other;
            f = beside;
            found = true;
        }
    }
    values[n] = v;
    files[n] = f;
    Pairs {
        count: n + 1,
        values,
        files,
    }
}
