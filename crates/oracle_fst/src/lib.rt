// Opening, admission, the table of keys and lookup as functions on numbers and slices, for the comparison with the Rust (oracle/README.md).
// Nothing is asked of a caller: each function answers on every input, and its contract says the answer and what the
// lent buffers hold afterwards. A slice is passed as its pointer and then its length.
// Each function takes what the comparison lends, one by one, as the C interface does.
#![tactic(auto)]

ghost use Rattle.std.specs.Prelude.{length};
ghost use Rattle.format.specs.Opening.{opening};
ghost use Rattle.format.specs.Lookup as L;
ghost use Rattle.oracle_fst.specs.FstTells.{OpenTold, AdmitTold, CountTold, GetTold, KeyTold};

use oracle_numbers::{NO_CHECKSUM, NOT_HELD, done, key_number, put};

// ---- opening

// 0 for a file that opens, with version, type, count, root and checksum (2^32 for none) at the front of out where it has
// five places; else the refusal, out as it was.
#[unsafe(no_mangle)]
pub extern "C" fn oracle_open(file: &[u8], out: &mut [u64]) -> u64
    ensures { OpenTold (opening file.now) out.old out.new
        result }
{
    match fst::open(file) {
        Err(why) => u64::from(u8::from(why)),
        Ok(m) => {
            let checksum = m.checksum.map_or(NO_CHECKSUM, u64::from);
            put(out, &[m.version, m.ty, m.len, m.root as u64, checksum]);
            0
        }
    }
}

// ---- admission

// 0 for an admitted file, else the refusal; the two tables are left as admission leaves them.
#[unsafe(no_mangle)]
pub extern "C" fn oracle_admit(file: &[u8], depths: &mut [u16], sums: &mut [u64]) -> u64
    ensures { AdmitTold file.now depths.old sums.old
        depths.new sums.new result }
{
    done(admission::admit(file, depths, sums))
}

// ---- the table of keys

// 0 where the table of keys is filled, else the refusal; the three tables are left as the filling leaves them.
#[unsafe(no_mangle)]
pub extern "C" fn oracle_count_keys(
    file: &[u8],
    depths: &mut [u16],
    sums: &mut [u64],
    counts: &mut [u64],
) -> u64
    ensures { CountTold file.now depths.old sums.old
        counts.old depths.new sums.new counts.new
        result }
{
    done(counting::count_keys(file, depths, sums, counts))
}

// ---- lookup

// 0 for a held key, with its value at the front of out where it has a place; 100 where the key is not held; else the
// refusal. The rest of out stays.
#[unsafe(no_mangle)]
pub extern "C" fn oracle_get(file: &[u8], key: &[u8], out: &mut [u64]) -> u64
    ensures { GetTold (L.get file.now key.now) out.old
        out.new result }
{
    match lookup::get(file, key) {
        Ok(Some(v)) => {
            put(out, &[v]);
            0
        }
        Ok(None) => NOT_HELD,
        Err(why) => u64::from(u8::from(why)),
    }
}

// The length of the found key, which stands at the front of key; 1000 where none is found, or 2000 plus the refusal, key
// as it was.
#[unsafe(no_mangle)]
pub extern "C" fn oracle_get_key(file: &[u8], value: u64, key: &mut [u8]) -> u64
    ensures { KeyTold (L.get_key file.now value (length key.old))
        key.old key.new result }
{
    key_number(lookup_key::get_key(file, value, key))
}
