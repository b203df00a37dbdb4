// The lookups that the C display firmware calls, by key and by value. include/baxhiso.h declares them for C; results and conventions are those of
// crate `baxhiso`. A slice is passed as its pointer and then its length. No function asks anything of its arguments' values.
// Each function takes what the C caller lends, one by one: the C interface.
#![tactic(auto)]

ghost use Rattle.std.specs.Prelude.{length};
ghost use Rattle.format.specs.Lookup as L;
ghost use Rattle.baxhiso.specs.Exports.{GetLeaves, KeyLeaves};

use baxhiso::{NONE, OK, code};

// The value of a key. The value is written on 0 only.
pub fn fst_get(file: &[u8], key: &[u8], value: &mut u64) -> i32
    ensures { GetLeaves (L.get file.now key.now) value.old
        value.new result }
{
    let answer = lookup::get(file, key);
    match answer {
        Ok(Some(v)) => {
            *value = v;
            OK
        }
        Ok(None) => NONE,
        Err(why) => code(why),
    }
}

// A key with this value. On 0 the key stands from the buffer's first byte on, and its length is written; else both stay as given.
pub fn fst_get_key(file: &[u8], value: u64, key: &mut [u8], len: &mut usize) -> i32
    ensures { KeyLeaves (L.get_key file.now value (length key.old))
        key.old key.new len.old len.new result }
{
    let answer = lookup_key::get_key(file, value, key);
    match answer {
        Ok(Some(n)) => {
            *len = n;
            OK
        }
        Ok(None) => NONE,
        Err(why) => code(why),
    }
}
