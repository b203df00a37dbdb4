// What C links of crate `baxhiso_get` (include/baxhiso.h): lookups by key and by value. Each function calls the one of the same name there, and
// states its contract again. A slice is passed as its pointer and then its length. No function asks anything of its arguments' values.
// Each function takes what the C caller lends, one by one: the C interface.
#![tactic(auto)]

ghost use Rattle.std.specs.Prelude.{length};
ghost use Rattle.format.specs.Lookup as L;
ghost use Rattle.baxhiso.specs.Exports.{GetLeaves, KeyLeaves};

// The value of a key. The value is written on 0 only.
#[unsafe(no_mangle)]
pub extern "C" fn fst_get(file: &[u8], key: &[u8], value: &mut u64) -> i32
    ensures { GetLeaves (L.get file.now key.now) value.old
        value.new result }
{
    baxhiso_get::fst_get(file, key, value)
}

// A key with this value. On 0 the key stands from the buffer's first byte on, and its length is written; else both stay as given.
#[unsafe(no_mangle)]
pub extern "C" fn fst_get_key(file: &[u8], value: u64, key: &mut [u8], len: &mut usize) -> i32
    ensures { KeyLeaves (L.get_key file.now value (length key.old))
        key.old key.new len.old len.new result }
{
    baxhiso_get::fst_get_key(file, value, key, len)
}
