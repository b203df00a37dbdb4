// How the comparison with the Rust is told an answer by a number, which the lists that it records (oracle/README.md, "The replay lists") have too, and
// numbers that are put into what it lends.
#![tactic(auto)]

ghost use Rattle.std.specs.Prelude.{◌≡◌};
ghost use Rattle.oracle_numbers.specs.Numbers.{front, done_number, number_as, key_number_as};

use format::Refusal;

// A key that is not held, where another answer is 0 or a refusal.
pub const NOT_HELD: u64 = 100;

// No key, or the end of a reading, where another answer is a key's length.
pub const END: u64 = 1_000;

// More keys may come after a full page: oracle_range alone answers it, beside END and REFUSED.
pub const MORE: u64 = 1_001;

// What was asked for is done, where another operation answers a key's length.
pub const DONE: u64 = 1_002;

// What a refusal is added to, where another answer is a key's length.
pub const REFUSED: u64 = 2_000;

// What the refusal of a start is added to, among other operations.
pub const NOT_STARTED: u64 = 3_000;

// An operation that is none.
pub const NO_OPERATION: u64 = 4_000;

// What a refusal is added to, where another answer is a number of bytes: no file is as long.
const PAST_LENGTHS: u64 = 4_294_967_296;

// No checksum, where a version has none: no stored one is as large.
pub const NO_CHECKSUM: u64 = 4_294_967_296;

// Puts the numbers at the front of out where it has room for them.
#[tactic(auto, unfolding(crate::specs::Numbers::front))]
pub fn put(out: &mut [u64], numbers: &[u64])
    ensures { out.new ≡ front numbers.now out.old }
{
    let n = numbers.len();
    if n <= out.len() {
        out[..n].copy_from_slice(numbers);
    }
}

// 0 for what was done, else the refusal. No plainer by `map_or_else`: it takes the refusal's case first.
pub fn done(answer: Result<(), Refusal>) -> u64
    ensures { result ≡ done_number answer }
{
    match answer {
        Ok(()) => 0,
        Err(why) => u64::from(u8::from(why)),
    }
}

// A length that is answered, or 2^32 plus the refusal.
pub fn number(answer: Result<usize, Refusal>) -> u64
    ensures { result ≡ number_as answer }
{
    match answer {
        Ok(n) => n as u64,
        Err(why) => PAST_LENGTHS + u64::from(u8::from(why)),
    }
}

// The length of the key that a lookup by value found, END where there is none, or REFUSED plus the refusal.
pub fn key_number(answer: Result<Option<usize>, Refusal>) -> u64
    ensures { result ≡ key_number_as answer }
{
    match answer {
        Ok(Some(n)) => n as u64,
        Ok(None) => END,
        Err(why) => REFUSED + u64::from(u8::from(why)),
    }
}
