// A key for a value (src/raw/mod.rs: `get_key_into`), on any file, admitted or not. file, value and key are what the C caller lends, one by one.
#![tactic(auto)]

ghost use Rattle.std.specs.Prelude.{length};
ghost use Rattle.format.specs.Lookup as L;
ghost use Rattle.lookup_search.specs.KeyAnswers.{KeyWritten};

use format::{MAX_KEY, Refusal};
use lookup_search::find_key;

// A key with this value. Opening's refusals, then SPACE for a buffer under 255; then NODE for each node entered, and DEEP before a
// 256th byte. Final outputs are ignored, as in the Rust. The buffer is written only where a key is found: the key from its first
// byte on. On a numbered file a found key has the value, and none comes exactly when no held key has it; on any other admitted file
// the outputs on a found key's path add up to the value, and a key that has it may be missed.
pub fn get_key(file: &[u8], value: u64, key: &mut [u8]) -> Result<Option<usize>, Refusal>
    ensures { KeyWritten (L.get_key file.now value (length key.old))
        key.old key.new result }
{
    let m = fst::open(file)?;
    let short = key.len() < MAX_KEY;
    if short {
        return Err(Refusal::Space);
    }
    // version 0 is a file without bytes, which has no node to enter
    if m.version == 0 {
        return Ok(None);
    }
    let mut path = [0u8; MAX_KEY];
    let found = find_key(m.over(file), value, &mut path)?;
    if let Some(n) = found {
        key[..n].copy_from_slice(&path[..n]);
    }
    Ok(found)
}
