// The keys of readings, compared byte by byte: what an operation over several files orders its readings by.
#![tactic(auto)]

ghost use Rattle.std.specs.Prelude.{◌≡◌, ◌-◌, ◌<◌};
ghost use Rattle.ops_keys.specs.Heads.{head_key, place_key, Within, Compared, BytesPut};

use format::LEVELS;
use std::cmp::Ordering;
use stream::Plain;

// The bytes of the keys of eight readings.
pub const KEYS: usize = 2_048;

// What a reading's key lies in, passed by value: the bytes of its levels after the first. There is no heap, so that there is room for the most levels;
// entries past the last level carry no meaning.
#[derive(Clone, Copy)]
pub struct Head {
    pub levels: usize,
    pub inps: [u8; LEVELS],
}

// Where a key stands among the keys of eight readings, each in 256 bytes: which it is, and how many levels its reading has.
#[derive(Clone, Copy)]
pub struct Place {
    pub at: usize,
    pub levels: usize,
}

// The length of the key of so many levels: a reading without levels has the empty key too.
pub fn key_len(levels: usize) -> usize
    ensures { result ≡ levels - 1 }
{
    levels.saturating_sub(1)
}

// How one of eight keys stands to another.
pub fn compare(keys: &[u8; KEYS], a: Place, b: Place) -> Ordering
    requires { Within a × Within b }
    ensures { Compared (place_key keys.now a) (place_key keys.now b) result }
{
    let j = key_len(a.levels);
    let k = key_len(b.levels);
    let x = a.at * LEVELS + 1;
    let y = b.at * LEVELS + 1;
    let first = &keys[x..x + j];
    let second = &keys[y..y + k];
    first.cmp(second)
}

// One of eight keys by itself, to be handed out.
pub fn head_at(keys: &[u8; KEYS], place: Place) -> Head
    requires { Within place }
    ensures { (result.levels ≡ place.levels) × (head_key result ≡ place_key keys.now place) }
{
    let from = place.at * LEVELS;
    let mut inps = [0u8; LEVELS];
    inps.copy_from_slice(&keys[from..from + LEVELS]);
    Head {
        levels: place.levels,
        inps,
    }
}

// Puts the bytes of a reading's key among the eight, as number i. The other keys stay as they are.
pub fn put_bytes(plain: Plain, i: usize, keys: &mut [u8; KEYS]) -> Place
    requires { i < 8 }
    ensures { BytesPut plain i keys.old keys.new result }
{
    let levels = plain.reading.levels;
    let from = i * LEVELS;
    keys[from..from + LEVELS].copy_from_slice(&plain.reading.stack.inps);
    Place { at: i, levels }
}
