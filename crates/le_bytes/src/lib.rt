// Little-endian numbers of up to 8 bytes: read, sized and written, and read out of a row that is stored last first.
// A caller keeps the bytes that are read or written inside the slice.
// Ports src/bytes.rs; `number_of` finds an output or a delta as src/raw/node.rs does.
// That a slice is long enough is asked of the caller: an array in its place would have each caller copy the bytes.
#![tactic(auto)]

ghost use Rattle.std.specs.Prelude.{◌≡◌, ◌+◌, ◌*◌, ◌≤◌, ◌<◌, length, take, get_or};
ghost use Rattle.format.specs.Bytes.{le, bytes_of};
ghost use Rattle.buffers.specs.Put.{put};
ghost use Rattle.format.specs.Node.{numbers_down};
ghost use Rattle.le_bytes.specs.Size.{PackedIn};

use buffers::copy_front;

// The number that the first 4 bytes of slice stand for. It stands inline in each caller: to judge deltas of 3 bytes, one is read for each.
#[inline(always)]
pub fn read_u32_le(slice: &[u8]) -> u32
    requires { 4 ≤ length slice.now }
    ensures { result ≡ le (take 4 slice.now) }
{
    u32::from_le_bytes([slice[0], slice[1], slice[2], slice[3]])
}

// The number that the first 8 bytes of slice stand for.
pub fn read_u64_le(slice: &[u8]) -> u64
    requires { 8 ≤ length slice.now }
    ensures { result ≡ le (take 8 slice.now) }
{
    u64::from_le_bytes([
        slice[0], slice[1], slice[2], slice[3], slice[4], slice[5], slice[6], slice[7],
    ])
}

// The number that the first nbytes bytes of slice stand for; 0 bytes stand for 0.
// nbytes is no length of the slice: where it has 8 bytes or more, 8 are read at once.
pub fn unpack_uint(slice: &[u8], nbytes: usize) -> u64
    requires { (nbytes ≤ 8) × (nbytes ≤ length slice.now) }
    ensures { result ≡ le (take nbytes slice.now) }
{
    if slice.len() < 8 {
        return unpack_short(slice, nbytes);
    }
    unpack_wide(slice, nbytes)
}

// The same where 8 bytes are there: all 8 are read, and a pair of shifts drops those above nbytes.
#[tactic(auto, unfolding(format::specs::Bytes::le))]
fn unpack_wide(slice: &[u8], nbytes: usize) -> u64
    requires { (nbytes ≤ 8) × (8 ≤ length slice.now) }
    ensures { result ≡ le (take nbytes slice.now) }
{
    // 0 bytes would need a shift by 64, which a u64 does not have
    if nbytes == 0 {
        return 0;
    }
    let above = 64 - 8 * nbytes;
    (read_u64_le(slice) << above) >> above
}

// The same where fewer than 8 bytes are there: they are copied before zeros, which add nothing.
fn unpack_short(slice: &[u8], nbytes: usize) -> u64
    requires { (nbytes ≤ 8) × (nbytes ≤ length slice.now) }
    ensures { result ≡ le (take nbytes slice.now) }
{
    let mut eight: [u8; 8] = [0; 8];
    copy_front(slice, nbytes, &mut eight);
    read_u64_le(&eight)
}

// How many bytes the packer gives n, from its leading zero bits; zero, which has no bit that is 1, takes one byte.
pub fn pack_size(n: u64) -> u8
    ensures { PackedIn n result }
{
    if n == 0 {
        return 1;
    }
    (8 - u64::leading_zeros(n) / 8) as u8
}

// Writes the nbytes lowest bytes of n from place at on; the other bytes stay.
// Not by `to_le_bytes`: it gives 8 bytes, and nbytes is any number.
pub fn pack_uint_in(out: &mut [u8], at: usize, n: u64, nbytes: usize)
    requires { at + nbytes ≤ length out.old }
    ensures { out.new ≡ put out.old at (bytes_of nbytes n) }
{
    let mut m = n;
    for byte in &mut out[at..at + nbytes] {
        *byte = (m % 256) as u8;
        m /= 256;
    }
}

// Number i of n numbers of size bytes that stand last first from place at on.
// at, size and n stand as in `numbers_down`, of which the contract speaks: 8 bytes are read at once, and a slice of the numbers alone would not have them at
// its end.
pub fn number_of(file: &[u8], at: usize, size: usize, n: usize, i: usize) -> u64
    requires { (at + n * size ≤ length file.now) × (size ≤ 8) × (i < n) }
    ensures { result ≡ get_or (numbers_down file.now at size n) i 0 }
{
    let start = at + (n - 1 - i) * size;
    unpack_uint(&file[start..], size)
}
