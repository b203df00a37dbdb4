// Lent buffers: bytes copied to the front of one, and in specs/ the laws of writing into one part after part (Put, CopyLaws, WritingLaws),
// of filling one with one value (FillingLaws), and of tests that decide a fact (Decide). Nothing here is about the format.
#![tactic(auto)]

ghost use Rattle.std.specs.Prelude.{◌≡◌, ◌++◌, ◌≤◌, length, take, drop};

// Copies the first n bytes of bytes to the front of out; the rest of out stays as given.
// n is less than either length where a part of a larger buffer is copied. std's `copy_from_slice` at each caller would be as plain and no
// plainer: `out[..n].copy_from_slice(&bytes[..n])` would stand there, which names n twice.
// Between two lent buffers it is compiled to a call of `memmove`, which the library for C must not have: where the library calls this, one of
// the two is an array of its own.
pub fn copy_front(bytes: &[u8], n: usize, out: &mut [u8])
    requires { (n ≤ length bytes.now) × (n ≤ length out.old) }
    ensures { out.new ≡ take n bytes.now ++ drop n out.old }
{
    out[..n].copy_from_slice(&bytes[..n]);
}
