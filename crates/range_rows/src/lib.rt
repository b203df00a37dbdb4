// What a range tests before its walk, the room for its rows, and how a row is written.
#![tactic(auto)]

ghost use Rattle.std.specs.Prelude.{◌≡◌, ◌∷◌, ◌+◌, ◌≤◌, length};
ghost use Rattle.buffers.specs.Put.{put};
ghost use Rattle.format.specs.Limits.{max_path};
ghost use Rattle.paging.specs.Paging as P;

// The bytes of a row: a key's length, and room for the longest key.
pub const ROW: usize = 256;

// Whether rows of so many bytes, and so many values, have room for `most` keys. A quotient, since 256 times `most` may wrap.
pub fn has_room(most: usize, rows: usize, values: usize) -> bool
    ensures { result ≡ P.room_test most rows values }
{
    most <= values && most <= rows / ROW
}

// Writes a row from place at on: the length of a key, and its bytes. The rest of the row stays as given.
pub fn put_row(key: &[u8], at: usize, rows: &mut [u8])
    requires { (length key.now ≤ max_path) × (at + P.row_len ≤ length rows.old) }
    ensures { rows.new ≡ put rows.old at (length key.now ∷ key.now) }
{
    rows[at] = key.len() as u8;
    let first = at + 1;
    // byte by byte: between two lent buffers `copy_from_slice` is compiled to a call of `memmove`, and the library for C may call `memcpy` and `memset` alone
    for (i, b) in key.iter().enumerate() {
        rows[first + i] = *b;
    }
}
