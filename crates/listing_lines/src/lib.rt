// The lines of a listing, written byte by byte into a lent buffer: a key's, the last, and the only one of a file that is refused.
// The room of a line is asked of the buffer in each contract: a caller may lend a longer one.
#![tactic(auto)]

ghost use Rattle.std.specs.Prelude.{◌≡◌, ◌+◌, ◌*◌, ◌≤◌, ◌<◌, length};
ghost use Rattle.listing_lines.specs.Lines.{hex_digit, hex_of, key_text, decimal, key_line, end_line, refused_line};
ghost use Rattle.listing_lines.specs.Lines.{longest_line, Written};
ghost use Rattle.format.specs.Limits.{max_path};
ghost use Rattle.buffers.specs.Put.{PutAt};

use format::Refusal;

// The room that the longest line takes: 510 digits, a space, 20 digits, a newline.
pub const LINE: usize = 532;

// ---- the parts, written

// The digit of a number below 16, in lower case. No plainer by `char::from_digit`: it answers an `Option` of a `char`.
fn hex_digit(d: u8) -> u8
    requires { d < 16 }
    ensures { result ≡ hex_digit d }
{
    if d < 10 { b'0' + d } else { b'a' + (d - 10) }
}

// Writes the bytes of text from place at on; returns the place past them.
fn put_text(line: &mut [u8], at: usize, text: &[u8]) -> usize
    requires { at + length text.now ≤ length line.old }
    ensures { PutAt line.old at text.now line.new result }
{
    let end = at + text.len();
    line[at..end].copy_from_slice(text);
    end
}

// Writes the bytes of key in hexadecimal from place at on; returns the place past them.
fn put_hex(line: &mut [u8], at: usize, key: &[u8]) -> usize
    requires { at + 2 * length key.now ≤ length line.old }
    ensures { PutAt line.old at (hex_of key.now) line.new result }
{
    for (i, x) in key.iter().enumerate() {
        line[at + 2 * i] = hex_digit(*x / 16);
        line[at + 2 * i + 1] = hex_digit(*x % 16);
    }
    at + 2 * key.len()
}

// Writes the bytes of key, or `-` for none, from the line's first byte on; returns the place past them.
fn put_key(line: &mut [u8], key: &[u8]) -> usize
    requires { (length key.now ≤ max_path) × (longest_line ≤ length line.old) }
    ensures { PutAt line.old 0 (key_text key.now) line.new result }
{
    if key.is_empty() {
        return put_text(line, 0, b"-");
    }
    put_hex(line, 0, key)
}

// How many decimal digits n has.
fn digit_count(n: u64) -> usize
    ensures { result ≡ length (decimal n) }
{
    if n == 0 { 1 } else { n.ilog10() as usize + 1 }
}

// Writes n in decimal from place at on, the last digit first; returns the place past it. By hand, since no clause of std says which bytes
// `write!` leaves in a slice.
fn put_number(line: &mut [u8], at: usize, n: u64) -> usize
    requires { at + length (decimal n) ≤ length line.old }
    ensures { PutAt line.old at (decimal n) line.new result }
{
    let count = digit_count(n);
    let mut rest = n;
    for i in (0..count).rev() {
        line[at + i] = b'0' + (rest % 10) as u8;
        rest /= 10;
    }
    at + count
}

// ---- the lines

// The line of a key: the key, a space, its value, a newline.
pub fn key_line(key: &[u8], value: u64, line: &mut [u8]) -> usize
    requires { (length key.now ≤ max_path) × (longest_line ≤ length line.old) }
    ensures { Written (key_line key.now value) line.old line.new result }
{
    let space_at = put_key(line, key);
    let value_at = put_text(line, space_at, b" ");
    let newline_at = put_number(line, value_at, value);
    put_text(line, newline_at, b"\n")
}

// The last line of a listing: `end`, how many keys, how many transitions were followed.
pub fn end_line(keys: u64, followed: u64, line: &mut [u8]) -> usize
    requires { longest_line ≤ length line.old }
    ensures { Written (end_line keys followed) line.old line.new result }
{
    let keys_at = put_text(line, 0, b"end ");
    let space_at = put_number(line, keys_at, keys);
    let followed_at = put_text(line, space_at, b" ");
    let newline_at = put_number(line, followed_at, followed);
    put_text(line, newline_at, b"\n")
}

// The only line where the file is refused: `refused` and the refusal's number.
pub fn refused_line(why: Refusal, line: &mut [u8]) -> usize
    requires { longest_line ≤ length line.old }
    ensures { Written (refused_line why) line.old line.new result }
{
    let number_at = put_text(line, 0, b"refused ");
    let newline_at = put_number(line, number_at, u64::from(u8::from(why)));
    put_text(line, newline_at, b"\n")
}
