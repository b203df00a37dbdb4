// The lines of a listing, one a call, each written into a lent buffer. Crate `listing_start` begins a listing, `listing_lines` writes a line, and the
// program that calls these functions is crate `list`.
#![tactic(auto)]

ghost use Rattle.stream.specs.Plains.{plain_is};
ghost use Rattle.listing.specs.Listing.{state, line_of};
ghost use Rattle.listing.specs.Lined.{Wrote, Lined};

use format::{MAX_KEY, Refusal};
pub use listing_lines::LINE;
use stream::Plain;

// A line that was written, a key's or the last, by its length.
#[derive(Clone, Copy)]
pub enum Line {
    Key(usize),
    Last(usize),
}

// What the next line gives back: the line, how many keys were listed, up to 2^64 - 1, and the reading after it.
#[derive(Clone, Copy)]
pub struct Listed {
    pub line: Line,
    pub keys: u64,
    pub plain: Plain,
}

// Writes the next line of a listing into a line with room for each, from its first byte on.
fn write_line(file: &[u8], plain: Plain, keys: u64, line: &mut [u8; LINE]) -> Listed
    ensures { Wrote (line_of file.now (state (plain_is plain) keys)) line.old line.new result }
{
    let mut key = [0u8; MAX_KEY];
    let step = stream::next(file, plain, &mut key);
    let answer = step.answer;
    let after = step.reading;
    match answer {
        Ok(Some((n, value))) => {
            let len = listing_lines::key_line(&key[..n], value, line);
            Listed {
                line: Line::Key(len),
                keys: stream_descend::counted(keys),
                plain: after,
            }
        }
        Ok(None) => {
            let total = after.reading.total;
            let len = listing_lines::end_line(keys, total, line);
            Listed {
                line: Line::Last(len),
                keys,
                plain: after,
            }
        }
        Err(why) => {
            let len = listing_lines::refused_line(why, line);
            Listed {
                line: Line::Last(len),
                keys,
                plain: after,
            }
        }
    }
}

// Writes the next line of a listing, after keys lines of keys: a key's, or the last. The line stands from the buffer's first byte on, the rest as
// given; a buffer under LINE bytes, which has no room for every line, is left as it is and refused with SPACE.
pub fn next_line(file: &[u8], plain: Plain, keys: u64, line: &mut [u8]) -> Result<Listed, Refusal>
    ensures { Lined (line_of file.now (state (plain_is plain) keys)) line.old line.new result }
{
    match line.first_chunk_mut::<LINE>() {
        Some(line) => Ok(write_line(file, plain, keys, line)),
        None => Err(Refusal::Space),
    }
}
