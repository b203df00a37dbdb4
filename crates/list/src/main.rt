// The listing program: the file on standard input, a line for each key on standard output, and the last line (README.md, "Listing a file").
// The work is the crates' `listing_start` and `listing`; a line is written as soon as it is there, so that memory does not grow with the number of keys.
#![tactic(auto)]

ghost use Rattle.stream.specs.Plains.{plain_is};
ghost use Rattle.list.specs.Stands.{Stands};

use format::Refusal;
use listing::{LINE, Line};
use listing_start::LARGEST;
use std::io;
use std::io::Read;
use stream::Plain;

// The longest file that is listed, and one byte more by which a longer one is seen.
const ROOM: u64 = LARGEST as u64 + 1;

// Writes the one line of a file that is not listed.
fn refuse(rt: &impl Print, why: Refusal) -> io::Result<()> {
    let mut line = [0u8; LINE];
    let n = listing_lines::refused_line(why, &mut line);
    rt.write_all(&line[..n])
}

// Writes the lines of an admitted file, from its unbounded reading on. Each key that is handed out leaves fewer visits to come.
fn lines(rt: &impl Print, file: &[u8], first: Plain) -> io::Result<()>
    requires { Stands file.now (plain_is first).view }
{
    let mut line = [0u8; LINE];
    let mut plain = first;
    let mut keys: u64 = 0;
    // a loop: each line gives the reading that the next one is of
    loop {
        let Ok(listed) = listing::next_line(file, plain, keys, &mut line) else {
            // it is not refused: the line has room
            return Ok(());
        };
        match listed.line {
            Line::Key(n) => rt.write_all(&line[..n])?,
            Line::Last(n) => return rt.write_all(&line[..n]),
        }
        keys = listed.keys;
        plain = listed.plain;
    }
}

// Lists a file, or says why not. The tables have an entry for each byte of the longest file that is listed.
fn list(rt: &impl Print, file: &[u8]) -> io::Result<()> {
    let mut depths = [0u16; LARGEST];
    let mut sums = [0u64; LARGEST];
    let mut counts = [0u64; LARGEST];
    let begun = listing_start::begin(file, &mut depths, &mut sums, &mut counts);
    match begun {
        Err(why) => refuse(rt, why),
        Ok(plain) => lines(rt, file, plain),
    }
}

fn main(rt: HostRuntime) -> io::Result<()> {
    let mut card = Vec::new(rt.alloc());
    rt.stdin().take(ROOM).read_to_end(&mut card)?;
    // a write that fails ends the listing and no more: who reads it may stop before its end, and the command `list` looks at its own output
    let _ = list(&rt, &card);
    Ok(())
}
