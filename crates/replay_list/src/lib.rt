// A list of recorded answers, as the replay programs read it: its records, what they are about,
// bytes that are held to a part of it, and the counts that a program writes (oracle/README.md, "The
// replay lists"). The comparison with the Rust recorded the lists, so the numbers for answers are those of oracle_numbers.
#![tactic(auto)]

ghost use Rattle.std.specs.Prelude.{◌≡◌, ◌+◌, ◌≤◌, ◌<◌, length, take, drop, IfSome};
ghost use Rattle.buffers.specs.Decide.{Decides};
ghost use Rattle.format.specs.Bytes.{le};
ghost use Rattle.replay_list.specs.Records.{entry_is, parsed_is, parsed_at, asked_file};
ghost use Rattle.replay_list.specs.Recorded.{answer_number, answer_test};
ghost use Rattle.replay_list.specs.Tallies.{AllKept, Holds, smaller, more_at, no_counts, tallied};

use format::Refusal;
use oracle_numbers::{END, REFUSED};
use std::io;

// The kind of a record that those after it are about, as a file: its part is what they ask of. The other kinds are each program's own, so a kind is the
// number that stands in the list, and each program names its own by constants.
pub const FILE: u64 = 1;
// The kind by which a list that ends within a record is counted, and a record of a kind past the last one: the kinds of records begin with 1.
pub const MALFORMED: u64 = 0;
// How many kinds are counted, MALFORMED among them.
const KINDS: usize = 8;
// How many bytes of a record stand before its part.
const HEAD: usize = 15;
// What a buffer of the programs holds before it is lent.
pub const KEPT: u8 = 170;
// What an entry of a table of the programs holds before it is lent: no entry of an admitted file.
pub const KEPT16: u16 = 43_690;

pub const KEPT64: u64 = 12_297_829_382_473_034_410;
// The entries of each table of the programs: more than the longest file of a list has bytes.
pub const CELLS: usize = 1_024;

// A record of the list: its numbers, and its part.
#[derive(Clone, Copy)]
pub struct Entry<'l> {
    pub kind: u64,
    pub a: u64,
    pub b: u64,
    pub c: u64,
    pub part: &'l [u8],
}

// ---- the records

// The number of size bytes at place at.
pub fn number(bytes: &[u8], at: usize, size: usize) -> u64
    requires { (at + size ≤ length bytes.now) × (size ≤ 8) }
    ensures { result ≡ le (take size (drop at bytes.now)) }
{
    le_bytes::unpack_uint(&bytes[at..], size)
}

// The record at place at, or none where the list ends within it.
#[tactic(auto, unfolding(crate::specs::Records::parsed_at))]
pub fn parse(list: &[u8], at: usize) -> Option<Entry<'_>>
    ensures value { parsed_is result ≡ parsed_at list.now at }
    ensures within { IfSome result (λ entry. at + 15 + length entry.part.now ≤ length list.now) }
{
    let (head, behind) = list.get(at..)?.split_at_checked(HEAD)?;
    let kind = number(head, 0, 1);
    let a = number(head, 1, 2);
    let b = number(head, 3, 8);
    let c = number(head, 11, 2);
    let len = number(head, 13, 2) as usize;
    let part = behind.get(..len)?;
    Some(Entry {
        kind,
        a,
        b,
        c,
        part,
    })
}

// The file that a record is about: its own part if it is a file, else the file before it.
pub fn file_of<'l>(entry: Entry<'l>, file: &'l [u8]) -> &'l [u8]
    ensures { result.now ≡ asked_file (entry_is entry.entry) file.now }
{
    if entry.kind == FILE { entry.part } else { file }
}

// ---- answers

// How the answer of a call that writes is recorded: the number of bytes, or the refusal added to a number that no count of bytes reaches.
pub fn answer_number(answer: Result<usize, Refusal>, added: u16) -> u64
    ensures { result ≡ answer_number answer added }
{
    match answer {
        Ok(n) => n as u64,
        Err(why) => u64::from(added) + u64::from(u8::from(why)),
    }
}

// Whether an answer of next has the recorded number and value: a key's length and value, 1000 at the end, or 2000 plus the refusal.
pub fn answer_alike(answer: Result<Option<(usize, u64)>, Refusal>, number: u64, value: u64) -> bool
    ensures { result ≡ answer_test answer number value }
{
    match answer {
        Ok(Some((n, v))) => n as u64 == number && v == value,
        Ok(None) => number == END,
        Err(why) => REFUSED + u64::from(u8::from(why)) == number,
    }
}

// ---- what a buffer holds

// Whether each byte is what a buffer holds before it is lent.
fn all_kept(bytes: &[u8]) -> bool
    ensures { Decides result (AllKept bytes.now) }
{
    bytes.iter().all(|x| *x == KEPT)
}

// Whether a buffer holds these bytes at its front, and behind them what it held.
pub fn same_bytes(part: &[u8], buffer: &[u8; 4096]) -> bool
    ensures { Decides result (Holds part.now buffer.now) }
{
    let n = part.len();
    if 4096 < n {
        return false;
    }
    if &buffer[..n] != part {
        return false;
    }
    all_kept(&buffer[n..])
}

// The smaller of two numbers: how much of a buffer or an array is lent.
pub fn at_most(n: u64, most: usize) -> usize
    ensures { (result ≡ smaller n most) × (result ≤ most) }
{
    n.min(most as u64) as usize
}

// ---- the counts

// How many records there were of each kind, and how many of those were answered alike.
#[derive(Clone, Copy)]
pub struct Counts {
    pub asked: [u64; KINDS],
    pub alike: [u64; KINDS],
}

// One more at place k, up to 2^64 - 1.
fn more(counts: &mut [u64; KINDS], k: usize)
    requires { k < 8 }
    ensures { counts.new ≡ more_at counts.old k }
{
    counts[k] = counts[k].saturating_add(1);
}

impl Counts {
    // No record of any kind.
    pub fn new() -> Counts
        ensures { result ≡ no_counts }
    {
        Counts {
            asked: [0; KINDS],
            alike: [0; KINDS],
        }
    }

    // Counts a record of this kind, and whether it was answered alike. A kind past the last one is counted as MALFORMED, never as alike.
    #[tactic(auto, unfolding(crate::specs::Tallies::tallied))]
    pub fn tally(&mut self, kind: u64, alike: bool)
        ensures { self.new ≡ tallied self.old kind alike }
    {
        if KINDS as u64 <= kind {
            more(&mut self.asked, MALFORMED as usize);
            return;
        }
        let k = kind as usize;
        more(&mut self.asked, k);
        if alike {
            more(&mut self.alike, k);
        }
    }

    // Writes how many records there were of a kind, and how many were answered alike.
    pub fn line(&self, rt: &impl Print, kind: u64, name: &[u8]) -> io::Result<()>
        requires { kind < 8 }
    {
        let k = kind as usize;
        rt.write_all(name)?;
        println!(rt; ": {}, alike {}", self.asked[k], self.alike[k])
    }
}

// ---- the list

// Goes through the records of a list, which ends with the last of them: hands each record and the file that it is about to `one`, which says whether it is
// answered alike, and counts it.
pub fn replay<F: FnMut(Entry<'_>, &[u8]) -> io::Result<bool>>(
    list: &[u8],
    mut one: F,
) -> io::Result<Counts>
    requires { F.IsAlwaysCallable one }
{
    let mut counts = Counts::new();
    let mut file: &[u8] = &[];
    let mut at = 0;
    // by place: each record says where the next begins
    while at < list.len() {
        let Some(entry) = parse(list, at) else {
            counts.tally(MALFORMED, false);
            return Ok(counts);
        };
        file = file_of(entry, file);
        let alike = one(entry, file)?;
        counts.tally(entry.kind, alike);
        at += HEAD + entry.part.len();
    }
    Ok(counts)
}
