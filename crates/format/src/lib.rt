// What every layer shares: the limits of document 01, the refusals of documents 01 and 02, and a transition.
// The meaning of the format stands in specs/; docs/FORMAT.md walks through it. `limits` and `From<Refusal>` hold
// each number here to the definition of its name.
#![tactic(auto)]

ghost use Rattle.std.specs.Prelude.{◌≡◌, ◌<◌, ℕ, get_or};
ghost use Rattle.format.specs.Limits as L;
ghost use Rattle.format.specs.Limits.{number};
ghost use Rattle.format.specs.Node.{state_form};

// Why a call refuses, in the order of document 01's table, and from `Pattern` on of document 02's.
#[derive(Clone, Copy, PartialEq, Eq)]
pub enum Refusal {
    // a file that has bytes, but fewer than its header and trailer
    Short = 1,
    // a version that is none of 1 to 3
    Version = 2,
    // a root that breaks the root rule (Opening)
    Root = 3,
    // a file, or a new one, over the largest length; to a listing, one over 4,096 bytes
    Large = 4,
    // a node that is not sound; on admission also a broken chain, or a target that is no node of the chain
    Node = 5,
    // a path or a key longer than the longest key
    Deep = 6,
    // a sum past the largest value
    Sum = 7,
    // a buffer or a table too short, or fewer than two cells to pack with
    Space = 8,
    // a bound longer than the longest key
    Bound = 9,
    // a node record that breaks a rule (Packed: `RecordOk`)
    Record = 10,
    // a reading that cannot be one of the file: over 256 levels, a held bound over 255 bytes, or the length of another file; a key that comes where
    // the reading's number says that none is to come; marks beside it that cannot be right: over 16, one with such a reading, or a name of no bytes,
    // of over 8, or that stands twice; of several files as one, a held key of over 256 levels
    State = 11,
    // over 255 positions of a pattern, given or held
    Pattern = 12,
    // bytes to pack that are no list
    List = 13,
    // no files to read as one, or over eight, given or held
    Cards = 14,
    // a file to convert that is not of version 1
    Edition = 15,
    // a held level that the new file does not have, or whose node there has another number of transitions or another sum
    Carry = 16,
    // a mark's name of no bytes or over 8, or, to go back, of no mark
    Name = 17,
    // a seventeenth mark
    Full = 18,
    // over 2^64 - 1 keys, or at a start a table of keys whose numbers do not go together
    Count = 19,
    // a seat's number over seven, given or held, or a seat without a reading that is raised or waits
    Seat = 20,
}

// The number of a refusal in the papers and in C, which is the one that the definitions give it.
impl From<Refusal> for u8 {
    ghost from_gives = { λ why n. n ≡ number why };

    fn from(why: Refusal) -> u8 {
        why as u8
    }
}

// The first byte of a file that a node may take: the header ends before it.
pub const FIRST_NODE: usize = 16;
// The longest path of an admitted file, and so the longest key, bound and key buffer that is needed.
pub const MAX_KEY: usize = 255;
// The most levels of a reading: one for the root, and one for each byte of a key.
pub const LEVELS: usize = 256;
// The smallest length of a file that has bytes: a header of 16, and a trailer of 16 in versions 1 and 2. Version 3 needs 4 more.
pub const MIN_LEN: usize = 32;
// The largest F that a node record may ask for, which is the largest length of a file.
pub const MAX_LEN: usize = 4_294_967_295;
// The most transitions that a node may have: one for each byte.
pub const MAX_TRANS: usize = 256;
// A node with more transitions than this has an index, in versions 2 and 3 (node.rs).
pub const TRANS_INDEX_THRESHOLD: usize = 32;

// One transition of a node, with the field names of mod.rs.
#[derive(Clone, Copy)]
pub struct Transition {
    // the byte that it takes
    pub inp: u8,
    // what it adds to the value
    pub out: u64,
    // the address of the node that it leads to
    pub addr: usize,
}

// A file as its nodes are read: its bytes, its version and the address of its root.
#[derive(Clone, Copy)]
pub struct FstRef<'f> {
    pub bytes: &'f [u8],
    pub version: u64,
    pub root: usize,
}

// Says that what a slice of bytes holds are bytes. A proof knows it of a parameter, and of a slice in a struct by this call.
pub fn are_bytes(bytes: &[u8])
    ensures { (i : ℕ) → get_or bytes.now i 0 < 256 }
{}

// How a node is stored, by the top two bits of its state byte (node.rs, `State`).
#[derive(Clone, Copy)]
pub enum State {
    // 11: one transition with output 0, to the node whose last byte stands just below this one
    OneTransNext,
    // 10: one transition
    OneTrans,
    // 00 or 01: any number of transitions; 01 is final
    AnyTrans,
}

// How the node of this state byte is stored, as `State::new` of node.rs tells it.
impl From<u8> for State {
    ghost from_gives = { λ byte state. state ≡ state_form byte };

    #[inline(always)]
    fn from(byte: u8) -> State {
        match byte {
            0..=127 => State::AnyTrans,
            128..=191 => State::OneTrans,
            _ => State::OneTransNext,
        }
    }
}

// The limits of this file together.
#[derive(Clone, Copy)]
pub struct Named {
    pub first: usize,
    pub shortest: usize,
    pub longest: usize,
    pub transitions: usize,
    pub threshold: usize,
    pub key: usize,
    pub levels: usize,
    pub sum: u64,
}

// Each limit is the one that the definitions name; a number changed on one side alone is refused here.
pub fn limits() -> Named
    ensures first_value { (result.first ≡ L.first_node) × (result.shortest ≡ L.min_len) × (result.longest ≡ L.max_len)
        × (result.transitions ≡ L.max_trans) }
    ensures threshold_value { (result.threshold ≡ L.index_threshold) × (result.key ≡ L.max_path)
        × (result.levels ≡ L.max_levels) × (result.sum ≡ L.max_sum) }
{
    Named {
        first: FIRST_NODE,
        shortest: MIN_LEN,
        longest: MAX_LEN,
        transitions: MAX_TRANS,
        threshold: TRANS_INDEX_THRESHOLD,
        key: MAX_KEY,
        levels: LEVELS,
        sum: u64::MAX,
    }
}
