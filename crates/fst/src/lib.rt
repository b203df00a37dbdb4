// Opening a file (src/raw/mod.rs: `Fst::new`), by its header and its trailer alone; and the refusal of a sum that leads to a node, which
// lookups and readings share.
#![tactic(auto)]

ghost use Rattle.std.specs.Prelude.{◌≡◌, ◌+◌, ◌-◌, ◌≤◌, ◌<◌, length, cond, [], eqb};
ghost use Rattle.std.proofs.Math.Option.{some, none};
ghost use Rattle.format.specs.Limits as L;
ghost use Rattle.format.specs.Opening.{trailer_len, least_len, number_at, meta_of, root_test, opened, refused, opening};
ghost use Rattle.format.specs.View.{view_with, fst_is};
ghost use Rattle.format.specs.Lookup.{past_sum};
ghost use Rattle.format.specs.Paths.{node_in};
ghost use Rattle.fst.specs.Open.{opening_is, meta_is, checksum_is};

use format::{FIRST_NODE, FstRef, MAX_LEN, MIN_LEN, Refusal};
use le_bytes::{read_u32_le, read_u64_le};

// What the header and the trailer say.
#[derive(Clone, Copy)]
pub struct Meta {
    pub version: u64,
    pub ty: u64,
    // the number of keys, read and not judged
    pub len: u64,
    pub root: usize,
    // that of version 3, read and not verified; versions 1 and 2 have none
    pub checksum: Option<u32>,
}

impl Meta {
    // The file that says this, as its nodes are read.
    pub fn over<'f>(self, bytes: &'f [u8]) -> FstRef<'f>
        ensures { result ≡ view_with bytes.entry self.version self.root }
    {
        FstRef {
            bytes,
            version: self.version,
            root: self.root,
        }
    }
}

// How many bytes stand after the root's node.
fn trailer_len(version: u64) -> usize
    ensures { (result ≡ trailer_len version) × (result ≤ 20) × (16 ≤ result) }
{
    // key count and root address, and in version 3 a checksum
    if version == 3 { 20 } else { 16 }
}

// The rule on roots.
#[tactic(auto, using(crate::proofs::Opens::root_of_none, crate::proofs::Opens::root_too_low, crate::proofs::Opens::root_at_trailer))]
fn root_right(version: u64, root: usize, len: usize) -> bool
    requires { least_len version ≤ len }
    ensures { result ≡ root_test version root len }
{
    let nodes_end = len - trailer_len(version);
    if root == 0 {
        // no node stands between header and trailer
        return nodes_end == FIRST_NODE;
    }
    if root < FIRST_NODE {
        return false;
    }
    // the root's address is the last byte before the trailer
    root == nodes_end - 1
}

// The stored checksum, if the version has one.
fn checksum_of(file: &[u8], version: u64) -> Option<u32>
    requires { 4 ≤ length file.now }
    ensures { checksum_is result ≡ cond (eqb version 3)
        (some (number_at file.now (length file.now - 4) 4)) none }
{
    if version == 3 {
        let at = file.len() - 4;
        return Some(read_u32_le(&file[at..]));
    }
    None
}

// What a file without bytes says: version, type, count and root 0, and no checksum.
#[tactic(auto, using(crate::proofs::Opens::blank_is_meta))]
fn blank() -> Meta
    ensures { meta_is result ≡ meta_of [] }
{
    Meta {
        version: 0,
        ty: 0,
        len: 0,
        root: 0,
        checksum: None,
    }
}

// Opens a file of n bytes that has no room for header and trailer.
fn of_few(n: usize) -> Result<Meta, Refusal>
    ensures { opening_is result ≡ cond (eqb n 0) (opened (meta_of [])) (refused L.SHORT) }
{
    if n == 0 {
        Ok(blank())
    } else {
        Err(Refusal::Short)
    }
}

// Opens a file: what it says, or SHORT, LARGE, VERSION, SHORT for its version, or ROOT, judged in this order.
// A file without bytes is a blank card, and none of its bytes is read.
pub fn open(file: &[u8]) -> Result<Meta, Refusal>
    ensures { opening_is result ≡ opening file.now }
{
    let n = file.len();
    let few = n < MIN_LEN;
    if few {
        return of_few(n);
    }
    let too_large = MAX_LEN < n;
    if too_large {
        return Err(Refusal::Large);
    }
    let version = read_u64_le(file);
    let too_new = 3 < version;
    if version < 1 || too_new {
        return Err(Refusal::Version);
    }
    let trailer = trailer_len(version);
    // without nodes the trailer stands right after the header
    let least = FIRST_NODE + trailer;
    if n < least {
        return Err(Refusal::Short);
    }
    let len_at = n - trailer;
    let root_at = len_at + 8;
    let root = read_u64_le(&file[root_at..]) as usize;
    if !root_right(version, root, n) {
        return Err(Refusal::Root);
    }
    let ty = read_u64_le(&file[8..]);
    let len = read_u64_le(&file[len_at..]);
    let checksum = checksum_of(file, version);
    Ok(Meta {
        version,
        ty,
        len,
        root,
        checksum,
    })
}

// The refusal where the sum that leads to the node at addr passes 2^64 - 1: the node is judged first.
pub fn past_sum(fst: FstRef<'_>, addr: usize) -> Refusal
    ensures { result ≡ past_sum (node_in (fst_is fst.entry) addr) }
{
    match node::node_at(fst, addr) {
        Err(_) => Refusal::Node,
        Ok(_) => Refusal::Sum,
    }
}
