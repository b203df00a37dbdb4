// Replays packing and reading nodes, with no Rust at hand. The list on standard input has nodes,
// each with its name, what it packs to and stored nodes that are to be read as it (README.md). Each
// is asked again. A difference changes a count that is written, and the name of its node is written
// too.
#![tactic(auto)]

ghost use Rattle.std.specs.Prelude.{◌+◌, ◌≤◌, ◌<◌, IfSome};
ghost use Rattle.node.specs.Read.{Readable};

use format::FstRef;
use node_record::BuilderNode;
use node_view::Node;
use replay_list::{Entry, FILE, KEPT, MALFORMED, answer_number, at_most, number};
use std::io;
use std::io::Read;

// The list's length, and one byte more by which a longer list is seen.
const LIST: u64 = 341_273;
// The file that a node is read in: room for the largest node at F 65,553, where deltas first take 3
// bytes.
const SPACE: usize = 69_632;

// What a refusal is added to, in a record's answer: no node packs to as many bytes.
const REFUSED: u16 = 10_000;

// The kinds of record beside the node.
const PACK: u64 = 2;

const READ: u64 = 3;

// A node of the list: its name, then at the places below the number of transitions, 1 if final, the
// final output and F, then the inputs, the outputs and the targets.
const COUNT: usize = 32;

const FINAL: usize = 34;

const FINAL_OUTPUT: usize = 35;

const FIRST: usize = 43;

const LISTS: usize = 51;

// The room for the outputs and for the targets of a node of the list: one more than any of its nodes has.
const ROOM: usize = 258;

// A node of the list, with zeros behind its outputs and its targets.
#[derive(Drop)]
struct Listed<'l> {
    is_final: bool,
    final_output: u64,
    first: usize,
    inputs: &'l [u8],
    outputs: [u64; ROOM],
    targets: [usize; ROOM],
}

// The outputs that are listed, of 8 bytes each, and zeros behind them.
fn outputs_of(listed: &[u8]) -> [u64; ROOM] {
    let mut outputs = [0; ROOM];
    for (output, bytes) in outputs.iter_mut().zip(listed.chunks_exact(8)) {
        *output = number(bytes, 0, 8);
    }
    outputs
}

// The targets that are listed, of 4 bytes each, and zeros behind them.
fn targets_of(listed: &[u8]) -> [usize; ROOM] {
    let mut targets = [0; ROOM];
    for (target, bytes) in targets.iter_mut().zip(listed.chunks_exact(4)) {
        *target = number(bytes, 0, 4) as usize;
    }
    targets
}

// The node of the list, or none where it has not all its parts.
fn node_of(node: &[u8]) -> Option<Listed<'_>> {
    let (head, lists) = node.split_at_checked(LISTS)?;
    let n = number(head, COUNT, 2) as usize;
    if ROOM <= n || lists.len() < 13 * n {
        return None;
    }
    let (inputs, behind) = lists.split_at(n);
    let (outputs, targets) = behind.split_at(8 * n);
    Some(Listed {
        is_final: number(head, FINAL, 1) == 1,
        final_output: number(head, FINAL_OUTPUT, 8),
        first: number(head, FIRST, 8) as usize,
        inputs,
        outputs: outputs_of(outputs),
        targets: targets_of(&targets[..4 * n]),
    })
}

// ---- packing

// Packs the node into out, with so many outputs and targets lent: the answer as a number.
fn packed(node: &Listed<'_>, outputs: usize, targets: usize, out: &mut [u8]) -> u64
    requires { (outputs ≤ 258) × (targets ≤ 258) }
{
    let record = BuilderNode {
        is_final: node.is_final,
        final_output: node.final_output,
        inputs: node.inputs,
        outputs: &node.outputs[..outputs],
        targets: &node.targets[..targets],
    };
    answer_number(node_compile::compile(record, node.first, out), REFUSED)
}

// Whether the node packs to the recorded bytes or is refused, in the recorded room, with the rest
// of the buffer as it was.
fn packs_alike(node: &Listed<'_>, entry: Entry<'_>) -> bool {
    let Some((lent, bytes)) = entry.part.split_at_checked(4) else {
        return false;
    };
    let outputs = at_most(number(lent, 0, 2), ROOM);
    let targets = at_most(number(lent, 2, 2), ROOM);
    let room = at_most(entry.b, 4096);
    let mut buffer = [KEPT; 4096];
    packed(node, outputs, targets, &mut buffer[..room]) == entry.a
        && replay_list::same_bytes(bytes, &buffer)
}

// ---- reading

// Whether transition i is that of the list's node, and its input is found there.
fn transition_alike(listed: &Listed<'_>, file: &[u8], read: node::Node, i: usize) -> bool
    requires { Readable file.now read × (i < read.ntrans) }
{
    let t = node::transition(file, read, i);
    listed.inputs.get(i) == Some(&t.inp)
        && listed.outputs.get(i) == Some(&t.out)
        && listed.targets.get(i) == Some(&t.addr)
        && node::find_input(file, read, t.inp) == Ok(i)
}

// How many inputs are passed with b, where n stand below it: n and one more where b is found at place n, n where it is absent and the
// first greater input stands there, and None where the search says another place.
fn passed(file: &[u8], read: node::Node, b: u8, n: usize) -> Option<usize>
    requires { Readable file.now read × (n ≤ 256) }
    ensures { IfSome result (λ m. m ≤ n + 1) }
{
    match node::find_input(file, read, b) {
        Ok(k) => (k == n).then_some(n + 1),
        Err(p) => (p == n).then_some(n),
    }
}

// How many bytes are found among the inputs, where each is found at its place, and each absent one before the first greater.
fn all_found(file: &[u8], read: node::Node) -> Option<usize>
    requires { Readable file.now read }
{
    let mut n = 0;
    for b in 0..=u8::MAX {
        n = passed(file, read, b, n)?;
    }
    Some(n)
}

// Whether what stands at addr is sound and the list's node, or not sound where that is recorded. It is judged once, and read by its numbers: a question to the
// view would judge it again.
fn node_alike(listed: &Listed<'_>, node: Node<'_>, sound: u64) -> bool {
    let Ok(read) = node.judged() else {
        return sound == 0;
    };
    let file = node.fst.bytes;
    let n = listed.inputs.len();
    sound == 1
        && read.ntrans == n
        && read.first == listed.first
        && read.is_final == listed.is_final
        && read.final_output == listed.final_output
        && all_found(file, read) == Some(n)
        && (0..n).all(|i| transition_alike(listed, file, read, i))
}

// Whether recorded bytes, laid into a file of zeros that ends with them, are read as recorded in
// both versions.
fn reads_alike(listed: &Listed<'_>, entry: Entry<'_>) -> bool {
    let Some((places, stored)) = entry.part.split_at_checked(24) else {
        return false;
    };
    let laid = at_most(number(places, 0, 8), SPACE);
    let root = number(places, 8, 8) as usize;
    let addr = number(places, 16, 8) as usize;
    let len = stored.len();
    if SPACE - laid < len {
        return false;
    }
    let end = laid + len;
    let mut file = [0u8; SPACE];
    file[laid..end].copy_from_slice(stored);
    let bytes = &file[..end];
    [entry.a, entry.c].iter().all(|version| {
        let fst = FstRef {
            bytes,
            version: *version,
            root,
        };
        node_alike(listed, Node::new(fst, addr), entry.b)
    })
}

// ---- the list

// Whether a record is answered as recorded. The node that it is about has all its parts.
fn alike(node: &[u8], entry: Entry<'_>) -> bool {
    let Some(listed) = node_of(node) else {
        return false;
    };
    match entry.kind {
        PACK => packs_alike(&listed, entry),
        READ => reads_alike(&listed, entry),
        kind => kind == FILE,
    }
}

// The same, with the node's name written where it is not.
fn asked(rt: &impl Print, node: &[u8], entry: Entry<'_>) -> io::Result<bool> {
    if alike(node, entry) {
        return Ok(true);
    }
    if let Some(name) = node.get(..COUNT) {
        rt.write_all(b"differs: ")?;
        rt.write_all(name)?;
        rt.write_all(b"\n")?;
    }
    Ok(false)
}

fn main(rt: HostRuntime) -> io::Result<()> {
    let mut list = Vec::new(rt.alloc());
    rt.stdin().take(LIST).read_to_end(&mut list)?;
    let counts = replay_list::replay(&list, |entry, node| asked(&rt, node, entry))?;
    counts.line(&rt, FILE, b"nodes")?;
    counts.line(&rt, PACK, b"packed")?;
    counts.line(&rt, READ, b"read")?;
    counts.line(&rt, MALFORMED, b"malformed")
}
