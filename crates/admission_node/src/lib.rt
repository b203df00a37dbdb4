// What admission does at one node: on the way down the node is judged and marks what it leads to, on the way up it is surveyed, that is, its longest path and
// its largest sum come from the entries of its targets.
// depths and sums are two slices and no struct: `enter` and admission_walk's `walk` take the depths alone, `survey_at` reads both, and
// admission_fill's `fill` writes both. One value of both, made of the two that the C caller lends, would be taken apart for the first two.
// What is asked of an address or a node, and of the tables, stands in the contract of each function that takes them. A type that says it would hold the
// node, the file and the tables, and would be made anew at each node, since the passes write the tables between two nodes.
// A node's transitions are gone through by their places: their inputs, outputs and deltas stand apart in the file, and there is no slice of transitions.
#![tactic(auto)]

ghost use Rattle.std.specs.Prelude.{◌≡◌, true, cond, min, max, ◌+◌, ◌*◌, ◌≤◌, ◌<◌, ltb, length, get_or};
ghost use Rattle.format.specs.Limits.{max_levels};
ghost use Rattle.format.specs.Node.{numbers_down, transition_at};
ghost use Rattle.format.specs.View.{fst_is};
ghost use Rattle.format.specs.declared.State.TheVariants.{AnyTrans};
ghost use Rattle.node.specs.Read.{transitions_in, Readable};
ghost use Rattle.admission_node.specs.Entries.{Wide, Markable, MarksTargets, Unpassed, Enters, child_depth, child_sum, raised_by, Surveyable, Surveyed, SurveyableAt, SurveyedAt, FirstEntry, FirstMarked, entry_is, or_over};

use format::{FstRef, LEVELS, State};
use le_bytes::{number_of, unpack_uint};
use node::{Node, Unsound};
use node_sound::{any_parts, at_form, next_sound, one_sound};

// The largest entry of an admitted file: 1 plus a path of 255.
const DEEPEST: u16 = LEVELS as u16;

// The marks of the pass down, until the pass up comes to their place: where a node leads that is not reached, where a reached one
// does, a node passed that is not reached, and a node passed that is; above the mark of a node passed stands its link (admission_walk). They are numbers,
// since they stand in the depths' table, which the caller lends as u16.
const LED: u16 = 1;

pub const HIT: u16 = 2;

pub const UNUSED: u16 = 3;

pub const USED: u16 = 4;

// What the entries of a node's targets say: 1 plus the longest path, and the largest sum, or None where one passes 2^64 - 1.
#[derive(Clone, Copy)]
pub struct Survey {
    pub depth: u16,
    pub total: Option<u64>,
}

// ---- the entries

// The entry of a target; address 0 has the entry 0 and counts as a node with no path. Its 1 is added, with no branch: many targets are 0, in no order.
#[inline(always)]
fn child_depth(depths: &[u16], t: usize) -> u16
    requires { (t < length depths.now) × (get_or depths.now 0 0 ≡ 0)
        × (child_depth depths.now t ≤ 257) }
    ensures { result ≡ child_depth depths.now t }
{
    depths[t] + u16::from(t == 0)
}

// The sum of a target; address 0 has the entry 0 and output 0.
#[inline(always)]
fn child_sum(sums: &[u64], t: usize) -> u64
    requires { (t < length sums.now) × (get_or sums.now 0 0 ≡ 0) }
    ensures { result ≡ child_sum sums.now t }
{
    sums[t]
}

// The larger of a total and w + s, or None where either passes the limit.
fn raised(t: Option<u64>, w: u64, s: u64) -> Option<u64>
    ensures { result ≡ raised_by t (w + s) }
{
    let sum = w.checked_add(s)?;
    Some(t?.max(sum))
}

// ---- the numbers of a node

// Whether 8 bytes of the file follow the outputs and the deltas of a node, so that each can be read by 8 at once. They do where a file opens: its trailer
// has 16 bytes.
fn is_wide(file: &[u8], node: Node) -> bool
    requires { Readable file.now node }
    ensures { Wide file.now node result }
{
    let end = node.outputs + node.ntrans * node.osize + node.ntrans * node.tsize;
    8 <= file.len() - end
}

// Number i of n numbers as `number_of` answers it, read by 8 bytes at once where these are there. It is asked once for all numbers of a node, so that the
// loop over them has no call: with the question asked for each, an admission of words takes 8 percent more instructions (callgrind, 20,000 words, unproved).
#[inline(always)]
fn number(file: &[u8], at: usize, size: usize, n: usize, i: usize, wide: bool) -> u64
    requires { (at + n * size ≤ length file.now) × (size ≤ 8) × (i < n)
        × (wide ≡ true → at + n * size + 8 ≤ length file.now) }
    ensures { result ≡ get_or (numbers_down file.now at size n) i 0 }
{
    if wide {
        let start = at + (n - 1 - i) * size;
        unpack_uint(&file[start..start + 8], size)
    } else {
        number_of(file, at, size, n, i)
    }
}

// The address that transition i of a node with any number of them leads to.
#[inline(always)]
fn target_at(file: &[u8], node: Node, i: usize, wide: bool) -> usize
    requires { Readable file.now node × (node.state ≡ AnyTrans) × (i < node.ntrans)
        × Wide file.now node wide }
    ensures { result ≡ (transition_at (transitions_in file.now node) i).addr }
{
    let deltas = node.outputs + node.ntrans * node.osize;
    let d = number(file, deltas, node.tsize, node.ntrans, i, wide);
    node::target_of(node.first, d)
}

// ---- the survey

// The entries of a node's targets, in one pass over its transitions. Here and above the two tables are apart, and no table of pairs: the C
// interface has the caller lend two arrays.
#[inline(always)]
fn survey_node(file: &[u8], node: Node, wide: bool, depths: &[u16], sums: &[u64]) -> Survey
    requires { Readable file.now node × (node.state ≡ AnyTrans) × Wide file.now node wide × Surveyable depths.now sums.now
        node.final_output (transitions_in file.now node) }
    ensures { Surveyed depths.now sums.now node.final_output
        (transitions_in file.now node) result }
{
    let n = node.ntrans;
    let mut best: u16 = 0;
    // a sum past the limit clears the flag, and what it leaves in `most` is not asked for: an `Option` here takes 7 instructions more for each transition
    let mut most = node.final_output;
    let mut fits = true;
    for i in 0..n {
        let t = target_at(file, node, i, wide);
        let d = child_depth(depths, t);
        let s = child_sum(sums, t);
        let w = number(file, node.outputs, node.osize, n, i, wide);
        best = best.max(d);
        most = most.max(w.wrapping_add(s));
        fits &= w <= u64::MAX - s;
    }
    let total = if fits { Some(most) } else { None };
    Survey {
        depth: best + 1,
        total,
    }
}

// The same, by numbers that are read by 8 bytes at once where these are there.
fn survey_any(file: &[u8], node: Node, depths: &[u16], sums: &[u64]) -> Survey
    requires { Readable file.now node × (node.state ≡ AnyTrans) × Surveyable depths.now sums.now
        node.final_output (transitions_in file.now node) }
    ensures { Surveyed depths.now sums.now node.final_output
        (transitions_in file.now node) result }
{
    if is_wide(file, node) {
        survey_node(file, node, true, depths, sums)
    } else {
        survey_node(file, node, false, depths, sums)
    }
}

// The same of a node with one transition. Tried, unproved: where `survey_node` and `mark_targets` take these too, an admission of words takes
// 7 percent more instructions and 10 percent more time. With its two numbers asked by `is_wide` it takes 3 percent more instructions.
fn survey_one(file: &[u8], node: Node, depths: &[u16], sums: &[u64]) -> Survey
    requires { Readable file.now node × (node.ntrans ≡ 1) × Surveyable depths.now sums.now
        node.final_output (transitions_in file.now node) }
    ensures { Surveyed depths.now sums.now node.final_output
        (transitions_in file.now node) result }
{
    let t = node::transition_addr(file, node, 0);
    let d = child_depth(depths, t);
    let s = child_sum(sums, t);
    let w = node::output(file, node, 0);
    let total = raised(Some(node.final_output), w, s);
    Survey {
        depth: d + 1,
        total,
    }
}

// The same for the address a of the chain, which has this mark. A node that is not reached is not read: its entries are 0.
// The node's form is asked here. Tried, unproved: with the node made by `node_of` an admission of words takes 16 to 18 percent longer, and 12
// percent where `node_of` stands inline.
pub fn survey_at(fst: FstRef<'_>, a: usize, mark: u16, depths: &[u16], sums: &[u64]) -> Survey
    requires { SurveyableAt (fst_is fst) depths.now sums.now a mark }
    ensures { SurveyedAt (fst_is fst.entry) depths.now
        sums.now a mark result }
{
    if mark == UNUSED {
        return Survey {
            depth: 0,
            total: Some(0),
        };
    }
    // by the ranges that `State::from` tells: with a match on a `State` an admission takes 1.5 to 4.7 percent more instructions (callgrind, 20,000 words,
    // part numbers or numbers)
    match fst.bytes[a] {
        0..=127 => survey_any(fst.bytes, node::any_node(fst, a), depths, sums),
        128..=191 => survey_one(fst.bytes, node::one_node(fst, a), depths, sums),
        _ => survey_one(fst.bytes, node::next_node(fst, a), depths, sums),
    }
}

// ---- the flags

// An entry of at most 257, which is past every depth that is admitted.
pub fn clamped(d: u16) -> u16
    ensures { result ≡ min d 257 }
{
    d.min(257)
}

// Whether a path over 255 was found, now or before.
pub fn or_deep(deep: bool, d: u16) -> bool
    ensures { result ≡ cond (ltb max_levels d) true deep }
{
    let too_deep = DEEPEST < d;
    too_deep || deep
}

// How many entries of the depths stand before the first that is not 0.
fn gap(depths: &[u16]) -> usize
    ensures { FirstEntry depths.now result }
{
    depths
        .iter()
        .position(|entry| *entry != 0)
        .unwrap_or(depths.len())
}

// The first address from a place on that has an entry, or n, which is the file's length, for those who go from node to node over the entries.
// The table may be longer.
pub fn marked_from(depths: &[u16], from: usize, n: usize) -> usize
    requires { (from ≤ n) × (n ≤ length depths.now) }
    ensures { FirstMarked depths.now from n result }
{
    from + gap(&depths[from..n])
}

// A total as an entry.
pub fn entry_of(t: Option<u64>) -> u64
    ensures { result ≡ entry_is t }
{
    t.unwrap_or(u64::MAX)
}

// Whether a sum past the limit was found, now or before.
pub fn or_over(heavy: bool, t: Option<u64>) -> bool
    ensures { result ≡ or_over heavy t }
{
    t.is_none() || heavy
}

// ---- the marks

// What a node gives to its targets, by its own mark.
pub fn mark_of(x: u16) -> u16
    ensures { (x ≡ 2 → result ≡ 2) × (¬ (x ≡ 2) → result ≡ 1) }
{
    if x == HIT { HIT } else { LED }
}

// The entry of a target once it has at least the mark. A reached node's mark is the largest, and is stored without a look at what stands there: targets stand
// anywhere in the table, and the wait for their entries was a sixth of the time of an admission of words, outside `any_parts`.
#[inline(always)]
fn marked(depths: &[u16], t: usize, mark: u16) -> u16
    requires { (t < length depths.now) × (get_or depths.now t 0 ≤ 2) }
    ensures { result ≡ max (get_or depths.now t 0) mark }
{
    if mark == HIT {
        HIT
    } else {
        depths[t].max(mark)
    }
}

// Raises the entries of a node's targets to the mark, address 0 included; answers the node's first byte.
// This and the next stand inline in `enter`, so that what judging read of the node is not read again.
#[inline(always)]
fn mark_targets(file: &[u8], node: Node, wide: bool, mark: u16, depths: &mut [u16]) -> usize
    requires { Readable file.now node × (node.state ≡ AnyTrans) × Wide file.now node wide × Markable (length file.now) depths.old
        (transitions_in file.now node) × (mark ≤ 2) }
    ensures { MarksTargets (length file.now) mark
        (transitions_in file.now node) depths.old depths.new × (result ≡ node.first) }
{
    let n = node.ntrans;
    for i in 0..n {
        let to = target_at(file, node, i, wide);
        depths[to] = marked(depths, to, mark);
    }
    node.first
}

// The same, by deltas that are read by 8 bytes at once where these are there.
fn mark_any(file: &[u8], node: Node, mark: u16, depths: &mut [u16]) -> usize
    requires { Readable file.now node × (node.state ≡ AnyTrans) × Markable (length file.now) depths.old
        (transitions_in file.now node) × (mark ≤ 2) }
    ensures { MarksTargets (length file.now) mark
        (transitions_in file.now node) depths.old depths.new × (result ≡ node.first) }
{
    if is_wide(file, node) {
        mark_targets(file, node, true, mark, depths)
    } else {
        mark_targets(file, node, false, mark, depths)
    }
}

// The same of a node with one transition, which has a function of its own for the reason that `survey_one` has.
#[inline(always)]
fn mark_one(file: &[u8], node: Node, mark: u16, depths: &mut [u16]) -> usize
    requires { Readable file.now node × (node.ntrans ≡ 1) × Markable (length file.now) depths.old
        (transitions_in file.now node) }
    ensures { MarksTargets (length file.now) mark
        (transitions_in file.now node) depths.old depths.new × (result ≡ node.first) }
{
    let t = node::transition_addr(file, node, 0);
    depths[t] = marked(depths, t, mark);
    node.first
}

// Judges the node at a, and marks what it leads to where it is sound; answers its first byte. The form is asked once, for both.
pub fn enter(fst: FstRef<'_>, a: usize, mark: u16, depths: &mut [u16]) -> Result<usize, Unsound>
    requires { (length fst.bytes.now ≤ length depths.old)
        × Unpassed (length fst.bytes.now) depths.old a × (mark ≤ 2) }
    ensures { Enters (fst_is fst.entry) a mark
        depths.old depths.new result }
{
    if !at_form(fst, a) {
        return Err(Unsound);
    }
    match State::from(fst.bytes[a]) {
        State::AnyTrans => {
            let sound = any_parts(fst, a).is_some();
            if !sound {
                return Err(Unsound);
            }
            Ok(mark_any(fst.bytes, node::any_node(fst, a), mark, depths))
        }
        State::OneTrans => {
            if !one_sound(fst, a) {
                return Err(Unsound);
            }
            Ok(mark_one(fst.bytes, node::one_node(fst, a), mark, depths))
        }
        State::OneTransNext => {
            if !next_sound(fst, a) {
                return Err(Unsound);
            }
            Ok(mark_one(fst.bytes, node::next_node(fst, a), mark, depths))
        }
    }
}
