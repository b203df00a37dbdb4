// Several files as one (src/raw/ops.rs: `OpBuilder`): union, intersection, difference and symmetric difference over one to eight plain readings, on any
// files, admitted or not, and from any cards, also such as no begin gave.
// The cards in use are the first count of eight, passed whole by value: fixed memory.
#![tactic(auto)]

ghost use Rattle.std.specs.Prelude.{◌≡◌, map, ◌++◌, ◌-◌, ◌≤◌, ◌<◌, length, drop};
ghost use Rattle.format.specs.Limits.{max_levels};
ghost use Rattle.ops_keys.specs.Heads.{head_key};
ghost use Rattle.ops.specs.Merges.{BegunBy, refused_step, held_item, MergedBy};

use format::Refusal;
use ops_decide::{Op, is_count};
use ops_keys::{Head, key_len};
use ops_pairs::Pairs;
use ops_round::{Card, unstepped};
use ops_rounds::rounds;
use stream::Plain;

// An operation over the readings of the first count cards, passed by value. Cards from count on carry no meaning.
#[derive(Clone, Copy)]
pub struct Cards {
    pub op: Op,
    pub count: usize,
    pub cards: [Card; 8],
}

// An item that a call hands out: the length of its key, and its values with the numbers of their files, in order of value and then of file.
#[derive(Clone, Copy)]
pub struct Item {
    pub len: usize,
    pub pairs: Pairs,
}

// What a call gives back: its item, or none at the end, and the cards after it. The answer stands beside the cards, and the two are no Result: a caller
// may go on with the cards that are given back, after a refusal too. No stream_step Step: the answer is an item.
#[derive(Clone, Copy)]
pub struct Step {
    pub answer: Result<Option<Item>, Refusal>,
    pub cards: Cards,
}

// ---- begin

// An operation over the first count readings: CARDS for none or over eight. It touches no file.
pub fn begin(op: Op, count: usize, readings: [Plain; 8]) -> Result<Cards, Refusal>
    ensures { BegunBy op count readings result }
{
    if !is_count(count) {
        return Err(Refusal::Cards);
    }
    let cards = readings.map(unstepped);
    Ok(Cards { op, count, cards })
}

// ---- next_item

// A call that is refused, with the cards as they were given.
fn refused(why: Refusal, cards: Cards) -> Step
    ensures { result ≡ refused_step why cards }
{
    Step {
        answer: Err(why),
        cards,
    }
}

// Writes a key to the front of a buffer that has room for it, and tells its length.
fn put_key(head: Head, key: &mut [u8]) -> usize
    requires { (head.levels ≤ max_levels) × (head.levels - 1 ≤ length key.old) }
    ensures { (result ≡ length (head_key head)) × (key.new ≡ head_key head
        ++ drop (length (head_key head)) key.old) }
{
    let n = key_len(head.levels);
    let inps = head.inps;
    buffers::copy_front(&inps[1..], n, key);
    n
}

// The next item: the next key that belongs to the operation, with its values. CARDS for a held count of 0 or over 8, before any file is opened; then in
// file order, for each reading that is stepped, its own refusals (stream::next), and STATE for a held key of over 256 levels; SPACE for a buffer
// of under 255 bytes, where no reading is stepped. Files from the held count on are not looked at. The buffer is written only where an item is
// handed out, and a refusal gives the cards back as they were.
pub fn next_item(files: [&[u8]; 8], cards: Cards, key: &mut [u8]) -> Step
    ensures { MergedBy (map (λ f. f.now) files.entry) cards
        (held_item (map (λ f. f.now) files.entry) cards (length key.old))
        key.old key.new result }
{
    let op = cards.op;
    let count = cards.count;
    if !is_count(cards.count) {
        return refused(Refusal::Cards, cards);
    }
    // a copy, so that a refusal gives the cards back as they were
    let mut after = cards.cards;
    let called = match rounds(files, op, count, &mut after, key.len()) {
        Err(why) => return refused(why, cards),
        Ok(called) => called,
    };
    let Some((head, pairs)) = called else {
        return Step {
            answer: Ok(None),
            cards: Cards {
                op,
                count,
                cards: after,
            },
        };
    };
    // no `map` over the item: its closure would write the lent buffer, and would need a contract of its own
    let len = put_key(head, key);
    Step {
        answer: Ok(Some(Item { len, pairs })),
        cards: Cards {
            op,
            count,
            cards: after,
        },
    }
}
