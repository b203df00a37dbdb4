// What a round comes to, once its steps are made (src/raw/ops.rs: `Union`, `Intersection`, `Difference`, `SymmetricDifference`): an item, the end, or
// another round.
// The cards are those in use, one to eight. What is asked of keys and cards is of the two together, and no type has both: the keys are only read while the
// cards are written.
#![tactic(auto)]

ghost use Rattle.std.specs.Prelude.{◌≡◌, List, ◌≤◌, ◌<◌, length};
ghost use Rattle.ops_spec.specs.Ops as O;
ghost use Rattle.ops_spec.specs.Ops.{Indexed};
ghost use Rattle.ops_keys.specs.Heads.{place_key, Within};
ghost use Rattle.ops_pairs.specs.Pairs.{PairsAre};
ghost use Rattle.ops_seen.specs.Sights.{Sees, Ready};
ghost use Rattle.ops_decide.specs.Verdicts.{op_is, op_of, CountTest, DecidedBy};

use ops_item::{collect, least_key, use_up};
use ops_keys::{KEYS, Place, compare};
use ops_pairs::Pairs;
use ops_round::Slot;
use ops_seen::Seen;
use std::cmp::Ordering;

// Which keys an operation hands out.
#[derive(Clone, Copy, PartialEq, Eq)]
pub enum Op {
    Union,
    Intersection,
    Difference,
    SymmetricDifference,
}

// The operation of a number, which the C interface and the comparisons give. Any number from 3 on stands for the symmetric difference. No `From`: four
// numbers name an operation and the rest are taken for the last, and a conversion that does so is called by its name.
pub fn op_of(n: u64) -> Op
    ensures { result ≡ op_of n }
{
    match n {
        0 => Op::Union,
        1 => Op::Intersection,
        2 => Op::Difference,
        _ => Op::SymmetricDifference,
    }
}

// Whether an operation is over so many files: one to eight.
pub fn is_count(count: usize) -> bool
    ensures { CountTest count result }
{
    (1..=8).contains(&count)
}

// What a round comes to: an item, by where its key stands and its values; the end; or another round.
#[derive(Clone, Copy)]
pub enum Verdict {
    This(Place, Pairs),
    NoMore,
    Another,
}

// Whether a key with these values, among so many files, belongs to an operation.
fn takes(op: Op, count: usize, pairs: Pairs) -> bool
    ensures { (ps : List Indexed) → PairsAre ps pairs → result ≡ O.takes_test (op_is op) count
        ps }
{
    let n = pairs.count;
    let files = pairs.files;
    match op {
        Op::Union => true,
        Op::Intersection => n == count,
        Op::Difference => {
            let alone = n == 1;
            alone && files[0] == 0
        }
        Op::SymmetricDifference => n % 2 == 1,
    }
}

// At a key: its cards become used up, and it is the item or not.
fn at_key(op: Op, keys: &[u8; KEYS], cards: &mut [Seen], key: Place) -> Verdict
    requires { (length cards.old ≤ 8) × Ready keys.now (length cards.old) cards.old × Within key }
    ensures { (X : List O.Card) → Sees keys.now (length cards.old) cards.old X → DecidedBy keys.now cards.old X (O.at_key (op_is op)
        (place_key keys.now key) X) cards.new result }
{
    let count = cards.len();
    let pairs = collect(keys, cards, key);
    use_up(keys, cards, key, Ordering::Equal);
    if takes(op, count, pairs) {
        Verdict::This(key, pairs)
    } else {
        Verdict::Another
    }
}

// By the least key held: the end where there is none.
fn at_least(op: Op, keys: &[u8; KEYS], cards: &mut [Seen]) -> Verdict
    requires { (length cards.old ≤ 8) × Ready keys.now (length cards.old) cards.old }
    ensures { (X : List O.Card) → Sees keys.now (length cards.old) cards.old X → DecidedBy keys.now cards.old X (O.at_least (op_is op)
        (O.least_key X) X) cards.new result }
{
    match least_key(keys, cards) {
        Some(key) => at_key(op, keys, cards, key),
        None => Verdict::NoMore,
    }
}

// By the first card's key: another round where a card holds a lesser one, which is used up.
fn at_first(keys: &[u8; KEYS], cards: &mut [Seen], key: Place) -> Verdict
    requires { (length cards.old ≤ 8) × Ready keys.now (length cards.old) cards.old × Within key }
    ensures { (X : List O.Card) → Sees keys.now (length cards.old) cards.old X → DecidedBy keys.now cards.old X (O.at_first (place_key keys.now key)
        (O.least_key X) X) cards.new result }
{
    let Some(lesser) = least_key(keys, cards) else {
        return Verdict::NoMore;
    };
    let order = compare(keys, lesser, key);
    if order.is_lt() {
        use_up(keys, cards, key, Ordering::Less);
        return Verdict::Another;
    }
    at_key(Op::Difference, keys, cards, key)
}

// A difference: the end where the first reading has ended.
fn difference(keys: &[u8; KEYS], cards: &mut [Seen]) -> Verdict
    requires { (0 < length cards.old) × (length cards.old ≤ 8) × Ready keys.now (length cards.old) cards.old }
    ensures { (X : List O.Card) → Sees keys.now (length cards.old) cards.old X → DecidedBy keys.now cards.old X (O.decide O.difference
        X) cards.new result }
{
    let first = cards[0];
    match first.slot {
        Slot::Holds(_) => at_first(keys, cards, first.key),
        Slot::Used | Slot::Ended => Verdict::NoMore,
    }
}

// What a round comes to: an item, the end, or another round. The cards become those after it; at the end they stay as they were.
pub fn decide(op: Op, keys: &[u8; KEYS], cards: &mut [Seen]) -> Verdict
    requires { (0 < length cards.old) × (length cards.old ≤ 8) × Ready keys.now (length cards.old) cards.old }
    ensures { (X : List O.Card) → Sees keys.now (length cards.old) cards.old X → DecidedBy keys.now cards.old X (O.decide (op_is op) X)
        cards.new result }
{
    if op == Op::Difference {
        return difference(keys, cards);
    }
    at_least(op, keys, cards)
}
