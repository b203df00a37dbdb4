// What a round looks up in what is seen of the cards: the least key held, the values of a key, and the cards with some keys used up. Each goes over the
// cards one by one.
// The cards are those in use, at most eight. What is asked of keys and cards is of the two together, and no type has both: the keys are only read while the
// cards are written.
#![tactic(auto)]

ghost use Rattle.std.specs.Prelude.{◌≤◌, ◌<◌, length, IfSome};
ghost use Rattle.ops_keys.specs.Heads.{Within};
ghost use Rattle.ops_seen.specs.Sights.{Few, Ready};
ghost use Rattle.ops_item.specs.Items.{LesserBy, LeastBy, UsedBy, AllUsed, GatheredBy, CollectedBy};

use ops_keys::{KEYS, Place, compare};
use ops_pairs::Pairs;
use ops_round::Slot;
use ops_seen::Seen;
use std::cmp::Ordering;

// The lesser of a key, if one was found, and the one that a card holds. Not std's `min`: the bytes that order two places stand in keys, beside them.
fn lesser(keys: &[u8; KEYS], least: Option<Place>, card: Seen) -> Option<Place>
    requires { IfSome least Within × Few card }
    ensures { LesserBy keys.now least card result }
{
    if !matches!(card.slot, Slot::Holds(_)) {
        return least;
    }
    let held = card.key;
    let Some(key) = least else {
        return Some(held);
    };
    let order = compare(keys, key, held);
    if order.is_lt() { least } else { Some(held) }
}

// The least key that the cards hold, looked up from the last card to the first, as its definition goes.
pub fn least_key(keys: &[u8; KEYS], cards: &[Seen]) -> Option<Place>
    requires { Ready keys.now (length cards.now) cards.now }
    ensures { LeastBy keys.now (length cards.now) cards.now result }
{
    let mut least = None;
    // by index: what the loop keeps is said of the cards from place i on, and a loop over iter().rev() has no place
    for i in (0..cards.len()).rev() {
        least = lesser(keys, least, cards[i]);
    }
    least
}

// A card that holds a key that stands so to this one is used up.
fn used_up(keys: &[u8; KEYS], card: Seen, key: Place, meant: Ordering) -> Seen
    requires { Within key × Few card }
    ensures { UsedBy keys.now card key meant result }
{
    if !matches!(card.slot, Slot::Holds(_)) {
        return card;
    }
    let order = compare(keys, card.key, key);
    if order == meant {
        return Seen {
            slot: Slot::Used,
            ..card
        };
    }
    card
}

// Uses up the cards that hold a key that stands so to this one.
pub fn use_up(keys: &[u8; KEYS], cards: &mut [Seen], key: Place, meant: Ordering)
    requires { Ready keys.now (length cards.old) cards.old × Within key }
    ensures { AllUsed keys.now cards.old key meant cards.new }
{
    for card in cards.iter_mut() {
        *card = used_up(keys, *card, key, meant);
    }
}

// The values gathered of a key, with that of a card that holds it.
fn gather(keys: &[u8; KEYS], pairs: Pairs, card: Seen, key: Place, file: u8) -> Pairs
    requires { Within key × Few card × (pairs.count < 8) }
    ensures { GatheredBy keys.now pairs card key file result }
{
    let Slot::Holds(value) = card.slot else {
        return pairs;
    };
    let order = compare(keys, card.key, key);
    if order.is_eq() {
        return ops_pairs::insert(pairs, value, file);
    }
    pairs
}

// The values that the cards have of a key, with the numbers of their files.
pub fn collect(keys: &[u8; KEYS], cards: &[Seen], key: Place) -> Pairs
    requires { (length cards.now ≤ 8) × Ready keys.now (length cards.now) cards.now × Within key }
    ensures { CollectedBy keys.now (length cards.now) cards.now key result }
{
    let mut pairs = ops_pairs::none();
    // by index: what the loop keeps is said of the cards from place i on, and a loop over iter().enumerate().rev() has no place
    for i in (0..cards.len()).rev() {
        pairs = gather(keys, pairs, cards[i], key, i as u8);
    }
    pairs
}
