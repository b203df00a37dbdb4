// One call of an operation over several files, from cards that stand in arrays, also such as no begin gave, for the comparison with the model (crate
// `oracle_cards`). Nothing is asked of a caller: it answers on every input. It promises nothing of what it writes: that is promised of
// `ops::next_item`. The readings stand in the arrays of `seats_arrays`, a row for each card.
// Each function takes what the comparison lends, one by one, as the C interface does.
#![tactic(auto)]

ghost use Rattle.std.specs.Prelude.{◌<◌};

use format::Refusal;
use ops::{Cards, Item};
use ops_decide::op_of;
use ops_pairs::Pairs;
use ops_round::{Card, Slot};
use oracle_numbers::{END, REFUSED};
use seats_arrays::{plain_at, put_plain};
use stream::Plain;

// By a function, as neither Slot nor From is of this crate. Any number from 2 on stands for a reading that has ended.
fn slot_of(n: u8, value: u64) -> Slot {
    match n {
        0 => Slot::Used,
        1 => Slot::Holds(value),
        _ => Slot::Ended,
    }
}

fn card(reading: Plain, n: u8, value: u64) -> Card {
    let slot = slot_of(n, value);
    Card { reading, slot }
}

// The cards that the arrays hold.
fn cards_in(
    slots: [u8; 8],
    values: [u64; 8],
    heads: &[[u64; 7]; 8],
    bounds: &[[u8; 255]; 8],
    addrs: &[[u32; 256]; 8],
    inps: &[[u8; 256]; 8],
    trans: &[[u16; 256]; 8],
    outs: &[[u64; 256]; 8],
    keys: &[u64; 8],
) -> [Card; 8] {
    let blank = Plain {
        reading: stream_start::no_reading(),
        keys: 0,
    };
    let mut all = [card(blank, 0, 0); 8];
    for (i, one) in all.iter_mut().enumerate() {
        let reading = plain_at(i, heads, bounds, addrs, inps, trans, outs, keys);
        *one = card(reading, slots[i], values[i]);
    }
    all
}

// Puts one card into its row. Where no key is held, the value's place is 0 if the call looked at the card and used its key up or came to its reading's end,
// and else stays as it was.
fn put_card(
    one: Card,
    looked: bool,
    i: usize,
    slots: &mut [u8; 8],
    values: &mut [u64; 8],
    heads: &mut [[u64; 7]; 8],
    bounds: &mut [[u8; 255]; 8],
    addrs: &mut [[u32; 256]; 8],
    inps: &mut [[u8; 256]; 8],
    trans: &mut [[u16; 256]; 8],
    outs: &mut [[u64; 256]; 8],
    keys: &mut [u64; 8],
)
    requires { i < 8 }
{
    match one.slot {
        Slot::Used => {
            slots[i] = 0;
            if looked {
                values[i] = 0;
            }
        }
        Slot::Holds(value) => {
            slots[i] = 1;
            values[i] = value;
        }
        Slot::Ended => {
            // a reading that had ended before is not stepped
            if looked && slots[i] < 2 {
                values[i] = 0;
            }
            slots[i] = 2;
        }
    }
    put_plain(
        one.reading,
        i,
        heads,
        bounds,
        addrs,
        inps,
        trans,
        outs,
        keys,
    );
}

// Puts the cards into the arrays, of which the call looked at so many.
fn put_cards(
    all: [Card; 8],
    looked: usize,
    slots: &mut [u8; 8],
    values: &mut [u64; 8],
    heads: &mut [[u64; 7]; 8],
    bounds: &mut [[u8; 255]; 8],
    addrs: &mut [[u32; 256]; 8],
    inps: &mut [[u8; 256]; 8],
    trans: &mut [[u16; 256]; 8],
    outs: &mut [[u64; 256]; 8],
    keys: &mut [u64; 8],
) {
    for (i, one) in all.iter().enumerate() {
        put_card(
            *one,
            i < looked,
            i,
            slots,
            values,
            heads,
            bounds,
            addrs,
            inps,
            trans,
            outs,
            keys,
        );
    }
}

// An item's values with the numbers of their files, 0 where there is no item.
fn pairs_of(answer: Result<Option<Item>, Refusal>) -> Pairs {
    match answer {
        Ok(Some(item)) => item.pairs,
        Ok(None) | Err(_) => ops_pairs::none(),
    }
}

// What a call answered, as a number.
fn told(answer: Result<Option<Item>, Refusal>) -> u64 {
    match answer {
        Ok(Some(item)) => item.len as u64,
        Ok(None) => END,
        Err(why) => REFUSED + u64::from(u8::from(why)),
    }
}

// The length of the item's key, END, or REFUSED and the refusal. The cards after the call stand in the arrays, also after a refusal; the item's pairs in
// the last three places.
pub fn made_item<'a>(
    op: u64,
    count: usize,
    a: &'a [u8],
    b: &'a [u8],
    c: &'a [u8],
    d: &'a [u8],
    e: &'a [u8],
    f: &'a [u8],
    g: &'a [u8],
    h: &'a [u8],
    slots: &mut [u8; 8],
    values: &mut [u64; 8],
    heads: &mut [[u64; 7]; 8],
    bounds: &mut [[u8; 255]; 8],
    addrs: &mut [[u32; 256]; 8],
    inps: &mut [[u8; 256]; 8],
    trans: &mut [[u16; 256]; 8],
    outs: &mut [[u64; 256]; 8],
    keys: &mut [u64; 8],
    key: &mut [u8],
    pairs: &mut usize,
    pair_files: &mut [u8; 8],
    pair_values: &mut [u64; 8],
) -> u64 {
    let cards = cards_in(
        *slots, *values, heads, bounds, addrs, inps, trans, outs, keys,
    );
    let held = Cards {
        op: op_of(op),
        count,
        cards,
    };
    let files = [a, b, c, d, e, f, g, h];
    let step = ops::next_item(files, held, key);
    // a refused call gives all cards back as they were
    let looked = if step.answer.is_err() { 0 } else { count };
    put_cards(
        step.cards.cards,
        looked,
        slots,
        values,
        heads,
        bounds,
        addrs,
        inps,
        trans,
        outs,
        keys,
    );
    let its = pairs_of(step.answer);
    *pairs = its.count;
    // by names of their own: the borrow checker covers no array that is stored straight from a field
    let numbers = its.files;
    *pair_files = numbers;
    let found = its.values;
    *pair_values = found;
    told(step.answer)
}
