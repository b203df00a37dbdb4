// A page of items in one call (src/raw/ops.rs: `OpBuilder`, and the loop over its stream): up to so many items of an operation over one to eight files,
// the least key first, between two bounds that all files share, on any files, admitted or not. No table of keys is lent.
// rows, counts, numbers and values are four slices and no struct: C lends four arrays, each of a length of its own, and an item goes to a place in each. A
// struct would be made at the border only to be taken apart in ops_put `put_item`.
// The two bounds are two values and no pair: C lends them one by one, and a start takes them so, since it walks along the lower one and keeps the upper one.
// What `fill` and `items_from` ask of the count and of these four is what `items` tests before it calls them.
// The readings in use are the first count of eight: fixed memory. What is seen of them stands beside them, and the bytes of their keys.
#![tactic(auto)]

ghost use Rattle.std.specs.Prelude.{List, map, ◌≤◌, ◌<◌, length, take};
ghost use Rattle.ops_paging.specs.ItemPaging as P;
ghost use Rattle.stream_start.specs.Views.{bound_of};
ghost use Rattle.ops_round.specs.declared.Card.{Card};
ghost use Rattle.ops_round.specs.Cards.{cards_is};
ghost use Rattle.ops_decide.specs.Verdicts.{op_is};
ghost use Rattle.ops_starts.specs.StartedCards.{Begun};
ghost use Rattle.ops_page.specs.PagedItems.{HasRoom, PagedBy};
ghost use Rattle.ops_page.specs.LivePages.{Beginning};

use format::Refusal;
use ops_decide::{Op, Verdict, decide, is_count};
use ops_keys::{KEYS, Place, head_at};
use ops_live::{Live, no_live};
use ops_lives::step_lives;
use ops_put::{has_room, put_item};
use ops_round::Slot;
use ops_seen::Seen;
use ops_starts::starts;
use range_fill::{Ranged, Stop, refused};
use std::ops::Bound;

// The items of readings that stand at their starts, up to `most`: how many were written, and how it stopped, as a range says it. A refusal stands beside the
// items before it. Each turn is a round, which steps the readings whose keys are used up and decides. The readings stay in one place, where each step finds
// its levels as the one before left them, and what is seen of them stands beside them.
fn fill(
    files: [&[u8]; 8],
    op: Op,
    count: usize,
    upper: Bound<&[u8]>,
    lives: &mut [Live; 8],
    keys: &mut [u8; KEYS],
    seen: &mut [Seen; 8],
    most: usize,
    rows: &mut [u8],
    counts: &mut [u8],
    numbers: &mut [u8],
    values: &mut [u64],
) -> Ranged
    requires count_nonzero { (0 < count) × (count ≤ 8) }
    requires has_room { HasRoom most rows.old counts.old numbers.old values.old }
    requires began { Beginning (map (λ f. f.now) files) count (bound_of upper) lives.old keys.old seen.old }
    ensures { (cards : List Card) → Begun (map (λ f. f.now) files.entry) count (bound_of upper.entry)
        lives.old keys.old seen.old cards
        → PagedBy (P.fold (op_is op) (cards_is (map (λ f. f.now) files.entry) count cards) most)
        rows.old rows.new counts.old counts.new
        numbers.old numbers.new values.old values.new result }
{
    let mut done = 0;
    // by `while`: a turn is a round, and not each writes an item
    while done < most {
        if let Err(why) = step_lives(files, count, upper, lives, keys, seen) {
            return Ranged {
                count: done,
                stop: Err(why),
            };
        }
        let verdict = decide(op, keys, &mut seen[..count]);
        match verdict {
            Verdict::NoMore => {
                return Ranged {
                    count: done,
                    stop: Ok(Stop::End),
                };
            }
            Verdict::This(place, pairs) => {
                let key = head_at(keys, place);
                put_item(key, pairs, done, rows, counts, numbers, values);
                done += 1;
                continue;
            }
            Verdict::Another => continue,
        }
    }
    Ranged {
        count: done,
        stop: Ok(Stop::More), // as many as asked for
    }
}

// The starts and the calls, where the count is one to eight and the buffers have room.
fn items_from(
    op: Op,
    count: usize,
    files: [&[u8]; 8],
    lower: Bound<&[u8]>,
    upper: Bound<&[u8]>,
    most: usize,
    rows: &mut [u8],
    counts: &mut [u8],
    numbers: &mut [u8],
    values: &mut [u64],
) -> Ranged
    requires count_nonzero { (0 < count) × (count ≤ 8) }
    requires has_room { HasRoom most rows.old counts.old numbers.old values.old }
    ensures { PagedBy (P.page_from (op_is op) most (P.start_all
        (bound_of lower.entry) (bound_of upper.entry)
        (take count (map (λ f. f.now) files.entry))))
        rows.old rows.new counts.old counts.new
        numbers.old numbers.new values.old values.new result }
{
    let mut lives = [no_live(); 8];
    let mut keys = [0u8; KEYS];
    let blank = Seen {
        key: Place { at: 0, levels: 0 },
        slot: Slot::Used,
    };
    let mut seen = [blank; 8];
    match starts(files, count, lower, upper, &mut lives, &mut keys, &mut seen) {
        Err(why) => refused(why),
        Ok(()) => fill(
            files, op, count, upper, &mut lives, &mut keys, &mut seen, most, rows, counts, numbers,
            values,
        ),
    }
}

// Up to `most` items of the operation over the first count files, the least key first: item i has its key's length and bytes in the row from 256 * i on,
// the number of files that hold it in counts at i, and from 8 * i on the numbers of these files and its values, in order of value and then of file, and 0
// behind them. CARDS for a count of 0 or over 8, SPACE where a buffer has no room for `most` items, then the starts in file order and the refusals of the
// calls. What was found before a refusal is handed out beside it. Every other place of the buffers stays as given; files from count on are not looked at.
pub fn items(
    op: Op,
    count: usize,
    files: [&[u8]; 8],
    lower: Bound<&[u8]>,
    upper: Bound<&[u8]>,
    most: usize,
    rows: &mut [u8],
    counts: &mut [u8],
    numbers: &mut [u8],
    values: &mut [u64],
) -> Ranged
    ensures { PagedBy (P.items (op_is op) count (map (λ f. f.now) files.entry)
        (bound_of lower.entry) (bound_of upper.entry) most
        (length rows.old) (length counts.old)
        (length numbers.old) (length values.old))
        rows.old rows.new counts.old counts.new
        numbers.old numbers.new values.old values.new result }
{
    if !is_count(count) {
        return refused(Refusal::Cards);
    }
    if !has_room(most, rows.len(), counts.len(), numbers.len(), values.len()) {
        return refused(Refusal::Space);
    }
    items_from(
        op, count, files, lower, upper, most, rows, counts, numbers, values,
    )
}
