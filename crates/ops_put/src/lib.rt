// What a page of items tests before its calls, the room for its items, and how an item is written: its key in a row of 256 bytes, how many files hold it,
// and eight places for the numbers of these files and eight for its values.
// rows, counts, numbers and values are four slices and no struct: C lends four arrays, each of a length of its own, and an item goes to a place in each. A
// struct would be made at the border only to be taken apart in `put_item`.
#![tactic(auto)]

ghost use Rattle.std.specs.Prelude.{◌≡◌, ◌≤◌};
ghost use Rattle.format.specs.Limits.{max_levels};
ghost use Rattle.ops_paging.specs.ItemPaging as P;
ghost use Rattle.ops_put.specs.ItemPut.{HasPlace, ItemPut};

use ops_keys::{Head, key_len};
use ops_pairs::Pairs;
use range_rows::{ROW, put_row};

// The places of an item: one for each file of an operation.
const PLACES: usize = 8;

// Whether buffers of these sizes have room for `most` items. Quotients, since 256 times `most` may wrap.
pub fn has_room(most: usize, rows: usize, counts: usize, numbers: usize, values: usize) -> bool
    ensures { result ≡ P.room_test most rows counts numbers values }
{
    most <= rows / ROW && most <= counts && most <= numbers / PLACES && most <= values / PLACES
}

// Writes an item, its key and its pairs, as item number `place`. Every other place stays as given.
pub fn put_item(
    head: Head,
    pairs: Pairs,
    place: usize,
    rows: &mut [u8],
    counts: &mut [u8],
    numbers: &mut [u8],
    values: &mut [u64],
)
    requires { (head.levels ≤ max_levels) × (pairs.count ≤ 8) × HasPlace place rows.old counts.old
        numbers.old values.old }
    ensures { ItemPut head pairs place rows.old rows.new
        counts.old counts.new numbers.old numbers.new
        values.old values.new }
{
    let n = key_len(head.levels);
    let inps = head.inps;
    put_row(&inps[1..=n], place * ROW, rows);
    counts[place] = pairs.count as u8;
    let at = place * PLACES;
    numbers[at..at + PLACES].copy_from_slice(&pairs.files);
    values[at..at + PLACES].copy_from_slice(&pairs.values);
}
