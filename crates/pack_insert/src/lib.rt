// A key more: how far it goes along the open nodes, and the rest of it opened, once the nodes off it are finished. Its laws say what adding a key is.
#![tactic(auto)]

ghost use Rattle.std.specs.Prelude.{List, ℕ, ◌≤◌, ◌<◌, length};
ghost use Rattle.pack_close.specs.OpenNodes.{tables_of};
ghost use Rattle.pack_insert.specs.Inserting.{CommonIs, Opened};

use pack_close::Open;

// How many of the key's first bytes lead along the open nodes, the deepest of which is at depth k.
pub fn common(key: &[u8], nodes: &Open, k: usize) -> usize
    requires { k < 256 }
    ensures { CommonIs key.now nodes.now.led k result }
{
    key.iter()
        .zip(nodes.led[1..k + 1].iter())
        .position(|(input, led)| *input != *led)
        .unwrap_or(k.min(key.len()))
}

// Opens the nodes along the key below depth m; the key ends at the deepest, with this value.
pub fn open_key(key: &[u8], m: usize, value: u64, nodes: &mut Open)
    requires { (m ≤ length key.now) × (length key.now < 256) }
    ensures { (inputs leasts targets : List ℕ) → Opened key.now m value
        (tables_of inputs leasts targets nodes.old) (tables_of inputs leasts targets nodes.new) }
{
    let n = key.len();
    // not by copy_from_slice, which became a call of memmove in range_rows and node_parts: the C library may call memcpy and memset alone
    for d in m..n {
        nodes.led[d + 1] = key[d];
    }
    nodes.counts[m + 1..n + 1].fill(0);
    nodes.finals[m + 1..n + 1].fill(false);
    nodes.finals[n] = true;
    nodes.values[n] = value;
}
