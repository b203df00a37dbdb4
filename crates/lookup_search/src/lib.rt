// The search for a key with a value (src/raw/mod.rs: `get_key_into`), from the root of a file that opens.
// Each node is judged once, as it is entered; the last is entered too.
#![tactic(auto)]

ghost use Rattle.std.specs.Prelude.{◌≡◌, length};
ghost use Rattle.format.specs.Limits.{max_path};
ghost use Rattle.format.specs.Lookup.{get_key_from};
ghost use Rattle.format.specs.View.{fst_is};
ghost use Rattle.lookup_search.specs.KeyAnswers.{key_is, KeyFits};

use format::{FstRef, MAX_KEY, Refusal};
use node_choice::Choice;

// Searches from the root of a file that opens. Ok(Some(n)): the key has n bytes, which stand at the front of path. Ok(None): no key has this value.
pub fn find_key(
    fst: FstRef<'_>,
    value: u64,
    path: &mut [u8; MAX_KEY],
) -> Result<Option<usize>, Refusal>
    requires { length path.old ≡ max_path }
    ensures path_after { key_is result path.new ≡ get_key_from max_path
        (fst_is fst.entry) fst.entry.root value }
    ensures key_fits { KeyFits result path.new }
{
    let mut addr = fst.root;
    let mut left = value;
    let mut n = 0;
    // no for over the places of path: one node more than it has places is entered
    loop {
        let choice = node_fit::fit_at(fst, addr, left)?;
        match choice {
            Choice::Ends => return Ok(Some(n)),
            Choice::Absent => return Ok(None),
            Choice::To(next) => {
                // a key has at most 255 bytes
                let too_deep = MAX_KEY <= n;
                if too_deep {
                    return Err(Refusal::Deep);
                }
                path[n] = next.inp;
                left -= next.out;
                addr = next.addr;
                n += 1;
            }
        }
    }
}
