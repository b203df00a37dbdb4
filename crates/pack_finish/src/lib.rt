// The numbers of a row of the working tables: its least value, and its outputs counted from a base.
// is_final and value are two and no Option: the open nodes have them in two arrays, since Options take stack that packing has not (pack_close `Open`),
// and an Option made of the two for a call would be taken apart here at once.
#![tactic(auto)]

ghost use Rattle.std.specs.Prelude.{◌≡◌, true, cond, map, ℕ, ◌-◌, ◌≤◌};
ghost use Rattle.packing_rows.specs.WorkTables.{least_num, least_from};
ghost use Rattle.pack_finish.specs.FinishRow.{EachAtLeast};

// ---- least values

// The least of v and the numbers.
fn least_num(numbers: &[u64], v: u64) -> u64
    ensures { result ≡ least_num numbers.now v }
{
    numbers.iter().fold(v, |least, number| least.min(*number))
}

// The least value of the keys at a node: its own where a key ends there, and those of its transitions; 0 where there is none.
pub fn least_in(is_final: bool, value: u64, leasts: &[u64]) -> u64
    ensures { result ≡ least_from is_final value leasts.now }
{
    if is_final {
        return least_num(leasts, value);
    }
    match leasts.split_first() {
        Some((first, rest)) => least_num(rest, *first),
        None => 0,
    }
}

// Takes base from every number.
pub fn subtract(numbers: &mut [u64], base: u64)
    requires { EachAtLeast base numbers.old }
    ensures { numbers.new ≡ map (λ (m : ℕ). m - base) numbers.old }
{
    for number in numbers.iter_mut() {
        *number -= base;
    }
}

// The final output of a node whose outputs are counted from base.
pub fn final_out(is_final: bool, value: u64, base: u64) -> u64
    requires { is_final ≡ true → base ≤ value }
    ensures { result ≡ cond is_final (value - base) 0 }
{
    if is_final { value - base } else { 0 }
}
