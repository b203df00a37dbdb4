// The functions that open and admit a file for the C display firmware. include/baxhiso.h declares them for C, and crate `baxhiso_c` exports them.
// A slice is passed as its pointer and then its length, an array as its pointer. Results: 0 for an answer, -1 for none, else the number of a
// refusal. No function asks anything of its arguments' values. Lookups are in `baxhiso_get`, readings and ranges in `baxhiso_readings`.
// Each function takes what the C caller lends, one by one: the C interface.
#![tactic(auto)]

ghost use Rattle.std.specs.Prelude.{◌≡◌, pos};
ghost use Rattle.format.specs.Limits.{number};
ghost use Rattle.format.specs.Opening.{opening};
ghost use Rattle.baxhiso.specs.Exports.{checksum_number, result_of, len_of, done_of, OpenLeaves, AdmitLeaves};
ghost use Rattle.fst.specs.Open.{checksum_is};

use format::Refusal;

// The result for an answer, in each crate for C.
pub const OK: i32 = 0;

// The result for none, in each crate for C.
pub const NONE: i32 = -1;

// What stands for the checksum where the version has none: no stored checksum is as large.
const NO_CHECKSUM: u64 = 4_294_967_296;

// A refusal's number as a result.
pub fn code(why: Refusal) -> i32
    ensures { result ≡ pos (number why) }
{
    i32::from(u8::from(why))
}

// The result of an answer that says no more than that it was done.
pub fn done(answer: Result<(), Refusal>) -> i32
    ensures { result ≡ done_of answer }
{
    match answer {
        Ok(()) => OK,
        Err(why) => code(why),
    }
}

// The result of an answer that is the length of a written file. The length is written on 0 only.
pub fn length_told(answer: Result<usize, Refusal>, len: &mut usize) -> i32
    ensures { (result ≡ result_of answer) × (len.new ≡ len_of answer len.old) }
{
    match answer {
        Ok(size) => {
            *len = size;
            OK
        }
        Err(why) => code(why),
    }
}

// The checksum as one number.
fn checksum_number(checksum: Option<u32>) -> u64
    ensures { result ≡ checksum_number (checksum_is checksum) }
{
    checksum.map_or(NO_CHECKSUM, u64::from)
}

// Opens a file. On 0 the five numbers are version, type, key count, root address and checksum; on a refusal they stay as given.
pub fn fst_open(file: &[u8], meta: &mut [u64; 5]) -> i32
    ensures { OpenLeaves (opening file.now) meta.old meta.new
        result }
{
    let opened = fst::open(file);
    match opened {
        Err(why) => code(why),
        Ok(m) => {
            let checksum = m.checksum;
            let last = checksum_number(checksum);
            *meta = [m.version, m.ty, m.len, m.root as u64, last];
            OK
        }
    }
}

// Admits a file and fills the two tables, or refuses it.
pub fn fst_admit(file: &[u8], depths: &mut [u16], sums: &mut [u64]) -> i32
    ensures { AdmitLeaves file.now depths.old sums.old
        depths.new sums.new result }
{
    let answer = admission::admit(file, depths, sums);
    done(answer)
}
