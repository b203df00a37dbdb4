// What C links of crate `baxhiso` (include/baxhiso.h): opening and admission. Each function calls the one of the same name there, and states its
// contract again. A slice is passed as its pointer and then its length, an array as its pointer. No function asks anything of its arguments' values.
// Each function takes what the C caller lends, one by one: the C interface.
#![tactic(auto)]

ghost use Rattle.format.specs.Opening.{opening};
ghost use Rattle.baxhiso.specs.Exports.{OpenLeaves, AdmitLeaves};

// Opens a file. On 0 the five numbers are version, type, key count, root address and checksum; on a refusal they stay as given.
#[unsafe(no_mangle)]
pub extern "C" fn fst_open(file: &[u8], meta: &mut [u64; 5]) -> i32
    ensures { OpenLeaves (opening file.now) meta.old meta.new
        result }
{
    baxhiso::fst_open(file, meta)
}

// Admits a file and fills the two tables, or refuses it.
#[unsafe(no_mangle)]
pub extern "C" fn fst_admit(file: &[u8], depths: &mut [u16], sums: &mut [u64]) -> i32
    ensures { AdmitLeaves file.now depths.old sums.old
        depths.new sums.new result }
{
    baxhiso::fst_admit(file, depths, sums)
}
