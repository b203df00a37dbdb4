// Inputs by frequency: a frequent input is kept in the low six bits of a node's state byte, as 1 plus its place.
// Ports src/raw/common_inputs.rs, and `common_idx` and `common_input` of src/raw/node.rs.
#![tactic(auto)]

ghost use Rattle.std.specs.Prelude.{◌≡◌, ◌≤◌, ◌<◌, get_or};
ghost use Rattle.format.specs.CommonInputs.{common_inputs, common_inputs_inv, common_input};
ghost use Rattle.common_inputs.specs.Idx.{Idx};

// The place of each byte in the order of frequency.
const COMMON_INPUTS: [u8; 256] = [
    84, 85, 86, 87, 88, 89, 90, 91, 92, 93, 94, 95, 96, 97, 98, 99, 100, 101, 102, 103, 104, 105,
    106, 107, 108, 109, 110, 111, 112, 113, 114, 115, 116, 80, 117, 118, 79, 39, 30, 81, 75, 74,
    82, 57, 66, 16, 12, 2, 19, 20, 21, 27, 32, 29, 35, 36, 37, 34, 24, 73, 119, 23, 120, 40, 83,
    44, 48, 42, 43, 49, 46, 62, 61, 47, 69, 68, 58, 56, 55, 59, 51, 72, 54, 45, 52, 64, 65, 63, 71,
    67, 70, 77, 121, 78, 122, 31, 123, 4, 25, 9, 17, 1, 26, 22, 13, 7, 50, 38, 14, 15, 10, 3, 8,
    60, 6, 5, 0, 18, 33, 11, 41, 28, 53, 124, 125, 126, 76, 127, 128, 129, 130, 131, 132, 133, 134,
    135, 136, 137, 138, 139, 140, 141, 142, 143, 144, 145, 146, 147, 148, 149, 150, 151, 152, 153,
    154, 155, 156, 157, 158, 159, 160, 161, 162, 163, 164, 165, 166, 167, 168, 169, 170, 171, 172,
    173, 174, 175, 176, 177, 178, 179, 180, 181, 182, 183, 184, 185, 186, 187, 188, 189, 190, 191,
    192, 193, 194, 195, 196, 197, 198, 199, 200, 201, 202, 203, 204, 205, 206, 207, 208, 209, 210,
    211, 212, 213, 214, 215, 216, 217, 218, 219, 220, 221, 222, 223, 224, 225, 226, 227, 228, 229,
    230, 231, 232, 233, 234, 235, 236, 237, 238, 239, 240, 241, 242, 243, 244, 245, 246, 247, 248,
    249, 250, 251, 252, 253, 254, 255,
];

// The byte at each place, the most frequent first.
const COMMON_INPUTS_INV: [u8; 256] = [
    116, 101, 47, 111, 97, 115, 114, 105, 112, 99, 110, 119, 46, 104, 108, 109, 45, 100, 117, 48,
    49, 50, 103, 61, 58, 98, 102, 51, 121, 53, 38, 95, 52, 118, 57, 54, 55, 56, 107, 37, 63, 120,
    67, 68, 65, 83, 70, 73, 66, 69, 106, 80, 84, 122, 82, 78, 77, 43, 76, 79, 113, 72, 71, 87, 85,
    86, 44, 89, 75, 74, 90, 88, 81, 59, 41, 40, 126, 91, 93, 36, 33, 39, 42, 64, 0, 1, 2, 3, 4, 5,
    6, 7, 8, 9, 10, 11, 12, 13, 14, 15, 16, 17, 18, 19, 20, 21, 22, 23, 24, 25, 26, 27, 28, 29, 30,
    31, 32, 34, 35, 60, 62, 92, 94, 96, 123, 124, 125, 127, 128, 129, 130, 131, 132, 133, 134, 135,
    136, 137, 138, 139, 140, 141, 142, 143, 144, 145, 146, 147, 148, 149, 150, 151, 152, 153, 154,
    155, 156, 157, 158, 159, 160, 161, 162, 163, 164, 165, 166, 167, 168, 169, 170, 171, 172, 173,
    174, 175, 176, 177, 178, 179, 180, 181, 182, 183, 184, 185, 186, 187, 188, 189, 190, 191, 192,
    193, 194, 195, 196, 197, 198, 199, 200, 201, 202, 203, 204, 205, 206, 207, 208, 209, 210, 211,
    212, 213, 214, 215, 216, 217, 218, 219, 220, 221, 222, 223, 224, 225, 226, 227, 228, 229, 230,
    231, 232, 233, 234, 235, 236, 237, 238, 239, 240, 241, 242, 243, 244, 245, 246, 247, 248, 249,
    250, 251, 252, 253, 254, 255,
];

// The place of the byte b in the order of frequency.
#[tactic(auto, unfolding(format::specs::CommonInputs::common_inputs))]
pub fn common_inputs_at(b: u8) -> u8
    ensures { result ≡ get_or common_inputs b 0 }
{
    COMMON_INPUTS[b as usize]
}

// The byte at place i in the order of frequency.
#[tactic(auto, unfolding(format::specs::CommonInputs::common_inputs_inv))]
pub fn common_inputs_inv_at(i: u8) -> u8
    ensures { result ≡ get_or common_inputs_inv i 0 }
{
    COMMON_INPUTS_INV[i as usize]
}

// What the state byte keeps of an input: 1 plus its place, or 0 past place 62, since six bits hold no more than 63.
#[tactic(auto, unfolding(format::specs::CommonInputs::common_idx))]
pub fn common_idx(input: u8) -> u8
    ensures { Idx input result }
{
    let place = common_inputs_at(input);
    if place < 63 { place + 1 } else { 0 }
}

// The input that idx stands for in a state byte; 0 stands for none.
#[tactic(auto, unfolding(format::specs::CommonInputs::common_input))]
pub fn common_input(idx: u8) -> u8
    requires { (1 ≤ idx) × (idx < 64) }
    ensures { result ≡ common_input idx }
{
    common_inputs_inv_at(idx - 1)
}
