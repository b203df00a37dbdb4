// A reading with marks carried to another file (document 02, N10 with N8): the marks are judged with the reading, and none are carried.
// As for a carry, what is promised of the keys to come is promised for a file's conversion alone.
#![tactic(auto)]

ghost use Rattle.std.specs.Prelude.{◌≡◌};
ghost use Rattle.stream_start.specs.Views.{view_is};
ghost use Rattle.stream.specs.Plains.{plain_is};
ghost use Rattle.patterned_held.specs.HeldPatterns.{held_is};
ghost use Rattle.marks_held.specs.MarkViews.{marks_is};
ghost use Rattle.carry.specs.Carries.{carried_plain_is, PatternedCarried};
ghost use Rattle.marks_carry.specs.MarksCarry.{carry_marked, carry_marked_by, judging};

use format::Refusal;
use marks_held::Marks;
use patterned::Patterned;
use stream::Plain;

// The old file's refusals, the new file's, STATE for marks that are not right by the old file's length.
fn judge(old: &[u8], new: &[u8], marks: Marks) -> Result<(), Refusal>
    ensures { result ≡ judging old.now new.now (marks_is marks) }
{
    fst::open(old)?;
    fst::open(new)?;
    if marks_held::marks_right(marks, old.len()) {
        return Ok(());
    }
    Err(Refusal::State)
}

// A plain reading of the old file as a reading of the new one, without marks. Opening's refusals of the old file, then of the new one, then STATE for the
// reading or its marks by the old file, then level by level as carry::carry. The marks are the caller's.
pub fn carry_marked(old: &[u8], new: &[u8], reading: Plain, marks: Marks) -> Result<Plain, Refusal>
    ensures { carried_plain_is result ≡ carry_marked old.now new.now
        (plain_is reading) (marks_is marks) }
{
    judge(old, new, marks)?;
    carry::carry(old, new, reading)
}

// The same of a reading by pattern, with PATTERN, after STATE, for over 255 held positions. The pattern stays as it is.
pub fn carry_marked_by(
    old: &[u8],
    new: &[u8],
    patterned: Patterned,
    marks: Marks,
) -> Result<Patterned, Refusal>
    ensures { PatternedCarried (carry_marked_by old.now new.now
        (held_is patterned.pattern) (view_is patterned.reading) (marks_is marks)) patterned result }
{
    judge(old, new, marks)?;
    carry::carry_by(old, new, patterned)
}
