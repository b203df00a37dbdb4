// Marks of a reading by pattern (document 02, N10): as those of a plain reading (crate marks), with PATTERN judged after STATE. A mark holds the reading
// inside; the pattern is the reading's own and never changes. The number of keys to come in a mark carries no meaning here, and is 0.
// A call takes the file, a reading and its marks; no struct is made for the two, since a call of next takes a reading alone.
#![tactic(auto)]

ghost use Rattle.std.specs.Prelude.{◌≡◌, length};
ghost use Rattle.plain.specs.Plain.{plain_with};
ghost use Rattle.stream.specs.Plains.{plain_is};
ghost use Rattle.stream_start.specs.Views.{view_is};
ghost use Rattle.patterned_held.specs.HeldPatterns.{held_is};
ghost use Rattle.patterned.specs.Patterns.{SteppedBy};
ghost use Rattle.marks_held.specs.MarkViews.{marks_is};
ghost use Rattle.marks.specs.MarkAnswers.{marking_is};
ghost use Rattle.marks_by.specs.MarksBy.{judging_by, mark_by, back_by, next_marked_by, ReturnByTold};

use format::{MAX_KEY, Refusal};
use marks_held::Marks;
use patterned::Patterned;
use stream::Plain;
use stream_step::Step;

// The reading inside.
fn inside(patterned: Patterned) -> Plain
    ensures { plain_is result ≡ plain_with (view_is patterned.reading) 0 }
{
    Plain {
        reading: patterned.reading,
        keys: 0,
    }
}

// What is judged before a mark is set or looked for: opening's refusals, STATE for the reading or the marks, PATTERN for over 255 held positions.
fn judge(file: &[u8], patterned: Patterned, marks: Marks) -> Result<(), Refusal>
    ensures { result ≡ judging_by file.now (held_is patterned.pattern) (view_is patterned.reading)
        (marks_is marks) }
{
    marks::judge(file, inside(patterned), marks)?;
    if MAX_KEY < patterned.pattern.len {
        return Err(Refusal::Pattern);
    }
    Ok(())
}

// The marks with the reading marked under a name. Opening's refusals, STATE for the reading or the marks, PATTERN for over 255 held positions, NAME, FULL.
pub fn mark_by(
    file: &[u8],
    patterned: Patterned,
    marks: Marks,
    name: &[u8],
) -> Result<Marks, Refusal>
    ensures { marking_is result ≡ mark_by file.now (held_is patterned.pattern)
        (view_is patterned.reading) (marks_is marks) name.now }
{
    judge(file, patterned, marks)?;
    marks::set_mark(inside(patterned), marks, name)
}

// The reading that was marked under a name, with its own pattern; the marks do not change. Opening's refusals, STATE for the reading or the marks,
// PATTERN for over 255 held positions, NAME.
pub fn go_back_by(
    file: &[u8],
    patterned: Patterned,
    marks: Marks,
    name: &[u8],
) -> Result<Patterned, Refusal>
    ensures { ReturnByTold (back_by file.now (held_is patterned.pattern)
        (plain_with (view_is patterned.reading) 0) (marks_is marks) name.now) patterned result }
{
    judge(file, patterned, marks)?;
    let back = marks::take_back(marks, name)?;
    Ok(Patterned {
        reading: back.reading,
        ..patterned
    })
}

// The next key that fits, with the marks judged too: opening's refusals, STATE for the reading or the marks, then as patterned::next.
pub fn next_marked_by(
    file: &[u8],
    patterned: Patterned,
    marks: Marks,
    key: &mut [u8],
) -> Step<Patterned>
    ensures { SteppedBy (next_marked_by file.now (held_is patterned.pattern)
        (view_is patterned.reading) (marks_is marks) (length key.old))
        patterned.pattern key.old key.new result }
{
    match marks::judge_marks(file, marks) {
        Ok(()) => patterned::next(file, patterned, key),
        Err(why) => Step::refused(patterned, why),
    }
}
