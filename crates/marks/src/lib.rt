// Marks, places of a plain reading to come back to (document 02, N10): up to 16 names beside a reading, each with a whole reading. Going back gives the
// answers that followed the mark, with the total and the number of keys to come as they were there.
// A call takes the file, a reading and its marks; no struct is made for the two, since a call of next takes a reading alone.
#![tactic(auto)]

ghost use Rattle.std.specs.Prelude.{◌≡◌, [], ◌≤◌, length};
ghost use Rattle.marking.specs.MarkCalls as M;
ghost use Rattle.stream.specs.Plains.{plain_is, PlainStepped};
ghost use Rattle.marks_held.specs.MarkViews.{marks_is};
ghost use Rattle.marks.specs.MarkAnswers.{judging, judging_marks, set_in, back_in, marking_is, return_is};

use format::Refusal;
use marks_held::{MARKS, MAX_NAME, Marks};
use stream::Plain;
use stream_step::Step;

// No marks.
pub fn none() -> Marks
    ensures { marks_is result ≡ [] }
{
    marks_held::no_marks()
}

// ---- what is judged

// What each call judges first: opening's refusals, then STATE for the marks. A next judges the reading after it, in the call without marks.
pub fn judge_marks(file: &[u8], marks: Marks) -> Result<(), Refusal>
    ensures { result ≡ judging_marks file.now (marks_is marks) }
{
    fst::open(file)?;
    if marks_held::marks_right(marks, file.len()) {
        return Ok(());
    }
    Err(Refusal::State)
}

// What is judged before a mark is set or looked for: opening's refusals, then STATE for the reading or the marks.
pub fn judge(file: &[u8], reading: Plain, marks: Marks) -> Result<(), Refusal>
    ensures { result ≡ judging file.now (plain_is reading) (marks_is marks) }
{
    judge_marks(file, marks)?;
    if stream_bounds::state_right(&reading.reading, file.len()) {
        return Ok(());
    }
    Err(Refusal::State)
}

// Whether a name has 1 to 8 bytes.
fn is_name(name: &[u8]) -> bool
    ensures { result ≡ M.name_test name.now }
{
    1 <= name.len() && name.len() <= MAX_NAME
}

// ---- mark

// The marks with the reading put under a name, where reading and marks are right: NAME for a length of 0 or over 8, FULL for a new name with 16 held.
pub fn set_mark(reading: Plain, marks: Marks, name: &[u8]) -> Result<Marks, Refusal>
    requires { marks.count ≤ 16 }
    ensures { marking_is result ≡ set_in (plain_is reading) (marks_is marks) name.now }
{
    if !is_name(name) {
        return Err(Refusal::Name);
    }
    let mark = marks_held::Mark {
        name_len: name.len(),
        name: marks_held::hold_name(name),
        reading,
    };
    match marks_held::name_from(&marks, 0, name) {
        Some(i) => Ok(marks_held::put_mark(marks, marks.count, i, mark)),
        None => {
            if MARKS <= marks.count {
                return Err(Refusal::Full);
            }
            Ok(marks_held::put_mark(marks, marks.count + 1, marks.count, mark))
        }
    }
}

// The marks with the reading marked under a name: a mark of that name is replaced where it stands, also with 16 held; a new one comes after the last.
// Opening's refusals, STATE for the reading or the marks, NAME for a length of 0 or over 8, FULL for a new name with 16 held. No node is judged.
pub fn mark(file: &[u8], reading: Plain, marks: Marks, name: &[u8]) -> Result<Marks, Refusal>
    ensures { marking_is result ≡ M.mark file.now (plain_is reading) (marks_is marks) name.now }
{
    judge(file, reading, marks)?;
    set_mark(reading, marks, name)
}

// ---- go back

// The reading under a name, where the marks are right: NAME for a length of 0 or over 8, and for a name that no mark has.
pub fn take_back(marks: Marks, name: &[u8]) -> Result<Plain, Refusal>
    requires { marks.count ≤ 16 }
    ensures { return_is result ≡ back_in (marks_is marks) name.now }
{
    if !is_name(name) {
        return Err(Refusal::Name);
    }
    match marks_held::name_from(&marks, 0, name) {
        None => Err(Refusal::Name),
        Some(i) => Ok(marks.marks[i].reading),
    }
}

// The reading that was marked under a name; the marks are the caller's and do not change. Opening's refusals, STATE for the reading or the marks, NAME for
// a length of 0 or over 8, or a name that no mark has. No node is judged.
pub fn go_back(file: &[u8], reading: Plain, marks: Marks, name: &[u8]) -> Result<Plain, Refusal>
    ensures { return_is result ≡ M.back file.now (plain_is reading) (marks_is marks) name.now }
{
    judge(file, reading, marks)?;
    take_back(marks, name)
}

// ---- next

// The next key, with the marks judged too: opening's refusals, STATE for the reading or the marks, then as stream::next. No next changes a mark.
pub fn next_marked(file: &[u8], reading: Plain, marks: Marks, key: &mut [u8]) -> Step<Plain>
    ensures { PlainStepped (M.next_marked file.now (plain_is reading)
        (marks_is marks) (length key.old)) key.old key.new result }
{
    match judge_marks(file, marks) {
        Ok(()) => stream::next(file, reading, key),
        Err(why) => Step::refused(reading, why),
    }
}
