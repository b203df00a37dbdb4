// Marks of a plain reading (document 02, N10): up to 16 names, each with a reading. What is held for them, whether it is right, the place of a
// name, and one mark put in its place.
// The length of a name is asked in each contract: a caller's name may be longer, and is refused before it comes here (marks).
#![tactic(auto)]

ghost use Rattle.std.specs.Prelude.{◌≡◌, ◌≤◌, ◌<◌, length};
ghost use Rattle.marking.specs.MarkCalls as M;
ghost use Rattle.marks_held.specs.MarkViews.{stated, mark_is, marks_is, name_right, no_marks, SeekTold, put_at};

use stream::Plain;

// How many marks are held at most.
pub const MARKS: usize = 16;
// The longest name.
pub const MAX_NAME: usize = 8;

// A mark: its name, of which bytes past the length carry no meaning, and a whole reading. There is no heap, so that there is room for the longest name; a
// caller's mark may state a greater length.
#[derive(Clone, Copy)]
pub struct Mark {
    pub name_len: usize,
    pub name: [u8; MAX_NAME],
    pub reading: Plain,
}

impl Mark {
    // The name, where it is no longer than its room.
    fn stated(&self) -> &[u8]
        requires { self.now.name_len ≤ 8 }
        ensures { result.now ≡ (mark_is self.now).name }
    {
        &self.name[..self.name_len]
    }

    // Whether the mark has this name. A mark may state more bytes than a name has room for.
    fn is_named(&self, name: &[u8]) -> bool
        requires { length name.now ≤ 8 }
        ensures { result ≡ M.same_name (mark_is self.now).name name.now }
    {
        self.name_len == name.len() && self.stated() == name
    }
}

// The marks of a reading. There is no heap, so that there is room for 16, of which the first count are in use; those from count on carry no meaning.
#[derive(Clone, Copy)]
pub struct Marks {
    pub count: usize,
    pub marks: [Mark; MARKS],
}

// No marks.
pub fn no_marks() -> Marks
    ensures { result ≡ no_marks }
{
    let empty = Mark {
        name_len: 0,
        name: [0; MAX_NAME],
        reading: stream::no_plain(),
    };
    Marks {
        count: 0,
        marks: [empty; MARKS],
    }
}

// A given name, held.
pub fn hold_name(name: &[u8]) -> [u8; MAX_NAME]
    requires { length name.now ≤ 8 }
    ensures { stated (length name.now) 0 result ≡ name.now }
{
    let mut held = [0u8; MAX_NAME];
    held[..name.len()].copy_from_slice(name);
    held
}

// The first place of a name, from a place on.
pub fn name_from(marks: &Marks, from: usize, name: &[u8]) -> Option<usize>
    requires { (marks.now.count ≤ 16) × (length name.now ≤ 8) × (from ≤ marks.now.count) }
    ensures { SeekTold name.now (marks_is marks.now) from result }
{
    // by index: the place that is answered counts from the first mark, and std's `position` over the marks from `from` on would count from there
    for i in from..marks.count {
        if marks.marks[i].is_named(name) {
            return Some(i);
        }
    }
    None
}

// Whether the name at a place is right: of 1 to 8 bytes, and no later mark has it.
fn name_right(marks: &Marks, i: usize) -> bool
    requires { (marks.now.count ≤ 16) × (i < marks.now.count) }
    ensures { result ≡ name_right (marks_is marks.now) i }
{
    let held = &marks.marks[i];
    let n = held.name_len;
    if n == 0 {
        return false;
    }
    let short = n <= MAX_NAME;
    short && name_from(marks, i + 1, held.stated()).is_none()
}

// Whether the marks are right: at most 16, each with a reading that can go on with a file of this length, and a right name.
pub fn marks_right(marks: Marks, len: usize) -> bool
    ensures { result ≡ M.marks_test len (marks_is marks) }
{
    if MARKS < marks.count {
        return false;
    }
    // by index: whether a name is right is asked of the marks after place i too
    for i in 0..marks.count {
        let reading = &marks.marks[i].reading.reading;
        if !stream_bounds::state_right(reading, len) {
            return false;
        }
        if !name_right(&marks, i) {
            return false;
        }
    }
    true
}

// One mark put at a place, and how many there are.
pub fn put_mark(marks: Marks, count: usize, place: usize, mark: Mark) -> Marks
    requires { place < 16 }
    ensures { result ≡ put_at marks count place mark }
{
    let mut all = marks.marks;
    all[place] = mark;
    Marks { count, marks: all }
}
