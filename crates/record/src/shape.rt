// What reading a record answers: places and lengths in the input, and what is refused.
use fault::Fault;

// Some bytes of the input.
#[derive(Clone, Copy, PartialEq, Debug, Default)]
pub struct Span {
    pub place: usize,
    pub len: usize,
}

// A pair of a record: where its name and its value lie.
#[derive(Clone, Copy, PartialEq, Debug, Default)]
pub struct Entry {
    pub name: Span,
    pub value: Span,
}

// What came of reading at a place.
#[derive(Clone, Copy, PartialEq, Debug)]
pub enum State {
    // A record stands there.
    Found,
    // The place is the end of the input.
    End,
    // The record is refused.
    Refused,
}

// How many pairs a record has at most.
pub const MAX_PAIRS: usize = 64;

// A record that is found has its first `count` entries, the place of its end's tag and the place after it.
// One that is refused has the fault. What the state does not name is blank.
// A flag stands beside the table, and no `Option` or `Result` is round it: an answer is plain data by a rule of the project.
#[derive(Clone, Copy)]
pub struct Record {
    pub state: State,
    pub count: usize,
    pub entries: [Entry; MAX_PAIRS],
    pub end: usize,
    pub next: usize,
    pub fault: Fault,
}
