// What reading a record answers.
use casework::refusal::Refusal;
use record::record;
use record::shape::State;

// A record that is found: how many pairs it has, the place of its end tag, and the next place.
#[derive(Clone, Copy, PartialEq, Debug)]
pub struct Found {
    pub count: usize,
    pub end: usize,
    pub next: usize,
}

// A record, if the place is not the input's end.
pub type Answer = Result<Option<Found>, Refusal>;

pub fn read_at(input: &[u8], place: usize) -> Answer {
    let read = record(input, place);
    match read.state {
        State::Found => Ok(Some(Found {
            count: read.count,
            end: read.end,
            next: read.next,
        })),
        State::End => Ok(None),
        State::Refused => Err(Refusal::from(read.fault)),
    }
}
