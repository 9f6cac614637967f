// What comes of a call.
use casework::refusal::Refusal;
use casework::shown::Quoted;
use fault::Fault;
use std::fmt;

#[derive(Clone, Copy, PartialEq)]
pub enum Answer<'a> {
    // Of a bind, a release or a clearing: whether it was done.
    Settled(Result<(), Refusal>),
    // Of a judged finish: how many holes the filling has.
    Judged(Result<usize, Refusal>),
    // How many holes are owed, and the lowest.
    Owed(usize, Option<usize>),
    // The value in a row.
    Value(&'a [u8]),
    // Of a print: the length of the text, and the whole output after the call.
    Printed(Result<usize, Refusal>, &'a [u8]),
}

pub const DONE: Answer<'static> = Answer::Settled(Ok(()));

impl From<Result<(), Fault>> for Answer<'_> {
    fn from(settled: Result<(), Fault>) -> Self {
        Answer::Settled(settled.map_err(Refusal::from))
    }
}

impl fmt::Display for Answer<'_> {
    fn fmt<W: fmt::Write>(&self, f: &mut fmt::Formatter<W>) -> fmt::Result {
        match self {
            Answer::Settled(Ok(())) => write!(f, "done"),
            Answer::Settled(Err(refusal)) | Answer::Judged(Err(refusal)) => {
                write!(f, "refused {refusal}")
            }
            Answer::Judged(Ok(holes)) => write!(f, "holes {holes}"),
            Answer::Owed(count, Some(lowest)) => write!(f, "{count}, lowest {lowest}"),
            Answer::Owed(count, None) => write!(f, "{count}, no lowest"),
            Answer::Value(value) => write!(f, "{}", Quoted(*value)),
            Answer::Printed(Ok(length), output) => {
                write!(f, "{length} bytes, output {}", Quoted(*output))
            }
            Answer::Printed(Err(refusal), output) => {
                write!(f, "refused {refusal}, output {}", Quoted(*output))
            }
        }
    }
}
