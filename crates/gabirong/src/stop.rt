// Why a command is not done, as standard error tells it.
use crate::command::USAGE;
use crate::input::Unreadable;
use crate::shown::{LineAt, Word};
use anyhow::anyhow;
use fault::{Failure, Fault, Flaw};
use std::alloc::{AllocError, AllocFailed};
use std::{fmt, io};

#[derive(Drop)]
pub enum Stop<'a> {
    // The command line gives no job.
    Usage,
    Unreadable(Unreadable<'a>),
    // The reason was told when it was met.
    Told,
    // Two files are to be standard input.
    InputTwice,
    // What is no text.
    NoText(&'a str),
    // The number of a line, from 1, and what it is none of.
    BadLine(usize, &'static str),
    // The number of a pair, from 1, that has no equals sign.
    NoPair(usize),
    // A name that two pairs have; and one that no hole has.
    GivenTwice(&'a str),
    NoHoleNamed(&'a str),
    // A refusal by itself, one of a text, and one of the record at a place.
    Refused(Fault),
    TextRefused(Fault, Vec<u8>),
    RecordRefused(Fault, usize),
    Failed(anyhow::Error),
}

// By hand, and by no derive: several texts show bytes and lines in a style of the program's.
impl fmt::Display for Stop<'_> {
    fn fmt<W: fmt::Write>(&self, f: &mut fmt::Formatter<W>) -> fmt::Result {
        match self {
            Stop::Usage => f.write_str(USAGE),
            Stop::Unreadable(file) => write!(f, "{file}"),
            Stop::Told => Ok(()),
            Stop::InputTwice => write!(f, "only one of the files can be standard input"),
            Stop::NoText(name) => write!(f, "{} is no text", Word(name)),
            Stop::BadLine(number, form) => write!(f, "line {number} is no {form}"),
            Stop::NoPair(number) => write!(f, "pair {number} is no NAME=VALUE"),
            Stop::GivenTwice(name) => write!(f, "{} is given twice", Word(name)),
            Stop::NoHoleNamed(name) => write!(f, "no hole is named {}", Word(name)),
            Stop::Refused(fault) => write!(f, "refused {fault}"),
            Stop::TextRefused(fault, text) => {
                let line = LineAt(text.as_slice(), fault.place());
                write!(f, "refused {fault}\n{line}")
            }
            Stop::RecordRefused(fault, place) => write!(f, "refused {fault}\nrecord at {place}"),
            Stop::Failed(error) => write!(f, "gabirong: {error}"),
        }
    }
}

impl From<io::Error> for Stop<'_> {
    fn from(error: io::Error) -> Self {
        Stop::Failed(anyhow::Error::from(error))
    }
}

impl From<AllocError> for Stop<'_> {
    fn from(error: AllocError) -> Self {
        Stop::Failed(anyhow::Error::from(error))
    }
}

impl<T: Drop> From<AllocFailed<T>> for Stop<'_> {
    fn from(error: AllocFailed<T>) -> Self {
        Stop::from(AllocError::from(error))
    }
}

impl From<Fault> for Stop<'_> {
    fn from(fault: Fault) -> Self {
        Stop::Refused(fault)
    }
}

// An outline that is not made.
impl From<Failure<Flaw>> for Stop<'_> {
    fn from(failure: Failure<Flaw>) -> Self {
        match failure {
            Failure::Refused(flaw) => Stop::Refused(Fault::from(flaw)),
            Failure::NoMemory => Stop::Failed(anyhow!("no memory for the outline")),
        }
    }
}

// A record that is not written.
impl From<Failure<Fault>> for Stop<'_> {
    fn from(failure: Failure<Fault>) -> Self {
        match failure {
            Failure::Refused(fault) => Stop::Refused(fault),
            Failure::NoMemory => Stop::Failed(anyhow!("no memory for the record")),
        }
    }
}
