// The lines of a file of vectors.
use casework::refusal::Refusal;
use hex::{FromHex, FromHexError};
use std::alloc::{AllocError, AllocFailed, Global};
use std::num::ParseIntError;

// What a line says.
#[derive(Drop)]
pub enum Line {
    // `name: ..` begins a vector.
    Name(String),
    // Any other says a part of it.
    Part(Part),
}

#[derive(Drop)]
pub enum Part {
    // `text: ..` and `text N times: ..`: bytes that follow in the text, so many times.
    Text(Vec<u8>, usize),
    // `fields: ..` and `fields N times: ..`: bytes that follow in the fields that are to be written, so many times.
    Fields(Vec<u8>, usize),
    // `1: ..`: a token of that kind, and its bytes.
    Token(u8, Vec<u8>),
    // `room: N`: the length of the output.
    Room(usize),
    // `refused: NUMBER PLACE`
    Refused(Refusal),
}

// Why a line is not read. The program and the programs of cases share no code.
#[derive(Clone, Copy, PartialEq, Debug)]
pub enum Unread {
    // It is no line of a vector.
    Bad,
    OutOfMemory,
}

impl From<AllocError> for Unread {
    fn from(_: AllocError) -> Unread {
        Unread::OutOfMemory
    }
}

impl<T: Drop> From<AllocFailed<T>> for Unread {
    fn from(_: AllocFailed<T>) -> Unread {
        Unread::OutOfMemory
    }
}

impl From<ParseIntError> for Unread {
    fn from(_: ParseIntError) -> Unread {
        Unread::Bad
    }
}

impl From<FromHexError> for Unread {
    fn from(_: FromHexError) -> Unread {
        Unread::Bad
    }
}

impl Line {
    // What a line says. One that is empty, or a comment, which begins with #, says nothing.
    pub fn read(heap: Global, line: &str) -> Result<Option<Line>, Unread> {
        if line.is_empty() || line.starts_with('#') {
            return Ok(None);
        }
        let (key, rest) = line.split_once(':').ok_or(Unread::Bad)?;
        let value = rest.strip_prefix(' ').unwrap_or(rest);
        let mut words = key.split(' ');
        let first = words.next().unwrap_or(key);
        let times = match words.next() {
            // A count that is no number is none.
            Some(count) => count.parse().unwrap_or(0),
            None => 1,
        };
        Ok(Some(match first {
            "name" => Line::Name(String::from_str(heap, value)?),
            _ => Line::Part(part_of(heap, first, times, value)?),
        }))
    }
}

fn part_of(heap: Global, key: &str, times: usize, value: &str) -> Result<Part, Unread> {
    Ok(match key {
        "text" => Part::Text(unescaped(heap, value)?, times),
        "fields" => Part::Fields(unescaped(heap, value)?, times),
        // A room that is no number is no room.
        "room" => Part::Room(value.parse().unwrap_or(0)),
        "refused" => Part::Refused(refusal_of(value)?),
        kind => Part::Token(kind.parse()?, unescaped(heap, value)?),
    })
}

fn refusal_of(value: &str) -> Result<Refusal, Unread> {
    let (number, place) = value.split_once(' ').ok_or(Unread::Bad)?;
    Ok(Refusal::Plain(number.parse()?, place.parse()?))
}

// The bytes that a text stands for: \\, \n, \r, \t and \xHH, whose digits are 0 to 9 and a to f, are one byte each,
// and a backslash before anything else is bad.
fn unescaped(heap: Global, text: &str) -> Result<Vec<u8>, Unread> {
    let mut bytes = Vec::new(heap);
    let mut rest = text.as_bytes();
    // Each turn takes as many bytes as its pattern has: an iterator over bytes would have to look ahead.
    loop {
        let (byte, after) = match rest {
            [] => return Ok(bytes),
            [b'\\', b'\\', after @ ..] => (b'\\', after),
            [b'\\', b'n', after @ ..] => (b'\n', after),
            [b'\\', b'r', after @ ..] => (b'\r', after),
            [b'\\', b't', after @ ..] => (b'\t', after),
            [
                b'\\',
                b'x',
                high @ (b'0'..=b'9' | b'a'..=b'f'),
                low @ (b'0'..=b'9' | b'a'..=b'f'),
                after @ ..,
            ] => {
                let [byte] = <[u8; 1] as FromHex>::from_hex([*high, *low])?;
                (byte, after)
            }
            [b'\\', ..] => return Err(Unread::Bad),
            [byte, after @ ..] => (*byte, after),
        };
        bytes.push(byte)?;
        rest = after;
    }
}
