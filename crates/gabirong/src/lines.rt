// Lines that are read.
ghost use Rattle.std.specs.Prelude.{◌<◌, IfOk};

use crate::stop::Stop;
use std::alloc::{AllocError, AllocFailed, Global};
use std::num::ParseIntError;

// Why a line is not read. The program and the programs of cases share no code.
#[derive(Clone, Copy)]
pub enum Unread {
    Malformed,
    NoMemory,
}

impl Unread {
    // The same of the line of this number, which is to have this form.
    pub fn at(self, number: usize, form: &'static str) -> Stop<'static> {
        match self {
            Unread::Malformed => Stop::BadLine(number, form),
            Unread::NoMemory => Stop::from(AllocError),
        }
    }
}

impl From<ParseIntError> for Unread {
    fn from(_: ParseIntError) -> Unread {
        Unread::Malformed
    }
}

impl From<AllocError> for Unread {
    fn from(_: AllocError) -> Unread {
        Unread::NoMemory
    }
}

impl<T: Drop> From<AllocFailed<T>> for Unread {
    fn from(_: AllocFailed<T>) -> Unread {
        Unread::NoMemory
    }
}

// The bytes that the style `Escaped` shows so: after a backslash come x and two hexadecimal digits.
pub fn unescaped(heap: Global, text: &str) -> Result<Vec<u8>, Unread> {
    let mut bytes = Vec::new(heap);
    let mut rest = text.as_bytes();
    // Each turn takes an escape, or all up to the next backslash. To split at backslashes takes more than twice as long
    // where escapes are many.
    loop {
        match rest {
            [] => return Ok(bytes),
            [b'\\', b'x', high, low, after @ ..] => {
                bytes.push(digit(*high)? * 16 + digit(*low)?)?;
                rest = after;
            }
            [b'\\', ..] => return Err(Unread::Malformed),
            // No run follows, as where every other byte is escaped.
            [byte, b'\\', ..] => {
                bytes.push(*byte)?;
                rest = &rest[1..];
            }
            [byte, after @ ..] => {
                let len = after.iter().take_while(|byte| **byte != b'\\').count();
                let (run, next) = after.split_at(len.min(after.len()));
                bytes.push(*byte)?;
                bytes.extend_from_slice(run)?;
                rest = next;
            }
        }
    }
}

fn digit(byte: u8) -> Result<u8, Unread>
    ensures { IfOk result (λ digit. digit < 16) }
{
    let digit = char::from(byte).to_digit(16).ok_or(Unread::Malformed)?;
    Ok(digit as u8)
}
