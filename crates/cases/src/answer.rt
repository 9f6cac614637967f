// What comes of a call.
use casework::shown::Quoted;
use fault::Fault;
use merge::merged::Merged;
use std::fmt;

// What every byte of an output is before the call.
pub const UNTOUCHED: u8 = b'~';

#[derive(Clone, Copy, PartialEq)]
pub enum Answer<'a> {
    // Of a check: how many holes the template has.
    Checked(Result<usize, Fault>),
    // Of a print or a listing: how many bytes were written, and the whole output after the call.
    Written(Result<usize, Fault>, &'a [u8]),
    // Of a merge: what was merged, if the input does not end at the place, and the whole output after the call.
    Merged(Result<Option<Merged>, Fault>, &'a [u8]),
    // There are values on the sheet after a merge.
    SheetLeft,
}

impl fmt::Display for Answer<'_> {
    fn fmt<W: fmt::Write>(&self, f: &mut fmt::Formatter<W>) -> fmt::Result {
        match self {
            Answer::Checked(Ok(count)) => write!(f, "checked, {count} holes"),
            Answer::Checked(Err(fault)) => write!(f, "refused {fault}"),
            Answer::Written(Ok(len), output) => write!(
                f,
                "{len} bytes, output {}",
                Quoted(*output)
            ),
            Answer::Merged(Ok(Some(Merged { next, len })), output) => {
                write!(f, "{len} bytes, next {next}, output {}", Quoted(*output))
            }
            Answer::Merged(Ok(None), output) => write!(f, "end, output {}", Quoted(*output)),
            Answer::Written(Err(fault), output) | Answer::Merged(Err(fault), output) => {
                write!(f, "refused {fault}, output {}", Quoted(*output))
            }
            Answer::SheetLeft => write!(f, "values are left on the sheet"),
        }
    }
}
