// Files, read whole.
use crate::shown::Word;
use crate::stop::Stop;
use std::io::Read;
use std::{fmt, fs, io};

// A file that cannot be read, and why.
#[derive(Drop)]
pub struct Unreadable<'a> {
    path: &'a str,
    error: io::Error,
}

impl fmt::Display for Unreadable<'_> {
    fn fmt<W: fmt::Write>(&self, f: &mut fmt::Formatter<W>) -> fmt::Result {
        let path = Word(self.path);
        write!(f, "cannot read {path}: {}", self.error)
    }
}

// A whole file; `-` is standard input.
pub fn read_whole<'a>(rt: &HostRuntime, path: &'a str) -> Result<Vec<u8>, Stop<'a>> {
    read(rt, path).map_err(Stop::Unreadable)
}

// Two whole files, of which one may be standard input. Why the first cannot be read is told before the second is
// read, since standard input may be long in coming.
pub fn read_both<'a>(
    rt: &HostRuntime,
    first: &'a str,
    second: &'a str,
) -> Result<(Vec<u8>, Vec<u8>), Stop<'a>> {
    if first == "-" && second == "-" {
        return Err(Stop::InputTwice);
    }
    let first = read(rt, first);
    if let Err(file) = &first {
        eprintln!(rt; "{file}")?;
    }
    match (first, read(rt, second)) {
        (Ok(first), Ok(second)) => Ok((first, second)),
        (Err(_), Ok(_)) => Err(Stop::Told),
        (_, Err(file)) => Err(Stop::Unreadable(file)),
    }
}

fn read<'a>(rt: &HostRuntime, path: &'a str) -> Result<Vec<u8>, Unreadable<'a>> {
    bytes_of(rt, path).map_err(|error| Unreadable { path, error })
}

fn bytes_of(rt: &HostRuntime, path: &str) -> io::Result<Vec<u8>> {
    if path != "-" {
        return fs::read(rt, path);
    }
    let mut bytes = Vec::new(rt.alloc());
    rt.stdin().read_to_end(&mut bytes)?;
    Ok(bytes)
}
