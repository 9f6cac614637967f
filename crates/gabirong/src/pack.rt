// The command `pack`: the lines of `records`, back to a record file.
use crate::input::read_whole;
use crate::lines::{Unread, unescaped};
use crate::stop::Stop;
use fault::{Failure, Fault};
use record::writer::{Pair, write_record};
use std::alloc::Global;
use std::io::Write;

// How a line that begins a record begins; the place after it is passed over.
const RECORD_AT: &str = "record at ";

const FORM: &str = "'record at PLACE', and no 'name=value' in a record";

// A name and a value of the record that is being read.
#[derive(Drop)]
struct OwnedPair {
    name: Vec<u8>,
    value: Vec<u8>,
}

impl OwnedPair {
    // Reads a line `name=value`.
    fn parse(heap: Global, line: &str) -> Result<OwnedPair, Unread> {
        let (name, value) = line.split_once('=').ok_or(Unread::Malformed)?;
        let name = unescaped(heap, name)?;
        let value = unescaped(heap, value)?;
        Ok(OwnedPair { name, value })
    }
}

impl<'a> From<&'a OwnedPair> for Pair<'a> {
    fn from(pair: &'a OwnedPair) -> Pair<'a> {
        Pair {
            name: pair.name.as_slice(),
            value: pair.value.as_slice(),
        }
    }
}

// Reads the lines of a file and writes their records to standard output.
pub fn pack<'a>(rt: &HostRuntime, path: &'a str) -> Result<(), Stop<'a>> {
    let bytes = read_whole(rt, path)?;
    let text = std::str::from_utf8(bytes.as_slice()).map_err(|_| Stop::NoText(path))?;
    let file = packed(rt.alloc(), text)?;
    rt.stdout().write_all(file.as_slice())?;
    Ok(())
}

// The record file of a text.
fn packed(heap: Global, text: &str) -> Result<Vec<u8>, Stop<'static>> {
    let mut file = Vec::new(heap);
    let mut begun: Option<Vec<OwnedPair>> = None;
    for (number, line) in (1usize..).zip(text.lines()) {
        if line.starts_with(RECORD_AT) {
            if let Some(pairs) = begun.replace(Vec::new(heap)) {
                add_record(&mut file, pairs.as_slice())?;
            }
            continue;
        }
        let pair = OwnedPair::parse(heap, line).map_err(|unread| unread.at(number, FORM))?;
        let pairs = begun.as_mut().ok_or(Stop::BadLine(number, FORM))?;
        pairs.push(pair)?;
    }
    if let Some(pairs) = begun {
        add_record(&mut file, pairs.as_slice())?;
    }
    Ok(file)
}

fn add_record(file: &mut Vec<u8>, pairs: &[OwnedPair]) -> Result<(), Failure<Fault>> {
    let pairs: Vec<Pair<'_>> = pairs.iter().map(Pair::from).collect(*file.allocator())?;
    write_record(file, pairs.as_slice())
}
