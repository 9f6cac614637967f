// The command `records`: the records of a file, as lines.
ghost use Rattle.std.specs.Prelude.{◌<◌, ◌≤◌, length, IfOk, IfSome};

use crate::input::read_whole;
use crate::shown::{Escaped, Shown};
use crate::stop::Stop;
use fault::Fault;
use record::record;
use record::shape::{Record, State};
use record::table::part;
use std::io;

// Prints for each record the place where it begins and its names and values. A record that is refused ends it.
pub fn tell_records<'a>(rt: &HostRuntime, path: &'a str) -> Result<(), Stop<'a>> {
    let file = read_whole(rt, path)?;
    let input = file.as_slice();
    let mut place = 0;
    // The next place is known only from the record that was read.
    while let Some(found) = record_at(input, place)? {
        println!(rt; "record at {place}")?;
        tell_pairs(rt, input, &found)?;
        place = found.next;
    }
    Ok(())
}

// The record at a place; none at the end of the input.
fn record_at(input: &[u8], place: usize) -> Result<Option<Record>, Fault>
    ensures { IfOk result (λ found. IfSome found (λ r. (place < r.next) × (r.next ≤ length input.now))) }
{
    let read = record(input, place);
    match read.state {
        State::Found => Ok(Some(read)),
        State::End => Ok(None),
        State::Refused => Err(read.fault),
    }
}

fn tell_pairs(rt: &HostRuntime, input: &[u8], found: &Record) -> io::Result<()> {
    for entry in found.entries.iter().take(found.count) {
        let name = Shown(part(input, entry.name), Escaped);
        let value = Shown(part(input, entry.value), Escaped);
        println!(rt; "{name}={value}")?;
    }
    Ok(())
}
