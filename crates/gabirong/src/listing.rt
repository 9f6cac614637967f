// The command `list`: how a host reads a text.
ghost use Rattle.std.specs.Prelude.{length};
ghost use Rattle.std.specs.Iterator.{at_most};

use crate::input::read_whole;
use crate::kinds::{KindName, Kinds};
use crate::shown::{Count, Quoted, Shown, Word};
use crate::stop::Stop;
use fault::Fault;
use host::Host;
use reading::list;
use std::alloc::Global;
use std::io::Write;

// Prints a line for each token.
pub fn list_text<'a, H: Kinds>(rt: &HostRuntime, host: &H, path: &'a str) -> Result<(), Stop<'a>> {
    let text = read_whole(rt, path)?;
    println!(rt; "read {}: {} bytes", Word(path), text.len())?;
    let listing = listing_of(rt.alloc(), host, text)?;
    for (number, (kind, value)) in Fields(listing.as_slice()).enumerate() {
        let name = KindName::<H::Kind>::of(kind);
        println!(rt;
            "token {number} kind {kind} {name} {}",
            Shown(value, Quoted)
        )?;
    }
    let count = Fields(listing.as_slice()).count();
    println!(rt; "listed: {}", Count(count, "token"))?;
    Ok(())
}

// Writes the fields of the tokens, byte for byte, and nothing else.
pub fn list_raw<'a, H: Host>(rt: &HostRuntime, host: &H, path: &'a str) -> Result<(), Stop<'a>> {
    let text = read_whole(rt, path)?;
    let listing = listing_of(rt.alloc(), host, text)?;
    rt.stdout().write_all(listing.as_slice())?;
    Ok(())
}

// The fields of a text's reading.
fn listing_of<H: Host>(heap: Global, host: &H, text: Vec<u8>) -> Result<Vec<u8>, Stop<'static>> {
    // An output without room tells how much is needed. Of the three cases one takes the text, so this is a `match`.
    let needed = match list(host, text.as_slice(), &mut []) {
        Ok(len) => len,
        Err(Fault::OutputTooShort { needed }) => needed,
        Err(fault) => return Err(Stop::TextRefused(fault, text)),
    };
    let mut fields = vec![in heap; 0; needed]?;
    list(host, text.as_slice(), fields.as_mut_slice()).map_err(|fault| Stop::TextRefused(
        fault, text,
    ))?;
    Ok(fields)
}

// The kind and the value of each field of a listing.
#[derive(Drop)]
struct Fields<'a>(&'a [u8]);

impl<'a> Iterator for Fields<'a> {
    type Item = (u8, &'a [u8]);

    ghost remaining = { λ s. at_most (length s.0.now) };

    fn next(&mut self) -> Option<(u8, &'a [u8])> {
        let [kind, high, low, after @ ..] = self.0 else {
            return None;
        };
        let len = usize::from(u16::from_be_bytes([*high, *low]));
        let (value, rest) = after.split_at(len.min(after.len()));
        self.0 = rest;
        Some((*kind, value))
    }
}
