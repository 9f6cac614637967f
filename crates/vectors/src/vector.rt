// A vector: a text, and what listing it into an output of some room is to do.
use crate::line::Part;
use casework::refusal::Refusal;
use casework::under::Under;
use reading::list;
use std::alloc::{AllocError, Global};

// What every byte of the output is before.
const UNTOUCHED: u8 = 0xee;

// The room of a vector that names none.
const ROOM: usize = 256;

#[derive(Drop)]
pub struct Vector {
    pub name: String,
    text: Vec<u8>,
    room: usize,
    // The fields that are to be written, and the refusal if it is to be refused.
    fields: Vec<u8>,
    refused: Option<Refusal>,
}

impl Vector {
    // A vector of which nothing but its name is known.
    pub fn new(heap: Global, name: String) -> Vector {
        Vector {
            name,
            text: Vec::new(heap),
            room: ROOM,
            fields: Vec::new(heap),
            refused: None,
        }
    }

    // Adds what a line says of it.
    pub fn add(&mut self, part: &Part) -> Result<(), AllocError> {
        match part {
            Part::Text(row, times) => repeat(&mut self.text, row.as_slice(), *times)?,
            Part::Fields(row, times) => repeat(&mut self.fields, row.as_slice(), *times)?,
            Part::Token(kind, bytes) => {
                let [.., high, low] = bytes.len().to_be_bytes();
                self.fields.extend_from_slice(&[*kind, high, low])?;
                self.fields.extend_from_slice(bytes.as_slice())?;
            }
            Part::Room(room) => self.room = *room,
            Part::Refused(refusal) => self.refused = Some(*refusal),
        }
        Ok(())
    }

    // Whether the listing answers as it is to, writes the fields and keeps every other byte of the output.
    pub fn comes_true(&self, heap: Global, under: Under) -> Result<bool, AllocError> {
        let mut out = vec![in heap; UNTOUCHED; self.room]?;
        let listed = list(&under, self.text.as_slice(), out.as_mut_slice());
        let expected = self.refused.map_or(Ok(self.fields.len()), Err);
        let mut written = self.fields.clone()?;
        written.resize(self.room, UNTOUCHED)?;
        Ok(listed.map_err(Refusal::from) == expected && out.as_slice() == written.as_slice())
    }
}

// Adds a row so many times, with no copy of them all beside it. The room is made first, so that want of it is told at
// once.
fn repeat(bytes: &mut Vec<u8>, row: &[u8], times: usize) -> Result<(), AllocError> {
    if row.is_empty() {
        return Ok(());
    }
    bytes.reserve(times.saturating_mul(row.len()))?;
    for _ in 0..times {
        bytes.extend_from_slice(row)?;
    }
    Ok(())
}
