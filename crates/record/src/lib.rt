// Records of pairs of a name and a value, as fields of a tag, a length and bytes.
#![tactic(auto)]

ghost use Rattle.std.specs.Prelude.{◌≡◌, ◌<◌, ◌≤◌, true, false, length, IfOk};
ghost use Rattle.record.specs.Answers.{answer, answer_pairs, answer_read, Bare, BlankAfter, unread, Laid, PairsLie, Within};
ghost use Rattle.record.specs.Law.{Law};
ghost use Rattle.record.specs.Reading.{read_at};

mod field;
pub mod promise;
pub mod shape;
pub mod table;
pub mod writer;

use fault::Fault;
use field::{Head, judge_head, judge_value};
use shape::{Entry, MAX_PAIRS, Span, State};
use table::{find_in, part};

// Reads pair after pair, each a name and a value, until the end. The answer that gets them is lent: a table that is handed back
// is copied.
fn read_pairs(input: &[u8], place: usize, found: &mut shape::Record) -> Result<(), Fault>
    requires within { place < length input.now }
    requires count { found.old.count ≡ 0 }
    requires entries { BlankAfter 0 found.old.entries }
    ensures reads { answer_pairs input.now result found.new ≡ read_at input.now place }
    ensures lie { IfOk result (λ done. PairsLie place (length input.now) found.new) }
    ensures few { found.new.count ≤ 64 }
    ensures rest { BlankAfter found.new.count found.new.entries }
{
    let mut at = place;
    // Each field says where the next one is, so there is no row of them to go over.
    while let Head::Name(len) = judge_head(&input[at..], at)? {
        if found.count == MAX_PAIRS {
            return Err(Fault::TooManyNames { place: at });
        }
        let name = Span { place: at + 3, len };
        if find_in(input, &found.entries[..found.count], part(input, name)).is_some() {
            return Err(Fault::NameTwice { place: at });
        }
        let due = name.place + name.len;
        let value = Span {
            place: due + 3,
            len: judge_value(&input[due..], due)?,
        };
        found.entries[found.count] = Entry { name, value };
        found.count += 1;
        at = value.place + value.len;
    }
    found.end = at;
    found.next = at + 3;
    found.fault = Fault::FieldCutShort { place: at };
    Ok(())
}

// Whether a record stands at a place of the input, which then gives the pairs, or the input ends there.
fn read_from(input: &[u8], place: usize, found: &mut shape::Record) -> Result<bool, Fault>
    requires bare { Bare found.old }
    requires entries { BlankAfter 0 found.old.entries }
    ensures reads { answer_read input.now result found.new ≡ read_at input.now place }
    ensures lie { IfOk result (λ there. there ≡ true → PairsLie place (length input.now) found.new) }
    ensures bare { IfOk result (λ there. there ≡ false → Bare found.new) }
    ensures few { found.new.count ≤ 64 }
    ensures rest { BlankAfter found.new.count found.new.entries }
{
    if place > input.len() {
        return Err(Fault::FieldCutShort { place: input.len() });
    }
    if place == input.len() {
        return Ok(false);
    }
    read_pairs(input, place, found)?;
    Ok(true)
}

// Makes an answer say nothing: its entries are taken back, the last one first, and those past them are blank already.
#[tactic(auto, using(crate::proofs::Turns::taken_back))]
fn wipe(found: &mut shape::Record)
    requires few { found.old.count ≤ 64 }
    requires rest { BlankAfter found.old.count found.old.entries }
    ensures bare { Bare found.new }
    ensures entries { BlankAfter 0 found.new.entries }
{
    while found.count > 0 {
        found.count -= 1;
        found.entries[found.count] = Entry::default();
    }
    found.end = 0;
    found.next = 0;
    found.fault = Fault::FieldCutShort { place: 0 };
}

// Reads what stands at a place of the input into an answer that said something else before.
#[tactic(auto, using(crate::proofs::Laws::law_of))]
fn read_over(input: &[u8], place: usize, found: &mut shape::Record)
    requires few { found.old.count ≤ 64 }
    requires rest { BlankAfter found.old.count found.old.entries }
    ensures reads { answer input.now found.new ≡ read_at input.now place }
    ensures within { Within (length input.now) found.new }
    ensures laid { Laid place found.new }
    ensures law { Law input.now place (answer input.now found.new) }
{
    wipe(found);
    match read_from(input, place, found) {
        Ok(true) => found.state = State::Found,
        Ok(false) => found.state = State::End,
        Err(fault) => {
            wipe(found);
            found.state = State::Refused;
            found.fault = fault;
        }
    }
}

// Reads records one after another, each into the memory of the one before, so that no table is copied.
#[derive(Drop)]
pub struct Reader {
    found: shape::Record,
    ghost few: { found.count ≤ 64 },
    ghost rest: { BlankAfter found.count found.entries },
}

impl Reader {
    // A reader that has read nothing.
    pub fn new() -> Reader
        ensures { result.found ≡ unread }
    {
        let found = shape::Record {
            state: State::End,
            count: 0,
            entries: [Entry::default(); MAX_PAIRS],
            end: 0,
            next: 0,
            fault: Fault::FieldCutShort { place: 0 },
        };
        Reader { found }
    }

    // What was read last.
    pub fn found(&self) -> &shape::Record
        ensures { result.now ≡ self.now.found }
    {
        &self.found
    }

    // Reads the record at a place of the input: its pairs, or that the input ends there, or why it is refused.
    pub fn read(&mut self, input: &[u8], place: usize)
        ensures reads { answer input.now self.new.found ≡ read_at input.now place }
        ensures within { Within (length input.now) self.new.found }
        ensures laid { Laid place self.new.found }
        ensures law { Law input.now place (answer input.now self.new.found) }
    {
        read_over(input, place, &mut self.found);
    }
}

// The record at a place of the input, for a caller that reads no other.
pub fn record(input: &[u8], place: usize) -> shape::Record
    ensures reads { answer input.now result ≡ read_at input.now place }
    ensures within { Within (length input.now) result }
    ensures laid { Laid place result }
    ensures law { Law input.now place (answer input.now result) }
{
    let mut reader = Reader::new();
    reader.read(input, place);
    *reader.found()
}
