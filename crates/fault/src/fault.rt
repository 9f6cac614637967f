ghost use Rattle.std.specs.Prelude.{◌≡◌};
ghost use Rattle.fault.specs.declared.fault.Fault.TheVariants.{Template};
ghost use Rattle.fault.specs.Refusal.{flaw_of, refusal_of};
ghost use Rattle.std.specs.Option.{option_map};

use crate::flaw::Flaw;

// The most bytes that the value of a hole may have.
pub const MAX_VALUE: usize = 160;

// Why a call refuses. A case joins with the call that gives it.
#[derive(Clone, Copy, PartialEq, Debug)]
pub enum Fault {
    // The template is refused by its host.
    Template(Flaw),
    // The sheet's host refuses the template of a filling: what `check` says of it under that host.
    Unfit(Flaw),
    // The template has no hole of this number.
    NoSuchHole { hole: usize },
    // The hole has a value already.
    NotOwed { hole: usize },
    // The value has more than 160 bytes.
    ValueTooLong { hole: usize },
    // The hole's body turns away the byte at this place of the value.
    ByteTurnedAway { hole: usize, place: usize },
    // The hole to release has no value.
    AlreadyOwed { hole: usize },
    // The lowest hole that has no value yet.
    StillOwed { hole: usize },
    // The hole's body turns away the byte at this place of the value in the sheet.
    StoredByteTurnedAway { hole: usize, place: usize },
    // The output is shorter than what is to be written, whose length this is.
    OutputTooShort { needed: usize },
    // The text has more than 65,534 bytes.
    TextTooLong,
    // The host refuses a byte of the text, or its end.
    TextRefused { place: usize },
    // The input ends in a field or in a record, or the place lies past it.
    FieldCutShort { place: usize },
    // A tag that is none of 1, 2 and 3.
    UnknownTag { place: usize },
    // A value where a name or the end is due, or another field where a value is due.
    TagOutOfTurn { place: usize },
    // A name that no hole could have.
    BadRecordName { place: usize },
    // A value of more than 160 bytes.
    RecordValueTooLong { place: usize },
    // The 65th name.
    TooManyNames { place: usize },
    // A name that the record has already.
    NameTwice { place: usize },
    // The end of a record with a length that is not 0.
    EndWithLength { place: usize },
    // The record has no value of the hole's name; the place is that of the record's end.
    NameMissing { hole: usize, place: usize },
}

impl Fault {
    // The number that people know the refusal by.
    pub fn number(&self) -> u8
        ensures { result ≡ (refusal_of self.now).number }
    {
        match self {
            Fault::Template(flaw) => flaw.number(),
            Fault::Unfit(_) => 9,
            Fault::NoSuchHole { .. } => 10,
            Fault::NotOwed { .. } => 11,
            Fault::ValueTooLong { .. } => 12,
            Fault::ByteTurnedAway { .. } => 13,
            Fault::AlreadyOwed { .. } => 14,
            Fault::StillOwed { .. } => 15,
            Fault::StoredByteTurnedAway { .. } => 16,
            Fault::OutputTooShort { .. } => 17,
            Fault::TextTooLong => 18,
            Fault::TextRefused { .. } => 19,
            Fault::FieldCutShort { .. } => 20,
            Fault::UnknownTag { .. } => 21,
            Fault::TagOutOfTurn { .. } => 22,
            Fault::BadRecordName { .. } => 23,
            Fault::RecordValueTooLong { .. } => 24,
            Fault::TooManyNames { .. } => 25,
            Fault::NameTwice { .. } => 26,
            Fault::EndWithLength { .. } => 27,
            Fault::NameMissing { .. } => 30,
        }
    }

    // The hole that the refusal names, if it names one.
    pub fn hole(&self) -> Option<usize>
        ensures { result ≡ (refusal_of self.now).hole }
    {
        match self {
            Fault::Template(_) => None,
            Fault::NoSuchHole { hole } => Some(*hole),
            Fault::NotOwed { hole } => Some(*hole),
            Fault::ValueTooLong { hole } => Some(*hole),
            Fault::ByteTurnedAway { hole, .. } => Some(*hole),
            Fault::AlreadyOwed { hole } => Some(*hole),
            Fault::StillOwed { hole } => Some(*hole),
            Fault::StoredByteTurnedAway { hole, .. } => Some(*hole),
            Fault::NameMissing { hole, .. } => Some(*hole),
            _ => None,
        }
    }

    // The place that the refusal names, or 0.
    pub fn place(&self) -> usize
        ensures { result ≡ (refusal_of self.now).place }
    {
        match self {
            Fault::Template(flaw) => flaw.place(),
            Fault::Unfit(_) => 0,
            Fault::NoSuchHole { .. } => 0,
            Fault::NotOwed { .. } => 0,
            Fault::ValueTooLong { .. } => MAX_VALUE,
            Fault::ByteTurnedAway { place, .. } => *place,
            Fault::AlreadyOwed { .. } => 0,
            Fault::StillOwed { .. } => 0,
            Fault::StoredByteTurnedAway { place, .. } => *place,
            Fault::OutputTooShort { needed } => *needed,
            Fault::TextTooLong => 0,
            Fault::TextRefused { place } => *place,
            Fault::FieldCutShort { place } => *place,
            Fault::UnknownTag { place } => *place,
            Fault::TagOutOfTurn { place } => *place,
            Fault::BadRecordName { place } => *place,
            Fault::RecordValueTooLong { place } => *place,
            Fault::TooManyNames { place } => *place,
            Fault::NameTwice { place } => *place,
            Fault::EndWithLength { place } => *place,
            Fault::NameMissing { place, .. } => *place,
        }
    }

    // What the refusal carries of another, if it carries one.
    pub fn carried(&self) -> Option<Flaw>
        ensures { option_map flaw_of result ≡ (refusal_of self.now).carried }
    {
        match self {
            Fault::Unfit(flaw) => Some(*flaw),
            _ => None,
        }
    }
}

impl From<Flaw> for Fault {
    ghost from_gives = { λ flaw fault. fault ≡ Template flaw };

    fn from(found: Flaw) -> Fault {
        Fault::Template(found)
    }
}
