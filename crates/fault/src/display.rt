// Refusals as text: the number, the hole if one is named, the place and a sentence.
ghost use Rattle.std.specs.Prelude.{◌≡◌, Some};
ghost use Rattle.fault.specs.declared.fault.Fault.TheVariants.{Template};
ghost use Rattle.fault.specs.Words.{flaw_words_lem, fault_words_lem, fault_line, refusal_line};

use crate::fault::Fault;
use crate::flaw::Flaw;
use std::error::Error;
use std::fmt;

#[tactic(auto, unfolding(crate::specs::Words::flaw_words_lem))]
fn flaw_words(flaw: &Flaw) -> &'static str
    ensures { result.now ≡ flaw_words_lem flaw.now }
{
    match flaw {
        Flaw::TooLong => "the template has more than 3584 bytes",
        Flaw::StrayAt { .. } => "after @ comes one of @ n r t {",
        Flaw::BadName { .. } => "a hole's name is 1 to 16 of a-z 0-9 _, a letter first, then }",
        Flaw::TooManyHoles { .. } => "the template has more than 64 holes",
        Flaw::LiteralRefused { .. } => "the host does not take this byte here",
        Flaw::HoleRefused { .. } => "the host takes no hole here",
        Flaw::EndRefused { .. } => "the host does not let the text end here",
    }
}

#[tactic(auto, unfolding(crate::specs::Words::fault_words_lem))]
fn fault_words(fault: &Fault) -> &'static str
    ensures { result.now ≡ fault_words_lem fault.now }
{
    match fault {
        Fault::Template(flaw) => flaw_words(flaw),
        Fault::Unfit(_) => "the sheet's host refuses the template",
        Fault::NoSuchHole { .. } => "the template has no such hole",
        Fault::NotOwed { .. } => "the hole has a value already",
        Fault::ValueTooLong { .. } => "a value has at most 160 bytes",
        Fault::ByteTurnedAway { .. } => "this byte of the value cannot be written in the hole",
        Fault::AlreadyOwed { .. } => "the hole has no value to release",
        Fault::StillOwed { .. } => "this hole still has no value",
        Fault::StoredByteTurnedAway { .. } =>
            "this byte in the sheet cannot be written in the hole",
        Fault::OutputTooShort { .. } => "the output is too short; the place is the length needed",
        Fault::TextTooLong => "the text has more than 65534 bytes",
        Fault::TextRefused { .. } => "the host does not take this byte, or the end, here",
        Fault::FieldCutShort { .. } => "the input ends before the record does",
        Fault::UnknownTag { .. } => "the tag of a field is 1, 2 or 3",
        Fault::TagOutOfTurn { .. } => "a name comes before its value, and a value after its name",
        Fault::BadRecordName { .. } => "a name is 1 to 16 of a-z 0-9 _, a letter first",
        Fault::RecordValueTooLong { .. } => "a value has at most 160 bytes",
        Fault::TooManyNames { .. } => "a record has at most 64 names",
        Fault::NameTwice { .. } => "the record has this name already",
        Fault::EndWithLength { .. } => "the end of a record has length 0",
        Fault::NameMissing { .. } => "the record has no value of this hole's name",
    }
}

// By hand, and by no derive: what is written is promised, byte for byte.
impl fmt::Display for Fault {
    ghost output = { λ fault. Some (refusal_line fault) };

    fn fmt<W: fmt::Write>(&self, f: &mut fmt::Formatter<W>) -> fmt::Result {
        let number = self.number();
        let place = self.place();
        let words = fault_words(self);
        if let Some(hole) = self.hole() {
            return write!(f, "{number} hole {hole} place {place}: {words}");
        }
        if let Some(flaw) = self.carried() {
            let of = flaw.number();
            let at = flaw.place();
            return write!(
                f,
                "{number} place {place}: {words} (carries {of} place {at})"
            );
        }
        write!(f, "{number} place {place}: {words}")
    }
}

// A flaw is written as the fault that it comes to.
impl fmt::Display for Flaw {
    ghost output = { λ flaw. Some (fault_line (Template flaw)) };

    fn fmt<W: fmt::Write>(&self, f: &mut fmt::Formatter<W>) -> fmt::Result {
        Fault::Template(*self).fmt(f)
    }
}

impl Error for Fault {}

impl Error for Flaw {}
