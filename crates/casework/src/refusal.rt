// Refusals as people know them.
ghost use Rattle.std.specs.Prelude.{◌≡◌, Some};
ghost use Rattle.fault.specs.Refusal.{refusal_of};
ghost use Rattle.casework.specs.Meant.{meant, refusal_text};

use fault::Fault;
use std::fmt;

// A refusal, by the numbers that people know it by: they are what a case expects, so they stand here as numbers.
#[derive(Clone, Copy, PartialEq, Debug)]
pub enum Refusal {
    // One that names a hole: the number, the hole and the place.
    OfHole(u8, usize, usize),
    // One that carries another: the number and the place, and those of the other.
    Carrying(u8, usize, u8, usize),
    // Any other: the number and the place.
    Plain(u8, usize),
}

impl From<Fault> for Refusal {
    ghost from_gives = { λ fault refusal. meant refusal ≡ refusal_of fault };

    fn from(fault: Fault) -> Refusal {
        let number = fault.number();
        let place = fault.place();
        match (fault.hole(), fault.carried()) {
            (Some(hole), _) => Refusal::OfHole(number, hole, place),
            (None, Some(flaw)) => Refusal::Carrying(number, place, flaw.number(), flaw.place()),
            (None, None) => Refusal::Plain(number, place),
        }
    }
}

impl fmt::Display for Refusal {
    ghost output = { λ refusal. Some (refusal_text refusal) };

    fn fmt<W: fmt::Write>(&self, f: &mut fmt::Formatter<W>) -> fmt::Result {
        match self {
            Refusal::OfHole(number, hole, place) => write!(f, "{number} hole {hole} place {place}"),
            Refusal::Carrying(number, place, of, at) => {
                write!(f, "{number} place {place}, carries {of} place {at}")
            }
            Refusal::Plain(number, place) => write!(f, "{number} place {place}"),
        }
    }
}
