// The lines of a work list, and the answers to them.
ghost use Rattle.std.specs.Prelude.{◌≡◌};
ghost use Rattle.printer.specs.Calls.{refusal_in};
ghost use Rattle.worklist.specs.Calls.{reply_of};
ghost use Rattle.worklist.specs.Lines.{reply};

use fault::Fault;

#[derive(Clone, Copy, PartialEq, Debug)]
pub enum Line<'v> {
    Bind { hole: usize, value: &'v [u8] },
    Release { hole: usize },
    // How many holes are owed, and which is the lowest.
    Owed,
}

#[derive(Clone, Copy, PartialEq, Debug)]
pub enum Answer {
    Taken,
    Refused(Fault),
    Owed { count: usize, lowest: Option<usize> },
}

// What a bind or a release was told.
impl From<Result<(), Fault>> for Answer {
    ghost from_gives = { λ told answer. reply_of answer ≡ reply (refusal_in told) };

    fn from(told: Result<(), Fault>) -> Answer {
        match told {
            Ok(()) => Answer::Taken,
            Err(fault) => Answer::Refused(fault),
        }
    }
}
