// Why a call that asks for memory did not do what it was asked.
ghost use Rattle.std.specs.Prelude.{◌≡◌};
ghost use Rattle.fault.specs.declared.failure.Failure.TheVariants.{Refused, NoMemory};

use crate::fault::Fault;
use crate::flaw::Flaw;
use std::alloc::{AllocError, AllocFailed};

// Refused for a reason of its own, a fault or a flaw, or for want of memory.
#[derive(Clone, Copy, PartialEq, Debug)]
pub enum Failure<E> {
    Refused(E),
    NoMemory,
}

// One impl for every reason would overlap with that of `AllocError`.
impl From<Fault> for Failure<Fault> {
    ghost from_gives = { λ fault failure. failure ≡ Refused fault };

    fn from(fault: Fault) -> Failure<Fault> {
        Failure::Refused(fault)
    }
}

impl From<Flaw> for Failure<Flaw> {
    ghost from_gives = { λ flaw failure. failure ≡ Refused flaw };

    fn from(flaw: Flaw) -> Failure<Flaw> {
        Failure::Refused(flaw)
    }
}

impl<E> From<AllocError> for Failure<E> {
    ghost from_gives = { λ _ failure. failure ≡ NoMemory };

    fn from(_: AllocError) -> Failure<E> {
        Failure::NoMemory
    }
}

impl<E, T: Drop> From<AllocFailed<T>> for Failure<E> {
    ghost from_gives = { λ _ failure. failure ≡ NoMemory };

    fn from(_: AllocFailed<T>) -> Failure<E> {
        Failure::NoMemory
    }
}
