// The kinds of tokens, which each host numbers from 1.
ghost use Rattle.std.specs.Prelude.{◌++◌, Some, codes, decimal};

use std::error::Error;
use std::fmt;

// A number that no kind of the host's tokens has.
#[derive(Clone, Copy, PartialEq, Debug)]
pub struct UnknownKind(pub u8);

impl fmt::Display for UnknownKind {
    ghost output = { λ unknown. Some (codes "no kind of token has the number " ++ decimal unknown.0) };

    fn fmt<W: fmt::Write>(&self, f: &mut fmt::Formatter<W>) -> fmt::Result {
        write!(f, "no kind of token has the number {}", self.0)
    }
}

impl Error for UnknownKind {}
