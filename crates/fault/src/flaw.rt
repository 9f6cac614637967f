// What is wrong with a template under a host.
ghost use Rattle.std.specs.Prelude.{◌≡◌};
ghost use Rattle.fault.specs.Refusal.{flaw_of};

// The most bytes that a template may have.
pub const MAX_TEMPLATE: usize = 3584;

// The most bytes that the name of a hole, and of a value in a record, may have.
pub const MAX_NAME: usize = 16;

// Places count the template's bytes from 0.
#[derive(Clone, Copy, PartialEq, Debug)]
pub enum Flaw {
    // More than 3,584 bytes.
    TooLong,
    // An at-sign before a byte that means nothing there, or before the end; the place is the at-sign's.
    StrayAt { place: usize },
    // The first byte, or the end, that can neither continue a hole's name nor close it.
    BadName { place: usize },
    // The 65th hole.
    TooManyHoles { place: usize },
    // A literal that the host refuses.
    LiteralRefused { place: usize },
    // A hole in a context that takes none.
    HoleRefused { place: usize },
    // The host refuses the end; the place is the template's length.
    EndRefused { place: usize },
}

impl Flaw {
    // The number that people know the refusal by.
    pub fn number(&self) -> u8
        ensures { result ≡ (flaw_of self.now).number }
    {
        match self {
            Flaw::TooLong => 1,
            Flaw::StrayAt { .. } => 2,
            Flaw::BadName { .. } => 3,
            Flaw::TooManyHoles { .. } => 5,
            Flaw::LiteralRefused { .. } => 6,
            Flaw::HoleRefused { .. } => 7,
            Flaw::EndRefused { .. } => 8,
        }
    }

    // The place in the template.
    pub fn place(&self) -> usize
        ensures { result ≡ (flaw_of self.now).place }
    {
        match self {
            Flaw::TooLong => MAX_TEMPLATE,
            Flaw::StrayAt { place } => *place,
            Flaw::BadName { place } => *place,
            Flaw::TooManyHoles { place } => *place,
            Flaw::LiteralRefused { place } => *place,
            Flaw::HoleRefused { place } => *place,
            Flaw::EndRefused { place } => *place,
        }
    }
}
