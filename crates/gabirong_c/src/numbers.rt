// The answers of the calls in plain numbers, as C reads them.
ghost use Rattle.std.specs.Prelude.{◌≡◌};
ghost use Rattle.fault.specs.Refusal.{refusal_of, told};
ghost use Rattle.template.specs.Checking.{checked_of};
ghost use Rattle.merge.specs.Answers.{merged_of};
ghost use Rattle.merge.specs.Many.{many_told};
ghost use Rattle.gabirong_c.specs.Numbers.{no_refusal, in_numbers, checked_in_numbers, listed_in_numbers, merged_in_numbers, merges_in_numbers};

use fault::Fault;

// A refusal: its number, 0 for none; the hole that it names, if it names one; its place; and what it carries of another
// refusal, with number 0 for nothing.
#[repr(C)]
#[derive(Clone, Copy, PartialEq, Debug)]
pub struct Refusal {
    pub number: u32,
    pub names_hole: bool,
    pub hole: usize,
    pub place: usize,
    pub carried: u32,
    pub carried_place: usize,
}

// What a check came to: the number of holes, 0 where it is refused.
#[repr(C)]
#[derive(Clone, Copy, PartialEq, Debug)]
pub struct Checked {
    pub refusal: Refusal,
    pub holes: usize,
}

// What a listing came to: its length, 0 where it is refused.
#[repr(C)]
#[derive(Clone, Copy, PartialEq, Debug)]
pub struct Listed {
    pub refusal: Refusal,
    pub len: usize,
}

// What a merge came to: whether there was a record, the place after it and the length of the text, both 0 where there was
// none or where it is refused.
#[repr(C)]
#[derive(Clone, Copy, PartialEq, Debug)]
pub struct Merged {
    pub refusal: Refusal,
    pub found: bool,
    pub next: usize,
    pub len: usize,
}

// What several merges came to: how many there were, the place after the last record, and the length of their texts. Beside a
// refusal they tell what was merged before it.
#[repr(C)]
#[derive(Clone, Copy, PartialEq, Debug)]
pub struct Merges {
    pub refusal: Refusal,
    pub count: usize,
    pub next: usize,
    pub len: usize,
}

impl Refusal {
    fn none() -> Refusal
        ensures { result ≡ no_refusal }
    {
        Refusal {
            number: 0,
            names_hole: false,
            hole: 0,
            place: 0,
            carried: 0,
            carried_place: 0,
        }
    }
}

impl From<Fault> for Refusal {
    ghost from_gives = { λ fault refusal. refusal ≡ in_numbers (refusal_of fault) };

    fn from(fault: Fault) -> Refusal {
        let hole = fault.hole();
        let (carried, carried_place) = match fault.carried() {
            Some(flaw) => (flaw.number(), flaw.place()),
            None => (0, 0),
        };
        Refusal {
            number: fault.number().into(),
            names_hole: hole.is_some(),
            hole: hole.unwrap_or(0),
            place: fault.place(),
            carried: carried.into(),
            carried_place,
        }
    }
}

impl From<Result<template::checked::Checked<'_>, Fault>> for Checked {
    ghost from_gives = { λ answer checked. checked ≡ checked_in_numbers (checked_of answer) };

    fn from(answer: Result<template::checked::Checked<'_>, Fault>) -> Checked {
        match answer {
            Ok(checked) => Checked {
                refusal: Refusal::none(),
                holes: checked.holes(),
            },
            Err(fault) => Checked {
                refusal: fault.into(),
                holes: 0,
            },
        }
    }
}

impl From<Result<usize, Fault>> for Listed {
    ghost from_gives = { λ answer listed. listed ≡ listed_in_numbers (told answer) };

    fn from(answer: Result<usize, Fault>) -> Listed {
        match answer {
            Ok(len) => Listed {
                refusal: Refusal::none(),
                len,
            },
            Err(fault) => Listed {
                refusal: fault.into(),
                len: 0,
            },
        }
    }
}

impl From<Result<Option<merge::merged::Merged>, Fault>> for Merged {
    ghost from_gives = { λ answer merged. merged ≡ merged_in_numbers (merged_of answer) };

    fn from(answer: Result<Option<merge::merged::Merged>, Fault>) -> Merged {
        match answer {
            Ok(Some(merged)) => Merged {
                refusal: Refusal::none(),
                found: true,
                next: merged.next,
                len: merged.len,
            },
            Ok(None) => Merged {
                refusal: Refusal::none(),
                found: false,
                next: 0,
                len: 0,
            },
            Err(fault) => Merged {
                refusal: fault.into(),
                found: false,
                next: 0,
                len: 0,
            },
        }
    }
}

impl From<merge::merged::Merges> for Merges {
    ghost from_gives = { λ answer merges. merges ≡ merges_in_numbers (many_told answer) };

    fn from(answer: merge::merged::Merges) -> Merges {
        let refusal = match answer.refusal {
            Some(fault) => fault.into(),
            None => Refusal::none(),
        };
        Merges {
            refusal,
            count: answer.count,
            next: answer.next,
            len: answer.len,
        }
    }
}
