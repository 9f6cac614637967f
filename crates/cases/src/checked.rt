// Templates that are checked.
use crate::answer::Answer;
use casework::shown::Quoted;
use casework::tally::Tally;
use casework::under::Under;
use fault::{Fault, Flaw};
use std::fmt;
use template::check::check;
use template::raw::Raw;

// The template is a row of bytes, so many times.
#[derive(Clone, Copy)]
struct Check {
    under: Under,
    row: &'static [u8],
    times: usize,
    expected: Answer<'static>,
}

impl fmt::Display for Check {
    fn fmt<W: fmt::Write>(&self, f: &mut fmt::Formatter<W>) -> fmt::Result {
        write!(f, "{} {}", self.under, Quoted(self.row))?;
        match self.times {
            1 => Ok(()),
            times => write!(f, " {times} times"),
        }
    }
}

static CHECKS: [Check; 9] = [
    Check {
        under: Under::Shell,
        row: b"",
        times: 1,
        expected: Answer::Checked(Ok(0)),
    },
    Check {
        under: Under::Sql,
        row: b"",
        times: 1,
        expected: Answer::Checked(Ok(0)),
    },
    Check {
        under: Under::Csv,
        row: b"",
        times: 1,
        expected: Answer::Checked(Ok(0)),
    },
    Check {
        under: Under::Shell,
        row: b"a",
        times: 3584,
        expected: Answer::Checked(Ok(0)),
    },
    Check {
        under: Under::Shell,
        row: b"a",
        times: 3585,
        expected: Answer::Checked(Err(Fault::Template(Flaw::TooLong))),
    },
    Check {
        under: Under::Shell,
        row: b"@{a}",
        times: 64,
        expected: Answer::Checked(Ok(64)),
    },
    Check {
        under: Under::Shell,
        row: b"@{a}",
        times: 65,
        expected: Answer::Checked(Err(Fault::Template(Flaw::TooManyHoles { place: 256 }))),
    },
    Check {
        under: Under::Sql,
        row: b"@{a}@{b}",
        times: 1,
        expected: Answer::Checked(Err(Fault::Template(Flaw::HoleRefused { place: 4 }))),
    },
    Check {
        under: Under::Csv,
        row: b"@{v}a",
        times: 1,
        expected: Answer::Checked(Err(Fault::Template(Flaw::LiteralRefused { place: 4 }))),
    },
];

pub fn run_checked(rt: &HostRuntime, tally: &mut Tally) -> anyhow::Result<()> {
    for case in &CHECKS {
        let template = case.row.repeat(rt.alloc(), case.times)?;
        let checked = check(Raw::new(template.as_slice()), &case.under);
        let came = Answer::Checked(checked.map(|checked| checked.holes()));
        tally.compare(rt, case, &came, &case.expected)?;
    }
    Ok(())
}
