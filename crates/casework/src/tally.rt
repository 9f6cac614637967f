// How cases are told and counted.
ghost use Rattle.std.specs.Prelude.{◌≡◌, OnOk, false};
ghost use Rattle.casework.specs.Counting.{counted, flagged, none_run};

use anyhow::ensure;
use std::{fmt, io};

// How many cases were run, and what came out otherwise than expected.
#[derive(Debug, Drop)]
pub struct Tally {
    run: u64,
    wrong: u64,
}

impl Tally {
    // Before the first case.
    pub fn new() -> Tally
        ensures { result ≡ none_run }
    {
        Tally { run: 0, wrong: 0 }
    }

    // Prints whether a case came out as expected, and counts it.
    // `right` says what came of the case; it picks no behaviour of the caller's.
    pub fn tell(
        &mut self,
        rt: &impl Print,
        case: impl fmt::Display + Drop,
        right: bool,
    ) -> io::Result<()>
        ensures { self.new ≡ counted right self.old }
    {
        self.run = self.run.saturating_add(1);
        if right {
            println!(rt; "as expected: {case}")
        } else {
            self.flag(rt, case)
        }
    }

    // Prints what came of a case and whether that was expected, and counts it.
    pub fn compare<A: PartialEq + fmt::Display>(
        &mut self,
        rt: &impl Print,
        case: impl fmt::Display + Drop,
        came: &A,
        expected: &A,
    ) -> io::Result<()>
        ensures { self.new ≡ counted (A.eq came.now expected.now) self.old }
    {
        if came == expected {
            self.tell(rt, format_args!("{case}: {came}"), true)
        } else {
            self.tell(rt, format_args!("{case}: {came}, not {expected}"), false)
        }
    }

    // Prints what is wrong beside the cases, and counts it as wrong alone.
    pub fn flag(&mut self, rt: &impl Print, what: impl fmt::Display + Drop) -> io::Result<()>
        ensures { self.new ≡ flagged self.old }
    {
        self.wrong = self.wrong.saturating_add(1);
        println!(rt; "WRONG: {what}")
    }

    // Prints how many cases were run, under the name that they go by, and how many came out otherwise: an error of
    // these words if any did.
    pub fn finish(self, rt: &impl Print, cases: &str, otherwise: &str) -> anyhow::Result<()>
        ensures { OnOk result (self.wrong ≡ 0) }
    {
        let Tally { run, wrong } = self;
        println!(rt; "{run} {cases}, {wrong} wrong")?;
        ensure!(wrong == 0, "{otherwise}");
        Ok(())
    }
}
