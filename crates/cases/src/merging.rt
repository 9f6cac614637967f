// A record of an input that is merged into a template.
use crate::answer::{Answer, UNTOUCHED};
use crate::merged::MERGED;
use crate::unmerged::UNMERGED;
use casework::shown::Quoted;
use casework::tally::Tally;
use casework::under::Under;
use fault::Fault;
use merge::merge;
use printer::open::open;
use printer::sheet::Sheet;
use std::fmt;
use template::check::check;
use template::raw::Raw;
use template::survey::MAX_HOLES;

// The record at a place of the input is merged into the template, into an output of so many bytes.
#[derive(Clone, Copy)]
pub struct Merging {
    pub name: &'static str,
    pub under: Under,
    pub template: &'static [u8],
    pub input: &'static [u8],
    pub place: usize,
    pub room: usize,
    pub expected: Answer<'static>,
}

impl fmt::Display for Merging {
    fn fmt<W: fmt::Write>(&self, f: &mut fmt::Formatter<W>) -> fmt::Result {
        let template = Quoted(self.template);
        write!(f, "{}: {} {template}", self.name, self.under)?;
        write!(f, " at {} into {} bytes", self.place, self.room)
    }
}

// A sheet has a row for each hole that a template can have.
fn is_cleared(sheet: &Sheet<Under>) -> bool {
    (0..MAX_HOLES).all(|hole| sheet.value(hole).is_empty())
}

// Leaves a value on a sheet, so that it is seen whether a merge clears it.
fn soil(sheet: &mut Sheet<Under>) -> Result<(), Fault> {
    let checked = check(Raw::new(b"@{a}"), sheet.host())?;
    let mut filling = open(checked, sheet);
    filling.bind(sheet, 0, b"left")
}

fn merge_case<'a>(case: &Merging, output: &'a mut [u8]) -> Answer<'a> {
    let mut sheet = Sheet::new(case.under);
    if let Err(fault) = soil(&mut sheet) {
        return Answer::Checked(Err(fault));
    }
    let template = Raw::new(case.template);
    let merged = merge(template, &mut sheet, case.input, case.place, output);
    if is_cleared(&sheet) {
        Answer::Merged(merged, output)
    } else {
        Answer::SheetLeft
    }
}

pub fn run_merging(rt: &HostRuntime, tally: &mut Tally) -> anyhow::Result<()> {
    for case in MERGED.iter().chain(&UNMERGED) {
        let mut output = vec![in rt.alloc(); UNTOUCHED; case.room]?;
        let came = merge_case(case, output.as_mut_slice());
        tally.compare(rt, case, &came, &case.expected)?;
    }
    Ok(())
}
