// Templates under each host with the verdicts that the rules give them, worked out by hand.
#![tactic(auto)]

mod cases;

use cases::{CSV_CASES, Case, Holes, SHELL_CASES, SQL_CASES};
use casework::refusal::Refusal;
use casework::tally::Tally;
use fault::Fault;
use template::check::{check, survey};
use template::raw::Raw;

// Whether `check` and `survey` say of a case's template what is expected.
fn stands(case: &Case, template: &[u8]) -> bool {
    let checked = check(Raw::new(template), &case.under);
    let surveyed = survey(template, &case.under);
    match (case.verdict, checked, surveyed) {
        (Ok(Holes { count, body }), Ok(checked), Ok(survey)) => {
            let bodies = survey.bodies();
            checked.holes() == count
                && bodies.len() == count
                && bodies.iter().all(|found| *found == body)
        }
        (Err(refusal), Err(fault), Err(flaw)) => {
            Refusal::from(fault) == refusal && Refusal::from(Fault::from(flaw)) == refusal
        }
        _ => false,
    }
}

fn main(rt: HostRuntime) -> anyhow::Result<()> {
    let mut tally = Tally::new();
    for case in SQL_CASES.iter().chain(&SHELL_CASES).chain(&CSV_CASES) {
        let mut template = case.row.repeat(rt.alloc(), case.times)?;
        template.extend_from_slice(case.rest)?;
        tally.tell(&rt, case.name, stands(case, template.as_slice()))?;
    }
    tally.finish(&rt, "cases", "a verdict is wrong")
}
