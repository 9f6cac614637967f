// Records with the answers that the rules give them, worked out by hand.
#![tactic(auto)]

mod answer;
mod built;
mod cases;
mod looked_up;
mod written;

use answer::read_at;
use built::run_built;
use cases::CASES;
use casework::tally::Tally;
use looked_up::run_looked_up;
use written::run_written;

fn main(rt: HostRuntime) -> anyhow::Result<()> {
    let mut tally = Tally::new();
    for case in &CASES {
        let right = read_at(case.input, case.place) == case.expected;
        tally.tell(&rt, case.name, right)?;
    }
    run_built(&rt, &mut tally)?;
    run_looked_up(&rt, &mut tally)?;
    run_written(&rt, &mut tally)?;
    tally.finish(&rt, "cases", "a record came out otherwise")
}
