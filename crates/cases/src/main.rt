// Cases of the rules that take a template all the way, from its check to its text, with answers worked out by hand. The
// same cases, where they are small, are a theorem about the definitions: see `promise`.
#![tactic(auto)]

mod answer;
mod checked;
mod filled;
mod inputs;
mod listed;
mod merged;
mod merging;
mod promise;
mod unmerged;

use casework::tally::Tally;
use checked::run_checked;
use filled::run_filled;
use listed::run_listed;
use merging::run_merging;

fn main(rt: HostRuntime) -> anyhow::Result<()> {
    let mut tally = Tally::new();
    run_checked(&rt, &mut tally)?;
    run_filled(&rt, &mut tally)?;
    run_listed(&rt, &mut tally)?;
    run_merging(&rt, &mut tally)?;
    tally.finish(&rt, "cases", "a case came out otherwise")
}
