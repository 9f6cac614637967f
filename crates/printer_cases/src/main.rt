// Fillings of templates under the three hosts, with the answers that the rules give them, worked out by hand.
#![tactic(auto)]

mod answer;
mod binding;
mod crossing;
mod limits;
mod printing;
mod script;
mod spelling;
mod stage;

use binding::BINDING;
use casework::tally::Tally;
use crossing::CROSSING;
use limits::LIMITS;
use printing::PRINTING;
use spelling::SPELLING;
use stage::play;

fn main(rt: HostRuntime) -> anyhow::Result<()> {
    let mut tally = Tally::new();
    let scripts = BINDING
        .iter()
        .chain(&LIMITS)
        .chain(&SPELLING)
        .chain(&PRINTING)
        .chain(&CROSSING);
    for script in scripts {
        play(&rt, &mut tally, script)?;
    }
    tally.finish(&rt, "cases", "a call answered otherwise")
}
