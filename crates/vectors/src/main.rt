// Runs the vectors of each host: texts with their tokens, worked out by hand from the standards, in data/.
#![tactic(auto)]

mod line;
mod vector;

use casework::tally::Tally;
use casework::under::Under;
use line::{Line, Unread};
use std::alloc::AllocError;
use std::fs;
use vector::Vector;

// Runs a vector, and prints whether it came out as expected. One without a name is none.
fn settle(
    rt: &HostRuntime,
    tally: &mut Tally,
    under: Under,
    vector: &Vector,
) -> anyhow::Result<()> {
    if vector.name.is_empty() {
        return Ok(());
    }
    let right = vector.comes_true(rt.alloc(), under)?;
    let name = vector.name.as_str();
    tally.tell(rt, format_args!("{under}: {name}"), right)?;
    Ok(())
}

// Runs the vectors of a host's file.
fn run_file(rt: &HostRuntime, tally: &mut Tally, under: Under) -> anyhow::Result<()> {
    let heap = rt.alloc();
    let file = format!(in heap; "{under}.txt")?;
    let text = fs::read_to_string(rt, file.as_str())?;
    let mut begun = None;
    for line in text.lines() {
        match (Line::read(heap, line), &mut begun) {
            // What is said before any name is passed over.
            (Ok(None), _) | (Ok(Some(Line::Part(_))), None) => {}
            (Ok(Some(Line::Name(name))), _) => {
                if let Some(vector) = begun.replace(Vector::new(heap, name)) {
                    settle(rt, tally, under, &vector)?;
                }
            }
            (Ok(Some(Line::Part(part))), Some(vector)) => vector.add(&part)?,
            (Err(Unread::OutOfMemory), _) => return Err(AllocError.into()),
            (Err(Unread::Bad), _) => {
                tally.flag(rt, format_args!("{under}: no line of a vector: {line}"))?;
            }
        }
    }
    if let Some(vector) = begun {
        settle(rt, tally, under, &vector)?;
    }
    Ok(())
}

fn main(rt: HostRuntime) -> anyhow::Result<()> {
    let mut tally = Tally::new();
    for under in [Under::Shell, Under::Sql, Under::Csv] {
        run_file(&rt, &mut tally, under)?;
    }
    tally.finish(&rt, "vectors", "a vector came out otherwise")
}
