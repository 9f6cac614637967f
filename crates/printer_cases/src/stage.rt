// Plays a script: makes its calls, and compares the answers.
use crate::answer::{Answer, DONE};
use crate::script::{Call, Script, Step};
use anyhow::{Context, bail};
use casework::refusal::Refusal;
use casework::shown::Quoted;
use casework::tally::Tally;
use casework::under::Under;
use fault::Fault;
use printer::filling::Filling;
use printer::finished::Finished;
use printer::open::open;
use printer::sheet::Sheet;
use template::check::{check, survey};
use template::raw::Raw;

// What every byte of an output is before.
const UNTOUCHED: u8 = b'~';

// A sheet for each host.
#[derive(Drop)]
struct Sheets {
    shell: Sheet<Under>,
    sql: Sheet<Under>,
    csv: Sheet<Under>,
}

impl Sheets {
    fn new() -> Sheets {
        Sheets {
            shell: Sheet::new(Under::Shell),
            sql: Sheet::new(Under::Sql),
            csv: Sheet::new(Under::Csv),
        }
    }

    fn of(&mut self, under: Under) -> &mut Sheet<Under> {
        match under {
            Under::Shell => &mut self.shell,
            Under::Sql => &mut self.sql,
            Under::Csv => &mut self.csv,
        }
    }
}

fn bind_each(
    filling: &mut Filling<'_>,
    sheet: &mut Sheet<Under>,
    from: usize,
    to: usize,
    value: &[u8],
) -> Result<(), Fault> {
    for hole in from..to {
        filling.bind(sheet, hole, value)?;
    }
    Ok(())
}

// Fills another template on a sheet.
fn refill(sheet: &mut Sheet<Under>, template: &[u8], value: &[u8]) -> Result<(), Fault> {
    let checked = check(Raw::new(template), sheet.host())?;
    let mut filling = open(checked, sheet);
    filling.bind(sheet, 0, value)
}

// What comes of a call that needs no more than the sheet.
fn call_on_sheet<'s>(sheet: &'s mut Sheet<Under>, call: Call) -> anyhow::Result<Answer<'s>> {
    match call {
        Call::Look(hole) => Ok(Answer::Value(sheet.value(hole))),
        Call::Clear => {
            sheet.clear();
            Ok(DONE)
        }
        Call::Refill(template, value) => Ok(refill(sheet, template, value).into()),
        _ => bail!("a call stands in the wrong part of a script"),
    }
}

// What comes of a call while the template is being filled.
fn call_on_filling<'s>(
    sheet: &'s mut Sheet<Under>,
    filling: &mut Filling<'_>,
    call: Call,
) -> anyhow::Result<Answer<'s>> {
    Ok(match call {
        Call::Bind(hole, value) => filling.bind(sheet, hole, value).into(),
        Call::BindEach(from, to, value) => bind_each(filling, sheet, from, to, value).into(),
        Call::BindBy(under, template, hole, value) => {
            let survey = survey(template, &under)
                .ok()
                .context("the host refuses the template of a survey")?;
            filling.bind_surveyed(sheet, &survey, hole, value).into()
        }
        Call::Release(hole) => filling.release(sheet, hole).into(),
        Call::CountOwed => {
            let (count, lowest) = filling.owed();
            Answer::Owed(count, lowest)
        }
        Call::Judge => Answer::Judged(filling.judge_finish().map_err(Refusal::from)),
        _ => call_on_sheet(sheet, call)?,
    })
}

// What comes of a call once the filling is finished. An output is as long as the call says.
fn call_on_finished<'s>(
    sheet: &'s mut Sheet<Under>,
    finished: &Finished<'_>,
    output: &'s mut Vec<u8>,
    call: Call,
) -> anyhow::Result<Answer<'s>> {
    let printed = match call {
        Call::Print(room) => {
            output.resize(room, UNTOUCHED)?;
            finished.print(sheet, output.as_mut_slice())
        }
        Call::PrintSurveyed(room) => {
            output.resize(room, UNTOUCHED)?;
            finished.print_surveyed(sheet, output.as_mut_slice())
        }
        _ => return call_on_sheet(sheet, call),
    };
    Ok(Answer::Printed(printed.map_err(Refusal::from), output.as_slice()))
}

// Plays a script on three cleared sheets.
pub fn play(rt: &HostRuntime, tally: &mut Tally, script: &Script) -> anyhow::Result<()> {
    println!(rt; "{}: {}", script.name, Quoted(script.template))?;
    let mut sheets = Sheets::new();
    let checked = check(Raw::new(script.template), &script.under)
        .ok()
        .context("the host refuses the template of a script")?;
    let mut filling = open(checked, sheets.of(script.under));
    for step in script.filling {
        let Step(under, call, expected) = step;
        let came = call_on_filling(sheets.of(*under), &mut filling, *call)?;
        tally.compare(rt, step, &came, expected)?;
    }
    if script.finished.is_empty() {
        return Ok(());
    }
    if filling.judge_finish().is_err() {
        bail!("the filling of a script cannot be finished");
    }
    let finished = filling.finish();
    for step in script.finished {
        let Step(under, call, expected) = step;
        let mut output = Vec::new(rt.alloc());
        let came = call_on_finished(sheets.of(*under), &finished, &mut output, *call)?;
        tally.compare(rt, step, &came, expected)?;
    }
    Ok(())
}
