// The program: it reads files, calls the libraries and prints what they answer.
#![tactic(auto)]

mod check;
mod command;
mod filling;
mod input;
mod kinds;
mod lines;
mod listing;
mod merging;
mod pack;
mod records;
mod shown;
mod stop;
mod working;

use check::check_template;
use command::{Action, HostName, Job};
use csv_host::Csv;
use filling::{fill_quietly, fill_template};
use host::Host;
use kinds::Kinds;
use listing::{list_raw, list_text};
use merging::{merge_all, merge_one};
use pack::pack;
use records::tell_records;
use shell::Shell;
use sql::Sql;
use std::env;
use std::process::ExitCode;
use stop::Stop;
use working::work_through;

// Does what the words of the command line ask for.
fn run<'a>(rt: &HostRuntime, words: &'a [String]) -> Result<(), Stop<'a>> {
    match Job::try_from(words)? {
        Job::Hosted { host, action } => match host {
            HostName::Shell => perform(rt, Shell, action),
            HostName::Sql => perform(rt, Sql, action),
            HostName::Csv => perform(rt, Csv, action),
        },
        Job::Records { file } => tell_records(rt, file),
        Job::Pack { file } => pack(rt, file),
    }
}

fn perform<'a, H: Kinds + Drop>(
    rt: &HostRuntime,
    host: H,
    action: Action<'a>,
) -> Result<(), Stop<'a>> {
    match action {
        Action::Check { template } => check_template(rt, &host, template),
        Action::List { text } => list_text(rt, &host, text),
        Action::ListRaw { text } => list_raw(rt, &host, text),
        Action::Fill { template, pairs } => fill_template(rt, host, template, pairs),
        Action::FillQuietly { template, pairs } => fill_quietly(rt, host, template, pairs),
        Action::Merge { template, records } => merge_all(rt, host, template, records),
        Action::MergeAt {
            place,
            template,
            records,
        } => merge_one(rt, host, template, records, place),
        Action::Work { template, list } => work_through(rt, host, template, list),
    }
}

fn words(rt: &HostRuntime) -> Result<Vec<String>, Stop<'static>> {
    Ok(env::args(rt)?.skip(1).collect(rt.alloc())?)
}

// Where a command is not done, the status is 1, and standard error has the reason.
fn main(rt: HostRuntime) -> ExitCode {
    let words = match words(&rt) {
        Ok(words) => words,
        Err(stop) => return tell(&rt, &stop),
    };
    match run(&rt, words.as_slice()) {
        Ok(()) => ExitCode::SUCCESS,
        Err(stop) => tell(&rt, &stop),
    }
}

fn tell(rt: &HostRuntime, stop: &Stop<'_>) -> ExitCode {
    if !matches!(stop, Stop::Told) {
        let _ = eprintln!(rt; "{stop}");
    }
    ExitCode::FAILURE
}
