// A script: a template, and calls on a filling of it with the answers that the rules give them.
use crate::answer::Answer;
use casework::shown::Quoted;
use casework::under::Under;
use std::fmt;

// A script is a table of calls, so the calls are data.
#[derive(Clone, Copy)]
pub enum Call {
    // Binds a value to a hole.
    Bind(usize, &'static [u8]),
    // Binds a value to each of the holes from one number to below another, up to the first refusal.
    BindEach(usize, usize, &'static [u8]),
    // Binds a value to a hole by the survey of some template under some host.
    BindBy(Under, &'static [u8], usize, &'static [u8]),
    Release(usize),
    // Asks how many holes are owed, and which is the lowest.
    CountOwed,
    // Asks whether the filling can be finished.
    Judge,
    // Reads the value in a row of the sheet.
    Look(usize),
    Clear,
    // Opens a filling of another template on the sheet, and binds a value to its hole 0.
    Refill(&'static [u8], &'static [u8]),
    // Prints the finished filling into an output of so many bytes.
    Print(usize),
    // The same without asking whether the sheet's host accepts the template.
    PrintSurveyed(usize),
}

// A call with the sheet of a host, and its answer.
#[derive(Clone, Copy)]
pub struct Step(pub Under, pub Call, pub Answer<'static>);

#[derive(Clone, Copy)]
pub struct Script {
    pub name: &'static str,
    // The host that checks the template, and on whose sheet the filling is opened.
    pub under: Under,
    pub template: &'static [u8],
    pub filling: &'static [Step],
    // The steps after `finish`. Where there are none, the filling is not finished.
    pub finished: &'static [Step],
}

impl fmt::Display for Step {
    fn fmt<W: fmt::Write>(&self, f: &mut fmt::Formatter<W>) -> fmt::Result {
        let Step(under, call, _) = self;
        write!(f, "{under}: {call}")
    }
}

impl fmt::Display for Call {
    fn fmt<W: fmt::Write>(&self, f: &mut fmt::Formatter<W>) -> fmt::Result {
        match self {
            Call::Bind(hole, value) => write!(f, "bind {hole} {}", Quoted(*value)),
            Call::BindEach(from, to, value) => {
                write!(f, "bind {from} to below {to} {}", Quoted(*value))
            }
            Call::BindBy(under, template, hole, value) => {
                write!(
                    f,
                    "bind {hole} {} surveyed as {under} {}",
                    Quoted(*value),
                    Quoted(*template)
                )
            }
            Call::Release(hole) => write!(f, "release {hole}"),
            Call::CountOwed => write!(f, "owed"),
            Call::Judge => write!(f, "judge_finish"),
            Call::Look(hole) => write!(f, "value {hole}"),
            Call::Clear => write!(f, "clear"),
            Call::Refill(template, value) => {
                write!(f, "open {}, bind 0 {}", Quoted(*template), Quoted(*value))
            }
            Call::Print(room) => write!(f, "print into {room} bytes"),
            Call::PrintSurveyed(room) => write!(f, "print_surveyed into {room} bytes"),
        }
    }
}
