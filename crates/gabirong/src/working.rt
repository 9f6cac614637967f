// The command `work`: a list of lines that fill a template.
use crate::input::read_both;
use crate::lines::{Unread, unescaped};
use crate::shown::Count;
use crate::stop::Stop;
use anyhow::anyhow;
use fault::{Failure, Fault};
use host::Host;
use printer::sheet::Sheet;
use std::alloc::Global;
use std::fmt;
use std::io::Write;
use template::raw::Raw;
use worklist::line::{Answer, Line};
use worklist::work::work;

// The most bytes that a text has.
pub const MAX_TEXT: usize = 65_280;

const FORM: &str = "'bind K VALUE', 'release K' or 'owed'";

// A line of a list as it is read, with a value of its own.
#[derive(Drop)]
enum OwnedLine {
    Bind { hole: usize, value: Vec<u8> },
    Release { hole: usize },
    Owed,
}

impl OwnedLine {
    fn parse(heap: Global, line: &str) -> Result<OwnedLine, Unread> {
        if line == "owed" {
            return Ok(OwnedLine::Owed);
        }
        match line.split_once(' ').ok_or(Unread::Malformed)? {
            ("release", hole) => {
                let hole = hole.parse::<usize>()?;
                Ok(OwnedLine::Release { hole })
            }
            // The value goes up to the end of the line, and may be empty.
            ("bind", rest) => {
                let (hole, value) = rest.split_once(' ').unwrap_or((rest, ""));
                let hole = hole.parse::<usize>()?;
                let value = unescaped(heap, value)?;
                Ok(OwnedLine::Bind { hole, value })
            }
            _ => Err(Unread::Malformed),
        }
    }
}

impl<'v> From<&'v OwnedLine> for Line<'v> {
    fn from(line: &'v OwnedLine) -> Line<'v> {
        match line {
            OwnedLine::Bind { hole, value } => Line::Bind {
                hole: *hole,
                value: value.as_slice(),
            },
            OwnedLine::Release { hole } => Line::Release { hole: *hole },
            OwnedLine::Owed => Line::Owed,
        }
    }
}

// What came of a list: the answers of its lines, the number of holes that the finish told, and the text.
#[derive(Drop)]
pub struct Done {
    pub answers: Vec<Answer>,
    pub finish: Result<usize, Fault>,
    pub text: Result<Vec<u8>, Fault>,
}

// An answer as words.
#[derive(Clone, Copy)]
pub struct Told<'a>(pub &'a Answer);

impl fmt::Display for Told<'_> {
    fn fmt<W: fmt::Write>(&self, f: &mut fmt::Formatter<W>) -> fmt::Result {
        match self.0 {
            Answer::Taken => write!(f, "taken"),
            Answer::Refused(fault) => write!(f, "refused {fault}"),
            Answer::Owed {
                count,
                lowest: Some(lowest),
            } => write!(f, "owed {count} lowest {lowest}"),
            Answer::Owed {
                count,
                lowest: None,
            } => write!(f, "owed {count}"),
        }
    }
}

// Goes down the lines of a file, and prints the answer of each, then the text.
pub fn work_through<'a, H: Host + Drop>(
    rt: &HostRuntime,
    host: H,
    template: &'a str,
    list: &'a str,
) -> Result<(), Stop<'a>> {
    let (template, list) = read_both(rt, template, list)?;
    let lines = parse_list(rt.alloc(), list.as_slice())?;
    let lines: Vec<Line<'_>> = lines.iter().map(Line::from).collect(rt.alloc())?;
    let done = go_down(rt.alloc(), host, template, lines.as_slice())?;
    for answer in done.answers.as_slice() {
        println!(rt; "{}", Told(answer))?;
    }
    tell_end(rt, done)
}

// The lines of a list.
fn parse_list(heap: Global, list: &[u8]) -> Result<Vec<OwnedLine>, Stop<'static>> {
    let text = std::str::from_utf8(list).map_err(|_| Stop::NoText("the list"))?;
    (1usize..)
        .zip(text.lines())
        .map(|(number, line)| OwnedLine::parse(heap, line).map_err(|unread| unread.at(
            number, FORM,
        )))
        .try_collect(heap)
}

// Goes down the lines on a sheet of their own.
pub fn go_down<H: Host + Drop>(
    heap: Global,
    host: H,
    template: Vec<u8>,
    lines: &[Line<'_>],
) -> Result<Done, Stop<'static>> {
    let mut answers = Vec::new(heap);
    let mut out = vec![in heap; 0; MAX_TEXT]?;
    let worked = work(
        Raw::new(template.as_slice()),
        &mut Sheet::new(host),
        lines,
        &mut answers,
        out.as_mut_slice(),
    );
    let worked = worked.map_err(|failure| match failure {
        Failure::Refused(fault) => Stop::TextRefused(fault, template),
        Failure::NoMemory => Stop::Failed(anyhow!("no memory for the answers")),
    })?;
    // Where there is no print, the finish is refused.
    let text = worked.print.unwrap_or(worked.finish).map(|len| {
        out.truncate(len);
        out
    });
    Ok(Done {
        answers,
        finish: worked.finish,
        text,
    })
}

// What finish and print said, and the text.
pub fn tell_end(rt: &HostRuntime, done: Done) -> Result<(), Stop<'static>> {
    let holes = taken(rt, "finish", done.finish)?;
    println!(rt; "finish: {}", Count(holes, "hole"))?;
    let text = taken(rt, "print", done.text)?;
    println!(rt; "print: {} bytes", text.len())?;
    rt.stdout().write_all(text.as_slice())?;
    Ok(())
}

// What a step came to; a line says that it is refused.
fn taken<T: Drop>(
    rt: &HostRuntime,
    step: &str,
    told: Result<T, Fault>,
) -> Result<T, Stop<'static>> {
    if told.is_err() {
        println!(rt; "{step}: refused")?;
    }
    told.map_err(|fault| Stop::Refused(fault))
}
