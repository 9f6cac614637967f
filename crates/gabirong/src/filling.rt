// The command `fill`: values by name, filled into a template.
use crate::check::{accepted, holes_of};
use crate::input::read_whole;
use crate::shown::Word;
use crate::stop::Stop;
use crate::working::{Done, Told, go_down, tell_end};
use host::Host;
use outline::visits;
use std::alloc::Global;
use std::io::Write;
use template::item::Hole;
use worklist::line::{Answer, Line};

// A value for a hole, with the hole's name.
#[derive(Clone, Copy)]
struct Bind<'a> {
    hole: usize,
    name: &'a str,
    value: &'a str,
}

impl<'a> From<&Bind<'a>> for Line<'a> {
    fn from(bind: &Bind<'a>) -> Line<'a> {
        Line::Bind {
            hole: bind.hole,
            value: bind.value.as_bytes(),
        }
    }
}

// Binds each value to the holes of its name, in the order given, tells what came of it, and prints the text.
pub fn fill_template<'a, H: Host + Drop>(
    rt: &HostRuntime,
    host: H,
    path: &'a str,
    pairs: &'a [String],
) -> Result<(), Stop<'a>> {
    let (file, binds) = read_bound(rt, &host, path, pairs)?;
    println!(rt; "read {}: {} bytes", Word(path), file.len())?;
    let done = fill(rt.alloc(), host, file, binds.as_slice())?;
    for (bind, answer) in binds.iter().zip(done.answers.as_slice()) {
        println!(rt; "bind {} {}: {}", bind.hole, bind.name, Told(answer))?;
    }
    tell_end(rt, done)
}

// The same, with the text alone printed; binds that are refused are told on standard error.
pub fn fill_quietly<'a, H: Host + Drop>(
    rt: &HostRuntime,
    host: H,
    path: &'a str,
    pairs: &'a [String],
) -> Result<(), Stop<'a>> {
    let (file, binds) = read_bound(rt, &host, path, pairs)?;
    let done = fill(rt.alloc(), host, file, binds.as_slice())?;
    for answer in done.answers.as_slice() {
        if let Answer::Refused(fault) = answer {
            eprintln!(rt; "refused {fault}")?;
        }
    }
    rt.stdout().write_all(done.text?.as_slice())?;
    Ok(())
}

// A template that is accepted, and the binds of the pairs.
fn read_bound<'a, H: Host>(
    rt: &HostRuntime,
    host: &H,
    path: &'a str,
    pairs: &'a [String],
) -> Result<(Vec<u8>, Vec<Bind<'a>>), Stop<'a>> {
    let (file, _) = accepted(host, read_whole(rt, path)?)?;
    let binds = binds_of(rt.alloc(), host, file.as_slice(), pairs)?;
    Ok((file, binds))
}

fn fill<H: Host + Drop>(
    heap: Global,
    host: H,
    template: Vec<u8>,
    binds: &[Bind<'_>],
) -> Result<Done, Stop<'static>> {
    let lines: Vec<Line<'_>> = binds.iter().map(Line::from).collect(heap)?;
    go_down(heap, host, template, lines.as_slice())
}

// A bind for each pair and each hole of its name. Each pair is a `NAME=VALUE` with a name that some hole has, and no
// earlier pair.
fn binds_of<'a, H: Host>(
    heap: Global,
    host: &H,
    template: &[u8],
    pairs: &'a [String],
) -> Result<Vec<Bind<'a>>, Stop<'a>> {
    let visits = visits(heap, template, host)?;
    let holes = holes_of(heap, visits.as_slice())?;
    let mut binds = Vec::new(heap);
    for (number, pair) in (1usize..).zip(pairs) {
        let (name, value) = pair.as_str().split_once('=').ok_or(Stop::NoPair(number))?;
        add_binds(&mut binds, holes.as_slice(), name, value)?;
    }
    Ok(binds)
}

fn add_binds<'a>(
    binds: &mut Vec<Bind<'a>>,
    holes: &[Hole<'_>],
    name: &'a str,
    value: &'a str,
) -> Result<(), Stop<'a>> {
    if binds.iter().any(|bind| bind.name == name) {
        return Err(Stop::GivenTwice(name));
    }
    if !holes.iter().any(|hole| hole.name == name.as_bytes()) {
        return Err(Stop::NoHoleNamed(name));
    }
    let named = holes
        .iter()
        .enumerate()
        .filter(|(_, hole)| hole.name == name.as_bytes());
    binds.extend(named.map(|(hole, _)| Bind { hole, name, value }))?;
    Ok(())
}
