// The command `check`: whether a host takes a template, and how it reads it.
use crate::input::read_whole;
use crate::kinds::{KindName, Kinds};
use crate::shown::{Count, Line, Quoted, Shown, Style, Word};
use crate::stop::Stop;
use host::Host;
use outline::{Symbol, Token, Visit, plan, visits};
use std::alloc::{AllocError, Global};
use std::{fmt, io};
use template::check::{check, survey};
use template::item::{Hole, Item};
use template::raw::Raw;

// Prints each action, and how the template is read.
pub fn check_template<'a, H: Kinds>(
    rt: &HostRuntime,
    host: &H,
    path: &'a str,
) -> Result<(), Stop<'a>> {
    let file = read_whole(rt, path)?;
    println!(rt; "read {}: {} bytes", Word(path), file.len())?;
    let (file, count) = accepted(host, file)?;
    let template = file.as_slice();
    let visits = visits(rt.alloc(), template, host)?;
    let holes = holes_of(rt.alloc(), visits.as_slice())?;
    let tokens = plan(rt.alloc(), template, host)?;
    println!(rt; "items, each with its place and the context that reads it:")?;
    tell_items(rt, template, visits.as_slice())?;
    println!(rt; "holes, each with its number, name, place and body:")?;
    if let Ok(survey) = survey(template, host) {
        tell_holes(rt, holes.as_slice(), survey.bodies())?;
    }
    println!(rt; "plan, the tokens that the text will read as:")?;
    tell_plan::<H>(rt, tokens.as_slice(), holes.as_slice())?;
    println!(rt; "checked: {}", Count(count, "hole"))?;
    Ok(())
}

// A template that the host accepts, and the number of its holes.
pub fn accepted<H: Host>(host: &H, template: Vec<u8>) -> Result<(Vec<u8>, usize), Stop<'static>> {
    // The template goes into the refusal or back to the caller, and a closure would take it in either case.
    let holes = match check(Raw::new(template.as_slice()), host) {
        Ok(checked) => checked.holes(),
        Err(fault) => return Err(Stop::TextRefused(fault, template)),
    };
    Ok((template, holes))
}

// The holes in order, which is their numbers.
pub fn holes_of<'t>(heap: Global, visits: &[Visit<'t>]) -> Result<Vec<Hole<'t>>, AllocError> {
    visits
        .iter()
        .filter_map(|visit| match visit.item {
            Item::Hole(hole) => Some(hole),
            Item::Literal(_) => None,
        })
        .collect(heap)
}

// A line for each escape and each hole, and for each row of other literals that one context reads.
fn tell_items(
    rt: &HostRuntime,
    template: &[u8],
    visits: &[Visit<'_>],
) -> Result<(), Stop<'static>> {
    let in_row = |one: &Visit<'_>, next: &Visit<'_>| {
        is_unescaped(template, one) && is_unescaped(template, next) && one.context == next.context
    };
    for row in visits.chunk_by(in_row) {
        let [first, ..] = row else {
            continue;
        };
        let place = first.place;
        let context = first.context;
        if let Item::Hole(hole) = first.item {
            println!(rt;
                "place {place} context {context} hole {}",
                Shown(hole.name, Line)
            )?;
            continue;
        }
        let word = if is_unescaped(template, first) {
            "literal"
        } else {
            "escape"
        };
        let bytes: Vec<u8> = row.iter().filter_map(literal).collect(rt.alloc())?;
        println!(rt;
            "place {place} context {context} {word} {}",
            Shown(bytes.as_slice(), Quoted)
        )?;
    }
    Ok(())
}

// Whether an item is a literal that stands in the template as itself.
fn is_unescaped(template: &[u8], visit: &Visit<'_>) -> bool {
    literal(visit).is_some() && template.get(visit.place) != Some(&b'@')
}

fn literal(visit: &Visit<'_>) -> Option<u8> {
    match visit.item {
        Item::Literal(byte) => Some(byte),
        Item::Hole(_) => None,
    }
}

fn tell_holes(rt: &HostRuntime, holes: &[Hole<'_>], bodies: &[u8]) -> io::Result<()> {
    for (number, (hole, body)) in holes.iter().zip(bodies).enumerate() {
        let place = hole.place;
        println!(rt;
            "hole {number} {} place {place} body {body}",
            Shown(hole.name, Line)
        )?;
    }
    Ok(())
}

fn tell_plan<'x, H: Kinds>(
    rt: &HostRuntime,
    tokens: &'x [Token],
    holes: &'x [Hole<'x>],
) -> io::Result<()> {
    for (number, token) in tokens.iter().enumerate() {
        let kind = token.kind;
        let name = KindName::<H::Kind>::of(kind);
        let value = Value {
            symbols: token.value.as_slice(),
            holes,
        };
        println!(rt; "token {number} kind {kind} {name} {value}")?;
    }
    Ok(())
}

// What a token holds, in the notation of templates: its bytes, and the holes whose values it will have.
#[derive(Clone, Copy)]
struct Value<'a> {
    symbols: &'a [Symbol],
    holes: &'a [Hole<'a>],
}

impl fmt::Display for Value<'_> {
    fn fmt<W: fmt::Write>(&self, f: &mut fmt::Formatter<W>) -> fmt::Result {
        write!(f, "\"")?;
        for symbol in self.symbols {
            match symbol {
                Symbol::Byte(b'@') => write!(f, "@@")?,
                Symbol::Byte(byte) => Quoted::show(*byte, f)?,
                Symbol::Mark(number) => {
                    if let Some(hole) = self.holes.get(*number) {
                        write!(f, "@{{{}}}", Shown(hole.name, Line))?;
                    }
                }
            }
        }
        write!(f, "\"")
    }
}
