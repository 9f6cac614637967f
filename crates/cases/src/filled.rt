// Templates that are filled and printed.
use crate::answer::{Answer, UNTOUCHED};
use casework::shown::Quoted;
use casework::tally::Tally;
use casework::under::Under;
use fault::Fault;
use printer::open::open;
use printer::sheet::Sheet;
use std::fmt;
use template::check::check;
use template::raw::Raw;

// Values are bound to the holes in order, and the text is printed into an output of so many bytes.
#[derive(Clone, Copy)]
struct Filled {
    under: Under,
    template: &'static [u8],
    values: &'static [&'static [u8]],
    room: usize,
    expected: Answer<'static>,
}

impl fmt::Display for Filled {
    fn fmt<W: fmt::Write>(&self, f: &mut fmt::Formatter<W>) -> fmt::Result {
        write!(f, "{} {}", self.under, Quoted(self.template))?;
        for value in self.values {
            write!(f, ", {}", Quoted(*value))?;
        }
        write!(f, ", into {} bytes", self.room)
    }
}

static FILLED: [Filled; 8] = [
    Filled {
        under: Under::Shell,
        template: b"",
        values: &[],
        room: 0,
        expected: Answer::Written(Ok(0), b""),
    },
    Filled {
        under: Under::Sql,
        template: b"",
        values: &[],
        room: 0,
        expected: Answer::Written(Ok(0), b""),
    },
    Filled {
        under: Under::Csv,
        template: b"",
        values: &[],
        room: 2,
        expected: Answer::Written(Ok(0), b"~~"),
    },
    Filled {
        under: Under::Shell,
        template: b"echo @{a}",
        values: &[b""],
        room: 8,
        expected: Answer::Written(Ok(7), b"echo ''~"),
    },
    Filled {
        under: Under::Shell,
        template: b"\"@{a}\"",
        values: &[b"$5"],
        room: 5,
        expected: Answer::Written(Ok(5), b"\"\\$5\""),
    },
    Filled {
        under: Under::Sql,
        template: b"@{a}'@{b}'",
        values: &[b"x", b"y"],
        room: 6,
        expected: Answer::Written(Ok(6), b"'x''y'"),
    },
    Filled {
        under: Under::Csv,
        template: b"a@{v}",
        values: &[b","],
        room: 4,
        expected: Answer::Written(Err(Fault::ByteTurnedAway { hole: 0, place: 0 }), b"~~~~"),
    },
    Filled {
        under: Under::Csv,
        template: b"\"a@{v}\"",
        values: &[b","],
        room: 4,
        expected: Answer::Written(Ok(4), b"\"a,\""),
    },
];

fn fill(case: &Filled, output: &mut [u8]) -> Result<usize, Fault> {
    let mut sheet = Sheet::new(case.under);
    let checked = check(Raw::new(case.template), &case.under)?;
    let mut filling = open(checked, &mut sheet);
    for (hole, value) in case.values.iter().enumerate() {
        filling.bind(&mut sheet, hole, *value)?;
    }
    filling.judge_finish()?;
    filling.finish().print(&sheet, output)
}

pub fn run_filled(rt: &HostRuntime, tally: &mut Tally) -> anyhow::Result<()> {
    for case in &FILLED {
        let mut output = vec![in rt.alloc(); UNTOUCHED; case.room]?;
        let filled = fill(case, output.as_mut_slice());
        let came = Answer::Written(filled, output.as_slice());
        tally.compare(rt, case, &came, &case.expected)?;
    }
    Ok(())
}
