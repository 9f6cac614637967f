// Records that are written.
use crate::answer::{Found, read_at};
use casework::refusal::Refusal;
use casework::tally::Tally;
use fault::Failure;
use record::writer::{Pair, write_record};

const HI: Pair<'static> = Pair {
    name: b"a",
    value: b"hi",
};

const EMPTY: Pair<'static> = Pair {
    name: b"b_2",
    value: b"",
};

const BAD: Pair<'static> = Pair {
    name: b"A",
    value: b"",
};

const LONG: Pair<'static> = Pair {
    name: b"cd",
    value: &[0; 161],
};

// Pairs that the writer refuses after two bytes.
#[derive(Clone, Copy)]
struct Case {
    about: &'static str,
    pairs: &'static [Pair<'static>],
    refusal: Refusal,
}

static REFUSED: [Case; 3] = [
    Case {
        about: "the writer refuses a bad name",
        pairs: &[HI, BAD],
        refusal: Refusal::Plain(23, 11),
    },
    Case {
        about: "the writer refuses a long value",
        pairs: &[HI, LONG],
        refusal: Refusal::Plain(24, 16),
    },
    Case {
        about: "the writer refuses a name twice",
        pairs: &[HI, EMPTY, HI],
        refusal: Refusal::Plain(26, 20),
    },
];

// What comes of writing the pairs to a file: an error that is no refusal is want of memory, which no case expects.
fn write(file: &mut Vec<u8>, pairs: &[Pair<'_>]) -> Result<(), Option<Refusal>> {
    write_record(file, pairs).map_err(|failure| match failure {
        Failure::Refused(fault) => Some(Refusal::from(fault)),
        Failure::NoMemory => None,
    })
}

pub fn run_written(rt: &HostRuntime, tally: &mut Tally) -> anyhow::Result<()> {
    let mut file = b"..".to_vec(rt.alloc())?;
    let written = write(&mut file, &[HI, EMPTY]);
    let bytes = b"..\x01\x00\x01a\x02\x00\x02hi\x01\x00\x03b_2\x02\x00\x00\x03\x00\x00";
    let found = Found {
        count: 2,
        end: 20,
        next: 23,
    };
    let right = written == Ok(())
        && file.as_slice() == bytes.as_slice()
        && read_at(file.as_slice(), 2) == Ok(Some(found));
    tally.tell(rt, "written and read back", right)?;
    for case in &REFUSED {
        // A refusal leaves the file as it was.
        let mut file = b"..".to_vec(rt.alloc())?;
        let written = write(&mut file, case.pairs);
        let right = written == Err(Some(case.refusal)) && file.as_slice() == b"..".as_slice();
        tally.tell(rt, case.about, right)?;
    }
    Ok(())
}
