// Records at the limits, built by the program.
use crate::answer::{Answer, Found, read_at};
use casework::refusal::Refusal;
use casework::tally::Tally;
use std::alloc::{AllocError, Global};

const END: &[u8] = b"\x03\x00\x00";

// A record of the name a with a value of so many bytes.
#[derive(Clone, Copy)]
struct Valued {
    about: &'static str,
    len: u8,
    expected: Answer,
}

static VALUED: [Valued; 2] = [
    Valued {
        about: "a value of 160 bytes",
        len: 160,
        expected: Ok(Some(Found {
            count: 1,
            end: 167,
            next: 170,
        })),
    },
    Valued {
        about: "a value of 161 bytes",
        len: 161,
        expected: Err(Refusal::Plain(24, 4)),
    },
];

impl Valued {
    fn bytes(&self, heap: Global) -> Result<Vec<u8>, AllocError> {
        let value = b"x".repeat(heap, self.len.into())?;
        let name: &[u8] = b"\x01\x00\x01a";
        [name, &[2, 0, self.len], value.as_slice(), END].concat(heap)
    }
}

// So many pairs of different names of two letters with empty values, eight bytes each, and then the rest.
#[derive(Clone, Copy)]
struct Named {
    about: &'static str,
    count: u8,
    rest: &'static [u8],
    expected: Answer,
}

static NAMED: [Named; 4] = [
    Named {
        about: "64 names",
        count: 64,
        rest: END,
        expected: Ok(Some(Found {
            count: 64,
            end: 512,
            next: 515,
        })),
    },
    Named {
        about: "65 names",
        count: 65,
        rest: END,
        expected: Err(Refusal::Plain(25, 512)),
    },
    Named {
        about: "a bad name after 64",
        count: 64,
        rest: b"\x01\x00\x01A",
        expected: Err(Refusal::Plain(23, 512)),
    },
    Named {
        about: "a name twice after 64",
        count: 64,
        rest: b"\x01\x00\x02aa",
        expected: Err(Refusal::Plain(25, 512)),
    },
];

impl Named {
    fn bytes(&self, heap: Global) -> Result<Vec<u8>, AllocError> {
        (0..self.count)
            .flat_map(|number| [1, 0, 2, b'a' + number / 26, b'a' + number % 26, 2, 0, 0])
            .chain(self.rest.iter().copied())
            .collect(heap)
    }
}

// The record of the name a with the value hi.
const ONE_PAIR: &[u8; 12] = b"\x01\x00\x01a\x02\x00\x02hi\x03\x00\x00";

// Where that record is refused when it is cut after 1, 2 and so on to 11 bytes: at the tag of the field that is cut, or at
// the length where a field is due.
const CUT: [usize; 11] = [0, 0, 0, 4, 4, 4, 4, 4, 9, 9, 9];

pub fn run_built(rt: &HostRuntime, tally: &mut Tally) -> anyhow::Result<()> {
    for case in &VALUED {
        let input = case.bytes(rt.alloc())?;
        let came = read_at(input.as_slice(), 0);
        tally.tell(rt, case.about, came == case.expected)?;
    }
    for case in &NAMED {
        let input = case.bytes(rt.alloc())?;
        let came = read_at(input.as_slice(), 0);
        tally.tell(rt, case.about, came == case.expected)?;
    }
    for (last, place) in CUT.iter().enumerate() {
        let cut = &ONE_PAIR[..=last];
        let about = format_args!("a record cut after {} bytes", cut.len());
        tally.tell(
            rt,
            about,
            read_at(cut, 0) == Err(Refusal::Plain(20, *place)),
        )?;
    }
    let came = read_at(ONE_PAIR, usize::MAX);
    tally.tell(rt, "the largest place", came == Err(Refusal::Plain(20, 12)))?;
    Ok(())
}
