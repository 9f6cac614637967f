// Values by their names.
use casework::tally::Tally;
use record::record;
use record::shape::Span;
use record::table::find;
use std::io;

// The pairs a: hi and ab: (empty), after two other bytes.
const TWO: &[u8; 22] = b"..\x01\x00\x01a\x02\x00\x02hi\x01\x00\x02ab\x02\x00\x00\x03\x00\x00";

#[derive(Clone, Copy)]
struct Case {
    about: &'static str,
    name: &'static [u8],
    expected: Option<Span>,
}

static CASES: [Case; 3] = [
    Case {
        about: "the value of a name",
        name: b"a",
        expected: Some(Span { place: 9, len: 2 }),
    },
    Case {
        about: "the value of a longer name",
        name: b"ab",
        expected: Some(Span { place: 19, len: 0 }),
    },
    Case {
        about: "a name that is not there",
        name: b"b",
        expected: None,
    },
];

pub fn run_looked_up(rt: &HostRuntime, tally: &mut Tally) -> io::Result<()> {
    let read = record(TWO, 2);
    for case in &CASES {
        let right = find(TWO, &read, case.name) == case.expected;
        tally.tell(rt, case.about, right)?;
    }
    Ok(())
}
