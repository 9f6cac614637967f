// The table: inputs, and what reading a record at a place of them answers.
use crate::answer::{Answer, Found};
use casework::refusal::Refusal;

#[derive(Clone, Copy)]
pub struct Case {
    pub name: &'static str,
    pub input: &'static [u8],
    pub place: usize,
    pub expected: Answer,
}

pub static CASES: [Case; 43] = [
    Case {
        name: "the empty input",
        input: b"",
        place: 0,
        expected: Ok(None),
    },
    Case {
        name: "one pair",
        input: b"\x01\x00\x01a\x02\x00\x02hi\x03\x00\x00",
        place: 0,
        expected: Ok(Some(Found {
            count: 1,
            end: 9,
            next: 12,
        })),
    },
    Case {
        name: "the place after the last record",
        input: b"\x01\x00\x01a\x02\x00\x02hi\x03\x00\x00",
        place: 12,
        expected: Ok(None),
    },
    Case {
        name: "a place past the input",
        input: b"\x01\x00\x01a\x02\x00\x02hi\x03\x00\x00",
        place: 13,
        expected: Err(Refusal::Plain(20, 12)),
    },
    Case {
        name: "a record of no pairs, at the end tag of another",
        input: b"\x01\x00\x01a\x02\x00\x02hi\x03\x00\x00",
        place: 9,
        expected: Ok(Some(Found {
            count: 0,
            end: 9,
            next: 12,
        })),
    },
    Case {
        name: "a value where a record begins",
        input: b"\x01\x00\x01a\x02\x00\x02hi\x03\x00\x00",
        place: 4,
        expected: Err(Refusal::Plain(22, 4)),
    },
    Case {
        name: "no pairs",
        input: b"\x03\x00\x00",
        place: 0,
        expected: Ok(Some(Found {
            count: 0,
            end: 0,
            next: 3,
        })),
    },
    Case {
        name: "a record after another",
        input: b"\x01\x00\x01a\x02\x00\x02hi\x03\x00\x00\x03\x00\x00",
        place: 12,
        expected: Ok(Some(Found {
            count: 0,
            end: 12,
            next: 15,
        })),
    },
    Case {
        name: "what follows a record is not looked at",
        input: b"\x01\x00\x01a\x02\x00\x02hi\x03\x00\x00\xff\xff",
        place: 0,
        expected: Ok(Some(Found {
            count: 1,
            end: 9,
            next: 12,
        })),
    },
    Case {
        name: "the same bytes, read where they stand",
        input: b"\x01\x00\x01a\x02\x00\x02hi\x03\x00\x00\xff\xff\xff\x00",
        place: 12,
        expected: Err(Refusal::Plain(20, 12)),
    },
    Case {
        name: "tag 04",
        input: b"\x04\x00\x00",
        place: 0,
        expected: Err(Refusal::Plain(21, 0)),
    },
    Case {
        name: "tag 00",
        input: b"\x00\x00\x00",
        place: 0,
        expected: Err(Refusal::Plain(21, 0)),
    },
    Case {
        name: "tag FF where a value is due",
        input: b"\x01\x00\x01a\xff\x00\x00",
        place: 0,
        expected: Err(Refusal::Plain(21, 4)),
    },
    Case {
        name: "the end where a value is due",
        input: b"\x01\x00\x01a\x03\x00\x00",
        place: 0,
        expected: Err(Refusal::Plain(22, 4)),
    },
    Case {
        name: "a name where a value is due",
        input: b"\x01\x00\x01a\x01\x00\x01b",
        place: 0,
        expected: Err(Refusal::Plain(22, 4)),
    },
    Case {
        name: "a value of 161 bytes out of turn",
        input: b"\x02\x00\xa1xxxxxxxxxxxxxxxxxxxxxxxxxxxxxxxxxxxxxxxxxxxxxxxxxxxxxxxxxxxxxxxxxxxxxxxxxxxxxxxxxxxxxxxxxxxxxxxxxxxxxxxxxxxxxxxxxxxxxxxxxxxxxxxxxxxxxxxxxxxxxxxxxxxxxxxxxxxxxxxxx",
        place: 0,
        expected: Err(Refusal::Plain(22, 0)),
    },
    Case {
        name: "a second value for a name",
        input: b"\x01\x00\x01a\x02\x00\x00\x02\x00\x00\x03\x00\x00",
        place: 0,
        expected: Err(Refusal::Plain(22, 7)),
    },
    Case {
        name: "an empty name",
        input: b"\x01\x00\x00",
        place: 0,
        expected: Err(Refusal::Plain(23, 0)),
    },
    Case {
        name: "a capital letter",
        input: b"\x01\x00\x01A",
        place: 0,
        expected: Err(Refusal::Plain(23, 0)),
    },
    Case {
        name: "a digit first",
        input: b"\x01\x00\x011",
        place: 0,
        expected: Err(Refusal::Plain(23, 0)),
    },
    Case {
        name: "an underscore first",
        input: b"\x01\x00\x01_",
        place: 0,
        expected: Err(Refusal::Plain(23, 0)),
    },
    Case {
        name: "a hyphen in a name",
        input: b"\x01\x00\x02a\x2d",
        place: 0,
        expected: Err(Refusal::Plain(23, 0)),
    },
    Case {
        name: "byte 00 in a name",
        input: b"\x01\x00\x02a\x00",
        place: 0,
        expected: Err(Refusal::Plain(23, 0)),
    },
    Case {
        name: "a name of sixteen bytes",
        input: b"\x01\x00\x10abcdefghij_12345\x02\x00\x00\x03\x00\x00",
        place: 0,
        expected: Ok(Some(Found {
            count: 1,
            end: 22,
            next: 25,
        })),
    },
    Case {
        name: "a name of seventeen bytes",
        input: b"\x01\x00\x11abcdefghij_123456\x02\x00\x00\x03\x00\x00",
        place: 0,
        expected: Err(Refusal::Plain(23, 0)),
    },
    Case {
        name: "a bad name after a good pair",
        input: b"\x01\x00\x01a\x02\x00\x00\x01\x00\x01\x20",
        place: 0,
        expected: Err(Refusal::Plain(23, 7)),
    },
    Case {
        name: "a name twice",
        input: b"\x01\x00\x01a\x02\x00\x00\x01\x00\x01a\x02\x00\x00\x03\x00\x00",
        place: 0,
        expected: Err(Refusal::Plain(26, 7)),
    },
    Case {
        name: "a name twice, not next to itself",
        input: b"\x01\x00\x01a\x02\x00\x00\x01\x00\x01b\x02\x00\x00\x01\x00\x01a",
        place: 0,
        expected: Err(Refusal::Plain(26, 14)),
    },
    Case {
        name: "names with the same first byte",
        input: b"\x01\x00\x02aa\x02\x00\x00\x01\x00\x02ab\x02\x00\x00\x03\x00\x00",
        place: 0,
        expected: Ok(Some(Found {
            count: 2,
            end: 16,
            next: 19,
        })),
    },
    Case {
        name: "a name that begins another",
        input: b"\x01\x00\x02aa\x02\x00\x00\x01\x00\x01a\x02\x00\x00\x03\x00\x00",
        place: 0,
        expected: Ok(Some(Found {
            count: 2,
            end: 15,
            next: 18,
        })),
    },
    Case {
        name: "a value with any bytes",
        input: b"\x01\x00\x01a\x02\x00\x03\x00\xff\x03\x03\x00\x00",
        place: 0,
        expected: Ok(Some(Found {
            count: 1,
            end: 10,
            next: 13,
        })),
    },
    Case {
        name: "an end with a length",
        input: b"\x03\x00\x01\x00",
        place: 0,
        expected: Err(Refusal::Plain(27, 0)),
    },
    Case {
        name: "an end with a length after a pair",
        input: b"\x01\x00\x01a\x02\x00\x00\x03\x00\x01x",
        place: 0,
        expected: Err(Refusal::Plain(27, 7)),
    },
    Case {
        name: "an end with a length in its high byte",
        input: b"\x03\x01\x00xxxxxxxxxxxxxxxxxxxxxxxxxxxxxxxxxxxxxxxxxxxxxxxxxxxxxxxxxxxxxxxxxxxxxxxxxxxxxxxxxxxxxxxxxxxxxxxxxxxxxxxxxxxxxxxxxxxxxxxxxxxxxxxxxxxxxxxxxxxxxxxxxxxxxxxxxxxxxxxxxxxxxxxxxxxxxxxxxxxxxxxxxxxxxxxxxxxxxxxxxxxxxxxxxxxxxxxxxxxxxxxxxxxxxxxxxxxxxxxxxxxxxxxxxxxxxxxx",
        place: 0,
        expected: Err(Refusal::Plain(27, 0)),
    },
    Case {
        name: "a tag alone",
        input: b"\x01",
        place: 0,
        expected: Err(Refusal::Plain(20, 0)),
    },
    Case {
        name: "an unknown tag alone",
        input: b"\x04",
        place: 0,
        expected: Err(Refusal::Plain(20, 0)),
    },
    Case {
        name: "an unknown tag, and its field cut short",
        input: b"\x04\x00\x01",
        place: 0,
        expected: Err(Refusal::Plain(20, 0)),
    },
    Case {
        name: "an end with a length, and cut short",
        input: b"\x03\x00\x05",
        place: 0,
        expected: Err(Refusal::Plain(20, 0)),
    },
    Case {
        name: "a bad name, and cut short",
        input: b"\x01\x00\x03AA",
        place: 0,
        expected: Err(Refusal::Plain(20, 0)),
    },
    Case {
        name: "a length of 256 read high byte first, and cut short",
        input: b"\x01\x01\x00a",
        place: 0,
        expected: Err(Refusal::Plain(20, 0)),
    },
    Case {
        name: "a value of 256 bytes",
        input: b"\x01\x00\x01a\x02\x01\x00xxxxxxxxxxxxxxxxxxxxxxxxxxxxxxxxxxxxxxxxxxxxxxxxxxxxxxxxxxxxxxxxxxxxxxxxxxxxxxxxxxxxxxxxxxxxxxxxxxxxxxxxxxxxxxxxxxxxxxxxxxxxxxxxxxxxxxxxxxxxxxxxxxxxxxxxxxxxxxxxxxxxxxxxxxxxxxxxxxxxxxxxxxxxxxxxxxxxxxxxxxxxxxxxxxxxxxxxxxxxxxxxxxxxxxxxxxxxxxxxxxxxxxxxxxxxxxxx",
        place: 0,
        expected: Err(Refusal::Plain(24, 4)),
    },
    Case {
        name: "the input ends after a name",
        input: b"\x01\x00\x01a",
        place: 0,
        expected: Err(Refusal::Plain(20, 4)),
    },
    Case {
        name: "the input ends after a value",
        input: b"\x01\x00\x01a\x02\x00\x00",
        place: 0,
        expected: Err(Refusal::Plain(20, 7)),
    },
];
