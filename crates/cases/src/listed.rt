// The texts of `filled`, read again: each token as its kind, its length in two bytes, and its bytes.
use crate::answer::{Answer, UNTOUCHED};
use casework::shown::Quoted;
use casework::tally::Tally;
use casework::under::Under;
use reading::list;
use std::fmt;

// A text is listed into an output of so many bytes.
#[derive(Clone, Copy)]
struct Listed {
    under: Under,
    text: &'static [u8],
    room: usize,
    expected: Answer<'static>,
}

impl fmt::Display for Listed {
    fn fmt<W: fmt::Write>(&self, f: &mut fmt::Formatter<W>) -> fmt::Result {
        let text = Quoted(self.text);
        write!(f, "{} lists {text} into {} bytes", self.under, self.room)
    }
}

static LISTED: [Listed; 7] = [
    Listed {
        under: Under::Shell,
        text: b"",
        room: 0,
        expected: Answer::Written(Ok(0), b""),
    },
    Listed {
        under: Under::Sql,
        text: b"",
        room: 0,
        expected: Answer::Written(Ok(0), b""),
    },
    Listed {
        under: Under::Csv,
        text: b"",
        room: 0,
        expected: Answer::Written(Ok(0), b""),
    },
    Listed {
        under: Under::Shell,
        text: b"echo ''",
        room: 10,
        expected: Answer::Written(Ok(10), b"\x01\x00\x04echo\x01\x00\x00"),
    },
    Listed {
        under: Under::Shell,
        text: b"\"\\$5\"",
        room: 5,
        expected: Answer::Written(Ok(5), b"\x01\x00\x02$5"),
    },
    Listed {
        under: Under::Sql,
        text: b"'x''y'",
        room: 6,
        expected: Answer::Written(Ok(6), b"\x02\x00\x03x'y"),
    },
    Listed {
        under: Under::Csv,
        text: b"\"a,\"",
        room: 8,
        expected: Answer::Written(Ok(8), b"\x01\x00\x02a,\x02\x00\x00"),
    },
];

pub fn run_listed(rt: &HostRuntime, tally: &mut Tally) -> anyhow::Result<()> {
    for case in &LISTED {
        let mut output = vec![in rt.alloc(); UNTOUCHED; case.room]?;
        let listed = list(&case.under, case.text, output.as_mut_slice());
        let came = Answer::Written(listed, output.as_slice());
        tally.compare(rt, case, &came, &case.expected)?;
    }
    Ok(())
}
