// Records that are merged.
use crate::answer::Answer;
use crate::inputs::{BOTH, COMMA, ELM, NO_PAIRS, TWO};
use crate::merging::Merging;
use casework::under::Under;
use merge::merged::Merged;

pub static MERGED: [Merging; 10] = [
    Merging {
        name: "both names",
        under: Under::Sql,
        template: b"(@{site}, @{cm})",
        input: BOTH,
        place: 0,
        room: 15,
        expected: Answer::Merged(Ok(Some(Merged { next: 26, len: 13 })), b"('Elm', '42')~~"),
    },
    Merging {
        name: "an output that just fits",
        under: Under::Sql,
        template: b"(@{site}, @{cm})",
        input: BOTH,
        place: 0,
        room: 13,
        expected: Answer::Merged(Ok(Some(Merged { next: 26, len: 13 })), b"('Elm', '42')"),
    },
    Merging {
        name: "a name that the template repeats",
        under: Under::Shell,
        template: b"cp @{site} @{site}.bak",
        input: ELM,
        place: 0,
        room: 18,
        expected: Answer::Merged(
            Ok(Some(Merged { next: 16, len: 18 })),
            b"cp 'Elm' 'Elm'.bak",
        ),
    },
    Merging {
        name: "the first of two records",
        under: Under::Sql,
        template: b"(@{site}, @{cm})",
        input: TWO,
        place: 0,
        room: 16,
        expected: Answer::Merged(Ok(Some(Merged { next: 26, len: 13 })), b"('Elm', '42')~~~"),
    },
    Merging {
        name: "the second of two records, with its names in another order",
        under: Under::Sql,
        template: b"(@{site}, @{cm})",
        input: TWO,
        place: 26,
        room: 16,
        expected: Answer::Merged(Ok(Some(Merged { next: 54, len: 16 })), b"('O''Hara', '7')"),
    },
    Merging {
        name: "a name that the template lacks",
        under: Under::Sql,
        template: b"'@{cm}'",
        input: BOTH,
        place: 0,
        room: 5,
        expected: Answer::Merged(Ok(Some(Merged { next: 26, len: 4 })), b"'42'~"),
    },
    Merging {
        name: "a template without holes",
        under: Under::Sql,
        template: b"SELECT 1",
        input: BOTH,
        place: 0,
        room: 8,
        expected: Answer::Merged(Ok(Some(Merged { next: 26, len: 8 })), b"SELECT 1"),
    },
    Merging {
        name: "a record without pairs, and the empty template",
        under: Under::Csv,
        template: b"",
        input: NO_PAIRS,
        place: 0,
        room: 0,
        expected: Answer::Merged(Ok(Some(Merged { next: 3, len: 0 })), b""),
    },
    Merging {
        name: "a comma between quotes",
        under: Under::Csv,
        template: b"\"at @{site}\"",
        input: COMMA,
        place: 0,
        room: 8,
        expected: Answer::Merged(Ok(Some(Merged { next: 26, len: 8 })), b"\"at a,b\""),
    },
    Merging {
        name: "a quote in a value",
        under: Under::Shell,
        template: b"log @{site}@n",
        input: TWO,
        place: 26,
        room: 16,
        expected: Answer::Merged(
            Ok(Some(Merged { next: 54, len: 16 })),
            b"log 'O'\\''Hara'\n",
        ),
    },
];
