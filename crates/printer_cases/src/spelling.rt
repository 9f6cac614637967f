// How values are written in the holes of each host, and what is turned away.
use crate::answer::Answer::*;
use crate::answer::DONE;
use crate::script::Call::*;
use crate::script::{Script, Step};
use casework::refusal::Refusal::*;
use casework::under::Under::*;

pub static SPELLING: [Script; 10] = [
    Script {
        name: "O'Hara and others in shell",
        under: Shell,
        template: b"log @{a} to=@{b} \"for @{c}\"",
        filling: &[
            Step(Shell, Bind(0, b"O'Hara"), DONE),
            Step(Shell, Bind(1, b"a b;c"), DONE),
            Step(Shell, Bind(2, b"$5"), DONE),
        ],
        finished: &[Step(
            Shell,
            Print(36),
            Printed(Ok(36), b"log 'O'\\''Hara' to='a b;c' \"for \\$5\""),
        )],
    },
    Script {
        name: "values in shell that try to get out of their quotes",
        under: Shell,
        template: b"log @{a} to=@{b} \"for @{c}\"",
        filling: &[
            Step(Shell, Bind(0, b"'; rm x; '"), DONE),
            Step(Shell, Bind(1, b""), DONE),
            Step(Shell, Bind(2, b"\"; rm x; \""), DONE),
        ],
        finished: &[Step(
            Shell,
            Print(47),
            Printed(
                Ok(47),
                b"log ''\\''; rm x; '\\''' to='' \"for \\\"; rm x; \\\"\"",
            ),
        )],
    },
    Script {
        name: "an empty value in shell is a word",
        under: Shell,
        template: b"echo @{a}",
        filling: &[
            Step(Shell, Bind(0, b""), DONE),
            Step(Shell, CountOwed, Owed(0, None)),
            Step(Shell, Look(0), Value(b"")),
        ],
        finished: &[Step(Shell, Print(7), Printed(Ok(7), b"echo ''"))],
    },
    Script {
        name: "O'Hara in SQL, and a value that tries to get out of its text",
        under: Sql,
        template: b"f(@{a}, 'by @{b}')",
        filling: &[
            Step(Sql, Bind(0, b"'); f('"), DONE),
            Step(Sql, Bind(1, b"O'Hara"), DONE),
        ],
        finished: &[Step(
            Sql,
            Print(28),
            Printed(Ok(28), b"f('''); f(''', 'by O''Hara')"),
        )],
    },
    Script {
        name: "a name that repeats is two holes",
        under: Sql,
        template: b"'@{a}, @{a}'",
        filling: &[
            Step(Sql, Bind(0, b"x"), DONE),
            Step(Sql, Judge, Judged(Err(OfHole(15, 1, 0)))),
            Step(Sql, Bind(1, b"y"), DONE),
            Step(Sql, Judge, Judged(Ok(2))),
        ],
        finished: &[Step(Sql, Print(6), Printed(Ok(6), b"'x, y'"))],
    },
    Script {
        name: "O'Hara and others in CSV",
        under: Csv,
        template: b"@{a},x@{b},\"by @{c}\"@r@n",
        filling: &[
            Step(Csv, Bind(0, b"Elm \"upper\""), DONE),
            Step(Csv, Bind(1, b"O'Hara"), DONE),
            Step(Csv, Bind(2, b"O'Hara, Ann"), DONE),
        ],
        finished: &[Step(
            Csv,
            Print(42),
            Printed(
                Ok(42),
                b"\"Elm \"\"upper\"\"\",xO'Hara,\"by O'Hara, Ann\"\r\n",
            ),
        )],
    },
    Script {
        name: "empty values in CSV, with and without quotes",
        under: Csv,
        template: b"@{a},x@{b}y",
        filling: &[Step(Csv, Bind(0, b""), DONE), Step(Csv, Bind(1, b""), DONE)],
        finished: &[Step(Csv, Print(5), Printed(Ok(5), b"\"\",xy"))],
    },
    Script {
        name: "bytes that are turned away in shell",
        under: Shell,
        template: b"@{a} @{b}",
        filling: &[
            Step(Shell, Bind(0, b"x"), DONE),
            Step(Shell, Bind(1, b"\x00ab"), Settled(Err(OfHole(13, 1, 0)))),
            Step(Shell, Bind(1, b"a\x00b"), Settled(Err(OfHole(13, 1, 1)))),
            Step(Shell, Bind(1, b"ab\x00"), Settled(Err(OfHole(13, 1, 2)))),
            Step(Shell, Bind(1, b"a\x00\x00"), Settled(Err(OfHole(13, 1, 1)))),
            Step(Shell, Look(0), Value(b"x")),
            Step(Shell, Look(1), Value(b"")),
            Step(Shell, CountOwed, Owed(1, Some(1))),
            Step(Shell, Bind(1, b"ab"), DONE),
        ],
        finished: &[Step(Shell, Print(8), Printed(Ok(8), b"'x' 'ab'"))],
    },
    // The place counts the bytes of the value, not those of its spelling.
    Script {
        name: "bytes that are turned away in SQL",
        under: Sql,
        template: b"'@{a}@{b}'",
        filling: &[
            Step(Sql, Bind(1, b"\x00''"), Settled(Err(OfHole(13, 1, 0)))),
            Step(Sql, Bind(1, b"'\x00'"), Settled(Err(OfHole(13, 1, 1)))),
            Step(Sql, Bind(1, b"''\x00"), Settled(Err(OfHole(13, 1, 2)))),
            Step(Sql, Bind(0, b"\\"), DONE),
            Step(Sql, Bind(1, b"\xff\n"), DONE),
        ],
        finished: &[Step(Sql, Print(5), Printed(Ok(5), b"'\\\xff\n'"))],
    },
    // Hole 0 stands in a bare field, and hole 1 brings quotes.
    Script {
        name: "bytes that are turned away in CSV",
        under: Csv,
        template: b"x@{a},@{b}",
        filling: &[
            Step(Csv, Bind(0, b"\"a"), Settled(Err(OfHole(13, 0, 0)))),
            Step(Csv, Bind(0, b"1,5"), Settled(Err(OfHole(13, 0, 1)))),
            Step(Csv, Bind(0, b"ab\r"), Settled(Err(OfHole(13, 0, 2)))),
            Step(Csv, Bind(1, b"\xc3\xa9"), Settled(Err(OfHole(13, 1, 0)))),
            Step(Csv, Bind(1, b"a\tb"), Settled(Err(OfHole(13, 1, 1)))),
            Step(Csv, Bind(1, b"ab\x7f"), Settled(Err(OfHole(13, 1, 2)))),
            Step(Csv, Look(0), Value(b"")),
            Step(Csv, Look(1), Value(b"")),
            Step(Csv, CountOwed, Owed(2, Some(0))),
            Step(Csv, Bind(0, b"15"), DONE),
            Step(Csv, Bind(1, b"a\r\n\"b\""), DONE),
        ],
        finished: &[Step(Csv, Print(14), Printed(Ok(14), b"x15,\"a\r\n\"\"b\"\"\""))],
    },
];
