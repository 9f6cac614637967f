// Hole numbers, lengths of values and numbers of holes at their limits.
use crate::answer::Answer::*;
use crate::answer::DONE;
use crate::script::Call::*;
use crate::script::{Script, Step};
use casework::refusal::Refusal::*;
use casework::under::Under::*;

// The value a 62 times, then y, then the empty value.
const SIXTY_FOUR_TEXT: &[u8; 255] = b"\
    'a','a','a','a','a','a','a','a','a','a','a','a','a','a','a','a',\
    'a','a','a','a','a','a','a','a','a','a','a','a','a','a','a','a',\
    'a','a','a','a','a','a','a','a','a','a','a','a','a','a','a','a',\
    'a','a','a','a','a','a','a','a','a','a','a','a','a','a','y','',";

pub static LIMITS: [Script; 8] = [
    // 10 comes before 12 and 13.
    Script {
        name: "numbers that no hole has",
        under: Shell,
        template: b"echo @{a}",
        filling: &[
            Step(Shell, Bind(1, b"x"), Settled(Err(OfHole(10, 1, 0)))),
            Step(Shell, Bind(63, b"x"), Settled(Err(OfHole(10, 63, 0)))),
            Step(
                Shell,
                Bind(64, &[b'x'; 161]),
                Settled(Err(OfHole(10, 64, 0))),
            ),
            Step(
                Shell,
                Bind(usize::MAX, b"\x00"),
                Settled(Err(OfHole(10, usize::MAX, 0))),
            ),
            Step(Shell, Release(1), Settled(Err(OfHole(10, 1, 0)))),
            Step(Shell, Release(64), Settled(Err(OfHole(10, 64, 0)))),
            Step(
                Shell,
                Release(usize::MAX),
                Settled(Err(OfHole(10, usize::MAX, 0))),
            ),
            Step(Shell, CountOwed, Owed(1, Some(0))),
        ],
        finished: &[],
    },
    // A filling does not know of it when its sheet is cleared.
    Script {
        name: "rows that no hole has, and a cleared sheet",
        under: Sql,
        template: b"f(@{a})",
        filling: &[
            Step(Sql, Bind(0, b"x"), DONE),
            Step(Sql, Look(0), Value(b"x")),
            Step(Sql, Look(1), Value(b"")),
            Step(Sql, Look(63), Value(b"")),
            Step(Sql, Look(64), Value(b"")),
            Step(Sql, Look(usize::MAX), Value(b"")),
            Step(Sql, Clear, DONE),
            Step(Sql, Look(0), Value(b"")),
            Step(Sql, CountOwed, Owed(0, None)),
            Step(Sql, Bind(0, b"y"), Settled(Err(OfHole(11, 0, 0)))),
        ],
        finished: &[Step(Sql, Print(5), Printed(Ok(5), b"f('')"))],
    },
    Script {
        name: "the empty template in shell",
        under: Shell,
        template: b"",
        filling: &[
            Step(Shell, CountOwed, Owed(0, None)),
            Step(Shell, Judge, Judged(Ok(0))),
            Step(Shell, Bind(0, b"x"), Settled(Err(OfHole(10, 0, 0)))),
            Step(Shell, Release(0), Settled(Err(OfHole(10, 0, 0)))),
        ],
        finished: &[
            Step(Shell, Print(0), Printed(Ok(0), b"")),
            Step(Shell, Print(3), Printed(Ok(0), b"~~~")),
        ],
    },
    Script {
        name: "the empty template in SQL",
        under: Sql,
        template: b"",
        filling: &[
            Step(Sql, CountOwed, Owed(0, None)),
            Step(Sql, Judge, Judged(Ok(0))),
            Step(Sql, Bind(0, b""), Settled(Err(OfHole(10, 0, 0)))),
        ],
        finished: &[
            Step(Sql, Print(0), Printed(Ok(0), b"")),
            Step(Sql, Print(3), Printed(Ok(0), b"~~~")),
        ],
    },
    Script {
        name: "the empty template in CSV",
        under: Csv,
        template: b"",
        filling: &[
            Step(Csv, CountOwed, Owed(0, None)),
            Step(Csv, Judge, Judged(Ok(0))),
            Step(Csv, Bind(0, b"x"), Settled(Err(OfHole(10, 0, 0)))),
        ],
        finished: &[
            Step(Csv, Print(0), Printed(Ok(0), b"")),
            Step(Csv, Print(3), Printed(Ok(0), b"~~~")),
        ],
    },
    // 12 comes before 13. A bare field adds nothing to its value.
    Script {
        name: "values of 160 and 161 bytes",
        under: Csv,
        template: b"x@{a}",
        filling: &[
            Step(Csv, Bind(0, &[b'x'; 161]), Settled(Err(OfHole(12, 0, 160)))),
            Step(Csv, Bind(0, &[0; 161]), Settled(Err(OfHole(12, 0, 160)))),
            Step(Csv, Look(0), Value(b"")),
            Step(Csv, CountOwed, Owed(1, Some(0))),
            Step(Csv, Bind(0, &[b'x'; 160]), DONE),
            Step(Csv, Look(0), Value(&[b'x'; 160])),
        ],
        finished: &[
            Step(Csv, Print(160), Printed(Err(Plain(17, 161)), &[b'~'; 160])),
            Step(Csv, Print(161), Printed(Ok(161), &[b'x'; 161])),
        ],
    },
    // Two quotes for each, and one around them on each side.
    Script {
        name: "160 quotes in SQL",
        under: Sql,
        template: b"@{a}",
        filling: &[Step(Sql, Bind(0, &[b'\''; 160]), DONE)],
        finished: &[
            Step(Sql, Print(321), Printed(Err(Plain(17, 322)), &[b'~'; 321])),
            Step(Sql, Print(322), Printed(Ok(322), &[b'\''; 322])),
        ],
    },
    Script {
        name: "64 holes",
        under: Sql,
        template: b"\
        @{a},@{a},@{a},@{a},@{a},@{a},@{a},@{a},@{a},@{a},@{a},@{a},@{a},@{a},@{a},@{a},\
        @{a},@{a},@{a},@{a},@{a},@{a},@{a},@{a},@{a},@{a},@{a},@{a},@{a},@{a},@{a},@{a},\
        @{a},@{a},@{a},@{a},@{a},@{a},@{a},@{a},@{a},@{a},@{a},@{a},@{a},@{a},@{a},@{a},\
        @{a},@{a},@{a},@{a},@{a},@{a},@{a},@{a},@{a},@{a},@{a},@{a},@{a},@{a},@{a},@{a},",
        filling: &[
            Step(Sql, CountOwed, Owed(64, Some(0))),
            Step(Sql, Bind(64, b"z"), Settled(Err(OfHole(10, 64, 0)))),
            Step(Sql, Bind(63, b"z"), DONE),
            Step(Sql, Look(63), Value(b"z")),
            Step(Sql, CountOwed, Owed(63, Some(0))),
            Step(Sql, BindEach(0, 62, b"a"), DONE),
            Step(Sql, CountOwed, Owed(1, Some(62))),
            Step(Sql, Judge, Judged(Err(OfHole(15, 62, 0)))),
            Step(Sql, Bind(62, b"y"), DONE),
            Step(Sql, Judge, Judged(Ok(64))),
            Step(Sql, Release(63), DONE),
            Step(Sql, Judge, Judged(Err(OfHole(15, 63, 0)))),
            Step(Sql, Bind(63, b""), DONE),
            Step(Sql, Judge, Judged(Ok(64))),
        ],
        finished: &[Step(Sql, Print(255), Printed(Ok(255), SIXTY_FOUR_TEXT))],
    },
];
