// A filling with sheets of other hosts than the one that checked its template, and with surveys that are not its own.
use crate::answer::Answer::*;
use crate::answer::DONE;
use crate::script::Call::*;
use crate::script::{Script, Step};
use casework::refusal::Refusal::*;
use casework::under::Under::*;

pub static CROSSING: [Script; 11] = [
    // 9 comes before all others.
    Script {
        name: "SQL refuses a byte of the template",
        under: Shell,
        template: b"a-b @{v}",
        filling: &[
            Step(Sql, Bind(0, b"x"), Settled(Err(Carrying(9, 0, 6, 1)))),
            Step(Sql, Bind(64, b"x"), Settled(Err(Carrying(9, 0, 6, 1)))),
            Step(Sql, Bind(0, &[0; 161]), Settled(Err(Carrying(9, 0, 6, 1)))),
            Step(Sql, CountOwed, Owed(1, Some(0))),
            Step(Shell, Bind(0, b"x"), DONE),
            Step(Sql, Bind(0, b"y"), Settled(Err(Carrying(9, 0, 6, 1)))),
            Step(Sql, Look(0), Value(b"")),
            Step(Shell, Look(0), Value(b"x")),
        ],
        finished: &[
            Step(
                Sql,
                Print(9),
                Printed(Err(Carrying(9, 0, 6, 1)), b"~~~~~~~~~"),
            ),
            Step(Sql, Print(0), Printed(Err(Carrying(9, 0, 6, 1)), b"")),
            Step(
                Sql,
                PrintSurveyed(9),
                Printed(Err(Plain(6, 1)), b"~~~~~~~~~"),
            ),
            Step(Shell, Print(9), Printed(Ok(7), b"a-b 'x'~~")),
            Step(Csv, Print(9), Printed(Ok(4), b"a-b ~~~~~")),
        ],
    },
    // The value is bound under CSV, whose body decides.
    Script {
        name: "SQL refuses the hole of the template",
        under: Shell,
        template: b"x@{a}",
        filling: &[
            Step(Sql, Bind(0, b"7"), Settled(Err(Carrying(9, 0, 7, 1)))),
            Step(Csv, Bind(0, b"a,b"), Settled(Err(OfHole(13, 0, 1)))),
            Step(Csv, Bind(0, b"7"), DONE),
            Step(Shell, Bind(0, b"8"), Settled(Err(OfHole(11, 0, 0)))),
            Step(Csv, Look(0), Value(b"7")),
            Step(Shell, Look(0), Value(b"")),
        ],
        finished: &[
            Step(Csv, Print(2), Printed(Ok(2), b"x7")),
            Step(Shell, Print(3), Printed(Ok(3), b"x''")),
            Step(Sql, Print(3), Printed(Err(Carrying(9, 0, 7, 1)), b"~~~")),
            Step(Sql, PrintSurveyed(3), Printed(Err(Plain(7, 1)), b"~~~")),
        ],
    },
    Script {
        name: "SQL and CSV refuse the second hole of the template",
        under: Shell,
        template: b"@{a}@{b}",
        filling: &[
            Step(Sql, Bind(0, b"x"), Settled(Err(Carrying(9, 0, 7, 4)))),
            Step(Csv, Bind(1, b"x"), Settled(Err(Carrying(9, 0, 7, 4)))),
            Step(Shell, Bind(0, b"a"), DONE),
            Step(Shell, Bind(1, b"'"), DONE),
        ],
        finished: &[
            Step(Csv, Print(3), Printed(Err(Carrying(9, 0, 7, 4)), b"~~~")),
            Step(Shell, Print(9), Printed(Ok(9), b"'a'''\\'''")),
        ],
    },
    // The place that 9 carries is that of the escape's at-sign.
    Script {
        name: "CSV refuses an escape of the template",
        under: Sql,
        template: b"f(@{a}, '@n')",
        filling: &[
            Step(Csv, Bind(0, b"x"), Settled(Err(Carrying(9, 0, 6, 9)))),
            Step(Shell, Bind(0, b"x"), DONE),
            Step(Sql, Look(0), Value(b"")),
        ],
        finished: &[
            Step(Csv, Print(4), Printed(Err(Carrying(9, 0, 6, 9)), b"~~~~")),
            Step(Sql, Print(10), Printed(Ok(10), b"f('', '\n')")),
            Step(Shell, Print(11), Printed(Ok(11), b"f('x', '\n')")),
        ],
    },
    // There is no hole, so nothing stops the finish.
    Script {
        name: "SQL and shell refuse the end of a template without holes",
        under: Csv,
        template: b"'abc",
        filling: &[
            Step(Csv, Judge, Judged(Ok(0))),
            Step(Sql, Bind(0, b"x"), Settled(Err(Carrying(9, 0, 8, 4)))),
            Step(Csv, Bind(0, b"x"), Settled(Err(OfHole(10, 0, 0)))),
        ],
        finished: &[
            Step(Csv, Print(6), Printed(Ok(4), b"'abc~~")),
            Step(Sql, Print(6), Printed(Err(Carrying(9, 0, 8, 4)), b"~~~~~~")),
            Step(
                Shell,
                Print(6),
                Printed(Err(Carrying(9, 0, 8, 4)), b"~~~~~~"),
            ),
            Step(Sql, PrintSurveyed(6), Printed(Ok(4), b"'abc~~")),
        ],
    },
    // A release asks no host. It clears the row of the sheet that it is given.
    Script {
        name: "a hole that is released with the sheet of another host",
        under: Shell,
        template: b"x@{a}",
        filling: &[
            Step(Shell, Bind(0, b"old"), DONE),
            Step(Sql, Release(0), DONE),
            Step(Shell, Look(0), Value(b"old")),
            Step(Shell, CountOwed, Owed(1, Some(0))),
            Step(Sql, Release(0), Settled(Err(OfHole(14, 0, 0)))),
            Step(Shell, Bind(0, b"new"), DONE),
        ],
        finished: &[Step(Shell, Print(6), Printed(Ok(6), b"x'new'"))],
    },
    // In the surveyed template the holes bring quotes, in this one they stand in bare fields.
    Script {
        name: "a byte in the sheet that the second hole turns away",
        under: Csv,
        template: b"a@{v},b@{w}",
        filling: &[
            Step(Csv, BindBy(Csv, b"@{v},@{w}", 0, b"ok"), DONE),
            Step(Csv, BindBy(Csv, b"@{v},@{w}", 1, b"x\"y"), DONE),
            Step(Csv, Look(1), Value(b"x\"y")),
            Step(Csv, Judge, Judged(Ok(2))),
        ],
        finished: &[
            Step(Csv, Print(8), Printed(Err(OfHole(16, 1, 1)), b"~~~~~~~~")),
            Step(Csv, Print(0), Printed(Err(OfHole(16, 1, 1)), b"")),
            Step(
                Csv,
                PrintSurveyed(8),
                Printed(Err(OfHole(16, 1, 1)), b"~~~~~~~~"),
            ),
            Step(Shell, Print(8), Printed(Ok(7), b"a'',b''~")),
        ],
    },
    Script {
        name: "bytes in the sheet that both holes turn away",
        under: Csv,
        template: b"a@{v},b@{w}",
        filling: &[
            Step(Csv, BindBy(Csv, b"@{v},@{w}", 1, b",,"), DONE),
            Step(Csv, BindBy(Csv, b"@{v},@{w}", 0, b"12,"), DONE),
        ],
        finished: &[Step(Csv, Print(9), Printed(Err(OfHole(16, 0, 2)), b"~~~~~~~~~"))],
    },
    Script {
        name: "the sheet is used for another filling",
        under: Csv,
        template: b"a@{v}",
        filling: &[Step(Csv, Bind(0, b"x"), DONE)],
        finished: &[
            Step(Csv, Print(3), Printed(Ok(2), b"ax~")),
            Step(Csv, Refill(b"@{v}", b",x"), DONE),
            Step(Csv, Print(3), Printed(Err(OfHole(16, 0, 0)), b"~~~")),
            Step(Csv, Refill(b"@{v}", b"y"), DONE),
            Step(Csv, Print(3), Printed(Ok(2), b"ay~")),
        ],
    },
    // Of the contexts of CSV, 2 turns the comma away, and 4 and 0 every byte; the hole's own is 3.
    Script {
        name: "a bind goes by the survey that it is given",
        under: Csv,
        template: b"@{a}",
        filling: &[
            Step(
                Csv,
                BindBy(Sql, b"@{a}", 0, b"1,5"),
                Settled(Err(OfHole(13, 0, 1))),
            ),
            Step(
                Csv,
                BindBy(Shell, b"@{a}", 0, b"15"),
                Settled(Err(OfHole(13, 0, 0))),
            ),
            Step(
                Csv,
                BindBy(Csv, b"", 0, b"15"),
                Settled(Err(OfHole(13, 0, 0))),
            ),
            Step(
                Csv,
                BindBy(Sql, b"@{a}", 1, b"15"),
                Settled(Err(OfHole(10, 1, 0))),
            ),
            Step(
                Csv,
                BindBy(Sql, b"@{a}", 0, &[0; 161]),
                Settled(Err(OfHole(12, 0, 160))),
            ),
            Step(Csv, BindBy(Sql, b"@{a}", 0, b"15"), DONE),
            Step(
                Csv,
                BindBy(Csv, b"@{a}", 0, b"16"),
                Settled(Err(OfHole(11, 0, 0))),
            ),
        ],
        finished: &[Step(Csv, Print(4), Printed(Ok(4), b"\"15\""))],
    },
    Script {
        name: "a bind by a survey does not ask whether the host takes the template",
        under: Shell,
        template: b"x@{a}",
        filling: &[
            Step(Sql, BindBy(Sql, b"@{a}", 0, b"7"), DONE),
            Step(Sql, Look(0), Value(b"7")),
            Step(Sql, Judge, Judged(Ok(1))),
        ],
        finished: &[
            Step(Sql, Print(4), Printed(Err(Carrying(9, 0, 7, 1)), b"~~~~")),
            Step(Shell, Print(4), Printed(Ok(3), b"x''~")),
        ],
    },
];
