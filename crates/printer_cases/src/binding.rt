// Values that are bound to holes, holes that are released, and what is owed.
use crate::answer::Answer::*;
use crate::answer::DONE;
use crate::script::Call::*;
use crate::script::{Script, Step};
use casework::refusal::Refusal::*;
use casework::under::Under::*;

pub static BINDING: [Script; 5] = [
    Script {
        name: "the holes that are owed count down",
        under: Sql,
        template: b"f(@{a}, @{b}, @{c});",
        filling: &[
            Step(Sql, CountOwed, Owed(3, Some(0))),
            Step(Sql, Judge, Judged(Err(OfHole(15, 0, 0)))),
            Step(Sql, Bind(1, b"two"), DONE),
            Step(Sql, CountOwed, Owed(2, Some(0))),
            Step(Sql, Bind(0, b"one"), DONE),
            Step(Sql, CountOwed, Owed(1, Some(2))),
            Step(Sql, Judge, Judged(Err(OfHole(15, 2, 0)))),
            Step(Sql, Bind(2, b""), DONE),
            Step(Sql, CountOwed, Owed(0, None)),
            Step(Sql, Judge, Judged(Ok(3))),
        ],
        finished: &[Step(Sql, Print(20), Printed(Ok(20), b"f('one', 'two', '');"))],
    },
    Script {
        name: "a hole that is released and bound again",
        under: Sql,
        template: b"f(@{a}, @{b})",
        filling: &[
            Step(Sql, Bind(0, b"a longer value"), DONE),
            Step(Sql, Bind(1, b"kept"), DONE),
            Step(Sql, Release(0), DONE),
            Step(Sql, Look(0), Value(b"")),
            Step(Sql, Look(1), Value(b"kept")),
            Step(Sql, CountOwed, Owed(1, Some(0))),
            Step(Sql, Judge, Judged(Err(OfHole(15, 0, 0)))),
            Step(Sql, Bind(0, b"new"), DONE),
            Step(Sql, Look(0), Value(b"new")),
            Step(Sql, Judge, Judged(Ok(2))),
        ],
        finished: &[Step(Sql, Print(16), Printed(Ok(16), b"f('new', 'kept')"))],
    },
    // 11 comes before 12 and 13.
    Script {
        name: "a hole that is bound twice",
        under: Shell,
        template: b"echo @{a}",
        filling: &[
            Step(Shell, Bind(0, b"x"), DONE),
            Step(Shell, Bind(0, b"y"), Settled(Err(OfHole(11, 0, 0)))),
            Step(Shell, Bind(0, b""), Settled(Err(OfHole(11, 0, 0)))),
            Step(Shell, Bind(0, &[b'y'; 161]), Settled(Err(OfHole(11, 0, 0)))),
            Step(Shell, Bind(0, b"\x00"), Settled(Err(OfHole(11, 0, 0)))),
            Step(Shell, Look(0), Value(b"x")),
            Step(Shell, CountOwed, Owed(0, None)),
        ],
        finished: &[Step(Shell, Print(8), Printed(Ok(8), b"echo 'x'"))],
    },
    Script {
        name: "an owed hole that is released",
        under: Csv,
        template: b"@{a},@{b}",
        filling: &[
            Step(Csv, Release(0), Settled(Err(OfHole(14, 0, 0)))),
            Step(Csv, Bind(0, b"x"), DONE),
            Step(Csv, Release(1), Settled(Err(OfHole(14, 1, 0)))),
            Step(Csv, Look(0), Value(b"x")),
            Step(Csv, CountOwed, Owed(1, Some(1))),
            Step(Csv, Release(0), DONE),
            Step(Csv, Release(0), Settled(Err(OfHole(14, 0, 0)))),
            Step(Csv, CountOwed, Owed(2, Some(0))),
        ],
        finished: &[],
    },
    Script {
        name: "a refusal changes neither rows nor what is owed",
        under: Sql,
        template: b"f(@{a}, @{b}, @{c})",
        filling: &[
            Step(Sql, Bind(0, b"one"), DONE),
            Step(Sql, Bind(2, b"three"), DONE),
            Step(Sql, Bind(0, b"x"), Settled(Err(OfHole(11, 0, 0)))),
            Step(Sql, Bind(1, &[b'x'; 161]), Settled(Err(OfHole(12, 1, 160)))),
            Step(Sql, Bind(1, b"a\x00"), Settled(Err(OfHole(13, 1, 1)))),
            Step(Sql, Bind(3, b"x"), Settled(Err(OfHole(10, 3, 0)))),
            Step(Sql, Release(1), Settled(Err(OfHole(14, 1, 0)))),
            Step(Sql, Release(3), Settled(Err(OfHole(10, 3, 0)))),
            Step(Sql, Look(0), Value(b"one")),
            Step(Sql, Look(1), Value(b"")),
            Step(Sql, Look(2), Value(b"three")),
            Step(Sql, Look(3), Value(b"")),
            Step(Sql, CountOwed, Owed(1, Some(1))),
            Step(Sql, Judge, Judged(Err(OfHole(15, 1, 0)))),
            Step(Sql, Bind(1, b"two"), DONE),
        ],
        finished: &[Step(Sql, Print(24), Printed(Ok(24), b"f('one', 'two', 'three')"))],
    },
];
