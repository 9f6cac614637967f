// Outputs that are too short, fit or are longer, and a finished filling that is printed again.
use crate::answer::Answer::*;
use crate::answer::DONE;
use crate::script::Call::*;
use crate::script::{Script, Step};
use casework::refusal::Refusal::*;
use casework::under::Under::*;

pub static PRINTING: [Script; 4] = [
    Script {
        name: "outputs of other lengths than the text",
        under: Sql,
        template: b"f(@{a})",
        filling: &[Step(Sql, Bind(0, b"x"), DONE)],
        finished: &[
            Step(Sql, Print(0), Printed(Err(Plain(17, 6)), b"")),
            Step(Sql, Print(5), Printed(Err(Plain(17, 6)), b"~~~~~")),
            Step(Sql, Print(6), Printed(Ok(6), b"f('x')")),
            Step(Sql, Print(7), Printed(Ok(6), b"f('x')~")),
            Step(Sql, Print(9), Printed(Ok(6), b"f('x')~~~")),
            Step(Sql, PrintSurveyed(5), Printed(Err(Plain(17, 6)), b"~~~~~")),
            Step(Sql, PrintSurveyed(6), Printed(Ok(6), b"f('x')")),
            Step(Sql, PrintSurveyed(9), Printed(Ok(6), b"f('x')~~~")),
        ],
    },
    Script {
        name: "printed twice, and again when the sheet has changed",
        under: Sql,
        template: b"f(@{a})",
        filling: &[Step(Sql, Bind(0, b"x"), DONE)],
        finished: &[
            Step(Sql, Print(6), Printed(Ok(6), b"f('x')")),
            Step(Sql, Print(6), Printed(Ok(6), b"f('x')")),
            Step(Sql, Look(0), Value(b"x")),
            Step(Sql, Clear, DONE),
            Step(Sql, Print(6), Printed(Ok(5), b"f('')~")),
            Step(Sql, Refill(b"'@{v}'", b"y'"), DONE),
            Step(Sql, Print(8), Printed(Ok(8), b"f('y''')")),
        ],
    },
    // What a value has is no item of a template.
    Script {
        name: "escapes, and a value that looks like one",
        under: Shell,
        template: b"\"@@@n\" @{a}@n",
        filling: &[Step(Shell, Bind(0, b"@n@{a}"), DONE)],
        finished: &[
            Step(
                Shell,
                Print(13),
                Printed(Err(Plain(17, 14)), b"~~~~~~~~~~~~~"),
            ),
            Step(Shell, Print(14), Printed(Ok(14), b"\"@\n\" '@n@{a}'\n")),
        ],
    },
    Script {
        name: "literals alone",
        under: Sql,
        template: b"SELECT 1",
        filling: &[Step(Sql, Judge, Judged(Ok(0)))],
        finished: &[
            Step(Sql, Print(7), Printed(Err(Plain(17, 8)), b"~~~~~~~")),
            Step(Sql, Print(8), Printed(Ok(8), b"SELECT 1")),
        ],
    },
];
