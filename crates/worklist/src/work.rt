// Going down a work list: the template is checked, opened, filled line by line, finished and printed.
ghost use Rattle.std.specs.Prelude.{◌≡◌, ◌+◌, ◌≤◌, length, IfOk, vec_len, vec_capacity};
ghost use Rattle.fault.specs.Refusal.{told};
ghost use Rattle.template.specs.Judging.{verdict};
ghost use Rattle.printer.specs.Calls.{state_of, bodies_of};
ghost use Rattle.printer.specs.Held.{Tracks, judged_finish};
ghost use Rattle.printer.specs.Passes.{walked};
ghost use Rattle.printer.specs.Rows.{value_at};
ghost use Rattle.worklist.specs.Calls.{order_of, reply_of, print_of, GoneDown, AddsKept, print_after, output_after, refusal_by, verdict_refusal, LackedRoom, KeptRoom, AsFound};
ghost use Rattle.worklist.specs.Lines.{answer, next};

use crate::line::{Answer, Line};
use crate::outcome::Worked;
use fault::{Failure, Fault};
use host::Host;
use printer::filling::Filling;
use printer::open::open;
use printer::sheet::Sheet;
use template::check::check_and_survey;
use template::raw::Raw;
use template::survey::Survey;

// Does one line.
// Filling, sheet and survey come one by one, as the printer's calls take them: a struct of the three would be taken apart at each.
// A loan of a whole struct may write each field, so each call says that the host and the template stay.
// Filling, sheet and survey are no struct: its methods would each have to say that host, template and survey stay.
fn follow<H: Host>(
    filling: &mut Filling<'_>,
    sheet: &mut Sheet<H>,
    survey: &Survey,
    line: Line<'_>,
) -> Answer
    ensures slate { Tracks (state_of filling.old sheet.old.table) (state_of filling.new sheet.new.table) (reply_of result) (λ ss. answer (H.meaning sheet.old.host) (bodies_of survey.now) ss (order_of line.entry)) (λ ss. next (H.meaning sheet.old.host) (bodies_of survey.now) ss (order_of line.entry)) }
    ensures host { sheet.new.host ≡ sheet.old.host }
    ensures template { filling.new.template ≡ filling.old.template }
{
    match line {
        Line::Bind { hole, value } => filling.bind_surveyed(sheet, survey, hole, value).into(),
        Line::Release { hole } => filling.release(sheet, hole).into(),
        Line::Owed => {
            let (count, lowest) = filling.owed();
            Answer::Owed { count, lowest }
        }
    }
}

// Goes down the lines, refused ones too, and adds the answer of each, for which there is room.
fn follow_all<H: Host>(
    filling: &mut Filling<'_>,
    sheet: &mut Sheet<H>,
    survey: &Survey,
    lines: &[Line<'_>],
    answers: &mut Vec<Answer>,
)
    requires { vec_len answers.old + length lines.now ≤ vec_capacity answers.old }
    ensures slate { GoneDown (H.meaning sheet.old.host) (bodies_of survey.now) (state_of filling.old sheet.old.table) (state_of filling.new sheet.new.table) answers.old.items answers.new.items lines.now }
    ensures room { vec_capacity answers.new ≡ vec_capacity answers.old }
    ensures host { sheet.new.host ≡ sheet.old.host }
    ensures template { filling.new.template ≡ filling.old.template }
{
    // No map: each answer comes of a call that changes the filling and the sheet.
    for line in lines {
        answers.push_reserved(follow(filling, sheet, survey, *line));
    }
}

// Judges the finish, and prints where nothing is owed.
fn conclude<H: Host>(filling: Filling<'_>, sheet: &Sheet<H>, out: &mut [u8]) -> Worked
    ensures finish { told result.finish ≡ judged_finish filling.entry.holes filling.entry.owed }
    ensures print { print_of result.print ≡ print_after (judged_finish filling.entry.holes filling.entry.owed) (walked (H.meaning sheet.now.host) (value_at sheet.now.table.rows) filling.entry.template.now (length out.old)) }
    ensures text { out.new ≡ output_after (judged_finish filling.entry.holes filling.entry.owed) out.old (walked (H.meaning sheet.now.host) (value_at sheet.now.table.rows) filling.entry.template.now (length out.old)) }
{
    let finish = filling.judge_finish();
    let print = match finish {
        Ok(_) => Some(filling.finish().print_surveyed(sheet, out)),
        Err(_) => None,
    };
    Worked { finish, print }
}

// Goes down the lines on the sheet, which is cleared first, and adds the answer of each to the caller's answers; then judges
// the finish, and prints into the output where nothing is owed. Where the host refuses the template, or there is no memory
// for the answers, everything is left as it was found.
pub fn work<H: Host>(
    raw: Raw<'_>,
    sheet: &mut Sheet<H>,
    lines: &[Line<'_>],
    answers: &mut Vec<Answer>,
    out: &mut [u8],
) -> Result<Worked, Failure<Fault>>
    ensures kept { IfOk result (λ w. AddsKept (H.meaning sheet.old.host) raw.entry.template.now lines.now answers.old.items answers.new.items sheet.new.table.rows w out.old out.new) }
    ensures refused { refusal_by result ≡ verdict_refusal (verdict (H.meaning sheet.old.host) raw.entry.template.now) }
    ensures memory { LackedRoom result (vec_capacity answers.old) (vec_len answers.old + length lines.now) }
    ensures room { KeptRoom result (vec_capacity answers.old) (vec_capacity answers.new) }
    ensures found { AsFound result sheet.old.table.rows sheet.new.table.rows answers.old.items answers.new.items out.old out.new }
    ensures host { sheet.new.host ≡ sheet.old.host }
{
    let (checked, survey) = check_and_survey(raw, sheet.host())?;
    answers.reserve(lines.len())?;
    let mut filling = open(checked, sheet);
    follow_all(&mut filling, sheet, &survey, lines, answers);
    Ok(conclude(filling, sheet, out))
}
