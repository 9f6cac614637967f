// Merging: a record of the input is filled into a template, and the text is printed.
#![tactic(auto)]

ghost use Rattle.std.specs.Prelude.{◌≡◌, length, take};
ghost use Rattle.host.specs.Answers.{bytes_of};
ghost use Rattle.template.specs.Judging.{contexts_in, verdict, survey_of};
ghost use Rattle.template.specs.Lexing.{lexed_from};
ghost use Rattle.printer.specs.Calls.{borrowed_state};
ghost use Rattle.printer.specs.Rows.{blank};
ghost use Rattle.merge.specs.Answers.{merged_of, completed_of, weighed, weighed_one, written, laid_over, came_to, source_pairs, bind_pieces};
ghost use Rattle.merge.specs.Law.{ReadsAsRecord, WhereMerged};
ghost use Rattle.merge.specs.Merging.{with_pairs, merged};

pub mod many;
mod memory;
pub mod merged;
mod prepared;
mod source;

use fault::Fault;
use host::Host;
use memory::Memory;
use merged::Merged;
use prepared::Prepared;
use printer::borrowed::BorrowedTable;
use printer::filling::Filling;
use printer::open::open_borrowed;
use printer::sheet::Sheet;
use record::shape::State;
use source::Source;
use template::check::check_and_survey;
use template::checked::Checked;
use template::item::{Hole, Item};
use template::items::Placed;
use template::raw::Raw;
use template::survey::Survey;

// Binds each hole of the template, in order, to the record's value of its name.
// Filling, table and survey come one by one, as the printer's calls take them: a struct of the three would be taken apart at each.
// A loan of a whole struct may write each field, so each call says that the template stays.
fn bind_all<'v, H: Host>(
    checked: &Checked<'_>,
    filling: &mut Filling<'_>,
    table: &mut BorrowedTable<'v>,
    host: &H,
    survey: &Survey,
    source: &Source<'v, '_>,
) -> Result<(), Fault>
    ensures came { came_to result (borrowed_state filling.new table.new) ≡ bind_pieces (H.meaning host.now) (survey_of survey.now) (source_pairs source.now) source.now.found.now.end (borrowed_state filling.old table.old) 0 (lexed_from checked.now.template.now 0) }
    ensures template { filling.new.template ≡ filling.old.template }
{
    let place = source.found.end;
    // Only holes are counted, so `enumerate` does not serve.
    let mut hole = 0;
    let mut items = checked.items();
    // Runs of literals are passed over at once, so no `for` serves.
    loop {
        items.plain();
        let Some(read) = items.next() else {
            return Ok(());
        };
        let Placed { item, .. } = read?;
        if let Item::Hole(Hole { name, .. }) = item {
            let value = source
                .value_of(name)
                .ok_or(Fault::NameMissing { hole, place })?;
            filling.bind_borrowed(table, host, survey, hole, value)?;
            hole += 1;
        }
    }
}

// Opens a filling of the template, binds its holes, finishes and prints it. The values stay in the input, where they lie.
#[tactic(auto, using(crate::proofs::Steps::pieces_bound))]
fn fill_in<'v, H: Host>(
    prepared: &Prepared<'_, '_, H>,
    table: &mut BorrowedTable<'v>,
    source: &Source<'v, '_>,
    out: &mut [u8],
) -> Result<Merged, Fault>
    ensures answer { completed_of result ≡ weighed_one (with_pairs (H.meaning prepared.now.host.now) (survey_of prepared.now.survey) prepared.now.checked.template.now prepared.now.survey.bodies.len (length out.old) (source_pairs source.now) source.now.found.now.end source.now.found.now.next) }
    ensures text { out.new ≡ laid_over out.old (with_pairs (H.meaning prepared.now.host.now) (survey_of prepared.now.survey) prepared.now.checked.template.now prepared.now.survey.bodies.len (length out.old) (source_pairs source.now) source.now.found.now.end source.now.found.now.next) }
{
    let Prepared {
        checked,
        survey,
        ..
    } = prepared;
    let host = prepared.host;
    let mut filling = open_borrowed(checked, table);
    bind_all(checked, &mut filling, table, host, survey, source)?;
    filling.judge_finish()?;
    let len = filling.finish().print_borrowed(table, host, survey, out)?;
    Ok(Merged {
        next: source.found.next,
        len,
    })
}

// Merges the record that the reader reads at a place of the input, into a template that the host has accepted.
#[tactic(auto, using(crate::proofs::Steps::comes_found, crate::proofs::Steps::comes_none, crate::proofs::Steps::comes_refused, crate::proofs::Steps::weighed_some, crate::proofs::Steps::written_some))]
pub(crate) fn merge_prepared<'v, H: Host>(
    prepared: &Prepared<'_, '_, H>,
    memory: &mut Memory<'v>,
    input: &'v [u8],
    place: usize,
    out: &mut [u8],
) -> Result<Option<Merged>, Fault>
    ensures answer { merged_of result ≡ weighed (merged (H.meaning prepared.now.host.now) prepared.now.checked.template.now input.now place (length out.old)) }
    ensures text { out.new ≡ written out.old (merged (H.meaning prepared.now.host.now) prepared.now.checked.template.now input.now place (length out.old)) }
{
    let Memory { reader, table } = memory;
    reader.read(input, place);
    let found = reader.found();
    match found.state {
        State::Found => {
            let source = Source { input, found };
            fill_in(prepared, table, &source, out).map(Some)
        }
        State::End => Ok(None),
        State::Refused => Err(found.fault),
    }
}

// Merges the record at a place of the input into the template, for a caller that has a host and no sheet: the text is written
// from the start of the output. Where the input ends there, or where it is refused, the output stays as it was.
pub fn merge_under<H: Host>(
    template: Raw<'_>,
    host: &H,
    input: &[u8],
    place: usize,
    out: &mut [u8],
) -> Result<Option<Merged>, Fault>
    ensures answer { merged_of result ≡ weighed (merged (H.meaning host.now) template.entry.template.now input.now place (length out.old)) }
    ensures text { out.new ≡ written out.old (merged (H.meaning host.now) template.entry.template.now input.now place (length out.old)) }
    ensures law { WhereMerged result (λ x. ReadsAsRecord (H.meaning host.now) template.entry.template.now input.now place x.next (take x.len out.new)) }
{
    let (checked, survey) = check_and_survey(template, host)?;
    let prepared = Prepared {
        checked,
        survey,
        host,
    };
    merge_prepared(&prepared, &mut Memory::new(), input, place, out)
}

// Merges likewise under the host of a sheet, and clears the sheet at the end in any case.
pub fn merge<H: Host>(
    template: Raw<'_>,
    sheet: &mut Sheet<H>,
    input: &[u8],
    place: usize,
    out: &mut [u8],
) -> Result<Option<Merged>, Fault>
    ensures answer { merged_of result ≡ weighed (merged (H.meaning sheet.old.host) template.entry.template.now input.now place (length out.old)) }
    ensures text { out.new ≡ written out.old (merged (H.meaning sheet.old.host) template.entry.template.now input.now place (length out.old)) }
    ensures rows { sheet.new.table.rows ≡ blank 64 }
    ensures host { sheet.new.host ≡ sheet.old.host }
    ensures law { WhereMerged result (λ x. ReadsAsRecord (H.meaning sheet.old.host) template.entry.template.now input.now place x.next (take x.len out.new)) }
{
    let answer = merge_under(template, sheet.host(), input, place, out);
    sheet.clear();
    answer
}
