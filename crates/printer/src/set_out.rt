// Printing for a caller that has surveyed the template, from values that are borrowed: by the contexts that the survey has noted,
// so that no literal is read once more.
ghost use Rattle.std.specs.Prelude.{◌≡◌, ◌≤◌, length, slice_index};
ghost use Rattle.fault.specs.Refusal.{told};
ghost use Rattle.host.specs.Answers.{bytes_of};
ghost use Rattle.template.specs.Lexing.{lexed_from};
ghost use Rattle.printer.specs.Borrowed.{rows_in};
ghost use Rattle.printer.specs.Passes.{sets_out, set_out, onward, SetOutAsPrinted};
ghost use Rattle.printer.specs.Printing.{after, weight, output};
ghost use Rattle.printer.specs.Rows.{value_at};

use crate::borrowed::BorrowedTable;
use crate::finished::Finished;
use crate::page::Page;
use fault::flaw::MAX_TEMPLATE;
use fault::{Fault, Flaw};
use host::Host;
use template::item::{Hole, Item};
use template::items::Placed;
use template::survey::Survey;

// Writes as much of the text of a template as the output has places for, and answers the length of all of it.
// Each walk has a copy of it, so that the one that only measures is spared the writing.
#[inline(always)]
#[tactic(auto, using(crate::proofs::Writing::setting_out))]
fn set_out_text<H: Host>(
    filled: &Finished<'_>,
    host: &H,
    survey: &Survey,
    values: &BorrowedTable<'_>,
    out: &mut [u8],
) -> Result<usize, Fault>
    requires { length filled.now.template.now ≤ 3584 }
    ensures { after (λ n. (n, out.new)) (told result) ≡ onward 0 out.old (sets_out (H.meaning host.now) (slice_index (bytes_of survey.now.contexts)) (value_at (rows_in values.now.rows)) (lexed_from filled.now.template.now 0) 0) }
{
    // Only holes are counted, so `enumerate` does not serve.
    let mut holes = 0;
    let mut page = Page::default();
    let mut items = filled.items();
    // Before each item that is read by itself stands a run of literals, so no `for` serves.
    loop {
        page.put_run(items.plain(), out);
        let Some(read) = items.next() else {
            return Ok(page.end);
        };
        let Placed { item, .. } = read?;
        match item {
            Item::Literal(byte) => page.push(byte, out),
            Item::Hole(Hole { place, .. }) => {
                let recipe = host.recipe(survey.context(holes));
                if !recipe.takes {
                    return Err(Fault::Template(Flaw::HoleRefused { place }));
                }
                page.put_hole(host, &recipe, values.value(holes), holes, out)?;
                holes += 1;
            }
        }
    }
}

impl Finished<'_> {
    // Prints from a table that borrows the values. The template is taken as one that the host accepts, with the contexts that the
    // survey has for its holes; of its flaws only those of notation are found, and a hole in a context that takes none.
    pub fn print_borrowed<H: Host>(
        &self,
        values: &BorrowedTable<'_>,
        host: &H,
        survey: &Survey,
        out: &mut [u8],
    ) -> Result<usize, Fault>
        ensures answer { told result ≡ weight (set_out (H.meaning host.now) (bytes_of survey.now.contexts) (value_at (rows_in values.now.rows)) self.now.template.now (length out.old)) }
        ensures text { out.new ≡ output out.old (set_out (H.meaning host.now) (bytes_of survey.now.contexts) (value_at (rows_in values.now.rows)) self.now.template.now (length out.old)) }
        ensures law { SetOutAsPrinted (H.meaning host.now) (bytes_of survey.now.contexts) (value_at (rows_in values.now.rows)) self.now.template.now }
    {
        if self.template.len() > MAX_TEMPLATE {
            return Err(Fault::Template(Flaw::TooLong));
        }
        // The first walk writes nothing.
        let needed = set_out_text(self, host, survey, values, &mut [])?;
        if needed > out.len() {
            return Err(Fault::OutputTooShort { needed });
        }
        set_out_text(self, host, survey, values, out)
    }
}
