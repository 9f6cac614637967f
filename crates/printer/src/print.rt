// Printing: the text of a template with the values of a sheet, measured first, and then written.
ghost use Rattle.std.specs.Prelude.{◌≡◌, ℕ, ◌≤◌, List, length, take, IfOk};
ghost use Rattle.fault.specs.Refusal.{told};
ghost use Rattle.template.specs.Lexing.{lexed_from};
ghost use Rattle.printer.specs.Held.{rows_of};
ghost use Rattle.printer.specs.Passes.{prints, onward, walked, WalksAsPrinted};
ghost use Rattle.printer.specs.Printing.{printed, after, weight, output, ReadsBack};
ghost use Rattle.printer.specs.Rows.{value_at};
ghost use Rattle.printer.specs.Slate.{Slate, values_on};

use crate::bind::surveyed;
use crate::finished::Finished;
use crate::page::Page;
use crate::sheet::Sheet;
use crate::table::Table;
use fault::flaw::MAX_TEMPLATE;
use fault::{Fault, Flaw};
use host::Host;
use template::check::cross;
use template::item::{Hole, Item};
use template::items::{Items, Placed};

// Writes as much of the text of a template as the output has places for, and answers the length of all of it.
#[tactic(auto, using(crate::proofs::Writing::walking))]
fn walk_text<H: Host>(
    template: &[u8],
    host: &H,
    values: &Table,
    out: &mut [u8],
) -> Result<usize, Fault>
    requires { length template.now ≤ 3584 }
    ensures { after (λ n. (n, out.new)) (told result) ≡ onward 0 out.old (prints (H.meaning host.now) (value_at values.now.rows) (lexed_from template.now 0) 0 0) }
{
    let mut context = 0;
    // Only holes are counted, so `enumerate` does not serve.
    let mut holes = 0;
    let mut page = Page::default();
    for read in Items::of(template) {
        let Placed { place, item } = read?;
        match item {
            Item::Literal(byte) => {
                let (next, _) = host
                    .step(context, byte)
                    .map_err(|_| Flaw::LiteralRefused { place })?;
                page.push(byte, out);
                context = next;
            }
            Item::Hole(Hole { place, .. }) => {
                let recipe = host.recipe(context);
                let (_, next) = cross(host, context).map_err(|_| Flaw::HoleRefused { place })?;
                page.put_hole(host, &recipe, values.value(holes), holes, out)?;
                holes += 1;
                context = next;
            }
        }
    }
    Ok(page.end)
}

impl Finished<'_> {
    // Writes the text of the filling from the start of the output, and keeps the bytes after it. Where it is refused, by
    // 9, 16 or 17, nothing is written.
    pub fn print<H: Host>(&self, sheet: &Sheet<H>, out: &mut [u8]) -> Result<usize, Fault>
        ensures answer { told result ≡ weight (printed (H.meaning sheet.now.host) (value_at sheet.now.table.rows) self.now.template.now (length out.old)) }
        ensures text { out.new ≡ output out.old (printed (H.meaning sheet.now.host) (value_at sheet.now.table.rows) self.now.template.now (length out.old)) }
        ensures reads { IfOk result (λ n. ReadsBack (H.meaning sheet.now.host) (value_at sheet.now.table.rows) self.now.template.now (take n out.new)) }
        ensures short { IfOk result (λ n. n ≤ 65280) }
        ensures slate { (ss : Slate) → sheet.now.table.rows ≡ rows_of ss → (told result ≡ weight (printed (H.meaning sheet.now.host) (values_on ss) self.now.template.now (length out.old))) × (out.new ≡ output out.old (printed (H.meaning sheet.now.host) (values_on ss) self.now.template.now (length out.old))) }
    {
        surveyed(self.template, sheet.host())?;
        self.print_surveyed(sheet, out)
    }

    // The same for a caller that has surveyed the template under the sheet's host already: the template is taken as one
    // that the host accepts, and of its flaws only those are found that stop the walk.
    pub fn print_surveyed<H: Host>(&self, sheet: &Sheet<H>, out: &mut [u8]) -> Result<usize, Fault>
        ensures answer { told result ≡ weight (walked (H.meaning sheet.now.host) (value_at sheet.now.table.rows) self.now.template.now (length out.old)) }
        ensures text { out.new ≡ output out.old (walked (H.meaning sheet.now.host) (value_at sheet.now.table.rows) self.now.template.now (length out.old)) }
        ensures law { WalksAsPrinted (H.meaning sheet.now.host) (value_at sheet.now.table.rows) self.now.template.now }
    {
        if self.template.len() > MAX_TEMPLATE {
            return Err(Fault::Template(Flaw::TooLong));
        }
        // The first walk writes nothing.
        let needed = walk_text(self.template, &sheet.host, &sheet.table, &mut [])?;
        if needed > out.len() {
            return Err(Fault::OutputTooShort { needed });
        }
        walk_text(self.template, &sheet.host, &sheet.table, out)
    }
}
