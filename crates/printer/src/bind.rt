// Binding values to the holes of a filling, and releasing them.
ghost use Rattle.std.specs.Prelude.{◌≡◌, None};
ghost use Rattle.std.specs.List.{prefix_len};
ghost use Rattle.template.specs.Judging.{verdict};
ghost use Rattle.printer.specs.Calls.{state_of, borrowed_state, refusal_in, bodies_of, surveyed_of, fitting_host};
ghost use Rattle.printer.specs.Held.{Tracks, TracksUnder, owed_bit, filled, freed, judged_bind, judged_release};
ghost use Rattle.printer.specs.Rows.{value_at};
ghost use Rattle.printer.specs.Slate.{spells, settled, judge_bind_lem, judge_release_lem, verdict_bind, verdict_release, bound, released};

use crate::borrowed::BorrowedTable;
use crate::filling::Filling;
use crate::sheet::Sheet;
use fault::Fault;
use fault::fault::MAX_VALUE;
use host::Host;
use template::check::survey;
use template::survey::Survey;

// The holes of a template and their bodies under the host of a sheet; 9 where that host refuses it.
pub(crate) fn surveyed<H: Host>(template: &[u8], host: &H) -> Result<Survey, Fault>
    ensures { surveyed_of result ≡ fitting_host (verdict (H.meaning host.now) template.now) }
{
    survey(template, host).map_err(Fault::Unfit)
}

// How many bytes of the value come before the first that the body turns away.
fn spelled<H: Host>(host: &H, body: u8, value: &[u8]) -> usize
    ensures { result ≡ prefix_len (spells (H.meaning host.now) body) value.now }
{
    value
        .iter()
        .take_while(|byte| host.spelling(body, **byte).spells)
        .count()
}

// Each call takes the filling and the sheet apart by a rule of the project. A loan of a whole struct may write each field, so
// each call says that the host and the template stay.
impl Filling<'_> {
    // Whether a hole may have a value: 10 to 13, in this order.
    fn judge_bind<H: Host>(
        &self,
        host: &H,
        survey: &Survey,
        hole: usize,
        value: &[u8],
    ) -> Result<(), Fault>
        ensures { refusal_in result ≡ judge_bind_lem (H.meaning host.now) (bodies_of survey.now) self.now.holes (owed_bit self.now.owed hole) hole value.now }
    {
        if hole >= self.holes {
            return Err(Fault::NoSuchHole { hole });
        }
        if !self.owes(hole) {
            return Err(Fault::NotOwed { hole });
        }
        if value.len() > MAX_VALUE {
            return Err(Fault::ValueTooLong { hole });
        }
        let place = spelled(host, survey.body(hole), value);
        if place < value.len() {
            return Err(Fault::ByteTurnedAway { hole, place });
        }
        Ok(())
    }

    // Whether a hole may be released: 10 and 14.
    fn judge_release(&self, hole: usize) -> Result<(), Fault>
        ensures { refusal_in result ≡ judge_release_lem self.now.holes (owed_bit self.now.owed hole) hole }
    {
        if hole >= self.holes {
            return Err(Fault::NoSuchHole { hole });
        }
        if self.owes(hole) {
            return Err(Fault::AlreadyOwed { hole });
        }
        Ok(())
    }

    // Stores a value into the row of an owed hole, which is then no longer owed.
    pub fn bind<H: Host>(
        &mut self,
        sheet: &mut Sheet<H>,
        hole: usize,
        value: &[u8],
    ) -> Result<(), Fault>
        ensures told { refusal_in result ≡ judged_bind (H.meaning sheet.old.host) self.old.template.now (state_of self.old sheet.old.table) hole value.now }
        ensures state { state_of self.new sheet.new.table ≡ settled (refusal_in result) (filled (state_of self.old sheet.old.table) hole value.now) (state_of self.old sheet.old.table) }
        ensures host { sheet.new.host ≡ sheet.old.host }
        ensures template { self.new.template ≡ self.old.template }
        ensures slate { TracksUnder (verdict (H.meaning sheet.old.host) self.old.template.now) (state_of self.old sheet.old.table) (state_of self.new sheet.new.table) (refusal_in result) (λ bodies ss. verdict_bind (H.meaning sheet.old.host) bodies ss hole value.now) (λ bodies ss. bound (H.meaning sheet.old.host) bodies ss hole value.now) }
        ensures held { refusal_in result ≡ None → value_at sheet.new.table.rows hole ≡ value.now }
    {
        let survey = surveyed(self.template, sheet.host())?;
        self.bind_surveyed(sheet, &survey, hole, value)
    }

    // The same for a caller that has surveyed the template under the sheet's host already, by what that survey says.
    pub fn bind_surveyed<H: Host>(
        &mut self,
        sheet: &mut Sheet<H>,
        survey: &Survey,
        hole: usize,
        value: &[u8],
    ) -> Result<(), Fault>
        ensures told { refusal_in result ≡ judge_bind_lem (H.meaning sheet.old.host) (bodies_of survey.now) self.old.holes (owed_bit self.old.owed hole) hole value.now }
        ensures state { state_of self.new sheet.new.table ≡ settled (refusal_in result) (filled (state_of self.old sheet.old.table) hole value.now) (state_of self.old sheet.old.table) }
        ensures host { sheet.new.host ≡ sheet.old.host }
        ensures template { self.new.template ≡ self.old.template }
        ensures slate { Tracks (state_of self.old sheet.old.table) (state_of self.new sheet.new.table) (refusal_in result) (λ ss. verdict_bind (H.meaning sheet.old.host) (bodies_of survey.now) ss hole value.now) (λ ss. bound (H.meaning sheet.old.host) (bodies_of survey.now) ss hole value.now) }
        ensures held { refusal_in result ≡ None → value_at sheet.new.table.rows hole ≡ value.now }
    {
        self.judge_bind(&sheet.host, survey, hole, value)?;
        self.settle(hole);
        sheet.table.store(hole, value);
        Ok(())
    }

    // The same on a table that borrows the value.
    pub fn bind_borrowed<'v, H: Host>(
        &mut self,
        table: &mut BorrowedTable<'v>,
        host: &H,
        survey: &Survey,
        hole: usize,
        value: &'v [u8],
    ) -> Result<(), Fault>
        ensures told { refusal_in result ≡ judge_bind_lem (H.meaning host.now) (bodies_of survey.now) self.old.holes (owed_bit self.old.owed hole) hole value.now }
        ensures state { borrowed_state self.new table.new ≡ settled (refusal_in result) (filled (borrowed_state self.old table.old) hole value.now) (borrowed_state self.old table.old) }
        ensures template { self.new.template ≡ self.old.template }
    {
        self.judge_bind(host, survey, hole, value)?;
        self.settle(hole);
        table.store(hole, value);
        Ok(())
    }

    // Clears the row of a hole that has its value, and the hole is owed again.
    pub fn release<H: Host>(&mut self, sheet: &mut Sheet<H>, hole: usize) -> Result<(), Fault>
        ensures told { refusal_in result ≡ judged_release (state_of self.old sheet.old.table) hole }
        ensures state { state_of self.new sheet.new.table ≡ settled (refusal_in result) (freed (state_of self.old sheet.old.table) hole) (state_of self.old sheet.old.table) }
        ensures host { sheet.new.host ≡ sheet.old.host }
        ensures template { self.new.template ≡ self.old.template }
        ensures slate { Tracks (state_of self.old sheet.old.table) (state_of self.new sheet.new.table) (refusal_in result) (λ ss. verdict_release ss hole) (λ ss. released ss hole) }
    {
        self.judge_release(hole)?;
        self.reopen(hole);
        sheet.table.erase(hole);
        Ok(())
    }
}
