// Opening a filling of a checked template.
ghost use Rattle.std.specs.Prelude.{◌≡◌};
ghost use Rattle.printer.specs.Calls.{state_of, borrowed_state};
ghost use Rattle.printer.specs.Held.{Holds, opened};
ghost use Rattle.printer.specs.Slate.{fresh};

use crate::borrowed::BorrowedTable;
use crate::filling::Filling;
use crate::sheet::Sheet;
use host::Host;
use template::checked::Checked;

// Clears the sheet, and starts a filling of the template in which every hole is owed.
pub fn open<'t, H: Host>(checked: Checked<'t>, sheet: &mut Sheet<H>) -> Filling<'t>
    ensures template { result.template.now ≡ checked.entry.template.now }
    ensures state { state_of result sheet.new.table ≡ opened checked.entry.holes }
    ensures host { sheet.new.host ≡ sheet.old.host }
    ensures slate { Holds (state_of result sheet.new.table) (fresh checked.entry.holes) }
{
    sheet.clear();
    Filling::new(&checked)
}

// Does likewise with a table that borrows the values, in place of a sheet. The checked template is left with the caller, who may
// fill it once more.
pub fn open_borrowed<'t>(checked: &Checked<'t>, table: &mut BorrowedTable<'_>) -> Filling<'t>
    ensures template { result.template.now ≡ checked.now.template.now }
    ensures state { borrowed_state result table.new ≡ opened checked.now.holes }
{
    table.clear();
    Filling::new(checked)
}
