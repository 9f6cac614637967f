// The sheet: a host and a table of values. A filling says which of its rows may change.
ghost use Rattle.std.specs.Prelude.{◌≡◌, ℕ, ◌≤◌, List, length};
ghost use Rattle.printer.specs.Held.{rows_of};
ghost use Rattle.printer.specs.Rows.{blank, value_at};
ghost use Rattle.printer.specs.Slate.{Slate, values_on};

use crate::table::Table;
use host::Host;

// A sheet keeps its host, and for each hole a row with the value that is bound to it.
#[derive(Drop)]
pub struct Sheet<H> {
    pub(crate) host: H,
    pub(crate) table: Table,
}

impl<H: Host> Sheet<H> {
    // A cleared sheet of a host.
    pub fn new(host: H) -> Sheet<H>
        ensures host { result.host ≡ host }
        ensures rows { result.table.rows ≡ blank 64 }
    {
        Sheet {
            host,
            table: Table::new(),
        }
    }

    pub fn host(&self) -> &H
        ensures { result.now ≡ self.now.host }
    {
        &self.host
    }

    // Sets all lengths and bytes to 0.
    pub fn clear(&mut self)
        ensures rows { self.new.table.rows ≡ blank 64 }
        ensures host { self.new.host ≡ self.old.host }
    {
        self.table.clear();
    }

    // The value in the row of a hole, empty where there is none. On a sheet that holds a slate it is the slate's.
    #[tactic(auto, using(crate::proofs::Linked::rows_hold))]
    pub fn value(&self, hole: usize) -> &[u8]
        ensures value { result.now ≡ value_at self.now.table.rows hole }
        ensures slate { (ss : Slate) → self.now.table.rows ≡ rows_of ss → result.now ≡ values_on ss hole }
    {
        self.table.value(hole)
    }
}
