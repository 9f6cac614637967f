// What merging uses again for record after record.
ghost use Rattle.std.specs.Prelude.{◌≡◌};
ghost use Rattle.printer.specs.Borrowed.{rows_in};
ghost use Rattle.printer.specs.Rows.{blank};
ghost use Rattle.record.specs.Answers.{unread};

use printer::borrowed::BorrowedTable;
use record::Reader;

// What is read of a record, and the table of its values, which lie in the input.
#[derive(Drop)]
pub struct Memory<'v> {
    pub reader: Reader,
    pub table: BorrowedTable<'v>,
}

impl<'v> Memory<'v> {
    // Of no record yet.
    pub fn new() -> Memory<'v>
        ensures reader { result.reader.found ≡ unread }
        ensures table { rows_in result.table.rows ≡ blank 64 }
    {
        Memory {
            reader: Reader::new(),
            table: BorrowedTable::new(),
        }
    }
}
