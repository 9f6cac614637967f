// A table that borrows, for filling after filling: in place of a row with a copy of a value it has the value's bytes where they
// lie.
ghost use Rattle.std.specs.Prelude.{◌≡◌, ◌-◌, ◌<◌, ◌≤◌, true, [], length, drop, Some, slice_set};
ghost use Rattle.printer.specs.Borrowed.{rows_in};
ghost use Rattle.printer.specs.Rows.{fit, row_of, blank, value_at};

use template::survey::MAX_HOLES;

// What stands in place of a row: the bytes of its value, none where it holds nothing.
#[derive(Clone, Copy)]
pub struct BorrowedRow<'v> {
    value: &'v [u8],
}

impl<'v> BorrowedRow<'v> {
    // A row that holds nothing.
    fn empty() -> BorrowedRow<'v>
        ensures { result.value.now ≡ [] }
    {
        BorrowedRow { value: &[] }
    }
}

// The 64 rows: each value has at most 160 bytes. The rows from `used` on hold nothing, so that the table is soon cleared.
#[derive(Drop)]
pub struct BorrowedTable<'v> {
    rows: [BorrowedRow<'v>; MAX_HOLES],
    used: usize,
    ghost fits: { fit (rows_in rows) ≡ true },
    ghost all: { length rows ≡ 64 },
    ghost few: { used ≤ 64 },
    ghost rest: { rows_in (drop used rows) ≡ blank (64 - used) },
}

impl<'v> BorrowedTable<'v> {
    // A table of rows that hold nothing.
    pub fn new() -> BorrowedTable<'v>
        ensures { rows_in result.rows ≡ blank 64 }
    {
        let row = BorrowedRow::empty();
        BorrowedTable {
            rows: [row; MAX_HOLES],
            used: 0,
        }
    }

    // Makes all rows hold nothing.
    pub(crate) fn clear(&mut self)
        ensures { rows_in self.new.rows ≡ blank 64 }
    {
        while self.used > 0 {
            self.rows[self.used - 1] = BorrowedRow::empty();
            self.used -= 1;
        }
    }

    // Makes a row hold the value, and leaves the others. The value is a slice of the caller's, so its bound is asked for.
    pub(crate) fn store(&mut self, hole: usize, value: &'v [u8])
        requires within { hole < 64 }
        requires short { length value.now ≤ 160 }
        ensures { rows_in self.new.rows ≡ slice_set (rows_in self.old.rows) hole (row_of (Some value.now)) }
    {
        self.used = self.used.max(hole + 1);
        self.rows[hole] = BorrowedRow { value };
    }

    // The value of a row, and none past the last row.
    pub(crate) fn value(&self, hole: usize) -> &'v [u8]
        ensures value { result.now ≡ value_at (rows_in self.now.rows) hole }
        ensures short { length result.now ≤ 160 }
    {
        let Some(row) = self.rows.get(hole) else {
            return &[];
        };
        row.value
    }
}
