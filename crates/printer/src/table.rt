// The table of the 64 rows of a sheet: each length is at most 160, and the bytes past it are 0.
ghost use Rattle.std.specs.Prelude.{◌≡◌, ◌<◌, ◌≤◌, true, length, Some, None, slice_set};
ghost use Rattle.printer.specs.Rows.{fit, row_of, blank, value_at};

use crate::row::Row;
use template::survey::MAX_HOLES;

#[derive(Drop)]
pub struct Table {
    rows: [Row; MAX_HOLES],
    ghost fits: { fit rows ≡ true },
    ghost all: { length rows ≡ 64 },
}

impl Table {
    // A table of empty rows.
    pub(crate) fn new() -> Table
        ensures { result.rows ≡ blank 64 }
    {
        let row = Row::empty();
        Table {
            rows: [row; MAX_HOLES],
        }
    }

    // Sets all lengths and bytes to 0.
    pub(crate) fn clear(&mut self)
        ensures { self.new.rows ≡ blank 64 }
    {
        *self = Table::new();
    }

    // Stores a value into a row, and leaves the others. A change copies the rows and writes the table whole, by a rule of the
    // project. The value is a slice of the caller's, so its bound is asked for.
    pub(crate) fn store(&mut self, hole: usize, value: &[u8])
        requires within { hole < 64 }
        requires short { length value.now ≤ 160 }
        ensures { self.new.rows ≡ slice_set self.old.rows hole (row_of (Some value.now)) }
    {
        let mut rows = self.rows;
        rows[hole].write(value);
        *self = Table { rows };
    }

    // Clears a row, and leaves the others.
    pub(crate) fn erase(&mut self, hole: usize)
        requires { hole < 64 }
        ensures { self.new.rows ≡ slice_set self.old.rows hole (row_of None) }
    {
        let mut rows = self.rows;
        rows[hole].wipe();
        *self = Table { rows };
    }

    // The value in a row, and none past the last row.
    pub(crate) fn value(&self, hole: usize) -> &[u8]
        ensures { result.now ≡ value_at self.now.rows hole }
    {
        let Some(row) = self.rows.get(hole) else {
            return &[];
        };
        row.value()
    }
}
