// A row of a sheet: the length and the bytes of a hole's value, with 0 past the length. It is plain, a buffer with its length
// beside it, and the table keeps the limits, by a rule of the project.
ghost use Rattle.std.specs.Prelude.{◌≡◌, ◌≤◌, length, Some, None};
ghost use Rattle.printer.specs.Rows.{row_of, value_in};

use fault::fault::MAX_VALUE;

#[derive(Clone, Copy)]
pub struct Row {
    pub len: usize,
    pub bytes: [u8; MAX_VALUE],
}

impl Row {
    // A row that holds nothing.
    #[tactic(auto, using(crate::proofs::Laid::of_zeros))]
    pub(crate) fn empty() -> Row
        ensures { result ≡ row_of None }
    {
        Row {
            len: 0,
            bytes: [0; MAX_VALUE],
        }
    }

    // The value that the row holds.
    pub(crate) fn value(&self) -> &[u8]
        requires { self.now.len ≤ 160 }
        ensures { result.now ≡ value_in self.now }
    {
        &self.bytes[..self.len]
    }

    // Makes the row hold the value.
    #[tactic(auto, using(crate::proofs::Laid::laid))]
    pub(crate) fn write(&mut self, value: &[u8])
        requires { length value.now ≤ 160 }
        ensures { self.new ≡ row_of (Some value.now) }
    {
        *self = Row::empty();
        self.bytes[..value.len()].copy_from_slice(value);
        self.len = value.len();
    }

    // Makes the row hold nothing.
    pub(crate) fn wipe(&mut self)
        ensures { self.new ≡ row_of None }
    {
        *self = Row::empty();
    }
}
