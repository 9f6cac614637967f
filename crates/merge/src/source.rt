// Where the values of a merge come from.
ghost use Rattle.std.specs.Prelude.{◌≡◌};
ghost use Rattle.std.specs.Option.{option_map};
ghost use Rattle.record.specs.Answers.{value_of};
ghost use Rattle.merge.specs.Answers.{source_pairs};

use record::shape::Record;
use record::table::{find, part};

// A record that was found, with the input that it was read from.
#[derive(Clone, Copy)]
pub struct Source<'v, 'f> {
    pub input: &'v [u8],
    pub found: &'f Record,
}

impl<'v> Source<'v, '_> {
    // The record's value of a name.
    pub fn value_of(&self, name: &[u8]) -> Option<&'v [u8]>
        ensures { option_map (λ v. v.now) result ≡ value_of name.now (source_pairs self.now) }
    {
        find(self.input, self.found, name).map(|value| part(self.input, value))
    }
}
