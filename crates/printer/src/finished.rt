// A finished filling: nothing of it is owed, and it can only be printed.
ghost use Rattle.std.specs.Prelude.{◌≡◌};
ghost use Rattle.template.specs.Ends.{places_of};
ghost use Rattle.template.specs.Lexing.{ends_in, lexed_from};

use template::ends::Ends;
use template::items::Items;

#[derive(Drop)]
pub struct Finished<'t> {
    pub(crate) template: &'t [u8],
    pub(crate) holes: usize,
    pub(crate) ends: Ends,
    ghost ended: { places_of ends ≡ ends_in (lexed_from template.now 0) },
}

impl<'t> Finished<'t> {
    pub(crate) fn new(template: &'t [u8], holes: usize, ends: Ends) -> Finished<'t>
        requires { places_of ends ≡ ends_in (lexed_from template.now 0) }
        ensures template { result.template ≡ template.entry }
        ensures holes { result.holes ≡ holes }
    {
        Finished {
            template,
            holes,
            ends,
        }
    }

    // The items of the template, whose names need not be read to pass over them.
    pub(crate) fn items(&self) -> Items<'_>
        ensures template { result.template.now ≡ self.now.template.now }
        ensures at { result.at ≡ 0 }
        ensures ends { result.ends.now ≡ places_of self.now.ends }
    {
        Items::known(self.template, &self.ends)
    }

    pub fn holes(&self) -> usize
        ensures { result ≡ self.now.holes }
    {
        self.holes
    }
}
