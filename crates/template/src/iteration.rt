// The items of a template as an iterator.
ghost use Rattle.std.specs.Prelude.{◌-◌, length};
ghost use Rattle.std.specs.Iterator.{at_most};
ghost use Rattle.template.specs.Walk.{Reads};

use crate::item::Item;
use crate::items::{Items, Placed};
use crate::lexer::known_item_at;
use fault::Flaw;

// A fault of notation is the last that comes.
impl<'t> Iterator for Items<'t> {
    type Item = Result<Placed<'t>, Flaw>;

    ghost next_gives = { Reads };

    ghost remaining = { λ s. at_most (length s.template.now - s.at) };

    #[inline(always)]
    fn next(&mut self) -> Option<Result<Placed<'t>, Flaw>> {
        let place = self.at;
        let known = self.ends.first().copied().map(usize::from);
        match known_item_at(self.template, place, known) {
            Ok(Some((item, next))) => {
                self.at = next;
                if let Item::Hole(_) = item {
                    self.ends = self.ends.get(1..).unwrap_or(&[]);
                }
                Some(Ok(Placed { place, item }))
            }
            Ok(None) => None,
            Err(flaw) => {
                self.at = self.template.len();
                Some(Err(flaw))
            }
        }
    }
}
