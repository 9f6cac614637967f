// Where the holes of a template end.
ghost use Rattle.std.specs.Prelude.{◌≡◌, ◌+◌, ◌<◌, ◌≤◌, ◌^◌, ◌++◌, [], ◌∷◌, take};

use crate::survey::MAX_HOLES;

// For each hole in order the place after its brace, so that no name need be read once more to pass over it.
#[derive(Clone, Copy)]
pub struct Ends {
    places: [u16; MAX_HOLES],
    len: usize,
    ghost fits: { len ≤ 64 },
}

impl Ends {
    // The ends of no holes.
    pub fn none() -> Ends
        ensures len { result.len ≡ 0 }
        ensures places { take result.len result.places ≡ [] }
    {
        Ends {
            places: [0; MAX_HOLES],
            len: 0,
        }
    }

    // One more, for which there is room, in a template that is short enough.
    pub fn push(&mut self, place: usize)
        requires room { self.old.len < 64 }
        requires short { place < 2 ^ 16 }
        ensures len { self.new.len ≡ self.old.len + 1 }
        ensures places { take self.new.len self.new.places ≡ take self.old.len self.old.places ++ place ∷ [] }
    {
        self.places[self.len] = place as u16;
        self.len += 1;
    }

    pub fn places(&self) -> &[u16]
        ensures { result.now ≡ take self.now.len self.now.places }
    {
        &self.places[..self.len]
    }
}
