// How far a listing has come, and what an effect writes there.
ghost use Rattle.std.specs.Prelude.{◌≡◌, ◌+◌, ◌^◌, ◌<◌, slice_set};
ghost use Rattle.reading.specs.Cursors.{close_cursor, after_cursor, write_close, write_effect};

use host::effect::{Effect, Middle};

// The fields of the closed tokens end at `at`, and the open token holds so many bytes. The output comes with each call: as a field
// it would hold its loan through the walk, and each clause would speak of it through that.
#[derive(Clone, Copy, Default)]
pub struct Cursor {
    pub at: usize,
    pub held: u16,
}

impl Cursor {
    // Ends the open token, if there is a closing: its kind and its length go before its bytes.
    #[inline(always)]
    fn close(&mut self, kind: Option<u8>, out: &mut [u8])
        requires { self.old.at < 2 ^ 33 }
        ensures cursor { self.new ≡ close_cursor kind self.old }
        ensures output { out.new ≡ write_close kind self.old out.old }
    {
        let Some(kind) = kind else { return };
        let [high, low] = self.held.to_be_bytes();
        put(out, self.at, kind);
        put(out, self.at + 1, high);
        put(out, self.at + 2, low);
        self.at += 3 + usize::from(self.held);
        self.held = 0;
    }

    // Does what an effect says: a closing, a middle and a closing.
    #[inline(always)]
    pub fn apply(&mut self, effect: Effect, out: &mut [u8])
        requires at { self.old.at < 2 ^ 32 }
        requires held { self.old.held < 65535 }
        ensures cursor { self.new ≡ after_cursor effect self.old }
        ensures output { out.new ≡ write_effect effect self.old out.old }
    {
        self.close(effect.first, out);
        if let Middle::Keep(byte) = effect.middle {
            put(out, self.at + 3 + usize::from(self.held), byte);
            self.held += 1;
        }
        self.close(effect.last, out);
    }
}

// Writes a byte at a place, if the output has it.
#[inline(always)]
fn put(out: &mut [u8], place: usize, byte: u8)
    ensures { out.new ≡ slice_set out.old place byte }
{
    if place < out.len() {
        out[place] = byte;
    }
}
