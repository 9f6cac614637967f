// How far a text has come, and how it is written.
ghost use Rattle.std.specs.Prelude.{◌≡◌, ◌+◌, ◌*◌, ◌^◌, ◌<◌, ◌≤◌, [], ◌∷◌, length};
ghost use Rattle.host.specs.Answers.{brackets_of};
ghost use Rattle.fault.specs.Refusal.{told};
ghost use Rattle.printer.specs.Passes.{spelt_out, overlaid, framed, onward};
ghost use Rattle.printer.specs.Printing.{after};

use fault::Fault;
use host::Host;
use host::effect::Recipe;

// The text ends at `end`, also where the output does not reach so far. The output comes with each call: as a field it would hold
// its loan through the walk, and each clause would speak of it through that.
// A value is a slice of the caller's, so each call asks for its bound.
#[derive(Clone, Copy, Default)]
pub struct Page {
    pub end: usize,
}

impl Page {
    // Adds a byte, and writes it if the output has a place for it.
    #[inline(always)]
    #[tactic(auto, using(crate::proofs::Writing::overlaid_byte, crate::proofs::Writing::overlaid_past))]
    pub fn push(&mut self, byte: u8, out: &mut [u8])
        requires { self.old.end + 1 < 2 ^ 64 }
        ensures end { self.new.end ≡ self.old.end + 1 }
        ensures output { out.new ≡ overlaid out.old self.old.end (byte ∷ []) }
    {
        if self.end < out.len() {
            out[self.end] = byte;
        }
        self.end += 1;
    }

    // Adds bytes, and writes as many of them as the output has places for.
    #[tactic(auto, using(crate::proofs::Writing::overlaid_copy, crate::proofs::Writing::overlaid_past))]
    pub fn put_run(&mut self, bytes: &[u8], out: &mut [u8])
        requires { self.old.end < 2 ^ 32 }
        ensures end { self.new.end ≡ self.old.end + length bytes.now }
        ensures output { out.new ≡ overlaid out.old self.old.end bytes.now }
    {
        if self.end < out.len() {
            let room = bytes.len().min(out.len() - self.end);
            out[self.end..self.end + room].copy_from_slice(&bytes[..room]);
        }
        self.end += bytes.len();
    }

    // The same for a row that is short: each byte is written by itself.
    #[inline(always)]
    #[tactic(auto, using(crate::proofs::Writing::overlaid_step, crate::proofs::Writing::overlaid_done))]
    pub fn put(&mut self, bytes: &[u8], out: &mut [u8])
        requires { self.old.end < 2 ^ 32 }
        ensures end { self.new.end ≡ self.old.end + length bytes.now }
        ensures output { out.new ≡ overlaid out.old self.old.end bytes.now }
    {
        for byte in bytes {
            self.push(*byte, out);
        }
    }

    // Adds the value of a hole as its body spells it.
    #[inline(always)]
    #[tactic(auto, using(crate::proofs::Writing::onward_byte, crate::proofs::Writing::onward_all))]
    pub fn put_value<H: Host>(
        &mut self,
        host: &H,
        body: u8,
        value: &[u8],
        hole: usize,
        out: &mut [u8],
    ) -> Result<(), Fault>
        requires start { self.old.end < 2 ^ 31 }
        requires short { length value.now ≤ 160 }
        ensures bound { self.new.end ≤ self.old.end + 960 }
        ensures text { after (λ done. (self.new.end, out.new)) (told result) ≡ onward self.old.end out.old (spelt_out (H.meaning host.now) body hole 0 value.now) }
    {
        for (place, byte) in value.iter().enumerate() {
            let spelling = host.spelling(body, *byte);
            if !spelling.spells {
                return Err(Fault::StoredByteTurnedAway { hole, place });
            }
            self.put(spelling.bytes.as_slice(), out);
        }
        Ok(())
    }

    // Adds a hole with its value: its opener, the value as its body spells it, and its closer.
    #[inline(always)]
    pub fn put_hole<H: Host>(
        &mut self,
        host: &H,
        recipe: &Recipe,
        value: &[u8],
        hole: usize,
        out: &mut [u8],
    ) -> Result<(), Fault>
        requires start { self.old.end < 2 ^ 30 }
        requires short { length value.now ≤ 160 }
        ensures bound { self.new.end ≤ self.old.end + 968 }
        ensures text { after (λ done. (self.new.end, out.new)) (told result) ≡ onward self.old.end out.old (framed (brackets_of recipe.now) (spelt_out (H.meaning host.now) recipe.now.body hole 0 value.now)) }
    {
        self.put(recipe.opener.as_slice(), out);
        self.put_value(host, recipe.body, value, hole, out)?;
        self.put(recipe.closer.as_slice(), out);
        Ok(())
    }
}
