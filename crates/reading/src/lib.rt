// The reading of a text, listed as fields: the kind of each token as a tag, then its bytes.
#![tactic(auto)]

ghost use Rattle.std.specs.Prelude.{◌≡◌, ◌≤◌, length};
ghost use Rattle.fault.specs.Refusal.{told};
ghost use Rattle.reading.specs.Listing.{listing, answer_of, output, RefusedRightly};
ghost use Rattle.reading.specs.Passes.{origin, measured, written};

mod cursor;
pub mod promise;

use cursor::Cursor;
use fault::Fault;
use host::Host;

// The most bytes that a text may have, so that the length of each token fits two bytes.
const MOST: usize = 65534;

// Writes as much of the fields as the output has places for, and answers the length of all of them, or the place that
// the host refuses.
#[inline(always)]
fn walk<H: Host>(host: &H, text: &[u8], out: &mut [u8]) -> Result<usize, Fault>
    requires { length text.now ≤ 65534 }
    ensures result { result ≡ measured (H.meaning host.now) text.now 0 origin 0 }
    ensures output { out.new ≡ written (H.meaning host.now) text.now 0 origin out.old }
{
    let mut context = 0;
    let mut cursor = Cursor::default();
    for (place, byte) in text.iter().enumerate() {
        let (next, effect) = host
            .step(context, *byte)
            .map_err(|_| Fault::TextRefused { place })?;
        cursor.apply(effect, out);
        context = next;
    }
    let effect = host
        .end(context)
        .map_err(|_| Fault::TextRefused { place: text.len() })?;
    cursor.apply(effect, out);
    Ok(cursor.at)
}

// Lists the reading of a text in the output, and answers the length of the listing.
pub fn list<H: Host>(host: &H, text: &[u8], out: &mut [u8]) -> Result<usize, Fault>
    ensures result { told result ≡ answer_of (listing (H.meaning host.now) text.now (length out.old)) }
    ensures output { out.new ≡ output (listing (H.meaning host.now) text.now (length out.old)) out.old }
    ensures place { RefusedRightly (H.meaning host.now) text.now }
{
    if text.len() > MOST {
        return Err(Fault::TextTooLong);
    }
    // Without an output, the walk only measures.
    let needed = walk(host, text, &mut [])?;
    if needed > out.len() {
        return Err(Fault::OutputTooShort { needed });
    }
    walk(host, text, out)
}
