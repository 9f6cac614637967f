// The items of a template, one after the other.
ghost use Rattle.std.specs.Prelude.{◌≡◌, ◌+◌, ◌≤◌, false, [], length, take, drop};
ghost use Rattle.std.specs.List.{prefix_len};
ghost use Rattle.template.specs.Ends.{places_of};
ghost use Rattle.template.specs.Lexing.{is_plain, lexed_from, literals, ends_in};

use crate::ends::Ends;
use crate::item::Item;

// An item, and the place where it begins.
#[derive(Clone, Copy)]
pub struct Placed<'t> {
    pub place: usize,
    pub item: Item<'t>,
}

// What is left of a template from a place on. Where it is known of the next holes where they end, their names are passed over.
#[derive(Drop)]
pub struct Items<'t> {
    pub(crate) template: &'t [u8],
    pub(crate) at: usize,
    pub(crate) ends: &'t [u16],
    ghost known: { take (length ends.now) (ends_in (lexed_from template.now at)) ≡ ends.now },
}

// Whether an at-sign is among the bytes. Each is looked at, so that a processor may look at many at once.
#[inline(always)]
#[tactic(auto, using(crate::proofs::Signs::past_plain, crate::proofs::Signs::all_plain))]
fn has_sign(bytes: &[u8]) -> bool
    ensures { result ≡ false → prefix_len is_plain bytes.now ≡ length bytes.now }
{
    let mut found = false;
    for byte in bytes {
        found |= *byte == b'@';
    }
    found
}

// How many bytes come before the first at-sign, looked at one by one.
#[inline(always)]
fn first_sign(bytes: &[u8]) -> usize
    ensures len { result ≡ prefix_len is_plain bytes.now }
    ensures bound { result ≤ length bytes.now }
{
    bytes.iter().take_while(|byte| **byte != b'@').count()
}

// How many bytes are looked at together.
const CHUNK: usize = 16;

// How many bytes come before the first at-sign.
#[inline(always)]
#[tactic(auto, using(crate::proofs::Signs::first_plain))]
fn plain_len(bytes: &[u8]) -> usize
    ensures len { result ≡ prefix_len is_plain bytes.now }
    ensures bound { result ≤ length bytes.now }
{
    let mut at = 0;
    while bytes.len() - at >= CHUNK && !has_sign(&bytes[at..at + CHUNK]) {
        at += CHUNK;
    }
    at + first_sign(&bytes[at..])
}

impl<'t> Items<'t> {
    pub fn of(template: &'t [u8]) -> Items<'t>
        ensures template { result.template.now ≡ template.now }
        ensures at { result.at ≡ 0 }
        ensures ends { result.ends.now ≡ [] }
    {
        Items {
            template,
            at: 0,
            ends: &[],
        }
    }

    // The items of a template of which it is known where its holes end.
    pub fn known(template: &'t [u8], ends: &'t Ends) -> Items<'t>
        requires { places_of ends.now ≡ ends_in (lexed_from template.now 0) }
        ensures template { result.template.now ≡ template.now }
        ensures at { result.at ≡ 0 }
        ensures ends { result.ends.now ≡ places_of ends.now }
    {
        let mut items = Items::of(template);
        items.ends = ends.places();
        items
    }

    // The literals up to the next at-sign or the end, each a byte that stands for itself.
    #[inline(always)]
    pub fn plain(&mut self) -> &'t [u8]
        ensures template { self.new.template ≡ self.old.template }
        ensures at { self.new.at ≡ self.old.at + length result.now }
        ensures whole { length result.now ≡ prefix_len is_plain (drop self.old.at self.old.template.now) }
        ensures reads { lexed_from self.old.template.now self.old.at ≡ literals self.old.at result.now (lexed_from self.old.template.now self.new.at) }
        ensures within { self.old.at ≤ length self.old.template.now → self.new.at ≤ length self.old.template.now }
    {
        if self.at >= self.template.len() {
            return &[];
        }
        let rest = &self.template[self.at..];
        let len = plain_len(rest);
        self.at += len;
        &rest[..len]
    }
}
