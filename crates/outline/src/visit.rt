// What a host meets of a template, item by item.
ghost use Rattle.std.specs.Prelude.{◌≡◌};
ghost use Rattle.fault.specs.Refusal.{told_flaw};
ghost use Rattle.template.specs.Judging.{verdict};
ghost use Rattle.outline.specs.Telling.{Tells};
ghost use Rattle.outline.specs.Visits.{passing, Visited};

use fault::{Failure, Flaw};
use host::Host;
use std::alloc::Global;
use template::check::{cross, survey};
use template::item::Item;
use template::items::{Items, Placed};

// An item of a template as the run meets it: the place where it begins and the context that it is read in.
#[derive(Clone, Copy)]
pub struct Visit<'t> {
    pub place: usize,
    pub context: u8,
    pub item: Item<'t>,
}

// The context after an item.
fn pass<H: Host>(host: &H, context: u8, item: Item<'_>, place: usize) -> Result<u8, Flaw>
    ensures { told_flaw result ≡ passing (H.meaning host.now) context item.entry place }
{
    match item {
        Item::Literal(byte) => host
            .step(context, byte)
            .map(|(next, _)| next)
            .map_err(|_| Flaw::LiteralRefused { place }),
        Item::Hole(_) => cross(host, context)
            .map(|(_, next)| next)
            .map_err(|_| Flaw::HoleRefused { place }),
    }
}

// The items of a template in order, each with its place and context.
pub fn visits<'t, H: Host>(
    heap: Global,
    template: &'t [u8],
    host: &H,
) -> Result<Vec<Visit<'t>>, Failure<Flaw>>
    ensures { Tells result (verdict (H.meaning host.now) template.now) (λ v. Visited (H.meaning host.now) template.now v.items) }
{
    survey(template, host)?;
    let mut visits = Vec::new(heap);
    let mut context = 0;
    // Each item is met in the context that the one before it leads to: a `map` has none.
    for read in Items::of(template) {
        let Placed { place, item } = read?;
        visits.push(Visit {
            place,
            context,
            item,
        })?;
        context = pass(host, context, item, place)?;
    }
    Ok(visits)
}
