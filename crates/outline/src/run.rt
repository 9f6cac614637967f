// A run of a template under a host, and the tokens that it comes to.
ghost use Rattle.std.specs.Prelude.{◌≡◌, [], ◌∷◌, map, OnOk};
ghost use Rattle.host.specs.Run.{start, close, add, apply, read_byte, read_bytes, read_end, run_hole};
ghost use Rattle.template.specs.Judging.{verdict};
ghost use Rattle.outline.specs.Telling.{Tells};
ghost use Rattle.outline.specs.Tokens.{symbol_of, token_of, Planned};
ghost use Rattle.outline.specs.Runs.{state_of, Comes, flawed_lem};

use crate::token::{Symbol, Token};
use fault::{Failure, Flaw};
use host::Host;
use host::effect::{Effect, Middle, Refused};
use std::alloc::{AllocError, Global};
use template::check::survey;
use template::item::Item;
use template::items::{Items, Placed};

// What a run has come to: its context, the tokens that are closed, and the open one.
#[derive(Drop)]
struct Run {
    heap: Global,
    context: u8,
    closed: Vec<Token>,
    current: Option<Vec<Symbol>>,
}

impl Run {
    fn new(heap: Global) -> Run
        ensures { state_of result ≡ start }
    {
        Run {
            heap,
            context: 0,
            closed: Vec::new(heap),
            current: None,
        }
    }

    // Closes the open token as one of this kind, if there is one to close it as.
    fn close(&mut self, kind: Option<u8>) -> Result<(), AllocError>
        ensures { OnOk result (state_of self.new ≡ close kind (state_of self.old)) }
    {
        if let Some(kind) = kind {
            let value = self.current.take().unwrap_or_else(|| Vec::new(self.heap));
            self.closed.push(Token { kind, value })?;
        }
        Ok(())
    }

    // Opens a token if none is open.
    fn open(&mut self)
        ensures { state_of self.new ≡ add [] (state_of self.old) }
    {
        self.current.get_or_insert_with(|| Vec::new(self.heap));
    }

    // Adds a symbol to the open token.
    fn add(&mut self, symbol: Symbol) -> Result<(), AllocError>
        ensures { OnOk result (state_of self.new ≡ add (symbol_of symbol ∷ []) (state_of self.old)) }
    {
        self.current
            .get_or_insert_with(|| Vec::new(self.heap))
            .push(symbol)?;
        Ok(())
    }

    // Does what an effect says.
    fn apply(&mut self, effect: Effect) -> Result<(), AllocError>
        ensures { OnOk result (state_of self.new ≡ apply effect (state_of self.old)) }
    {
        self.close(effect.first)?;
        match effect.middle {
            Middle::Nothing => {}
            Middle::Open => self.open(),
            Middle::Keep(byte) => self.add(Symbol::Byte(byte))?,
        }
        self.close(effect.last)
    }

    // Reads a byte.
    fn read<H: Host>(&mut self, host: &H, byte: u8) -> Result<(), Failure<Refused>>
        ensures { Comes result (read_byte (H.meaning host.now) byte (state_of self.old)) (λ _. state_of self.new) }
    {
        let (next, effect) = host.step(self.context, byte).map_err(Failure::Refused)?;
        self.apply(effect)?;
        self.context = next;
        Ok(())
    }

    // Reads bytes one after the other.
    fn read_all<H: Host>(&mut self, host: &H, bytes: &[u8]) -> Result<(), Failure<Refused>>
        ensures { Comes result (read_bytes (H.meaning host.now) bytes.now (state_of self.old)) (λ _. state_of self.new) }
    {
        for byte in bytes {
            self.read(host, *byte)?;
        }
        Ok(())
    }

    // Reads the hole of this number: its opener, its mark, its closer.
    fn cross<H: Host>(&mut self, host: &H, number: usize) -> Result<(), Failure<Refused>>
        ensures { Comes result (run_hole (H.meaning host.now) number (state_of self.old)) (λ _. state_of self.new) }
    {
        let recipe = host.recipe(self.context);
        if !recipe.takes {
            return Err(Failure::Refused(Refused));
        }
        self.read_all(host, recipe.opener.as_slice())?;
        self.add(Symbol::Mark(number))?;
        self.read_all(host, recipe.closer.as_slice())
    }

    // Reads the end, and gives the tokens.
    fn finish<H: Host>(mut self, host: &H) -> Result<Vec<Token>, Failure<Refused>>
        ensures { Comes result (read_end (H.meaning host.now) (state_of self)) (λ v. map token_of v.items) }
    {
        let effect = host.end(self.context).map_err(Failure::Refused)?;
        self.apply(effect)?;
        Ok(self.closed)
    }
}

// A failure of the run as one of the template: a refusal is this flaw, which comes from beside it, so that no `From` says it.
fn flawed(failure: Failure<Refused>, flaw: Flaw) -> Failure<Flaw>
    ensures { result ≡ flawed_lem failure flaw }
{
    match failure {
        Failure::Refused(_) => Failure::Refused(flaw),
        Failure::NoMemory => Failure::NoMemory,
    }
}

// The tokens that a template comes to, with the marks of its holes.
pub fn plan<H: Host>(heap: Global, template: &[u8], host: &H) -> Result<Vec<Token>, Failure<Flaw>>
    ensures { Tells result (verdict (H.meaning host.now) template.now) (λ v. Planned (H.meaning host.now) template.now v.items) }
{
    survey(template, host)?;
    let mut run = Run::new(heap);
    // The number of the next hole: literals have none, so the numbers of the items do not serve.
    let mut holes = 0;
    for read in Items::of(template) {
        let Placed { place, item } = read?;
        match item {
            Item::Literal(byte) => run
                .read(host, byte)
                .map_err(|failure| flawed(failure, Flaw::LiteralRefused { place }))?,
            Item::Hole(_) => {
                run.cross(host, holes)
                    .map_err(|failure| flawed(failure, Flaw::HoleRefused { place }))?;
                holes += 1;
            }
        }
    }
    let place = template.len();
    run.finish(host)
        .map_err(|failure| flawed(failure, Flaw::EndRefused { place }))
}
