// CSV as a host: fields between commas, and rows between line ends.
#![tactic(auto)]

ghost use Rattle.std.specs.Prelude.{◌≡◌, refl};
ghost use Rattle.host.specs.Answers.{answered, spelling_of};
ghost use Rattle.host.specs.Table.{in_class, stepped, spelled_by};
ghost use Rattle.csv_host.specs.Table.{csv, textdata, inside, separators, field_start, bare, quoted, quote_seen, return_seen, bare_spells, quoted_spells, rows};
ghost use Rattle.host.proofs.Sound;

mod context;
mod kind;
pub mod promise;

use context::Context;
use host::Host;
use host::answer::{
    Move, after_closing, ending, hole_around, keeping_to, no_hole, opening_to, passing_to,
    spelled_as, then_closing, unspelled,
};
use host::effect::{Effect, Recipe, Refused, Spelling};
pub use kind::Kind;

// The host of the season table.
#[derive(Clone, Copy)]
pub struct Csv;

impl Host for Csv {
    ghost meaning = { λ _. csv };

    ghost sound = { λ h. Sound.sound rows refl };

    #[inline(always)]
    fn step(&self, context: u8, byte: u8) -> Result<Move, Refused> {
        match Context::try_from(context)? {
            Context::RowStart | Context::FieldStart => at_field_start(byte),
            Context::Bare => in_bare(byte),
            Context::Quoted => in_quoted(byte),
            Context::QuoteSeen => after_quote(byte),
            Context::ReturnSeen => after_return(byte),
        }
    }

    fn end(&self, context: u8) -> Result<Effect, Refused> {
        match Context::try_from(context)? {
            Context::RowStart => Ok(ending(None, None)),
            Context::FieldStart | Context::Bare | Context::QuoteSeen => Ok(ending(
                Some(Kind::Field.into()),
                Some(Kind::Row.into()),
            )),
            _ => Err(Refused),
        }
    }

    fn recipe(&self, context: u8) -> Recipe {
        match Context::try_from(context) {
            Ok(Context::RowStart | Context::FieldStart) => hole_around(
                b"\"",
                Context::Quoted.into(),
                b"\"",
            ),
            Ok(Context::Bare | Context::Quoted) => hole_around(b"", context, b""),
            _ => no_hole(),
        }
    }

    #[inline(always)]
    fn spelling(&self, body: u8, byte: u8) -> Spelling {
        match Context::try_from(body) {
            Ok(Context::Bare) => bare_spelling(byte),
            Ok(Context::Quoted) => quoted_spelling(byte),
            _ => unspelled(),
        }
    }
}

// TEXTDATA: 20, 21, 23 to 2B, 2D to 7E, that is printable ASCII but for the double quote and the comma.
fn is_textdata(b: u8) -> bool
    ensures { result ≡ in_class textdata b }
{
    b >= 0x20 && b <= 0x21 || b >= 0x23 && b <= 0x2b || b >= 0x2d && b <= 0x7e
}

// What stands for itself between quotes.
fn is_inside(byte: u8) -> bool
    ensures { result ≡ in_class inside byte }
{
    is_textdata(byte) || matches!(byte, b',' | b'\n' | b'\r')
}

// Where a field starts it may have quotes, and it may be empty.
fn at_field_start(byte: u8) -> Result<Move, Refused>
    ensures { answered result ≡ stepped field_start byte }
{
    if byte == b'"' {
        Ok(opening_to(Context::Quoted))
    } else {
        in_bare(byte)
    }
}

// A field without quotes has no quote in it.
fn in_bare(byte: u8) -> Result<Move, Refused>
    ensures { answered result ≡ stepped bare byte }
{
    if is_textdata(byte) {
        Ok(keeping_to(Context::Bare, byte))
    } else {
        at_separator(byte)
    }
}

// Between quotes commas and line ends stand for themselves.
fn in_quoted(byte: u8) -> Result<Move, Refused>
    ensures { answered result ≡ stepped quoted byte }
{
    if byte == b'"' {
        Ok(passing_to(Context::QuoteSeen))
    } else if is_inside(byte) {
        Ok(keeping_to(Context::Quoted, byte))
    } else {
        Err(Refused)
    }
}

// A second quote is a quote in the field; otherwise the field has ended.
fn after_quote(byte: u8) -> Result<Move, Refused>
    ensures { answered result ≡ stepped quote_seen byte }
{
    if byte == b'"' {
        Ok(keeping_to(Context::Quoted, byte))
    } else {
        at_separator(byte)
    }
}

// A line feed ends the field and the row.
fn after_return(byte: u8) -> Result<Move, Refused>
    ensures { answered result ≡ stepped return_seen byte }
{
    if byte == b'\n' {
        let row_end = then_closing(passing_to(Context::RowStart), Kind::Row);
        Ok(after_closing(Kind::Field, row_end))
    } else {
        Err(Refused)
    }
}

// A comma or the start of a line end, after a field.
fn at_separator(byte: u8) -> Result<Move, Refused>
    ensures { answered result ≡ stepped separators byte }
{
    match byte {
        b',' => Ok(after_closing(Kind::Field, passing_to(Context::FieldStart))),
        b'\r' => Ok(opening_to(Context::ReturnSeen)),
        _ => Err(Refused),
    }
}

// Without quotes only TEXTDATA can be written.
fn bare_spelling(byte: u8) -> Spelling
    ensures { spelling_of result ≡ spelled_by bare_spells byte }
{
    if is_textdata(byte) {
        spelled_as(&[byte])
    } else {
        unspelled()
    }
}

// A quote is written twice.
fn quoted_spelling(byte: u8) -> Spelling
    ensures { spelling_of result ≡ spelled_by quoted_spells byte }
{
    if byte == b'"' {
        spelled_as(&[byte, byte])
    } else if is_inside(byte) {
        spelled_as(&[byte])
    } else {
        unspelled()
    }
}
