// The shell as a host: words with their quotes and escapes, and operators.
#![tactic(auto)]

ghost use Rattle.std.specs.Prelude.{◌≡◌, refl};
ghost use Rattle.host.specs.Answers.{answered, spelling_of};
ghost use Rattle.host.specs.Table.{in_class, stepped, spelled_by};
ghost use Rattle.shell.specs.Table.{shell, blank, operator, escaped, special, gap, in_word, escape, in_single, in_double, escape_in_double, single_spells, double_spells, rows};
ghost use Rattle.shell.specs.Contexts.{context_number};
ghost use Rattle.host.proofs.Sound;

mod context;
mod kind;
pub mod promise;

use context::Context;
use host::Host;
use host::answer::{
    Move, closing_first, ending, hole_around, keeping_to, no_hole, opening_to, passing_to,
    spelled_as, then_closing, unspelled,
};
use host::effect::{Effect, Recipe, Refused, Spelling};
pub use kind::Kind;

// The host of the cab computer's command line.
#[derive(Clone, Copy)]
pub struct Shell;

impl Host for Shell {
    ghost meaning = { λ _. shell };

    ghost sound = { λ h. Sound.sound rows refl };

    #[inline(always)]
    fn step(&self, context: u8, byte: u8) -> Result<Move, Refused> {
        match Context::try_from(context)? {
            Context::Gap => at_gap(byte),
            Context::InWord => at_word(byte),
            Context::BackslashInGap => after_backslash(Context::Gap, byte),
            Context::BackslashInWord => after_backslash(Context::InWord, byte),
            Context::SingleQuoted => at_single_quoted(byte),
            Context::DoubleQuoted => at_double_quoted(byte),
            Context::BackslashInQuotes => after_quoted_backslash(byte),
        }
    }

    fn end(&self, context: u8) -> Result<Effect, Refused> {
        match Context::try_from(context)? {
            Context::Gap => Ok(ending(None, None)),
            Context::InWord => Ok(ending(Some(Kind::Word.into()), None)),
            _ => Err(Refused),
        }
    }

    fn recipe(&self, context: u8) -> Recipe {
        match Context::try_from(context) {
            Ok(Context::Gap | Context::InWord) => hole_around(
                b"'",
                Context::SingleQuoted.into(),
                b"'",
            ),
            Ok(Context::SingleQuoted | Context::DoubleQuoted) => hole_around(b"", context, b""),
            _ => no_hole(),
        }
    }

    #[inline(always)]
    fn spelling(&self, body: u8, byte: u8) -> Spelling {
        match Context::try_from(body) {
            Ok(Context::SingleQuoted) => single_quoted_spelling(byte),
            Ok(Context::DoubleQuoted) => double_quoted_spelling(byte),
            _ => unspelled(),
        }
    }
}

fn is_blank(byte: u8) -> bool
    ensures { result ≡ in_class blank byte }
{
    matches!(byte, b' ' | b'\t')
}

fn is_operator(byte: u8) -> bool
    ensures { result ≡ in_class operator byte }
{
    matches!(byte, b'\n' | b';' | b'&' | b'|' | b'>' | b'(' | b')')
}

// What would be expanded or read in another way, and the control bytes.
fn is_special(byte: u8) -> bool
    ensures { result ≡ in_class special byte }
{
    matches!(
        byte,
        b'$' | b'`' | b'<' | b'#' | b'*' | b'?' | b'[' | b'~' | 0x00..=0x08 | 0x0b..=0x1f | 0x7f
    )
}

// What a backslash keeps between double quotes.
fn is_escaped(byte: u8) -> bool
    ensures { result ≡ in_class escaped byte }
{
    matches!(byte, b'$' | b'`' | b'"' | b'\\')
}

// Between words: a blank is passed over, an operator is a token of its own, any other byte begins a word.
#[inline(always)]
fn at_gap(byte: u8) -> Result<Move, Refused>
    ensures { answered result ≡ stepped gap byte }
{
    if is_blank(byte) {
        Ok(passing_to(Context::Gap))
    } else if is_operator(byte) {
        Ok(then_closing(keeping_to(Context::Gap, byte), Kind::Operator))
    } else if byte == b'\'' {
        Ok(opening_to(Context::SingleQuoted))
    } else if byte == b'"' {
        Ok(opening_to(Context::DoubleQuoted))
    } else if byte == b'\\' {
        Ok(passing_to(Context::BackslashInGap))
    } else if is_special(byte) {
        Err(Refused)
    } else {
        Ok(keeping_to(Context::InWord, byte))
    }
}

// In a word: quotes and backslashes belong to it, and a blank or an operator ends it.
#[inline(always)]
fn at_word(byte: u8) -> Result<Move, Refused>
    ensures { answered result ≡ stepped in_word byte }
{
    if byte == b'\'' {
        Ok(passing_to(Context::SingleQuoted))
    } else if byte == b'"' {
        Ok(passing_to(Context::DoubleQuoted))
    } else if byte == b'\\' {
        Ok(passing_to(Context::BackslashInWord))
    } else if byte == b'#' {
        Ok(keeping_to(Context::InWord, byte))
    } else if is_blank(byte) || is_operator(byte) {
        closing_first(Kind::Word, at_gap(byte))
    } else {
        at_gap(byte)
    }
}

// A line feed goes back, and another byte begins or continues a word.
fn after_backslash(back: Context, byte: u8) -> Result<Move, Refused>
    ensures { answered result ≡ stepped (escape (context_number back)) byte }
{
    match byte {
        b'\n' => Ok(passing_to(back)),
        0 => Err(Refused),
        _ => Ok(keeping_to(Context::InWord, byte)),
    }
}

// Between single quotes every byte but 00 and the quote stands for itself.
// A text of SQL has the same arms, but a function for both would say each again in its contract.
fn at_single_quoted(byte: u8) -> Result<Move, Refused>
    ensures { answered result ≡ stepped in_single byte }
{
    match byte {
        b'\'' => Ok(passing_to(Context::InWord)),
        0 => Err(Refused),
        _ => Ok(keeping_to(Context::SingleQuoted, byte)),
    }
}

// Between double quotes the dollar sign and the backquote would be expanded, so they are refused.
fn at_double_quoted(byte: u8) -> Result<Move, Refused>
    ensures { answered result ≡ stepped in_double byte }
{
    match byte {
        b'"' => Ok(passing_to(Context::InWord)),
        b'\\' => Ok(passing_to(Context::BackslashInQuotes)),
        b'$' | b'`' | 0 => Err(Refused),
        _ => Ok(keeping_to(Context::DoubleQuoted, byte)),
    }
}

// Between double quotes a backslash stands only before the bytes that it keeps, or joins two lines.
fn after_quoted_backslash(byte: u8) -> Result<Move, Refused>
    ensures { answered result ≡ stepped escape_in_double byte }
{
    if is_escaped(byte) {
        Ok(keeping_to(Context::DoubleQuoted, byte))
    } else if byte == b'\n' {
        Ok(passing_to(Context::DoubleQuoted))
    } else {
        Err(Refused)
    }
}

// A quote is written by leaving the quotes, a backslash and a quote, and entering them again.
fn single_quoted_spelling(byte: u8) -> Spelling
    ensures { spelling_of result ≡ spelled_by single_spells byte }
{
    match byte {
        b'\'' => spelled_as(b"'\\''"),
        0 => unspelled(),
        _ => spelled_as(&[byte]),
    }
}

// What would be read in another way is written after a backslash.
fn double_quoted_spelling(byte: u8) -> Spelling
    ensures { spelling_of result ≡ spelled_by double_spells byte }
{
    if is_escaped(byte) {
        spelled_as(&[b'\\', byte])
    } else if byte == 0 {
        unspelled()
    } else {
        spelled_as(&[byte])
    }
}
