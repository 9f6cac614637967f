// The contexts of SQL.
ghost use Rattle.std.specs.Prelude.{◌≡◌};
ghost use Rattle.host.specs.Numbers.{IsContext};
ghost use Rattle.sql.specs.Contexts.{context_number};

use host::effect::Refused;

// Where a reading stands.
#[derive(Clone, Copy, PartialEq, Debug)]
pub enum Context {
    // Between tokens.
    Gap,
    // In a word.
    InWord,
    // In a text.
    InText,
    // After a quote in a text.
    QuoteSeen,
}

impl From<Context> for u8 {
    ghost from_gives = { λ context number. number ≡ context_number context };

    fn from(context: Context) -> u8 {
        context as u8
    }
}

impl TryFrom<u8> for Context {
    type Error = Refused;

    ghost try_from_gives = { IsContext context_number 4 };

    fn try_from(number: u8) -> Result<Context, Refused> {
        match number {
            0 => Ok(Context::Gap),
            1 => Ok(Context::InWord),
            2 => Ok(Context::InText),
            3 => Ok(Context::QuoteSeen),
            _ => Err(Refused),
        }
    }
}
