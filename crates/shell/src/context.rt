// The contexts of the shell.
ghost use Rattle.std.specs.Prelude.{◌≡◌};
ghost use Rattle.host.specs.Numbers.{IsContext};
ghost use Rattle.shell.specs.Contexts.{context_number};

use host::effect::Refused;

// Where a reading stands.
#[derive(Clone, Copy, PartialEq, Debug)]
pub enum Context {
    // Between words.
    Gap,
    // In a word.
    InWord,
    // After a backslash between words.
    BackslashInGap,
    // After a backslash in a word.
    BackslashInWord,
    // Between single quotes.
    SingleQuoted,
    // Between double quotes.
    DoubleQuoted,
    // After a backslash between double quotes.
    BackslashInQuotes,
}

impl From<Context> for u8 {
    ghost from_gives = { λ context number. number ≡ context_number context };

    fn from(context: Context) -> u8 {
        context as u8
    }
}

impl TryFrom<u8> for Context {
    type Error = Refused;

    ghost try_from_gives = { IsContext context_number 7 };

    fn try_from(number: u8) -> Result<Context, Refused> {
        match number {
            0 => Ok(Context::Gap),
            1 => Ok(Context::InWord),
            2 => Ok(Context::BackslashInGap),
            3 => Ok(Context::BackslashInWord),
            4 => Ok(Context::SingleQuoted),
            5 => Ok(Context::DoubleQuoted),
            6 => Ok(Context::BackslashInQuotes),
            _ => Err(Refused),
        }
    }
}
