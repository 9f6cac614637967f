// The contexts of CSV.
ghost use Rattle.std.specs.Prelude.{◌≡◌};
ghost use Rattle.host.specs.Numbers.{IsContext};
ghost use Rattle.csv_host.specs.Contexts.{context_number};

use host::effect::Refused;

// Where a reading stands.
#[derive(Clone, Copy, PartialEq, Debug)]
pub enum Context {
    // Where a row starts.
    RowStart,
    // Where another field of the row starts.
    FieldStart,
    // In a field without quotes.
    Bare,
    // In a field with quotes.
    Quoted,
    // After a quote in a field with quotes.
    QuoteSeen,
    // After a carriage return.
    ReturnSeen,
}

impl From<Context> for u8 {
    ghost from_gives = { λ context number. number ≡ context_number context };

    fn from(context: Context) -> u8 {
        context as u8
    }
}

impl TryFrom<u8> for Context {
    type Error = Refused;

    ghost try_from_gives = { IsContext context_number 6 };

    fn try_from(number: u8) -> Result<Context, Refused> {
        match number {
            0 => Ok(Context::RowStart),
            1 => Ok(Context::FieldStart),
            2 => Ok(Context::Bare),
            3 => Ok(Context::Quoted),
            4 => Ok(Context::QuoteSeen),
            5 => Ok(Context::ReturnSeen),
            _ => Err(Refused),
        }
    }
}
