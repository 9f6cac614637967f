// The kinds of tokens of CSV.
ghost use Rattle.std.specs.Prelude.{◌≡◌, Some};
ghost use Rattle.host.specs.Numbers.{IsKind};
ghost use Rattle.csv_host.specs.Kinds.{kind_number, kind_name};

use host::kind::UnknownKind;
use std::fmt;

// A row is a token without bytes that follows its fields.
#[derive(Clone, Copy, PartialEq, Debug)]
pub enum Kind {
    Field = 1,
    Row = 2,
}

impl From<Kind> for u8 {
    ghost from_gives = { λ kind number. number ≡ kind_number kind };

    fn from(kind: Kind) -> u8 {
        kind as u8
    }
}

impl TryFrom<u8> for Kind {
    type Error = UnknownKind;

    ghost try_from_gives = { IsKind kind_number };

    fn try_from(number: u8) -> Result<Kind, UnknownKind> {
        match number {
            1 => Ok(Kind::Field),
            2 => Ok(Kind::Row),
            _ => Err(UnknownKind(number)),
        }
    }
}

impl fmt::Display for Kind {
    ghost output = { λ kind. Some (kind_name kind) };

    fn fmt<W: fmt::Write>(&self, f: &mut fmt::Formatter<W>) -> fmt::Result {
        f.write_str(match self {
            Kind::Field => "field",
            Kind::Row => "row",
        })
    }
}
