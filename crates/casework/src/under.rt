// The host that a case is under.
ghost use Rattle.std.specs.Prelude.{Some};
ghost use Rattle.casework.specs.Names.{meaning_under, name_of, sound_under};

use csv_host::Csv;
use host::Host;
use host::effect::{Effect, Recipe, Refused, Spelling};
use shell::Shell;
use sql::Sql;
use std::fmt;

#[derive(Clone, Copy, PartialEq, Debug)]
pub enum Under {
    Shell,
    Sql,
    Csv,
}

// It is the host that it names. Each function asks that host by a match: a function may not hand out a `dyn Host` by which one
// place could ask them all.
impl Host for Under {
    ghost meaning = { meaning_under };

    ghost sound = { sound_under };

    fn step(&self, context: u8, byte: u8) -> Result<(u8, Effect), Refused> {
        match self {
            Under::Shell => Shell.step(context, byte),
            Under::Sql => Sql.step(context, byte),
            Under::Csv => Csv.step(context, byte),
        }
    }

    fn end(&self, context: u8) -> Result<Effect, Refused> {
        match self {
            Under::Shell => Shell.end(context),
            Under::Sql => Sql.end(context),
            Under::Csv => Csv.end(context),
        }
    }

    fn recipe(&self, context: u8) -> Recipe {
        match self {
            Under::Shell => Shell.recipe(context),
            Under::Sql => Sql.recipe(context),
            Under::Csv => Csv.recipe(context),
        }
    }

    fn spelling(&self, body: u8, byte: u8) -> Spelling {
        match self {
            Under::Shell => Shell.spelling(body, byte),
            Under::Sql => Sql.spelling(body, byte),
            Under::Csv => Csv.spelling(body, byte),
        }
    }
}

impl fmt::Display for Under {
    ghost output = { λ under. Some (name_of under) };

    fn fmt<W: fmt::Write>(&self, f: &mut fmt::Formatter<W>) -> fmt::Result {
        match self {
            Under::Shell => write!(f, "shell"),
            Under::Sql => write!(f, "sql"),
            Under::Csv => write!(f, "csv"),
        }
    }
}
