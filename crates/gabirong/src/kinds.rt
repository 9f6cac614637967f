// The kinds of a host's tokens, and their names.
use csv_host::Csv;
use host::Host;
use host::kind::UnknownKind;
use shell::Shell;
use sql::Sql;
use std::fmt;

// A host whose kinds of tokens have names.
pub trait Kinds: Host {
    type Kind: TryFrom<u8, Error = UnknownKind> + fmt::Display + Drop;
}

impl Kinds for Shell {
    type Kind = shell::Kind;
}

impl Kinds for Sql {
    type Kind = sql::Kind;
}

impl Kinds for Csv {
    type Kind = csv_host::Kind;
}

// The name of a kind; nothing where no kind has the number.
#[derive(Drop)]
pub struct KindName<K>(Option<K>);

impl<K: TryFrom<u8, Error = UnknownKind>> KindName<K> {
    pub fn of(number: u8) -> KindName<K> {
        KindName(K::try_from(number).ok())
    }
}

impl<K: fmt::Display> fmt::Display for KindName<K> {
    fn fmt<W: fmt::Write>(&self, f: &mut fmt::Formatter<W>) -> fmt::Result {
        match &self.0 {
            Some(kind) => kind.fmt(f),
            None => Ok(()),
        }
    }
}
