// The command line.
use crate::stop::Stop;
use std::str::FromStr;

pub const USAGE: &str = "usage: gabirong check HOST TEMPLATE-FILE
       gabirong fill [-q] HOST TEMPLATE-FILE NAME=VALUE..
       gabirong merge [--at PLACE] HOST TEMPLATE-FILE RECORD-FILE
       gabirong work HOST TEMPLATE-FILE LIST-FILE
       gabirong list [--raw] HOST TEXT-FILE
       gabirong records RECORD-FILE
       gabirong pack [LINES-FILE]
HOST is shell, sql or csv; a file that is - is standard input";

// The program and the programs of cases share no code.
#[derive(Clone, Copy)]
pub enum HostName {
    Shell,
    Sql,
    Csv,
}

impl FromStr for HostName {
    type Err = Stop<'static>;

    fn from_str(name: &str) -> Result<HostName, Stop<'static>> {
        match name {
            "shell" => Ok(HostName::Shell),
            "sql" => Ok(HostName::Sql),
            "csv" => Ok(HostName::Csv),
            _ => Err(Stop::Usage),
        }
    }
}

// What is to be done under a host.
#[derive(Clone, Copy)]
pub enum Action<'a> {
    Check {
        template: &'a str,
    },
    List {
        text: &'a str,
    },
    ListRaw {
        text: &'a str,
    },
    // Each pair is `NAME=VALUE`.
    Fill {
        template: &'a str,
        pairs: &'a [String],
    },
    // The same, with the text alone printed.
    FillQuietly {
        template: &'a str,
        pairs: &'a [String],
    },
    Merge {
        template: &'a str,
        records: &'a str,
    },
    // The one record at a place.
    MergeAt {
        place: usize,
        template: &'a str,
        records: &'a str,
    },
    Work {
        template: &'a str,
        list: &'a str,
    },
}

// What the command line asks for: an action under a host, or something that needs none.
#[derive(Clone, Copy)]
pub enum Job<'a> {
    Hosted { host: HostName, action: Action<'a> },
    Records { file: &'a str },
    Pack { file: &'a str },
}

impl<'a> TryFrom<&'a [String]> for Job<'a> {
    type Error = Stop<'a>;

    fn try_from(words: &'a [String]) -> Result<Job<'a>, Stop<'a>> {
        let (command, words) = words.split_first().ok_or(Stop::Usage)?;
        match (command.as_str(), words) {
            // Without a file, standard input.
            ("pack", []) => Ok(Job::Pack { file: "-" }),
            ("pack", [file]) => Ok(Job::Pack { file }),
            ("records", [file]) => Ok(Job::Records { file }),
            (command, words) => hosted(command, words),
        }
    }
}

fn hosted<'a>(command: &str, words: &'a [String]) -> Result<Job<'a>, Stop<'a>> {
    let (host, action) = match (command, words) {
        ("check", [host, template]) => (host, Action::Check { template }),
        ("list", [flag, host, text]) if flag.as_str() == "--raw" => (
            host,
            Action::ListRaw { text },
        ),
        ("list", [host, text]) => (host, Action::List { text }),
        ("fill", [flag, host, template, pairs @ ..]) if flag.as_str() == "-q" => {
            (host, Action::FillQuietly { template, pairs })
        }
        ("fill", [host, template, pairs @ ..]) => (host, Action::Fill { template, pairs }),
        ("merge", [flag, place, host, template, records]) if flag.as_str() == "--at" => {
            let place = place.parse::<usize>().map_err(|_| Stop::Usage)?;
            (
                host,
                Action::MergeAt {
                    place,
                    template,
                    records,
                },
            )
        }
        ("merge", [host, template, records]) => (host, Action::Merge { template, records }),
        ("work", [host, template, list]) => (host, Action::Work { template, list }),
        _ => return Err(Stop::Usage),
    };
    let host = host.parse::<HostName>()?;
    Ok(Job::Hosted { host, action })
}
