// Bytes and counts as they are shown to people.
use std::fmt;

// Which bytes are shown as themselves, every other as \xHH; and what stands before and after them all.
pub trait Style {
    const EDGE: &'static str;

    fn is_plain(byte: u8) -> bool;

    final fn show<W: fmt::Write>(byte: u8, f: &mut fmt::Formatter<W>) -> fmt::Result {
        if Self::is_plain(byte) {
            f.write_char(char::from(byte))
        } else {
            write!(f, "\\x{byte:02x}")
        }
    }
}

// A line of a file: printable ASCII is plain.
#[derive(Clone, Copy)]
pub struct Line;

impl Style for Line {
    const EDGE: &'static str = "";

    fn is_plain(byte: u8) -> bool {
        matches!(byte, b' '..=b'~')
    }
}

// On a line of their own, with the backslash not plain, so that they can be read back.
#[derive(Clone, Copy)]
pub struct Escaped;

impl Style for Escaped {
    const EDGE: &'static str = "";

    fn is_plain(byte: u8) -> bool {
        Line::is_plain(byte) && byte != b'\\'
    }
}

// The same between double quotes, with the double quote not plain.
// The program and the programs of cases share no code.
#[derive(Clone, Copy)]
pub struct Quoted;

impl Style for Quoted {
    const EDGE: &'static str = "\"";

    fn is_plain(byte: u8) -> bool {
        Escaped::is_plain(byte) && byte != b'"'
    }
}

// Bytes in a style.
#[derive(Clone, Copy)]
pub struct Shown<'a, S>(pub &'a [u8], pub S);

impl<S: Style> fmt::Display for Shown<'_, S> {
    fn fmt<W: fmt::Write>(&self, f: &mut fmt::Formatter<W>) -> fmt::Result {
        f.write_str(S::EDGE)?;
        for byte in self.0 {
            S::show(*byte, f)?;
        }
        f.write_str(S::EDGE)
    }
}

// A word of the command line, as a line shows it: the name of a file or of a hole.
#[derive(Clone, Copy)]
pub struct Word<'a>(pub &'a str);

impl fmt::Display for Word<'_> {
    fn fmt<W: fmt::Write>(&self, f: &mut fmt::Formatter<W>) -> fmt::Result {
        write!(f, "{}", Shown(self.0.as_bytes(), Line))
    }
}

// The line of a text that has a place, with a caret under the place.
#[derive(Clone, Copy)]
pub struct LineAt<'a>(pub &'a [u8], pub usize);

impl fmt::Display for LineAt<'_> {
    fn fmt<W: fmt::Write>(&self, f: &mut fmt::Formatter<W>) -> fmt::Result {
        let LineAt(text, place) = *self;
        let (before, after) = text.split_at(place.min(text.len()));
        let before = before.rsplit(is_line_feed).next().unwrap_or(before);
        let after = after.split(is_line_feed).next().unwrap_or(after);
        writeln!(f, "{}{}", Shown(before, Line), Shown(after, Line))?;
        for byte in before {
            f.write_str(if Line::is_plain(*byte) { " " } else { "    " })?;
        }
        f.write_char('^')
    }
}

fn is_line_feed(byte: &u8) -> bool {
    *byte == b'\n'
}

// How many things there are, as `1 hole` or `2 holes`.
#[derive(Clone, Copy)]
pub struct Count(pub usize, pub &'static str);

impl fmt::Display for Count {
    fn fmt<W: fmt::Write>(&self, f: &mut fmt::Formatter<W>) -> fmt::Result {
        let Count(count, thing) = *self;
        let ending = if count == 1 { "" } else { "s" };
        write!(f, "{count} {thing}{ending}")
    }
}
