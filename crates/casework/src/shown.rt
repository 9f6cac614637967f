// Bytes as they are shown: between double quotes, and all but printable ASCII as \xHH, as are the quote and the backslash.
ghost use Rattle.std.specs.Prelude.{◌≡◌, Some};
ghost use Rattle.casework.specs.Showing.{is_plain_byte, shown_byte, quoted};

use std::fmt;

// The program shows bytes so too, in styles of its own: what tests it stands on none of its code.
fn is_plain(byte: u8) -> bool
    ensures { result ≡ is_plain_byte byte }
{
    matches!(byte, b' '..=b'~') && byte != b'"' && byte != b'\\'
}

// A byte between the quotes.
#[derive(Clone, Copy)]
struct Shown(u8);

impl fmt::Display for Shown {
    ghost output = { λ shown. Some (shown_byte shown.0) };

    #[tactic(auto, using(std::proofs::lemmas::Fmt::hex_byte))]
    fn fmt<W: fmt::Write>(&self, f: &mut fmt::Formatter<W>) -> fmt::Result {
        let byte = self.0;
        if is_plain(byte) {
            f.write_char(byte as char)
        } else {
            write!(f, "\\x{byte:02x}")
        }
    }
}

#[derive(Clone, Copy)]
pub struct Quoted<'a>(pub &'a [u8]);

impl fmt::Display for Quoted<'_> {
    ghost output = { λ shown. Some (quoted shown.0.now) };

    fn fmt<W: fmt::Write>(&self, f: &mut fmt::Formatter<W>) -> fmt::Result {
        write!(f, "\"")?;
        for byte in self.0 {
            write!(f, "{}", Shown(*byte))?;
        }
        write!(f, "\"")
    }
}
