// One field: a tag, a length of two bytes, and that many bytes.
ghost use Rattle.std.specs.Prelude.{◌≡◌, ◌+◌, ◌≤◌, length, IfOk};
ghost use Rattle.record.specs.Names.{tail_bytes, good_name};
ghost use Rattle.record.specs.Tags.{byte_of, IsByteOf};
ghost use Rattle.record.specs.Reading.{split, IsFieldOf, head_of, value_of, HeadLies};

use fault::fault::{Fault, MAX_VALUE};
use fault::flaw::MAX_NAME;

// What a field is.
#[derive(Clone, Copy, PartialEq, Debug)]
pub enum Tag {
    Name = 1,
    Value = 2,
    End = 3,
}

// A byte that is no tag.
#[derive(Clone, Copy, PartialEq, Debug)]
pub struct NoTag;

impl From<Tag> for u8 {
    ghost from_gives = { λ tag byte. byte ≡ byte_of tag };

    fn from(tag: Tag) -> u8 {
        tag as u8
    }
}

impl TryFrom<u8> for Tag {
    type Error = NoTag;

    ghost try_from_gives = { IsByteOf };

    fn try_from(byte: u8) -> Result<Tag, NoTag> {
        match byte {
            1 => Ok(Tag::Name),
            2 => Ok(Tag::Value),
            3 => Ok(Tag::End),
            _ => Err(NoTag),
        }
    }
}

// What a whole field is, and how many bytes follow its tag and its length.
#[derive(Clone, Copy)]
pub struct Field {
    pub tag: Tag,
    pub len: usize,
}

// What may stand first in a record or after a value.
#[derive(Clone, Copy)]
pub enum Head {
    // A name of so many bytes.
    Name(usize),
    // A field of its own, so a case of its own and no `None`.
    End,
}

// Whether the bytes may come after the first of a name.
fn all_tail(bytes: &[u8]) -> bool
    ensures { result ≡ tail_bytes bytes.now }
{
    bytes
        .iter()
        .all(|byte| matches!(byte, b'a'..=b'z' | b'0'..=b'9' | b'_'))
}

// Whether the bytes are a name: one of a to z, then at most fifteen of a to z, 0 to 9 and _. The lexer of templates judges names
// by the same rule, but byte by byte while it looks for their end.
pub(crate) fn is_name(name: &[u8]) -> bool
    ensures { result ≡ good_name name.now }
{
    matches!(name, [b'a'..=b'z', rest @ ..] if rest.len() < MAX_NAME && all_tail(rest))
}

// The field at `place`, whose bytes begin with it.
pub fn split_field(bytes: &[u8], place: usize) -> Result<Field, Fault>
    ensures is { IsFieldOf place (split bytes.now) result }
    ensures lies { IfOk result (λ field. 3 + field.len ≤ length bytes.now) }
{
    let [tag, high, low, rest @ ..] = bytes else {
        return Err(Fault::FieldCutShort { place });
    };
    let len = usize::from(u16::from_be_bytes([*high, *low]));
    if len > rest.len() {
        return Err(Fault::FieldCutShort { place });
    }
    let tag = Tag::try_from(*tag).map_err(|_| Fault::UnknownTag { place })?;
    Ok(Field { tag, len })
}

// The field at `place`, whose bytes begin with it, where a name or the end is due.
pub fn judge_head(bytes: &[u8], place: usize) -> Result<Head, Fault>
    ensures is { result ≡ head_of place bytes.now }
    ensures lies { IfOk result (λ head. HeadLies head (length bytes.now)) }
{
    let Field { tag, len } = split_field(bytes, place)?;
    match tag {
        Tag::Name if is_name(&bytes[3..3 + len]) => Ok(Head::Name(len)),
        Tag::Name => Err(Fault::BadRecordName { place }),
        Tag::Value => Err(Fault::TagOutOfTurn { place }),
        Tag::End if len == 0 => Ok(Head::End),
        Tag::End => Err(Fault::EndWithLength { place }),
    }
}

// The length of the value at `place`, whose bytes begin with its field.
pub fn judge_value(bytes: &[u8], place: usize) -> Result<usize, Fault>
    ensures is { result ≡ value_of place bytes.now }
    ensures lies { IfOk result (λ len. 3 + len ≤ length bytes.now) }
{
    let Field { tag, len } = split_field(bytes, place)?;
    match tag {
        Tag::Value if len <= MAX_VALUE => Ok(len),
        Tag::Value => Err(Fault::RecordValueTooLong { place }),
        Tag::Name | Tag::End => Err(Fault::TagOutOfTurn { place }),
    }
}
