// Writes records in the form in which they are read.
ghost use Rattle.std.specs.Prelude.{◌≡◌, ◌+◌, ◌^◌, ◌<◌, ◌≤◌, ◌++◌, length, IfOk, vec_len, vec_capacity};
ghost use Rattle.fault.specs.Refusal.{told};
ghost use Rattle.record.specs.Tags.{byte_of};
ghost use Rattle.record.specs.Format.{field, packed, Good};
ghost use Rattle.record.specs.Law.{Wrote};
ghost use Rattle.record.specs.Reading.{named};
ghost use Rattle.record.specs.Writing.{pair_in, pairs_in, after_pair, wrong_pair, refused_pairs, verdict};

use crate::field::{Tag, is_name};
use crate::shape::MAX_PAIRS;
use fault::Failure;
use fault::fault::{Fault, MAX_VALUE};

// A name and a value.
#[derive(Clone, Copy)]
pub struct Pair<'a> {
    pub name: &'a [u8],
    pub value: &'a [u8],
}

// Whether one of the pairs has the name.
fn has_name(pairs: &[Pair<'_>], name: &[u8]) -> bool
    ensures { result ≡ named name.now (pairs_in pairs.now) }
{
    pairs.iter().any(|pair| pair.name == name)
}

// The place after a pair whose name's tag would stand at `place`, after the earlier pairs, or why it may not stand there.
// A pair takes at most 182 bytes.
fn judge_pair(earlier: &[Pair<'_>], pair: Pair<'_>, place: usize) -> Result<usize, Fault>
    requires { place + 182 < 2 ^ 64 }
    ensures judges { told result ≡ verdict (wrong_pair (pairs_in earlier.now) place (pair_in pair.entry)) (after_pair place (pair_in pair.entry)) }
    ensures near { IfOk result (λ n. (n ≤ place + 182) × (length earlier.now < 64)) }
{
    if !is_name(pair.name) {
        return Err(Fault::BadRecordName { place });
    }
    if earlier.len() >= MAX_PAIRS {
        return Err(Fault::TooManyNames { place });
    }
    if has_name(earlier, pair.name) {
        return Err(Fault::NameTwice { place });
    }
    let due = place + (3 + pair.name.len());
    if pair.value.len() > MAX_VALUE {
        return Err(Fault::RecordValueTooLong { place: due });
    }
    Ok(due + (3 + pair.value.len()))
}

// How many bytes the pairs take as a record at `place`, or why the first pair at fault may not stand in it.
fn judge_pairs(pairs: &[Pair<'_>], place: usize) -> Result<usize, Fault>
    requires { place < 2 ^ 63 }
    ensures { told result ≡ verdict (refused_pairs place (pairs_in pairs.now)) (length (packed (pairs_in pairs.now))) }
{
    let mut at = place;
    // Each pair is judged with those before it, at the place where they end: a `map` has neither.
    for (before, pair) in pairs.iter().enumerate() {
        at = judge_pair(&pairs[..before], *pair, at)?;
    }
    Ok(at + 3 - place)
}

// Adds a field, for which there is room.
fn put_field(file: &mut Vec<u8>, tag: Tag, bytes: &[u8])
    requires short { length bytes.now < 65536 }
    requires room { vec_len file.old + (3 + length bytes.now) ≤ vec_capacity file.old }
    ensures items { file.new.items ≡ file.old.items ++ field (byte_of tag) bytes.now }
    ensures capacity { vec_capacity file.old ≤ vec_capacity file.new }
{
    let [high, low] = (bytes.len() as u16).to_be_bytes();
    let _ = file.extend_from_slice(&[tag.into(), high, low]);
    let _ = file.extend_from_slice(bytes);
}

// Adds the fields of a good record, for which there is room.
fn put_record(file: &mut Vec<u8>, pairs: &[Pair<'_>])
    requires good { Good (pairs_in pairs.now) }
    requires room { vec_len file.old + length (packed (pairs_in pairs.now)) ≤ vec_capacity file.old }
    ensures items { file.new.items ≡ file.old.items ++ packed (pairs_in pairs.now) }
    ensures capacity { vec_capacity file.old ≤ vec_capacity file.new }
{
    for pair in pairs {
        put_field(file, Tag::Name, pair.name);
        put_field(file, Tag::Value, pair.value);
    }
    put_field(file, Tag::End, &[]);
}

// Adds the written form of a record to the end of a file's bytes, or leaves them as they are.
pub fn write_record(file: &mut Vec<u8>, pairs: &[Pair<'_>]) -> Result<(), Failure<Fault>>
    ensures wrote { Wrote (vec_capacity file.old) file.old.items file.new.items (pairs_in pairs.now) result }
    ensures capacity { vec_capacity file.old ≤ vec_capacity file.new }
{
    let len = judge_pairs(pairs, file.len())?;
    file.reserve(len)?;
    put_record(file, pairs);
    Ok(())
}
