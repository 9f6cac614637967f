// Merging records one after another into one template.
ghost use Rattle.std.specs.Prelude.{◌≡◌, ◌+◌, ◌-◌, ◌≤◌, ◌++◌, length, take, drop, None};
ghost use Rattle.merge.specs.Answers.{merged_of, weighed, written};
ghost use Rattle.merge.specs.Law.{ReadsAsRecords};
ghost use Rattle.merge.specs.Many.{merged_on, merged_many, many_told, many_weighed, many_written};
ghost use Rattle.merge.specs.Merging.{merged};

use crate::memory::Memory;
use crate::merge_prepared;
use crate::merged::{Merged, Merges};
use crate::prepared::Prepared;
use fault::Fault;
use host::Host;
use template::check::check_and_survey;
use template::raw::Raw;

// Merges the record at a place of the input, and writes its text into the output behind what is written there.
fn merge_behind<'v, H: Host>(
    prepared: &Prepared<'_, '_, H>,
    memory: &mut Memory<'v>,
    input: &'v [u8],
    place: usize,
    behind: usize,
    out: &mut [u8],
) -> Result<Option<Merged>, Fault>
    requires within { behind ≤ length out.old }
    ensures answer { merged_of result ≡ weighed (merged (H.meaning prepared.now.host.now) prepared.now.checked.template.now input.now place (length out.old - behind)) }
    ensures text { out.new ≡ take behind out.old ++ written (drop behind out.old) (merged (H.meaning prepared.now.host.now) prepared.now.checked.template.now input.now place (length out.old - behind)) }
{
    merge_prepared(prepared, memory, input, place, &mut out[behind..])
}

// Merges at most `most` records from a place on, with a template that the host has accepted.
fn merge_on<H: Host>(
    prepared: &Prepared<'_, '_, H>,
    input: &[u8],
    place: usize,
    most: usize,
    out: &mut [u8],
) -> Merges
    ensures answer { many_told result ≡ many_weighed (merged_on (H.meaning prepared.now.host.now) prepared.now.checked.template.now input.now most place (length out.old)) }
    ensures text { out.new ≡ many_written out.old (merged_on (H.meaning prepared.now.host.now) prepared.now.checked.template.now input.now most place (length out.old)) }
{
    let mut done = Merges {
        count: 0,
        next: place,
        len: 0,
        refusal: None,
    };
    let mut memory = Memory::new();
    while done.count < most {
        match merge_behind(prepared, &mut memory, input, done.next, done.len, out) {
            Ok(Some(Merged { next, len })) => {
                done.count += 1;
                done.next = next;
                done.len += len;
            }
            Ok(None) => return done,
            Err(fault) => {
                done.refusal = Some(fault);
                return done;
            }
        }
    }
    done
}

// Merges at most `most` records of the input, one after another from a place on, and writes their texts one after another from
// the start of the output. The template is checked once. The bytes after the texts stay as they were.
pub fn merge_many<H: Host>(
    template: Raw<'_>,
    host: &H,
    input: &[u8],
    place: usize,
    most: usize,
    out: &mut [u8],
) -> Merges
    ensures answer { many_told result ≡ many_weighed (merged_many (H.meaning host.now) template.entry.template.now input.now place most (length out.old)) }
    ensures text { out.new ≡ many_written out.old (merged_many (H.meaning host.now) template.entry.template.now input.now place most (length out.old)) }
    ensures law { ReadsAsRecords (H.meaning host.now) template.entry.template.now input.now place result.next result.count (take result.len out.new) }
{
    match check_and_survey(template, host) {
        Ok((checked, survey)) => {
            let prepared = Prepared {
                checked,
                survey,
                host,
            };
            merge_on(&prepared, input, place, most, out)
        }
        Err(fault) => Merges {
            count: 0,
            next: place,
            len: 0,
            refusal: Some(fault),
        },
    }
}
