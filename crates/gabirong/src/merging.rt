// The command `merge`: the records of a file, each filled into a template.
ghost use Rattle.std.specs.Prelude.{◌≡◌, ◌<◌, ◌≤◌, IfOk, IfSome, vec_len};

use crate::check::accepted;
use crate::input::read_both;
use crate::stop::Stop;
use crate::working::MAX_TEXT;
use host::Host;
use merge::merge;
use merge::merged::Merged;
use printer::sheet::Sheet;
use std::io::Write;
use template::raw::Raw;

// After how many records progress is told.
const PROGRESS: usize = 1_000;

// A template that is accepted, the input whose records it is to be filled with, and the room for a text.
#[derive(Drop)]
struct Merging<H> {
    sheet: Sheet<H>,
    template: Vec<u8>,
    input: Vec<u8>,
    out: Vec<u8>,
}

impl<H: Host + Drop> Merging<H> {
    fn open<'a>(
        rt: &HostRuntime,
        host: H,
        template: &'a str,
        records: &'a str,
    ) -> Result<Merging<H>, Stop<'a>> {
        let (template, input) = read_both(rt, template, records)?;
        let out = vec![in rt.alloc(); 0; MAX_TEXT]?;
        let (template, _) = accepted(&host, template)?;
        Ok(Merging {
            sheet: Sheet::new(host),
            template,
            input,
            out,
        })
    }

    // Merges the record at a place, and writes its text, byte for byte; none at the end of the input.
    fn merge_at(&mut self, rt: &HostRuntime, place: usize) -> Result<Option<Merged>, Stop<'static>>
        ensures place { IfOk result (λ merged. IfSome merged (λ m. (place < m.next) × (m.next ≤ vec_len self.old.input))) }
        ensures input { self.new.input ≡ self.old.input }
    {
        let raw = Raw::new(self.template.as_slice());
        let input = self.input.as_slice();
        let merged = merge(raw, &mut self.sheet, input, place, self.out.as_mut_slice()).map_err(
            |fault| Stop::RecordRefused(fault, place),
        )?;
        if let Some(merged) = merged {
            rt.stdout().write_all(&self.out[..merged.len])?;
        }
        Ok(merged)
    }
}

// Merges every record in order, and writes the texts alone to standard output.
pub fn merge_all<'a, H: Host + Drop>(
    rt: &HostRuntime,
    host: H,
    template: &'a str,
    records: &'a str,
) -> Result<(), Stop<'a>> {
    let mut merging = Merging::open(rt, host, template, records)?;
    let mut place = 0;
    let mut count = 0usize;
    // The next place is known only from the record that was read.
    while let Some(merged) = merging.merge_at(rt, place)? {
        place = merged.next;
        count = count.saturating_add(1);
        if count % PROGRESS == 0 {
            eprintln!(rt; "merged {count} records")?;
        }
    }
    Ok(())
}

// Merges the one record at a place, and tells the place after it.
pub fn merge_one<'a, H: Host + Drop>(
    rt: &HostRuntime,
    host: H,
    template: &'a str,
    records: &'a str,
    place: usize,
) -> Result<(), Stop<'a>> {
    let mut merging = Merging::open(rt, host, template, records)?;
    match merging.merge_at(rt, place)? {
        Some(merged) => eprintln!(rt; "next {}, {} bytes", merged.next, merged.len)?,
        None => eprintln!(rt; "no record: the input ends at {place}")?,
    }
    Ok(())
}
