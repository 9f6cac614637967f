// The boundary to C: check, merge, of one record or of many, and list under each host, with answers in plain numbers. A slice comes
// as a pointer and a length. C has no generics, and a macro may write no function, so each host has its four by name; each makes
// one call of those below.
#![tactic(auto)]

ghost use Rattle.std.specs.Prelude.{◌≡◌, length};
ghost use Rattle.template.specs.Checking.{checks_as};
ghost use Rattle.template.specs.Judging.{verdict};
ghost use Rattle.merge.specs.Answers.{weighed, written};
ghost use Rattle.merge.specs.Many.{merged_many, many_weighed, many_written};
ghost use Rattle.merge.specs.Merging.{merged};
ghost use Rattle.reading.specs.Listing.{listing, answer_of, output};
ghost use Rattle.shell.specs.Table.{shell};
ghost use Rattle.sql.specs.Table.{sql};
ghost use Rattle.csv_host.specs.Table.{csv};
ghost use Rattle.gabirong_c.specs.Numbers.{checked_in_numbers, listed_in_numbers, merged_in_numbers, merges_in_numbers};

mod numbers;

use csv_host::Csv;
use host::Host;
use merge::many::merge_many;
use merge::merge_under as merge_record;
use numbers::{Checked, Listed, Merged, Merges};
use reading::list;
use shell::Shell;
use sql::Sql;
use template::check::check;
use template::raw::Raw;

fn check_under<H: Host>(host: &H, template: &[u8]) -> Checked
    ensures { result ≡ checked_in_numbers (checks_as template.now (verdict (H.meaning host.now) template.now)) }
{
    check(Raw::new(template), host).into()
}

fn list_under<H: Host>(host: &H, text: &[u8], out: &mut [u8]) -> Listed
    ensures answer { result ≡ listed_in_numbers (answer_of (listing (H.meaning host.now) text.now (length out.old))) }
    ensures output { out.new ≡ output (listing (H.meaning host.now) text.now (length out.old)) out.old }
{
    list(host, text, out).into()
}

fn merge_under<H: Host>(
    host: &H,
    template: &[u8],
    input: &[u8],
    place: usize,
    out: &mut [u8],
) -> Merged
    ensures answer { result ≡ merged_in_numbers (weighed (merged (H.meaning host.now) template.now input.now place (length out.old))) }
    ensures output { out.new ≡ written out.old (merged (H.meaning host.now) template.now input.now place (length out.old)) }
{
    merge_record(Raw::new(template), host, input, place, out).into()
}

fn merge_many_under<H: Host>(
    host: &H,
    template: &[u8],
    input: &[u8],
    place: usize,
    most: usize,
    out: &mut [u8],
) -> Merges
    ensures answer { result ≡ merges_in_numbers (many_weighed (merged_many (H.meaning host.now) template.now input.now place most (length out.old))) }
    ensures output { out.new ≡ many_written out.old (merged_many (H.meaning host.now) template.now input.now place most (length out.old)) }
{
    merge_many(Raw::new(template), host, input, place, most, out).into()
}

#[unsafe(no_mangle)]
pub extern "C" fn gabirong_shell_check(template: &[u8]) -> Checked
    ensures { result ≡ checked_in_numbers (checks_as template.now (verdict shell template.now)) }
{
    check_under(&Shell, template)
}

#[unsafe(no_mangle)]
pub extern "C" fn gabirong_sql_check(template: &[u8]) -> Checked
    ensures { result ≡ checked_in_numbers (checks_as template.now (verdict sql template.now)) }
{
    check_under(&Sql, template)
}

#[unsafe(no_mangle)]
pub extern "C" fn gabirong_csv_check(template: &[u8]) -> Checked
    ensures { result ≡ checked_in_numbers (checks_as template.now (verdict csv template.now)) }
{
    check_under(&Csv, template)
}

#[unsafe(no_mangle)]
pub extern "C" fn gabirong_shell_list(text: &[u8], out: &mut [u8]) -> Listed
    ensures answer { result ≡ listed_in_numbers (answer_of (listing shell text.now (length out.old))) }
    ensures output { out.new ≡ output (listing shell text.now (length out.old)) out.old }
{
    list_under(&Shell, text, out)
}

#[unsafe(no_mangle)]
pub extern "C" fn gabirong_sql_list(text: &[u8], out: &mut [u8]) -> Listed
    ensures answer { result ≡ listed_in_numbers (answer_of (listing sql text.now (length out.old))) }
    ensures output { out.new ≡ output (listing sql text.now (length out.old)) out.old }
{
    list_under(&Sql, text, out)
}

#[unsafe(no_mangle)]
pub extern "C" fn gabirong_csv_list(text: &[u8], out: &mut [u8]) -> Listed
    ensures answer { result ≡ listed_in_numbers (answer_of (listing csv text.now (length out.old))) }
    ensures output { out.new ≡ output (listing csv text.now (length out.old)) out.old }
{
    list_under(&Csv, text, out)
}

#[unsafe(no_mangle)]
pub extern "C" fn gabirong_shell_merge(
    template: &[u8],
    input: &[u8],
    place: usize,
    out: &mut [u8],
) -> Merged
    ensures answer { result ≡ merged_in_numbers (weighed (merged shell template.now input.now place (length out.old))) }
    ensures output { out.new ≡ written out.old (merged shell template.now input.now place (length out.old)) }
{
    merge_under(&Shell, template, input, place, out)
}

#[unsafe(no_mangle)]
pub extern "C" fn gabirong_sql_merge(
    template: &[u8],
    input: &[u8],
    place: usize,
    out: &mut [u8],
) -> Merged
    ensures answer { result ≡ merged_in_numbers (weighed (merged sql template.now input.now place (length out.old))) }
    ensures output { out.new ≡ written out.old (merged sql template.now input.now place (length out.old)) }
{
    merge_under(&Sql, template, input, place, out)
}

#[unsafe(no_mangle)]
pub extern "C" fn gabirong_csv_merge(
    template: &[u8],
    input: &[u8],
    place: usize,
    out: &mut [u8],
) -> Merged
    ensures answer { result ≡ merged_in_numbers (weighed (merged csv template.now input.now place (length out.old))) }
    ensures output { out.new ≡ written out.old (merged csv template.now input.now place (length out.old)) }
{
    merge_under(&Csv, template, input, place, out)
}

#[unsafe(no_mangle)]
pub extern "C" fn gabirong_shell_merge_many(
    template: &[u8],
    input: &[u8],
    place: usize,
    most: usize,
    out: &mut [u8],
) -> Merges
    ensures answer { result ≡ merges_in_numbers (many_weighed (merged_many shell template.now input.now place most (length out.old))) }
    ensures output { out.new ≡ many_written out.old (merged_many shell template.now input.now place most (length out.old)) }
{
    merge_many_under(&Shell, template, input, place, most, out)
}

#[unsafe(no_mangle)]
pub extern "C" fn gabirong_sql_merge_many(
    template: &[u8],
    input: &[u8],
    place: usize,
    most: usize,
    out: &mut [u8],
) -> Merges
    ensures answer { result ≡ merges_in_numbers (many_weighed (merged_many sql template.now input.now place most (length out.old))) }
    ensures output { out.new ≡ many_written out.old (merged_many sql template.now input.now place most (length out.old)) }
{
    merge_many_under(&Sql, template, input, place, most, out)
}

#[unsafe(no_mangle)]
pub extern "C" fn gabirong_csv_merge_many(
    template: &[u8],
    input: &[u8],
    place: usize,
    most: usize,
    out: &mut [u8],
) -> Merges
    ensures answer { result ≡ merges_in_numbers (many_weighed (merged_many csv template.now input.now place most (length out.old))) }
    ensures output { out.new ≡ many_written out.old (merged_many csv template.now input.now place most (length out.old)) }
{
    merge_many_under(&Csv, template, input, place, most, out)
}
