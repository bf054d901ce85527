// What an entry says behind its word, of those that stand once.
ghost use Rattle.std.specs.Prelude.{◌≡◌, ◌≤◌, ◌<◌, ◌^◌, length, IfOk, false};
ghost use Rattle.text_words.specs.Says.{Says, SaysAlways};
ghost use Rattle.text_words.specs.declared.error.Keyword.TheVariants.{Program as ProgramWord};
ghost use Rattle.text_words.specs.declared.error.Keyword.TheVariants.{Vertices as VerticesWord};
ghost use Rattle.text_words.specs.declared.error.Keyword.TheVariants.{Degree as DegreeWord};
ghost use Rattle.text_words.specs.declared.error.Keyword.TheVariants.{Edges as EdgesWord};
ghost use Rattle.text_words.specs.declared.error.Keyword.TheVariants.{Weight as WeightWord};
ghost use Rattle.text_words.specs.declared.error.Keyword.TheVariants.{Attr as AttrWord};
ghost use Rattle.text_words.specs.declared.error.Keyword.TheVariants.{Rounds as RoundsWord};
ghost use Rattle.text_words.specs.declared.error.Keyword.TheVariants.{Combine as CombineWord};
ghost use Rattle.vertex_lang.specs.Entries.{entry_at as entry_of_line, IsSmall};
ghost use Rattle.vertex_lang.specs.Drafts.{is_full as is_full_of};

use crate::lists::{apply_entry, contribute_entry, init_entry, lane_entry, param_entry};
use crate::ranges::{combine_at, range_at};
use bolt_base::Bytes;
use std::alloc::Global;
use text_words::{Keyword, LangError, name_at, number_at};
use vertex_expr::ProgramEntries;

#[tactic(auto, unfolding(crate::specs::Entries::entry_at))]
fn program_entry(
    alloc: Global,
    entries: ProgramEntries,
    line: &[u8],
    from: usize,
) -> Result<(ProgramEntries, usize), LangError>
    requires within { from ≤ length line.now }
    requires short { length line.now < 2 ^ 32 }
    requires small { IsSmall entries }
    ensures says { Says (λ r. r) result (entry_of_line entries ProgramWord line.now from) }
    ensures within { IfOk result (λ r. r.1 ≤ length line.now) }
    ensures small { IfOk result (λ r. IsSmall r.0) }
{
    let word = name_at(line, from)?;
    let mut entries = entries;
    entries.name = Bytes::from_slice(alloc, word.bytes)?;
    Ok((entries, word.at + word.bytes.len()))
}

#[tactic(auto, unfolding(crate::specs::Entries::entry_at))]
fn vertices_entry(
    entries: ProgramEntries,
    line: &[u8],
    from: usize,
) -> Result<(ProgramEntries, usize), LangError>
    requires within { from ≤ length line.now }
    requires short { length line.now < 2 ^ 32 }
    requires small { IsSmall entries }
    ensures says { SaysAlways (λ r. r) result (entry_of_line entries VerticesWord line.now from) }
    ensures within { IfOk result (λ r. r.1 ≤ length line.now) }
    ensures small { IfOk result (λ r. IsSmall r.0) }
{
    let (number, end) = number_at(line, from, 1, 1_000_000)?;
    let mut entries = entries;
    entries.limits.vertices = number as u32;
    Ok((entries, end))
}

#[tactic(auto, unfolding(crate::specs::Entries::entry_at))]
fn degree_entry(
    entries: ProgramEntries,
    line: &[u8],
    from: usize,
) -> Result<(ProgramEntries, usize), LangError>
    requires within { from ≤ length line.now }
    requires short { length line.now < 2 ^ 32 }
    requires small { IsSmall entries }
    ensures says { SaysAlways (λ r. r) result (entry_of_line entries DegreeWord line.now from) }
    ensures within { IfOk result (λ r. r.1 ≤ length line.now) }
    ensures small { IfOk result (λ r. IsSmall r.0) }
{
    let (number, end) = number_at(line, from, 1, 1_000_000)?;
    let mut entries = entries;
    entries.limits.degree = number as u32;
    Ok((entries, end))
}

#[tactic(auto, unfolding(crate::specs::Entries::entry_at))]
fn edges_entry(
    entries: ProgramEntries,
    line: &[u8],
    from: usize,
) -> Result<(ProgramEntries, usize), LangError>
    requires within { from ≤ length line.now }
    requires short { length line.now < 2 ^ 32 }
    requires small { IsSmall entries }
    ensures says { SaysAlways (λ r. r) result (entry_of_line entries EdgesWord line.now from) }
    ensures within { IfOk result (λ r. r.1 ≤ length line.now) }
    ensures small { IfOk result (λ r. IsSmall r.0) }
{
    let (number, end) = number_at(line, from, 1, 8_000_000)?;
    let mut entries = entries;
    entries.limits.edges = number as u32;
    Ok((entries, end))
}

#[tactic(auto, unfolding(crate::specs::Entries::entry_at))]
fn weight_entry(
    entries: ProgramEntries,
    line: &[u8],
    from: usize,
) -> Result<(ProgramEntries, usize), LangError>
    requires within { from ≤ length line.now }
    requires short { length line.now < 2 ^ 32 }
    requires small { IsSmall entries }
    ensures says { SaysAlways (λ r. r) result (entry_of_line entries WeightWord line.now from) }
    ensures within { IfOk result (λ r. r.1 ≤ length line.now) }
    ensures small { IfOk result (λ r. IsSmall r.0) }
{
    let (range, end) = range_at(line, from, i64::MAX, i64::MIN)?;
    let mut entries = entries;
    entries.limits.weight_lo = range.lo;
    entries.limits.weight_hi = range.hi;
    Ok((entries, end))
}

#[tactic(auto, unfolding(crate::specs::Entries::entry_at))]
fn attr_entry(
    entries: ProgramEntries,
    line: &[u8],
    from: usize,
) -> Result<(ProgramEntries, usize), LangError>
    requires within { from ≤ length line.now }
    requires short { length line.now < 2 ^ 32 }
    requires small { IsSmall entries }
    ensures says { SaysAlways (λ r. r) result (entry_of_line entries AttrWord line.now from) }
    ensures within { IfOk result (λ r. r.1 ≤ length line.now) }
    ensures small { IfOk result (λ r. IsSmall r.0) }
{
    let (range, end) = range_at(line, from, 0, 0)?;
    let mut entries = entries;
    entries.limits.attr_lo = range.lo;
    entries.limits.attr_hi = range.hi;
    Ok((entries, end))
}

#[tactic(auto, unfolding(crate::specs::Entries::entry_at))]
fn rounds_entry(
    entries: ProgramEntries,
    line: &[u8],
    from: usize,
) -> Result<(ProgramEntries, usize), LangError>
    requires within { from ≤ length line.now }
    requires short { length line.now < 2 ^ 32 }
    requires small { IsSmall entries }
    ensures says { SaysAlways (λ r. r) result (entry_of_line entries RoundsWord line.now from) }
    ensures within { IfOk result (λ r. r.1 ≤ length line.now) }
    ensures small { IfOk result (λ r. IsSmall r.0) }
{
    let (number, end) = number_at(line, from, 1, 64)?;
    let mut entries = entries;
    entries.rounds = number as u32;
    Ok((entries, end))
}

#[tactic(auto, unfolding(crate::specs::Entries::entry_at))]
fn combine_entry(
    entries: ProgramEntries,
    line: &[u8],
    from: usize,
) -> Result<(ProgramEntries, usize), LangError>
    requires within { from ≤ length line.now }
    requires short { length line.now < 2 ^ 32 }
    requires small { IsSmall entries }
    ensures says { SaysAlways (λ r. r) result (entry_of_line entries CombineWord line.now from) }
    ensures within { IfOk result (λ r. r.1 ≤ length line.now) }
    ensures small { IfOk result (λ r. IsSmall r.0) }
{
    let (combine, end) = combine_at(line, from)?;
    let mut entries = entries;
    entries.combine = combine;
    Ok((entries, end))
}

/// What stands behind an entry's word, put to the entries, and the place behind it.
#[tactic(auto, unfolding(crate::specs::Drafts::is_full))]
pub fn entry_at(
    alloc: Global,
    entries: ProgramEntries,
    keyword: Keyword,
    line: &[u8],
    from: usize,
) -> Result<(ProgramEntries, usize), LangError>
    requires within { from ≤ length line.now }
    requires short { length line.now < 2 ^ 32 }
    requires small { IsSmall entries }
    requires room { is_full_of entries keyword ≡ false }
    ensures says { Says (λ r. r) result (entry_of_line entries keyword line.now from) }
    ensures within { IfOk result (λ r. r.1 ≤ length line.now) }
    ensures small { IfOk result (λ r. IsSmall r.0) }
{
    match keyword {
        Keyword::Program => program_entry(alloc, entries, line, from),
        Keyword::Vertices => vertices_entry(entries, line, from),
        Keyword::Degree => degree_entry(entries, line, from),
        Keyword::Edges => edges_entry(entries, line, from),
        Keyword::Weight => weight_entry(entries, line, from),
        Keyword::Attr => attr_entry(entries, line, from),
        Keyword::Rounds => rounds_entry(entries, line, from),
        Keyword::Combine => combine_entry(entries, line, from),
        Keyword::Param => param_entry(alloc, entries, line, from),
        Keyword::Lane => lane_entry(entries, line, from),
        Keyword::Init => init_entry(alloc, entries, line, from),
        Keyword::Contribute => contribute_entry(alloc, entries, line, from),
        Keyword::Apply => apply_entry(alloc, entries, line, from),
    }
}
