// What an entry says behind its word, of those that stand more than once.
ghost use Rattle.std.specs.Prelude.{◌≤◌, ◌<◌, ◌^◌, length, IfOk};
ghost use Rattle.text_words.specs.Says.{Says};
ghost use Rattle.text_words.specs.declared.error.Keyword.TheVariants.{Param as ParamWord};
ghost use Rattle.text_words.specs.declared.error.Keyword.TheVariants.{Lane as LaneWord};
ghost use Rattle.text_words.specs.declared.error.Keyword.TheVariants.{Init as InitWord};
ghost use Rattle.text_words.specs.declared.error.Keyword.TheVariants.{Contribute as ContributeWord};
ghost use Rattle.text_words.specs.declared.error.Keyword.TheVariants.{Apply as ApplyWord};
ghost use Rattle.vertex_expr.specs.Node.{tree_of};
ghost use Rattle.vertex_lang.specs.Entries.{entry_at as entry_of_line, tree_at as tree_of_line};
ghost use Rattle.vertex_lang.specs.Entries.{IsSmall};

use crate::ranges::{index_at, place_at, range_at};
use bolt_base::Bytes;
use expr_text::{Scope, is_taken, read_expression};
use std::alloc::Global;
use text_words::{Keyword, LangError, name_at, signed_at};
use vertex_expr::{Expr, NamedParam, Part, ProgramEntries};

#[tactic(auto, unfolding(crate::specs::Entries::entry_at, crate::specs::Entries::param_at))]
pub fn param_entry(
    alloc: Global,
    entries: ProgramEntries,
    line: &[u8],
    from: usize,
) -> Result<(ProgramEntries, usize), LangError>
    requires within { from ≤ length line.now }
    requires short { length line.now < 2 ^ 32 }
    requires small { IsSmall entries }
    requires room { length entries.params < 64 }
    ensures says { Says (λ r. r) result (entry_of_line entries ParamWord line.now from) }
    ensures within { IfOk result (λ r. r.1 ≤ length line.now) }
    ensures small { IfOk result (λ r. IsSmall r.0) }
{
    let word = name_at(line, from)?;
    if is_taken(entries.params.as_slice(), word.bytes) {
        return Err(LangError::Repeat { at: word.at as u32 });
    }
    let (value, end) = signed_at(line, word.at + word.bytes.len(), i64::MIN, i64::MAX)?;
    let name = Bytes::from_slice(alloc, word.bytes)?;
    let mut entries = entries;
    entries.params.push(NamedParam { name, value })?;
    Ok((entries, end))
}

#[tactic(auto, unfolding(crate::specs::Entries::entry_at, crate::specs::Entries::lane_at))]
pub fn lane_entry(
    entries: ProgramEntries,
    line: &[u8],
    from: usize,
) -> Result<(ProgramEntries, usize), LangError>
    requires within { from ≤ length line.now }
    requires short { length line.now < 2 ^ 32 }
    requires small { IsSmall entries }
    requires room { length entries.ranges < 8 }
    ensures says { Says (λ r. r) result (entry_of_line entries LaneWord line.now from) }
    ensures within { IfOk result (λ r. r.1 ≤ length line.now) }
    ensures small { IfOk result (λ r. IsSmall r.0) }
{
    let next = index_at(line, from, Keyword::Lane, entries.ranges.len())?;
    let (range, end) = range_at(line, next, i64::MAX, i64::MIN)?;
    let mut entries = entries;
    entries.ranges.push(range)?;
    Ok((entries, end))
}

/// K and the expression of a part.
#[tactic(auto, unfolding(crate::specs::Entries::tree_at))]
fn tree_at(
    alloc: Global,
    entries: &ProgramEntries,
    part: Part,
    keyword: Keyword,
    next: usize,
    line: &[u8],
    from: usize,
) -> Result<Expr, LangError>
    requires within { from ≤ length line.now }
    requires short { length line.now < 2 ^ 32 }
    requires small { IsSmall entries.now }
    ensures { Says (λ e. tree_of e) result
        (tree_of_line entries.now part keyword next line.now from) }
{
    let end = place_at(line, from, keyword, next, entries.ranges.len())?;
    let scope = Scope {
        part,
        lanes: entries.ranges.len() as u32,
        params: entries.params.as_slice(),
    };
    read_expression(alloc, &scope, line, end)
}

#[tactic(auto, unfolding(crate::specs::Entries::entry_at))]
pub fn init_entry(
    alloc: Global,
    entries: ProgramEntries,
    line: &[u8],
    from: usize,
) -> Result<(ProgramEntries, usize), LangError>
    requires within { from ≤ length line.now }
    requires short { length line.now < 2 ^ 32 }
    requires small { IsSmall entries }
    ensures says { Says (λ r. r) result (entry_of_line entries InitWord line.now from) }
    ensures within { IfOk result (λ r. r.1 ≤ length line.now) }
    ensures small { IfOk result (λ r. IsSmall r.0) }
{
    let expr = tree_at(
        alloc,
        &entries,
        Part::Init,
        Keyword::Init,
        entries.init.len(),
        line,
        from,
    )?;
    let mut entries = entries;
    entries.init.push(expr)?;
    Ok((entries, line.len()))
}

#[tactic(auto, unfolding(crate::specs::Entries::entry_at))]
pub fn contribute_entry(
    alloc: Global,
    entries: ProgramEntries,
    line: &[u8],
    from: usize,
) -> Result<(ProgramEntries, usize), LangError>
    requires within { from ≤ length line.now }
    requires short { length line.now < 2 ^ 32 }
    requires small { IsSmall entries }
    ensures says { Says (λ r. r) result (entry_of_line entries ContributeWord line.now from) }
    ensures within { IfOk result (λ r. r.1 ≤ length line.now) }
    ensures small { IfOk result (λ r. IsSmall r.0) }
{
    let expr = tree_at(
        alloc,
        &entries,
        Part::Contribute,
        Keyword::Contribute,
        entries.contribute.len(),
        line,
        from,
    )?;
    let mut entries = entries;
    entries.contribute.push(expr)?;
    Ok((entries, line.len()))
}

#[tactic(auto, unfolding(crate::specs::Entries::entry_at))]
pub fn apply_entry(
    alloc: Global,
    entries: ProgramEntries,
    line: &[u8],
    from: usize,
) -> Result<(ProgramEntries, usize), LangError>
    requires within { from ≤ length line.now }
    requires short { length line.now < 2 ^ 32 }
    requires small { IsSmall entries }
    ensures says { Says (λ r. r) result (entry_of_line entries ApplyWord line.now from) }
    ensures within { IfOk result (λ r. r.1 ≤ length line.now) }
    ensures small { IfOk result (λ r. IsSmall r.0) }
{
    let expr = tree_at(
        alloc,
        &entries,
        Part::Apply,
        Keyword::Apply,
        entries.apply.len(),
        line,
        from,
    )?;
    let mut entries = entries;
    entries.apply.push(expr)?;
    Ok((entries, line.len()))
}
