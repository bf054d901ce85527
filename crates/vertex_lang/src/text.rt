// The program of a text.
ghost use Rattle.std.specs.Prelude.{◌≡◌, ◌≤◌, ◌<◌, ◌^◌, length, IfOk, Ok};
ghost use Rattle.lexical.specs.Lines.{lines_from};
ghost use Rattle.text_words.specs.Says.{Says};
ghost use Rattle.vertex_lang.specs.Entries.{IsSmall};
ghost use Rattle.vertex_lang.specs.Drafts.{entered as entered_of, line_step as step_of_line};
ghost use Rattle.vertex_lang.specs.Drafts.{lines_read, blank as blank_draft};
ghost use Rattle.vertex_lang.specs.Canonical.{canonical_text};
ghost use Rattle.vertex_lang.specs.ProgramOf.{entries_of as entries_of_text, program_of};

use crate::canonical::print;
use crate::draft::{Draft, admitted, blank, first_due};
use crate::entries::entry_at;
use crate::keywords::{keyword_of, order};
use lexical::word_from;
use std::alloc::Global;
use text_words::{Keyword, LangError, ascii_word, ended_at, line_at};
use vertex_expr::{Program, ProgramEntries};

/// An entry whose word is known.
#[tactic(auto, unfolding(crate::specs::Drafts::entered))]
fn entered(
    alloc: Global,
    draft: Draft,
    line: &[u8],
    at: usize,
    from: usize,
    keyword: Keyword,
) -> Result<Draft, LangError>
    requires place { at < 2 ^ 32 }
    requires within { from ≤ length line.now }
    requires short { length line.now < 2 ^ 32 }
    requires small { IsSmall draft.entries }
    ensures says { Says (λ d. d) result (entered_of draft line.now at from keyword) }
    ensures small { IfOk result (λ d. IsSmall d.entries) }
{
    admitted(&draft, keyword, at as u32)?;
    let Draft {
        stage: _stage,
        entries,
    } = draft;
    let (entries, end) = entry_at(alloc, entries, keyword, line, from)?;
    ended_at(line, end)?;
    Ok(Draft {
        stage: order(keyword) + 1,
        entries,
    })
}

/// One line, which begins at a place.
#[tactic(auto, unfolding(crate::specs::Drafts::line_step))]
fn line_step(alloc: Global, draft: Draft, line: &[u8], from: usize) -> Result<Draft, LangError>
    requires within { from ≤ length line.now }
    requires short { length line.now < 2 ^ 32 }
    requires small { IsSmall draft.entries }
    ensures says { Says (λ d. d) result (step_of_line draft line.now from) }
    ensures small { IfOk result (λ d. IsSmall d.entries) }
{
    match word_from(line, from) {
        None => Ok(draft),
        Some(word) => {
            let word = ascii_word(word)?;
            let at = word.at;
            match keyword_of(word.bytes) {
                None => Err(LangError::Unknown { at: at as u32 }),
                Some(keyword) => entered(alloc, draft, line, at, at + word.bytes.len(), keyword),
            }
        }
    }
}

fn read_lines(alloc: Global, text: &[u8]) -> Result<Draft, LangError>
    requires short { length text.now < 2 ^ 32 }
    ensures { Says (λ d. d) result (lines_read blank_draft text.now (lines_from 0 0 text.now)) }
{
    let mut draft = blank(alloc);
    let mut at = 0;
    'lines: while at < text.len() {
        let line = line_at(text, at);
        draft = line_step(alloc, draft, &text[..line.stop], line.at)?;
        at = line.next;
    }
    Ok(draft)
}

/// What the lines of a text say.
#[tactic(auto, unfolding(crate::specs::ProgramOf::entries_of))]
fn read_entries(alloc: Global, text: &[u8]) -> Result<ProgramEntries, LangError>
    requires short { length text.now < 2 ^ 32 }
    ensures { Says (λ g. g) result (entries_of_text text.now) }
{
    let draft = read_lines(alloc, text)?;
    match first_due(&draft) {
        None => {
            let Draft {
                stage: _stage,
                entries,
            } = draft;
            Ok(entries)
        }
        Some(word) => Err(LangError::Missing { word }),
    }
}

/// The program of a text, or the first refusal.
#[tactic(auto, unfolding(crate::specs::ProgramOf::program_of))]
pub fn parse(alloc: Global, text: &[u8]) -> Result<Program, LangError>
    ensures says { Says (λ p. p) result (program_of text.now) }
    ensures again { IfOk result (λ p. program_of (canonical_text p) ≡ Ok p) }
{
    if text.len() > 65536 {
        return Err(LangError::TooBig { at: 65536 });
    }
    let entries = read_entries(alloc, text)?;
    let program = Program::new(entries);
    let canonical = print(alloc, &program)?;
    if canonical.len() > 65536 {
        return Err(LangError::TooBig { at: 65536 });
    }
    Ok(program)
}
