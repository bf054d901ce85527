// What the lines so far say, and which entry may stand next.
ghost use Rattle.std.specs.Prelude.{◌≡◌, OnOk, false};
ghost use Rattle.text_words.specs.Says.{SaysAlways};
ghost use Rattle.vertex_lang.specs.Entries.{IsSmall};
ghost use Rattle.vertex_lang.specs.Drafts.{first_due as due_of, is_past as is_past_entry};
ghost use Rattle.vertex_lang.specs.Drafts.{is_full as is_full_of, admitted as admitted_by};
ghost use Rattle.vertex_lang.specs.Drafts.{blank as blank_draft};

use crate::keywords::{once_at, order};
use bolt_base::{Bytes, Limits};
use std::alloc::Global;
use text_words::{Keyword, LangError};
use vertex_expr::{Combine, ExprList, ParamList, ProgramEntries, RangeList};

/// What the lines so far say. The stage is 1 more than the place of the last entry's word in the
/// order, and 0 at the beginning.
#[derive(Drop)]
pub struct Draft {
    pub stage: u32,
    pub entries: ProgramEntries,
}

/// Nothing is said yet.
pub fn blank(alloc: Global) -> Draft
    ensures value { result ≡ blank_draft }
    ensures small { IsSmall result.entries }
{
    let limits = Limits {
        vertices: 0,
        degree: 0,
        edges: 0,
        weight_lo: 0,
        weight_hi: 0,
        attr_lo: 0,
        attr_hi: 0,
    };
    Draft {
        stage: 0,
        entries: ProgramEntries {
            name: Bytes::new(alloc),
            limits,
            rounds: 0,
            combine: Combine::Sum,
            params: ParamList::new(alloc),
            ranges: RangeList::new(alloc),
            init: ExprList::new(alloc),
            contribute: ExprList::new(alloc),
            apply: ExprList::new(alloc),
        },
    }
}

/// The first entry that is still due.
#[tactic(auto, unfolding(crate::specs::Drafts::first_due))]
pub fn first_due(draft: &Draft) -> Option<Keyword>
    ensures { result ≡ due_of draft.now }
{
    let entries = &draft.entries;
    let lanes = entries.ranges.len();
    if draft.stage < 8 {
        Some(once_at(draft.stage))
    } else if lanes == 0 {
        Some(Keyword::Lane)
    } else if entries.init.len() < lanes {
        Some(Keyword::Init)
    } else if entries.contribute.len() < lanes {
        Some(Keyword::Contribute)
    } else if entries.apply.len() < lanes {
        Some(Keyword::Apply)
    } else {
        None
    }
}

#[tactic(auto, unfolding(crate::specs::Drafts::is_past))]
fn is_past(draft: &Draft, keyword: Keyword) -> bool
    ensures { result ≡ is_past_entry draft.now keyword }
{
    let place = order(keyword);
    if place + 1 < draft.stage {
        true
    } else if place + 1 == draft.stage {
        place < 8
    } else {
        false
    }
}

#[tactic(auto, unfolding(crate::specs::Drafts::is_full))]
fn is_full(entries: &ProgramEntries, keyword: Keyword) -> bool
    ensures { result ≡ is_full_of entries.now keyword }
{
    match keyword {
        Keyword::Param => 64 <= entries.params.len(),
        Keyword::Lane => 8 <= entries.ranges.len(),
        _ => false,
    }
}

/// Whether the entry may stand here.
#[tactic(auto, unfolding(crate::specs::Drafts::admitted))]
pub fn admitted(draft: &Draft, keyword: Keyword, at: u32) -> Result<(), LangError>
    ensures says { SaysAlways (λ _. tt) result (admitted_by draft.now keyword at) }
    ensures room { OnOk result (is_full_of draft.now.entries keyword ≡ false) }
{
    if is_past(draft, keyword) {
        return Err(LangError::Repeat { at });
    }
    if let Some(word) = first_due(draft) {
        if order(word) < order(keyword) {
            return Err(LangError::Missing { word });
        }
    }
    if is_full(&draft.entries, keyword) {
        return Err(LangError::TooBig { at });
    }
    Ok(())
}
