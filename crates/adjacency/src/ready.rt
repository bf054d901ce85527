// What a batch of edits makes of a graph, beside it.
ghost use Rattle.std.specs.Prelude.{◌≡◌, ℕ, ℤ, List, ◌<◌, ◌≤◌, ◌^◌, length, IfOk, IfErr};
ghost use Rattle.std.specs.FinMap as finite;
ghost use Rattle.bolt_base.specs.Graph.{IsGood};
ghost use Rattle.adjacency.specs.Row.{RowMap};
ghost use Rattle.adjacency.specs.Rows.{AreMirrored, weights_of, row_at};
ghost use Rattle.adjacency.specs.PlainOf.{plain_of};
ghost use Rattle.adjacency.specs.Planned.{IsOver};
ghost use Rattle.adjacency.specs.Refusal.{IsRefusal};
ghost use Rattle.adjacency.specs.ReadyFor.{IsReady};
ghost use Rattle.adjacency.specs.Finished.{IsFinished};
ghost use Rattle.adjacency.specs.declared.change.TheConstants.{MOST_EDITS};

use crate::arcs::Arcs;
use crate::attr_draft::AttrDraft;
use crate::causes::cause_of;
use crate::change::EditRefusal;
use crate::draft::Draft;
use crate::net::Net;
use crate::plan::Plan;
use crate::row_change::RowChange;
use crate::row_list::RowList;
use bolt_base::{Edit, Limits};
use std::alloc::{AllocError, Global};
use std::collections::BTreeMap;

/// What a batch of edits makes of a graph, however its rows are stored: new attributes with their
/// places, how many vertices are new, what becomes of the rows out and in, the number of edges, and
/// the net change.
#[derive(Drop)]
pub struct Ready {
    pub attrs: Vec<(u32, i64)>,
    pub extra: usize,
    pub out: BTreeMap<u32, RowChange>,
    pub into: BTreeMap<u32, RowChange>,
    pub edges: u32,
    pub net: Net,
}

/// What the edits make, or the first bad one.
pub fn plan_edits<R: Arcs + Drop>(
    alloc: Global,
    limits: Limits,
    attrs: &[i64],
    out: &RowList<R>,
    into: &RowList<R>,
    edges: u32,
    edits: &[Edit],
) -> Result<Ready, EditRefusal>
    requires mirrored { AreMirrored (length attrs.now) out.now into.now }
    requires count { edges ≡ finite.len (weights_of out.now) }
    requires good { IsGood limits (plain_of attrs.now out.now) }
    requires few { length edits.now ≤ MOST_EDITS }
    ensures ok { IfOk result (IsReady limits attrs.now out.now into.now edits.now) }
    ensures err { IfErr result (IsRefusal limits (plain_of attrs.now out.now) edits.now) }
{
    let mut plan = Plan {
        attrs: AttrDraft::new(alloc, attrs),
        out: Draft::new(alloc, out),
        into: Draft::new(alloc, into),
        edges,
    };
    for index in 0..edits.len() {
        let edit = &edits[index];
        let ends = plan.ends(edit);
        if let Some(cause) = cause_of(&limits, &plan, edit, &ends) {
            return Err(EditRefusal::At {
                index: index as u32,
                cause,
            });
        }
        match plan.make(alloc, &limits, edit, &ends) {
            Ok(()) => {}
            Err(_) => return Err(EditRefusal::Memory),
        }
    }
    match finish(alloc, plan) {
        Ok(ready) => Ok(ready),
        Err(_) => Err(EditRefusal::Memory),
    }
}

// The new attributes and rows of a plan, and what they change.
fn finish<R: Arcs + Drop>(alloc: Global, plan: Plan<'_, R>) -> Result<Ready, AllocError>
    requires narrow { (u : ℕ) → finite.len (row_at plan.out.full u) < 2 ^ 32 }
    requires even { length plan.attrs.now ≡ length plan.out.rows }
    ensures { (attrs : List ℤ) (out into : List RowMap) → IsOver attrs out into plan.entry
        → IfOk result (IsFinished attrs out into plan.entry) }
{
    let Plan {
        attrs,
        out,
        into,
        edges,
    } = plan;
    let extra = attrs.extra();
    let net = Net {
        edges: out.net(alloc)?,
        attrs: attrs.changed(alloc)?,
    };
    let attrs = attrs.into_items(alloc)?;
    Ok(Ready {
        attrs,
        extra,
        out: out.into_changes(),
        into: into.into_changes(),
        edges,
        net,
    })
}
