// A prepared batch, and how it ends.
ghost use Rattle.std.specs.Prelude.{◌≡◌, ◌+◌, ◌<◌, ◌^◌, None, length};
ghost use Rattle.bolt_base.specs.Change.{added, removed};
ghost use Rattle.bolt_base.specs.Edits.{after};
ghost use Rattle.bolt_base.specs.Graph.{edges};
ghost use Rattle.run_model.specs.Kept.{kept};
ghost use Rattle.run_model.specs.Logs.{answer_changes};
ghost use Rattle.run_model.specs.Rows.{answer};
ghost use Rattle.run_model.specs.Visits.{visits};
ghost use Rattle.round_engine.specs.Prepared.{IsPreparedBy};

use crate::engine::Engine;
use crate::round::Round;
use adjacency::{Adjacency, Change};
use agg_history::Overlay;
use bolt_base::{Answer, AnswerChange, ChangeList, Edit, EditList};

/// A batch that was prepared. It can't be dropped: its engine commits or abandons it.
pub struct Prepared {
    pub(crate) change: Change,
    pub(crate) overlay: Overlay,
    pub(crate) answer: Option<Answer>,
    pub(crate) changes: ChangeList,
    pub(crate) edits: EditList,
    pub(crate) visits: u64,
}

impl Prepared {
    /// The vertices whose answer differs and the new ones, rising, with their new values.
    pub fn changes(&self) -> &[AnswerChange]
        ensures { result.now ≡ self.now.changes }
    {
        self.changes.as_slice()
    }

    /// The batch's edits.
    pub fn edits(&self) -> &[Edit]
        ensures { result.now ≡ self.now.edits }
    {
        self.edits.as_slice()
    }
}

impl Engine {
    /// Makes the prepared state the state. Takes no memory.
    pub fn commit(&mut self, prepared: Prepared) -> Round
        requires prepared { IsPreparedBy self.old prepared }
        requires count { self.old.number + 1 < 2 ^ 64 }
        ensures now { self.new.now ≡ after self.old.now prepared.edits }
        ensures state { self.new
            ≡ record self.old { now = self.new.now; next = None; number = self.old.number + 1 } }
        ensures number { result.number ≡ self.old.number + 1 }
        ensures added { result.added ≡ length (added self.old.now self.new.now) }
        ensures removed { result.removed ≡ length (removed self.old.now self.new.now) }
        ensures edges { result.edges ≡ length (edges self.new.now) }
        ensures kept { result.kept
            ≡ kept self.old.choice.vertical self.old.program self.new.now self.old.choice.cut }
        ensures visits { result.visits
            ≡ visits self.old.program self.old.now self.new.now self.old.choice.cut }
        ensures changes { result.changes
            ≡ answer_changes (answer self.old.program self.old.now)
            (answer self.old.program self.new.now) }
    {
        let Prepared {
            change,
            overlay,
            answer,
            changes,
            edits: _,
            visits,
        } = prepared;
        let edges = self.graph.edges();
        let added = change.added.len() as u32;
        let removed = change.removed.len() as u32;
        self.graph.keep(change);
        self.history.commit(overlay);
        self.answer = answer;
        self.edges = edges;
        let _limits = self.graph.limits();
        Round {
            number: self.graph.version(),
            added,
            removed,
            edges,
            kept: self.history.kept(),
            visits,
            changes,
        }
    }

    /// The state stays as it was before the batch was prepared. Takes no memory.
    pub fn abandon(&mut self, prepared: Prepared)
        requires { IsPreparedBy self.old prepared }
        ensures { self.new ≡ record self.old { next = None } }
    {
        let Prepared {
            change,
            overlay: _,
            answer: _,
            changes: _,
            edits: _,
            visits: _,
        } = prepared;
        self.graph.revert(change);
        self.history.release();
    }
}
