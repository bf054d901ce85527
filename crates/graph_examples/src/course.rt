// Batches that are made of a graph and of plain lists, kept or taken back.
ghost use Rattle.std.specs.Prelude.{◌≡◌, None, IfOk};

use crate::plain::{Plain, PlainChange, short};
use crate::reading::reads_as;
use adjacency::{Arcs, Change, EditRefusal, MOST_EDITS, RowGraph};
use bolt_base::{AttrList, EdgeList, Edit, GraphData, Limits, LineCause, Memory};
use std::alloc::{AllocError, Global};

/// What has to come of a batch: the lists before and after it, and the change or the first bad
/// edit. After a bad batch the lists are as before.
#[derive(Drop)]
pub struct Course {
    pub before: Plain,
    pub after: Plain,
    pub change: PlainChange,
    pub bad: Option<(u32, LineCause)>,
}

impl Course {
    /// What comes of the edits.
    pub fn new(
        alloc: Global,
        limits: &Limits,
        plain: &Plain,
        edits: &[Edit],
    ) -> Result<Course, AllocError> {
        let before = plain.copy(alloc)?;
        let mut after = plain.copy(alloc)?;
        let bad = after.make(limits, edits)?;
        if bad.is_some() {
            after = plain.copy(alloc)?;
        }
        let change = before.change(alloc, &after)?;
        Ok(Course {
            before,
            after,
            change,
            bad,
        })
    }

    // Whether it is the whole change.
    fn is_change(&self, change: &Change) -> bool {
        self.bad.is_none()
            && change.added.as_slice() == self.change.added.as_slice()
            && change.removed.as_slice() == self.change.removed.as_slice()
            && change.sources.as_slice() == self.change.sources.as_slice()
            && change.attrs.as_slice() == self.change.attrs.as_slice()
            && change.old_vertices == short(self.before.attrs.len())
    }

    // Whether it is the refusal.
    fn is_refusal(&self, refusal: EditRefusal) -> bool {
        match self.bad {
            Some((index, cause)) => refusal == EditRefusal::At { index, cause },
            None => false,
        }
    }

    /// Whether the edits give the graph this change or refusal, and whether it reads right before
    /// and after they are kept or taken back.
    pub fn is_run<R: Arcs + Drop>(
        &self,
        alloc: Global,
        graph: &mut RowGraph<R>,
        edits: &[Edit],
        is_kept: bool,
    ) -> bool
        ensures { graph.new.before ≡ graph.old.before }
    {
        if graph.is_changed() || edits.len() > MOST_EDITS {
            return false;
        }
        match graph.apply(alloc, edits) {
            Ok(change) => {
                let is_right = self.is_change(&change) && reads_as(graph, &self.after);
                if is_kept && graph.version() < u64::MAX {
                    graph.keep(change);
                    is_right && reads_as(graph, &self.after)
                } else {
                    graph.revert(change);
                    is_right && reads_as(graph, &self.before)
                }
            }
            Err(refusal) => self.is_refusal(refusal) && reads_as(graph, &self.before),
        }
    }
}

/// A graph without vertices.
pub fn no_vertices<R: Arcs + Drop>(alloc: Global, limits: Limits) -> Result<RowGraph<R>, Memory>
    ensures { IfOk result (λ graph. graph.before ≡ None) }
{
    let plain = GraphData::new(AttrList::new(alloc), EdgeList::new(alloc));
    RowGraph::new(alloc, &plain, &limits)
}
