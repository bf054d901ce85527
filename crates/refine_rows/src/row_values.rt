// How rows of values are made and read.
ghost use Rattle.std.specs.Prelude.{◌≡◌, ℕ, ◌<◌, ◌≤◌};
ghost use Rattle.bolt_base.specs.Graph.{vertices};
ghost use Rattle.range_check.specs.Breaks.{IsAccepted};
ghost use Rattle.run_model.specs.Refined.{IsRefined};
ghost use Rattle.run_model.specs.Rows.{row};
ghost use Rattle.agg_history.specs.Puts.{put_at};
ghost use Rattle.refine_rows.specs.Over.{AreOver};
ghost use Rattle.refine_rows.specs.Progress.{IsLaidOver, StandsFor};
ghost use Rattle.refine_rows.specs.RowValues.{new_values, old_values};

use crate::old_graph::OldGraph;
use crate::rows::{LaidRow, OldRow};
use adjacency::Adjacency;
use agg_history::{History, Overlay};
use bolt_base::Lanes;
use vertex_expr::Program;
use vertex_steps::ValueRow;

impl<'a> OldRow<'a> {
    /// The row of a history that stands for the rows of the old graph.
    pub fn new<O: OldGraph>(program: &Program, history: &'a History, iteration: u32) -> OldRow<'a>
        requires safe { IsAccepted program.now }
        requires stands { StandsFor program.now O.graph history.now }
        requires iteration { iteration ≤ history.now.cut }
        ensures { old_values result ≡ row program.now O.graph iteration }
    {
        let lanes = program.entries().ranges.len() as u32;
        OldRow {
            history,
            lanes,
            iteration,
        }
    }
}

impl<'a> ValueRow for OldRow<'a> {
    ghost values = { old_values };

    fn value(&self, v: u32) -> Lanes {
        let mut value = Lanes::zeros(self.lanes);
        for lane in 0..self.lanes {
            value.set(lane, self.history.val(self.iteration, v, lane));
        }
        value
    }
}

impl<'a> LaidRow<'a> {
    /// The row of a history with an overlay over it that is refined at this iteration.
    pub fn new<O: OldGraph, A: Adjacency>(
        program: &Program,
        graph: &A,
        history: &'a History,
        overlay: &'a Overlay,
        iteration: u32,
    ) -> LaidRow<'a>
        requires over { AreOver program.now O.graph (A.plain graph.now) }
        requires laid { IsLaidOver program.now O.graph (A.plain graph.now) history.now
            overlay.now }
        requires iteration { iteration ≤ history.now.cut }
        requires refined { (v : ℕ) → v < vertices (A.plain graph.now)
            → IsRefined program.now O.graph (A.plain graph.now) (put_at overlay.now.puts)
            iteration v }
        ensures { new_values result ≡ row program.now (A.plain graph.now) iteration }
    {
        let lanes = program.entries().ranges.len() as u32;
        LaidRow {
            history,
            overlay,
            lanes,
            iteration,
        }
    }
}

impl<'a> ValueRow for LaidRow<'a> {
    ghost values = { new_values };

    fn value(&self, v: u32) -> Lanes {
        let mut value = Lanes::zeros(self.lanes);
        for lane in 0..self.lanes {
            value.set(
                lane,
                self.overlay.val(self.history, self.iteration, v, lane),
            );
        }
        value
    }
}
